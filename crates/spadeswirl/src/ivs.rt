// The IV session, where the caller holds it, and sealing with it.
ghost use Rattle.std.specs.Prelude.{◌≡◌};
ghost use Rattle.octets.specs.BigEndian.{be};
ghost use Rattle.session.specs.Iv.{prefix_size};
ghost use Rattle.session.specs.Calls.{start_answer, issue_answer};
ghost use Rattle.record.specs.Next.{seal_next_answer};

use refusals::number;
use session::Session;

#[unsafe(no_mangle)]
pub extern "C" fn spadeswirl_session_start(s: &mut Session, prefix: u32, first: u64) -> u8
    ensures { start_answer (be prefix_size prefix) first ≡ (result, s.new) }
{
    *s = session::start_numbered(prefix, first);
    0
}

#[unsafe(no_mangle)]
pub extern "C" fn spadeswirl_session_issue(s: &mut Session, out: &mut [u8]) -> u8
    ensures { issue_answer s.old out.old ≡ (result, out.new, s.new) }
{
    number(session::issue(s, out))
}

#[unsafe(no_mangle)]
pub extern "C" fn spadeswirl_seal_next(
    s: &mut Session,
    table: &[u8],
    name: &[u8],
    aad: &[u8],
    plain: &[u8],
    out: &mut [u8],
) -> u8
    ensures { seal_next_answer s.old table.now name.now aad.now plain.now out.old ≡ (result, out.new, s.new) }
{
    number(record::next::seal_next(s, table, name, aad, plain, out))
}
