// Records: sealed, opened, verified, and checked by themselves.
ghost use Rattle.std.specs.Prelude.{◌≡◌};
ghost use Rattle.record.specs.Read.{header_number};
ghost use Rattle.record.specs.Seal.{seal_answer};
ghost use Rattle.record.specs.Open.{open_answer, verify_answer};

use refusals::number;

#[unsafe(no_mangle)]
pub extern "C" fn spadeswirl_seal(
    table: &[u8],
    name: &[u8],
    iv: &[u8],
    aad: &[u8],
    plain: &[u8],
    out: &mut [u8],
) -> u8
    ensures { seal_answer table.now name.now iv.now aad.now plain.now out.old ≡ (result, out.new) }
{
    number(record::sealing::seal(table, name, iv, aad, plain, out))
}

#[unsafe(no_mangle)]
pub extern "C" fn spadeswirl_open(
    table: &[u8],
    sealed: &[u8],
    aad: &[u8],
    out: &mut [u8],
    count: &mut u64,
) -> u8
    ensures { open_answer table.now sealed.now aad.now out.old count.old ≡ ((result, out.new), count.new) }
{
    number(record::opening::open(table, sealed, aad, out, count))
}

#[unsafe(no_mangle)]
pub extern "C" fn spadeswirl_verify(table: &[u8], sealed: &[u8], aad: &[u8]) -> u8
    ensures { result ≡ verify_answer table.now sealed.now aad.now }
{
    number(record::opening::verify(table, sealed, aad))
}

#[unsafe(no_mangle)]
pub extern "C" fn spadeswirl_record_check(sealed: &[u8]) -> u8
    ensures { result ≡ header_number sealed.now }
{
    number(record::header::check(sealed))
}
