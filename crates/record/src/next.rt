// Sealing with a session: one call takes the session's next IV and seals with it, and the session advances exactly when nothing refuses.
ghost use Rattle.std.specs.Prelude.{◌≡◌};
ghost use Rattle.refusals.specs.Numbers.{outcome_number};
ghost use Rattle.record.specs.Next.{seal_next_answer, sealed_says};

use crate::sealing::Contents;
use refusals::Refusal;
use session::{IV_SIZE, Issued, Session, advance};

// Seals with the next IV of a session by value: the session after it, or sealing's refusals, and then number 10 where the session is spent.
pub fn seal_by(
    s: Session,
    table: &[u8],
    name: &[u8],
    aad: &[u8],
    plain: &[u8],
    out: &mut [u8],
) -> Result<Session, Refusal>
    ensures { seal_next_answer s table.now name.now aad.now plain.now out.old ≡ sealed_says s (result, out.new) }
{
    let issued = advance(s);
    // Sealing's own tests come first, and look at no more of the IV than its length.
    let iv = issued.map_or(
        [0; IV_SIZE],
        |issued: Issued| -> [u8; IV_SIZE]
            ensures { result ≡ issued.iv }
        { issued.iv },
    );
    let contents = Contents {
        name,
        iv: &iv,
        aad,
        plain,
    };
    let at = contents.ready(table, out.len())?;
    let Issued { iv: _, session } = issued?;
    contents.write(table, at, out);
    Ok(session)
}

// The same, with the session advanced where the caller holds it.
pub fn seal_next(
    s: &mut Session,
    table: &[u8],
    name: &[u8],
    aad: &[u8],
    plain: &[u8],
    out: &mut [u8],
) -> Result<(), Refusal>
    ensures { seal_next_answer s.old table.now name.now aad.now plain.now out.old ≡ (outcome_number result, out.new, s.new) }
{
    *s = seal_by(*s, table, name, aad, plain, out)?;
    Ok(())
}
