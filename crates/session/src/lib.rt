// The IV session of document 01: by value first, then `issue`, which changes a session where the caller holds it. specs/Iv.antt has the IVs, specs/Calls.antt the numbers.
#![tactic(auto)]

ghost use Rattle.std.specs.Prelude.{◌≡◌};
ghost use Rattle.octets.specs.BigEndian.{be};
ghost use Rattle.refusals.specs.Numbers.{outcome_number};
ghost use Rattle.session.specs.Iv.{prefix_size, started, iv_of, next_session};
ghost use Rattle.session.specs.Calls.{advance_answer, issued_says, issue_answer};

use refusals::Refusal;

pub const PREFIX_SIZE: usize = 4;

pub const IV_SIZE: usize = 12;

// The fixed field, the next invocation field, and whether the last IV has been given: any value of `spent` but 0 says so, as the C interface lays it out.
#[repr(C)]
#[derive(Clone, Copy)]
pub struct Session {
    pub prefix: [u8; PREFIX_SIZE],
    pub next: u64,
    pub spent: u8,
}

// What an issue by value gives: the IV, and the session after it.
#[derive(Clone, Copy)]
pub struct Issued {
    pub iv: [u8; IV_SIZE],
    pub session: Session,
}

impl Session {
    // The prefix, then the eight bytes of the next number.
    fn iv(self) -> [u8; IV_SIZE]
        ensures { result ≡ iv_of self }
    {
        let mut iv = [0; IV_SIZE];
        iv[..PREFIX_SIZE].copy_from_slice(&self.prefix);
        iv[PREFIX_SIZE..].copy_from_slice(&self.next.to_be_bytes());
        iv
    }

    // The session after that IV: as one that starts at the number that follows, and spent where none does.
    fn after(self) -> Session
        ensures { result ≡ next_session self }
    {
        match self.next.checked_add(1) {
            Some(next) => start(self.prefix, next),
            None => Session { spent: 1, ..self },
        }
    }
}

// A session that has given no IV.
pub fn start(prefix: [u8; PREFIX_SIZE], first: u64) -> Session
    ensures { result ≡ started prefix first }
{
    Session {
        prefix,
        next: first,
        spent: 0,
    }
}

// The same, with the four bytes of a number for its prefix.
pub fn start_numbered(prefix: u32, first: u64) -> Session
    ensures { result ≡ started (be prefix_size prefix) first }
{
    start(prefix.to_be_bytes(), first)
}

// The next IV by value and the session after it; or, where the session is spent, number 10.
#[tactic(auto, unfolding(crate::specs::Calls::advance_answer, crate::specs::Calls::advance_number))]
pub fn advance(s: Session) -> Result<Issued, Refusal>
    ensures { advance_answer s ≡ issued_says s result }
{
    if s.spent != 0 {
        return Err(Refusal::SessionSpent);
    }
    Ok(Issued {
        iv: s.iv(),
        session: s.after(),
    })
}

// Writes the next IV over the first twelve bytes lent, and advances the session where the caller holds it; or changes nothing,
// and gives 5 where fewer than twelve bytes are lent, or 10 where the session is spent.
#[tactic(auto, unfolding(crate::specs::Calls::issue_answer, crate::specs::Calls::issue_number, crate::specs::Calls::advance_answer, crate::specs::Calls::advance_number))]
pub fn issue(s: &mut Session, out: &mut [u8]) -> Result<(), Refusal>
    ensures { issue_answer s.old out.old ≡ (outcome_number result, out.new, s.new) }
{
    if out.len() < IV_SIZE {
        return Err(Refusal::NoRoom);
    }
    let Issued { iv, session } = advance(*s)?;
    out[..IV_SIZE].copy_from_slice(&iv);
    *s = session;
    Ok(())
}
