// The KEY part of a page, by its format: its own tests. Each is lent the part alone.
ghost use Rattle.std.specs.Prelude.{◌≡◌};
ghost use Rattle.octets.specs.Tests.{every};
ghost use Rattle.keypage.specs.KeyPart.{by_format, wrapped_tests, part_broken, part_refused, part_long};

use crate::sizes::{
    IDENTIFIER_AT, IDENTIFIER_LENGTH_AT, KEY_SIZE, NAME_MAX, PLAIN_FORMAT, REFERENCE_FORMAT,
    REFERENCE_MIN, WRAPPED_FORMAT,
};
use crate::wrapped::{kek_type, wrapped_at};
use keytable::is_kek_type;
use octets::big_endian::read16;

// The formats that are known: a key as it stands, a reference to one, a wrapped one.
#[derive(Clone, Copy)]
pub(crate) enum Format {
    Plain,
    Reference,
    Wrapped,
}

impl Format {
    pub(crate) fn of(number: usize) -> Option<Format>
        ensures { result ≡ by_format number (Some Format.Plain) (Some Format.Reference) (Some Format.Wrapped) None }
    {
        match number {
            PLAIN_FORMAT => Some(Format::Plain),
            REFERENCE_FORMAT => Some(Format::Reference),
            WRAPPED_FORMAT => Some(Format::Wrapped),
            _ => None,
        }
    }
}

// Whether the identifier of a 04h part is there and lies within it.
fn identifier_ok(s: &[u8]) -> bool
    ensures { result ≡ every (wrapped_tests s.now) }
{
    let n = read16(s, IDENTIFIER_LENGTH_AT);
    (IDENTIFIER_AT <= s.len()) & (1 <= n) & (wrapped_at(s) <= s.len())
}

// 2: the part breaks the layout of its format; one of another format is not looked at.
#[tactic(auto, unfolding(crate::specs::KeyPart::part_broken))]
pub fn part_broken(format: usize, s: &[u8]) -> bool
    ensures { result ≡ part_broken format s.now }
{
    match Format::of(format) {
        Some(Format::Plain) => s.len() != KEY_SIZE,
        Some(Format::Reference) => s.len() < REFERENCE_MIN,
        Some(Format::Wrapped) => !identifier_ok(s),
        None => false,
    }
}

// 3: a KEK type that is not permitted, or an unknown format.
#[tactic(auto, unfolding(crate::specs::KeyPart::part_refused))]
pub fn part_refused(format: usize, s: &[u8]) -> bool
    ensures { result ≡ part_refused format s.now }
{
    match Format::of(format) {
        Some(Format::Plain | Format::Reference) => false,
        Some(Format::Wrapped) => !is_kek_type(kek_type(s)),
        None => true,
    }
}

// 4: a reference or an identifier of more than 32 bytes.
#[tactic(auto, unfolding(crate::specs::KeyPart::part_long))]
pub fn part_long(format: usize, s: &[u8]) -> bool
    ensures { result ≡ part_long format s.now }
{
    match Format::of(format) {
        Some(Format::Reference) => NAME_MAX < s.len(),
        Some(Format::Wrapped) => NAME_MAX < read16(s, IDENTIFIER_LENGTH_AT),
        Some(Format::Plain) | None => false,
    }
}
