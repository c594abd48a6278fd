// Where the parts of a page are, for a caller that takes them from it and writes it again.
ghost use Rattle.std.specs.Prelude.{◌≡◌};
ghost use Rattle.refusals.specs.Numbers.{outcome_number};
ghost use Rattle.keypage.specs.Places.{places_of, places_answer};

use crate::parts::Format;
use crate::reading::Page;
use crate::sizes::{IDENTIFIER_AT, KEY_AT};
use crate::wrapped::{kek_type, wrapped_at};
use refusals::Refusal;

// The list's place; the KEK type, and the places of the identifier and of the wrapped key.
pub const PLACE_COUNT: usize = 4;

// Only a KEY part of format 04h has the last three.
#[tactic(auto, unfolding(crate::specs::Places::places_of))]
fn places_of(page: Page) -> [u64; PLACE_COUNT]
    ensures { result ≡ places_of page.entry.bytes.now }
{
    let list = page.list_at() as u64;
    let s = page.key_part();
    match page.format() {
        Format::Wrapped => [
            list,
            kek_type(s) as u64,
            (KEY_AT + IDENTIFIER_AT) as u64,
            (KEY_AT + wrapped_at(s)) as u64,
        ],
        Format::Plain | Format::Reference => [list, 0, 0, 0],
    }
}

// The places of a page that reading accepts are stored, or nothing is.
#[tactic(auto, unfolding(crate::specs::Places::places_answer))]
pub fn places(p: &[u8], at: &mut [u64; PLACE_COUNT]) -> Result<(), Refusal>
    ensures { places_answer p.now at.old ≡ (outcome_number result, at.new) }
{
    *at = places_of(Page::of(p)?);
    Ok(())
}
