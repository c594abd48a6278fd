// The refusals that the arguments alone decide, in any mode and in both directions: 2, 4 and 5.
ghost use Rattle.std.specs.Prelude.{◌≡◌, List, ℕ, ◌+◌, ◌≤◌, length};
ghost use Rattle.octets.specs.Lent.{lowest};
ghost use Rattle.refusals.specs.Numbers.{outcome_number};
ghost use Rattle.modes.specs.Modes.{mode_of};
ghost use Rattle.modes.specs.Calls.{wrong_sizes, too_long, argument_tests, opening_number};

use crate::sizes::{DATA_MAX, KEY_SIZE, TEXT_MAX};
use crate::{iv_size, tag_size};
use refusals::Refusal;

// Whether the key or the IV has a length that is none of the mode's. Both modes permit a text of every length.
pub(crate) fn wrong_sizes(u: u8, key: &[u8], iv: &[u8]) -> bool
    ensures { (s : List ℕ) → result ≡ wrong_sizes (mode_of u) key.now iv.now s }
{
    (key.len() != KEY_SIZE) | (iv.len() != iv_size(u))
}

// Whether a maximum is passed: the two parts of the associated data together, or the text. No sum of two lengths can wrap.
fn too_long(a: &[u8], b: &[u8], text: &[u8]) -> bool
    ensures { result ≡ too_long a.now b.now text.now }
{
    a.len() + b.len() > DATA_MAX || text.len() > TEXT_MAX
}

// The first that applies: `wrong` where a length is none of the mode's, `more` the bytes that the result has beside the text's, `room` the output's length.
pub(crate) fn check_arguments(
    wrong: bool,
    a: &[u8],
    b: &[u8],
    text: &[u8],
    more: usize,
    room: usize,
) -> Result<(), Refusal>
    requires { more ≤ 64 }
    ensures { outcome_number result ≡ lowest (argument_tests wrong a.now b.now text.now (length text.now + more) room) }
{
    if wrong {
        return Err(Refusal::Layout);
    }
    if too_long(a, b, text) {
        return Err(Refusal::PastMaximum);
    }
    if room < text.len() + more {
        return Err(Refusal::NoRoom);
    }
    Ok(())
}

// The same for decryption, whose tag has a length too and whose result is as long as the ciphertext.
pub(crate) fn check_decryption(
    u: u8,
    key: &[u8],
    iv: &[u8],
    a: &[u8],
    b: &[u8],
    c: &[u8],
    tag: &[u8],
    room: usize,
) -> Result<(), Refusal>
    ensures { outcome_number result ≡ opening_number (mode_of u) key.now iv.now a.now b.now c.now tag.now room }
{
    let wrong = wrong_sizes(u, key, iv) | (tag.len() != tag_size(u));
    check_arguments(wrong, a, b, c, 0, room)
}
