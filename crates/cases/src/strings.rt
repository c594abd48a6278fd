// What a word of a line stands for. specs/Strings.antt says which words are strings and rooms.
ghost use Rattle.std.specs.Prelude.{◌≡◌, false, true, MatchOption};
ghost use Rattle.wording.specs.Decimal.{value_of};
ghost use Rattle.cases.specs.Strings.{word_max, is_bytes, bytes_in, is_room, lent_room, is_lent, lent_in};
ghost use Rattle.cases.specs.Parts.{Holds};

use octets::strings::equal;
use wording::text::Text;
use wording::{decimal, hex};

pub(crate) const WORD_MAX: usize = 4368;

// The bytes that a word stands for.
pub(crate) fn read_word(word: &[u8]) -> Option<Text<WORD_MAX>>
    ensures { Holds (is_bytes word.now) (bytes_in word.now) result }
{
    let mut bytes = [0u8; WORD_MAX];
    if equal(word, b"-") {
        return Some(Text { size: 0, bytes });
    }
    let Ok(()) = hex::read(word, &mut bytes) else {
        return None;
    };
    Some(Text {
        size: word.len() / 2,
        bytes,
    })
}

// The size that a word of decimal digits says, of no room larger than a word's.
fn room_in(word: &[u8]) -> Option<usize>
    ensures { MatchOption result (is_room word.now ≡ false) (λ n. (is_room word.now ≡ true) × (n ≡ value_of word.now)) }
{
    if word.is_empty() {
        return Some(0);
    }
    let n = decimal::read(word)?;
    if n > WORD_MAX as u64 {
        return None;
    }
    Some(n as usize)
}

fn full_room() -> [u8; WORD_MAX]
    ensures { result ≡ lent_room word_max }
{
    [0xA5; WORD_MAX]
}

// What a call is lent: a block, or a room full of A5h.
pub(crate) fn lend(block: bool, word: &[u8]) -> Option<Text<WORD_MAX>>
    ensures { Holds (is_lent block word.now) (lent_in block word.now) result }
{
    if block {
        return read_word(word);
    }
    let bytes = full_room();
    let size = room_in(word)?;
    Some(Text { size, bytes })
}
