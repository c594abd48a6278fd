// A state as three words: columns 0 and 1 in one of 64 bits, columns 2 and 3 in one of 32 bits each. Two blocks side by side take fewer steps so than in two words
// each, and in four they would not have registers enough.
ghost use Rattle.std.specs.Prelude.{◌≡◌, [], ◌∷◌};
ghost use Rattle.aes.specs.State.{column, state_of, column_bytes};
ghost use Rattle.aes.specs.Cipher.{add_round_key};
ghost use Rattle.aes_fast.specs.ByTables.{column_from};
ghost use Rattle.aes_fast.specs.Halves.{columns_of};
ghost use Rattle.aes_fast.specs.ThreeWords.{columns_held};

use crate::halves::{Halves, half_of};
use crate::words::column_word;
use aes_state::State;

#[derive(Clone, Copy)]
pub struct ThreeWords {
    pub first: u64,
    pub c: u32,
    pub d: u32,
}

// The words of a round key.
impl From<State> for ThreeWords {
    ghost from_gives = { λ s x. columns_held x ≡ state_of (λ c. column_bytes (column s c)) };

    fn from(s: State) -> ThreeWords {
        ThreeWords {
            first: half_of(column_word(s[0]), column_word(s[1])),
            c: column_word(s[2]),
            d: column_word(s[3]),
        }
    }
}

impl From<Halves> for ThreeWords {
    ghost from_gives = { λ h x. columns_held x ≡ columns_of h };

    fn from(h: Halves) -> ThreeWords {
        ThreeWords {
            first: h.first,
            c: (h.second % 4294967296) as u32,
            d: (h.second / 4294967296) as u32,
        }
    }
}

impl From<ThreeWords> for Halves {
    ghost from_gives = { λ x h. columns_of h ≡ columns_held x };

    fn from(x: ThreeWords) -> Halves {
        Halves {
            first: x.first,
            second: half_of(x.c, x.d),
        }
    }
}

// Four columns with a round key.
pub(crate) fn three_words_with(c0: u32, c1: u32, c2: u32, c3: u32, k: ThreeWords) -> ThreeWords
    ensures { columns_held result ≡ add_round_key (column_from c0 ∷ column_from c1 ∷ column_from c2 ∷ column_from c3 ∷ []) (columns_held k) }
{
    ThreeWords {
        first: half_of(c0, c1) ^ k.first,
        c: c2 ^ k.c,
        d: c3 ^ k.d,
    }
}
