// A state as four words of 32 bits, one for each column. For one block alone this is faster than two words of 64 bits; two blocks would not have registers
// enough.
ghost use Rattle.std.specs.Prelude.{◌≡◌};
ghost use Rattle.aes.specs.State.{column, state_of, column_bytes};
ghost use Rattle.aes_fast.specs.Halves.{columns_of};
ghost use Rattle.aes_fast.specs.FourWords.{columns_in};

use crate::halves::{Halves, from_columns};
use crate::words::column_word;
use aes_state::State;

#[derive(Clone, Copy)]
pub struct FourWords {
    pub a: u32,
    pub b: u32,
    pub c: u32,
    pub d: u32,
}

// The words of a round key.
impl From<State> for FourWords {
    ghost from_gives = { λ s x. columns_in x ≡ state_of (λ c. column_bytes (column s c)) };

    fn from(s: State) -> FourWords {
        FourWords {
            a: column_word(s[0]),
            b: column_word(s[1]),
            c: column_word(s[2]),
            d: column_word(s[3]),
        }
    }
}

impl From<Halves> for FourWords {
    ghost from_gives = { λ h x. columns_in x ≡ columns_of h };

    fn from(h: Halves) -> FourWords {
        FourWords {
            a: (h.first % 4294967296) as u32,
            b: (h.first / 4294967296) as u32,
            c: (h.second % 4294967296) as u32,
            d: (h.second / 4294967296) as u32,
        }
    }
}

impl From<FourWords> for Halves {
    ghost from_gives = { λ x h. columns_of h ≡ columns_in x };

    fn from(x: FourWords) -> Halves {
        from_columns(x.a, x.b, x.c, x.d)
    }
}
