// The rounds of the cipher (FIPS 197, section 5.1).
ghost use Rattle.std.specs.Prelude.{◌≡◌};
ghost use Rattle.aes.specs.Cipher.{sub_column, sub_bytes, round, last_round, first_rounds};

use crate::{MIDDLE_ROUNDS, RoundKeys};
use aes_field::sub;
use aes_state::{Column, State, add_round_key, mix_columns, shift_rows};

pub(crate) fn sub_column(a: Column) -> Column
    ensures { result ≡ sub_column a }
{
    [sub(a[0]), sub(a[1]), sub(a[2]), sub(a[3])]
}

fn sub_bytes(s: State) -> State
    ensures { result ≡ sub_bytes s }
{
    [
        sub_column(s[0]),
        sub_column(s[1]),
        sub_column(s[2]),
        sub_column(s[3]),
    ]
}

#[tactic(auto, unfolding(crate::specs::Cipher::round))]
fn one_round(s: State, k: State) -> State
    ensures { result ≡ round s k }
{
    add_round_key(mix_columns(shift_rows(sub_bytes(s))), k)
}

#[tactic(auto, unfolding(crate::specs::Cipher::last_round))]
pub(crate) fn last_round(s: State, k: State) -> State
    ensures { result ≡ last_round s k }
{
    add_round_key(shift_rows(sub_bytes(s)), k)
}

// Rounds 1 to 13.
#[tactic(auto, unfolding(crate::specs::Cipher::first_rounds))]
pub(crate) fn all_rounds(ks: RoundKeys, s: State) -> State
    ensures { result ≡ first_rounds ks 13 s }
{
    let mut x = s;
    for k in &ks[1..=MIDDLE_ROUNDS] {
        let next = one_round(x, *k);
        x = next;
    }
    x
}
