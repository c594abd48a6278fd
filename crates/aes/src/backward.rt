// The rounds of the inverse cipher (FIPS 197, section 5.3). How the inverse S-box is had, `inv_sub` of aes_field alone knows.
ghost use Rattle.std.specs.Prelude.{◌≡◌};
ghost use Rattle.aes.specs.InvCipher.{inv_sub_bytes, inv_round, inv_last_round, inv_rounds};

use crate::{MIDDLE_ROUNDS, RoundKeys};
use aes_field::inv_sbox::inv_sub;
use aes_state::{State, add_round_key, inv_mix_columns, inv_shift_rows, load, store};

fn inv_sub_bytes(s: State) -> State
    ensures { result ≡ inv_sub_bytes s }
{
    load(inv_sub(store(s)))
}

// Kept a function of its own: where the compiler puts it into its two callers, unwrapping a key takes 345,000 instructions, and so 304,000.
#[inline(never)]
#[tactic(auto, unfolding(crate::specs::InvCipher::inv_last_round))]
fn inv_last_round(s: State, k: State) -> State
    ensures { result ≡ inv_last_round s k }
{
    add_round_key(inv_sub_bytes(inv_shift_rows(s)), k)
}

// The same steps, and then InvMixColumns.
#[tactic(auto, unfolding(crate::specs::InvCipher::inv_round, crate::specs::InvCipher::inv_last_round))]
fn inv_round(s: State, k: State) -> State
    ensures { result ≡ inv_round s k }
{
    inv_mix_columns(inv_last_round(s, k))
}

// Rounds 13 to 1 undone, and then the first key.
pub(crate) fn all_inv_rounds(ks: RoundKeys, s: State) -> State
    ensures { result ≡ inv_rounds ks 13 s }
{
    let mut x = s;
    for i in (1..=MIDDLE_ROUNDS).rev() {
        let next = inv_round(x, ks[i]);
        x = next;
    }
    inv_last_round(x, ks[0])
}
