// The key schedule (FIPS 197, section 5.2), four words at a time.
ghost use Rattle.std.specs.Prelude.{◌≡◌, [], ◌∷◌, ◌+◌, ◌*◌, ◌<◌};
ghost use Rattle.aes.specs.State.{column};
ghost use Rattle.aes.specs.KeyExpansion.{rot_word, power, temp, next_key, extended};

use crate::RoundKeys;
use crate::forward::sub_column;
use aes_state::{Column, State, add_column};

// The constants that go into every second round key.
const RCON: [u8; 7] = [1, 2, 4, 8, 16, 32, 64];

fn round_constant(j: usize) -> u8
    requires { j < 7 }
    ensures { result ≡ power j }
{
    RCON[j]
}

fn rot_word(a: Column) -> Column
    ensures { result ≡ rot_word a }
{
    [a[1], a[2], a[3], a[0]]
}

// The temp of the first word of round key n + 2, where a is the word before it.
#[tactic(auto, using(crate::proofs::Extended::temp_even, crate::proofs::Extended::temp_odd))]
fn first_temp(n: usize, a: Column) -> Column
    requires { n < 13 }
    ensures { result ≡ temp (8 + 4 * n) a }
{
    if n % 2 == 0 {
        let c = round_constant(n / 2);
        return add_column(sub_column(rot_word(a)), [c, 0, 0, 0]);
    }
    sub_column(a)
}

fn next_key(k: State, t: Column) -> State
    ensures { result ≡ next_key k t }
{
    let w0 = add_column(k[0], t);
    let w1 = add_column(k[1], w0);
    let w2 = add_column(k[2], w1);
    let w3 = add_column(k[3], w2);
    [w0, w1, w2, w3]
}

// Round key n + 2, where k and l are the two before it.
fn key_after(n: usize, k: State, l: State) -> State
    requires { n < 13 }
    ensures { result ≡ next_key k (temp (8 + 4 * n) (column l 3)) }
{
    next_key(k, first_temp(n, l[3]))
}

// The first two round keys, and the thirteen that follow from them. Written out a schedule takes 78 ns; as a loop, the last two keys in locals, 108.
pub(crate) fn extend(k0: State, k1: State) -> RoundKeys
    ensures { result ≡ extended (k0 ∷ k1 ∷ []) 13 }
{
    let k2 = key_after(0, k0, k1);
    let k3 = key_after(1, k1, k2);
    let k4 = key_after(2, k2, k3);
    let k5 = key_after(3, k3, k4);
    let k6 = key_after(4, k4, k5);
    let k7 = key_after(5, k5, k6);
    let k8 = key_after(6, k6, k7);
    let k9 = key_after(7, k7, k8);
    let k10 = key_after(8, k8, k9);
    let k11 = key_after(9, k9, k10);
    let k12 = key_after(10, k10, k11);
    let k13 = key_after(11, k11, k12);
    let k14 = key_after(12, k12, k13);
    [
        k0, k1, k2, k3, k4, k5, k6, k7, k8, k9, k10, k11, k12, k13, k14,
    ]
}
