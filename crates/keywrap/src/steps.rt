// The 24 steps of wrapping (2.2.1) and of unwrapping (2.2.2), index-based, with the schedule and the register by value.
// The two ways stay two, as the specification has them: their steps make other calls in another order, and one that took both as closures would be no shorter.
ghost use Rattle.std.specs.Prelude.{◌≡◌, ◌<◌};
ghost use Rattle.keywrap.specs.Wrap.{part_at, wrap_step, wrap_steps, unwrap_step, unwrap_steps};

use crate::register::{Register, eight_at};
use aes::{RoundKeys, decrypt, encrypt};
use octets::big_endian::bytes64;
use octets::strings::{two_eights, xor};

const STEPS: usize = 24;

// The part that step t works on.
fn part_at(t: usize) -> usize
    ensures { (result ≡ part_at t) × (result < 5) }
{
    t.saturating_sub(1) % 4 + 1
}

#[tactic(auto, using(crate::proofs::Stepped::wrap_step_made))]
fn wrap_step(ks: RoundKeys, t: usize, mut r: Register) -> Register
    ensures { result ≡ wrap_step ks t r }
{
    let i = part_at(t);
    let b = encrypt(ks, two_eights(r[0], r[i]));
    let a = xor(eight_at(&b, 0), bytes64(t as u64));
    let part = eight_at(&b, 8);
    r[0] = a;
    r[i] = part;
    r
}

#[tactic(auto, using(crate::proofs::Stepped::unwrap_step_made))]
fn unwrap_step(ks: RoundKeys, t: usize, mut r: Register) -> Register
    ensures { result ≡ unwrap_step ks t r }
{
    let i = part_at(t);
    let masked = xor(r[0], bytes64(t as u64));
    let b = decrypt(ks, two_eights(masked, r[i]));
    let a = eight_at(&b, 0);
    let part = eight_at(&b, 8);
    r[0] = a;
    r[i] = part;
    r
}

#[tactic(auto, using(crate::proofs::Stepped::wrap_steps_turn), unfolding(crate::specs::Wrap::wrap_steps))]
pub(crate) fn wrap_steps(ks: RoundKeys, mut r: Register) -> Register
    ensures { result ≡ wrap_steps ks 24 r }
{
    for t in 1..=STEPS {
        let next = wrap_step(ks, t, r);
        r = next;
    }
    r
}

#[tactic(auto, using(crate::proofs::Stepped::unwrap_steps_turn), unfolding(crate::specs::Wrap::unwrap_steps))]
pub(crate) fn unwrap_steps(ks: RoundKeys, mut r: Register) -> Register
    ensures { result ≡ unwrap_steps ks 24 r }
{
    for t in (1..=STEPS).rev() {
        let next = unwrap_step(ks, t, r);
        r = next;
    }
    r
}
