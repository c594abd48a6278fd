// Whole strings: compared, added, and written one over another.
ghost use Rattle.std.specs.Prelude.{◌≡◌, ◌++◌, replicate};
ghost use Rattle.octets.specs.Xor.{xors};
ghost use Rattle.octets.specs.Same.{same};
ghost use Rattle.octets.specs.Lent.{over};
ghost use Rattle.octets.specs.Tests.{part_of, zeros};
ghost use Rattle.octets.specs.Places.{placed, part_in};

pub type Block = [u8; 16];

// Whether two strings have the same length and the same bytes. Every byte is looked at, whatever the earlier ones are.
#[tactic(auto, using(crate::proofs::Same::same_lengths, crate::proofs::Same::same_more))]
pub fn equal(a: &[u8], b: &[u8]) -> bool
    ensures { result ≡ same a.now b.now }
{
    if a.len() != b.len() {
        return false;
    }
    let mut different = 0u8;
    for (x, y) in a.iter().zip(b) {
        different |= x ^ y;
    }
    different == 0
}

// The exclusive or of two strings of one length.
#[tactic(auto, using(crate::proofs::Written::sum_turn))]
pub fn xor<const N: usize>(a: [u8; N], b: [u8; N]) -> [u8; N]
    ensures { result ≡ xors a.entry b.entry }
{
    let mut sum = [0; N];
    for (i, x) in sum.iter_mut().enumerate() {
        *x = a[i] ^ b[i];
    }
    sum
}

// Writes s over the front of out, as far as out reaches. Byte by byte, since of a whole copy between strings that it cannot see to be apart the compiler
// makes a call of memmove, which a library for C would then need from outside.
pub fn put(out: &mut [u8], s: &[u8])
    ensures { out.new ≡ over s.now out.old }
{
    for (i, x) in s.iter().enumerate() {
        if i == out.len() {
            return;
        }
        out[i] = *x;
    }
}

// Writes one string and then another over the front of out, as far as out reaches.
#[tactic(auto, using(crate::proofs::Lent::over_then, crate::proofs::Lent::length_over))]
pub fn put_both(first: &[u8], second: &[u8], out: &mut [u8])
    ensures { out.new ≡ over (first.now ++ second.now) out.old }
{
    let middle = first.len();
    put(out, first);
    if out.len() <= middle {
        return;
    }
    put(&mut out[middle..], second);
}

// The same of three. One function for any list of slices would have to add up their lengths, and the sum may not fit.
#[tactic(auto, using(crate::proofs::Lent::over_then, crate::proofs::Lent::length_over))]
pub fn put_three(first: &[u8], second: &[u8], third: &[u8], out: &mut [u8])
    ensures { out.new ≡ over (first.now ++ (second.now ++ third.now)) out.old }
{
    let middle = first.len();
    put(out, first);
    if out.len() <= middle {
        return;
    }
    put_both(second, third, &mut out[middle..]);
}

// The first N bytes of a string, and zeros where it is shorter.
pub fn first<const N: usize>(s: &[u8]) -> [u8; N]
    ensures { result ≡ over s.now (replicate N 0) }
{
    // A string that is long enough is read in one piece, with no loop.
    if let Some(whole) = s.first_chunk() {
        return *whole;
    }
    let mut b = [0; N];
    put(&mut b, s);
    b
}

// Eight bytes and then eight.
#[tactic(auto, using(crate::proofs::Lent::over_eights, std::proofs::lemmas::Grind::common_steps))]
pub fn two_eights(a: [u8; 8], b: [u8; 8]) -> Block
    ensures { result ≡ a ++ b }
{
    let mut both = [0; 16];
    both[..8].copy_from_slice(&a);
    both[8..].copy_from_slice(&b);
    both
}

// The n bytes from place i on, as far as the string reaches, as the part of the string that they are.
pub fn part_in(s: &[u8], i: usize, n: usize) -> &[u8]
    ensures { placed result ≡ part_in (placed s.entry) i n }
{
    let rest = &s[i.min(s.len())..];
    &rest[..n.min(rest.len())]
}

// The same, for callers that ask for no more than its bytes: their proofs then name no place.
pub fn part(s: &[u8], i: usize, n: usize) -> &[u8]
    ensures { result.now ≡ part_of s.now i n }
{
    part_in(s, i, n)
}

// Whether every byte is zero.
pub fn all_zero(s: &[u8]) -> bool
    ensures { result ≡ zeros s.now }
{
    s.iter().all(|b| *b == 0)
}
