// The state of FIPS 197, four columns of four bytes by value, and the steps on it that need no S-box.
#![tactic(auto)]

ghost use Rattle.std.specs.Prelude.{◌≡◌, ℕ, List, [], ◌∷◌, ◌+◌, ◌≤◌, get_or};
ghost use Rattle.aes_field.specs.Field.{times};
ghost use Rattle.aes_state.specs.State.{column, state_from, bytes_of};
ghost use Rattle.aes_state.specs.Steps.{shift_rows, mix_column, mix_columns, add_column, add_round_key};
ghost use Rattle.aes_state.specs.InvSteps.{inv_shift_rows, inv_mix_column, inv_mix_columns};

use aes_field::double;
use octets::strings::Block;

pub type Column = [u8; 4];

pub type State = [Column; 4];

// 3.4: a block read into the state, and out of it again. Both are arrays (document 01), and a From may not stand between two types of std.

fn column_at(b: Block, at: usize) -> Column
    requires { at ≤ 12 }
    ensures { result ≡ get_or b at 0 ∷ get_or b (at + 1) 0 ∷ get_or b (at + 2) 0 ∷ get_or b (at + 3) 0 ∷ [] }
{
    [b[at], b[at + 1], b[at + 2], b[at + 3]]
}

pub fn load(b: Block) -> State
    ensures { result ≡ state_from b }
{
    [
        column_at(b, 0),
        column_at(b, 4),
        column_at(b, 8),
        column_at(b, 12),
    ]
}

pub fn store(s: State) -> Block
    ensures { result ≡ bytes_of s }
{
    let [p, q, r, t] = s;
    [
        p[0], p[1], p[2], p[3], q[0], q[1], q[2], q[3], r[0], r[1], r[2], r[3], t[0], t[1], t[2],
        t[3],
    ]
}

// What f makes of each column. With an array's `map` for InvMixColumns unwrapping a key takes 36.7 us, and so 30.4.
fn each<F: Fn(Column) -> Column>(s: State, f: F) -> State
    requires { F.IsAlwaysCallable f }
    ensures { (p q r t : List ℕ) × (result ≡ p ∷ q ∷ r ∷ t ∷ []) × F.post f (column s 0) p × F.post f (column s 1) q × F.post f (column s 2) r × F.post f (column s 3) t }
{
    [f(s[0]), f(s[1]), f(s[2]), f(s[3])]
}

// 5.1.2, 5.3.1: row 0 of a, row 1 of b, row 2 of c and row 3 of d.
fn rows_of(a: Column, b: Column, c: Column, d: Column) -> Column
    ensures { result ≡ get_or a 0 0 ∷ get_or b 1 0 ∷ get_or c 2 0 ∷ get_or d 3 0 ∷ [] }
{
    [a[0], b[1], c[2], d[3]]
}

// The two ways differ in the columns that the rows come from, which are written out as the standard's figures have them.
pub fn shift_rows(s: State) -> State
    ensures { result ≡ shift_rows s }
{
    let [p, q, r, t] = s;
    [
        rows_of(p, q, r, t),
        rows_of(q, r, t, p),
        rows_of(r, t, p, q),
        rows_of(t, p, q, r),
    ]
}

pub fn inv_shift_rows(s: State) -> State
    ensures { result ≡ inv_shift_rows s }
{
    let [p, q, r, t] = s;
    [
        rows_of(p, t, r, q),
        rows_of(q, p, t, r),
        rows_of(r, q, p, t),
        rows_of(t, r, q, p),
    ]
}

// 5.1.3

#[tactic(auto, unfolding(aes_field::specs::Field::times))]
fn mix_column(a: Column) -> Column
    ensures { result ≡ mix_column a }
{
    let [p, q, r, s] = a;
    let p2 = double(p);
    let q2 = double(q);
    let r2 = double(r);
    let s2 = double(s);
    [
        p2 ^ (q ^ q2) ^ r ^ s,
        p ^ q2 ^ (r ^ r2) ^ s,
        p ^ q ^ r2 ^ (s ^ s2),
        (p ^ p2) ^ q ^ r ^ s2,
    ]
}

pub fn mix_columns(s: State) -> State
    ensures { result ≡ mix_columns s }
{
    each(s, mix_column)
}

// 5.3.3

// A byte times {0e}, {0b}, {0d} and {09}, the entries of the inverse matrix.
#[derive(Clone, Copy)]
struct Multiples {
    e: u8,
    b: u8,
    d: u8,
    nine: u8,
}

#[tactic(auto, unfolding(aes_field::specs::Field::times))]
fn multiples_of(a: u8) -> Multiples
    ensures { (result.e ≡ times a 14) × (result.b ≡ times a 11) × (result.d ≡ times a 13) × (result.nine ≡ times a 9) }
{
    let a2 = double(a);
    let a4 = double(a2);
    let a8 = double(a4);
    Multiples {
        e: a2 ^ a4 ^ a8,
        b: a ^ a2 ^ a8,
        d: a ^ a4 ^ a8,
        nine: a ^ a8,
    }
}

fn inv_mix_column(a: Column) -> Column
    ensures { result ≡ inv_mix_column a }
{
    let p = multiples_of(a[0]);
    let q = multiples_of(a[1]);
    let r = multiples_of(a[2]);
    let s = multiples_of(a[3]);
    [
        p.e ^ q.b ^ r.d ^ s.nine,
        p.nine ^ q.e ^ r.b ^ s.d,
        p.d ^ q.nine ^ r.e ^ s.b,
        p.b ^ q.d ^ r.nine ^ s.e,
    ]
}

pub fn inv_mix_columns(s: State) -> State
    ensures { result ≡ inv_mix_columns s }
{
    each(s, inv_mix_column)
}

// 5.1.4, and its own inverse (5.3.4).

pub fn add_column(a: Column, k: Column) -> Column
    ensures { result ≡ add_column a k }
{
    [a[0] ^ k[0], a[1] ^ k[1], a[2] ^ k[2], a[3] ^ k[3]]
}

pub fn add_round_key(s: State, k: State) -> State
    ensures { result ≡ add_round_key s k }
{
    [
        add_column(s[0], k[0]),
        add_column(s[1], k[1]),
        add_column(s[2], k[2]),
        add_column(s[3], k[3]),
    ]
}
