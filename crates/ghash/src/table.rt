// The field product by tables of H: what some bits of a block add at their place. Fine tables are for one word each, and a small one is for 32 bits.
ghost use Rattle.std.specs.Prelude.{◌≡◌, refl, Bool, true, false, ℕ, ◌+◌, ◌*◌, ◌^◌, ◌≤◌, length};
ghost use Rattle.std.specs.Int.Bits.{bit_xor};
ghost use Rattle.octets.specs.BigEndian.{number};
ghost use Rattle.ghash.specs.Field.{times_xs, times_h};
ghost use Rattle.ghash.specs.Table.{adds, window_width, windows, table_bits, Window, Sums, entry_in, Filled, TableOf, Room};
ghost use Rattle.ghash.specs.Words.{val, block_of};

use crate::words::Wide;
use octets::strings::Block;

fn read_entry(table: &[u64], i: usize) -> Wide
    requires { 2 * i + 2 ≤ length table.now }
    ensures { val result ≡ entry_in table.now i }
{
    Wide {
        high: table[2 * i],
        low: table[2 * i + 1],
    }
}

fn write_entry(table: &mut [u64], i: usize, e: Wide)
    requires { 2 * i + 2 ≤ length table.old }
    ensures by_index { (f : ℕ → ℕ) → val e ≡ f i → Filled f table.old i → Filled f table.new (i + 1) }
    ensures table_len_unchanged { length table.new ≡ length table.old }
{
    table[2 * i] = e.high;
    table[2 * i + 1] = e.low;
}

// The entries whose highest bit is t, of the window that begins at base: p, the first of them, is added to each entry below t.
fn extend(p: Wide, table: &mut [u64], base: usize, t: usize)
    requires { 2 * (base + t + t) ≤ length table.old }
    ensures by_index { (f : ℕ → ℕ) → Sums f base t (val p) → Filled f table.old (base + t) → Filled f table.new (base + t + t) }
    ensures table_len_unchanged { length table.new ≡ length table.old }
{
    for m in 0..t {
        write_entry(table, base + t + m, read_entry(table, base + m) ^ p);
    }
}

// The entries of the four bits that begin at base, with V there, and V after them. Within a window's code it would take 37 instructions more a window.
#[inline(never)]
fn fill_four(v: Wide, table: &mut [u64], base: usize) -> Wide
    requires { 2 * (base + 16) ≤ length table.old }
    ensures by_index { (f : ℕ → ℕ) → Window f base 4 (val v) → Filled f table.old base → Filled f table.new (base + 16) }
    ensures result_value { val result ≡ times_xs 4 (val v) }
    ensures table_len_unchanged { length table.new ≡ length table.old }
{
    let v1 = v.times_x();
    let v2 = v1.times_x();
    let v3 = v2.times_x();
    write_entry(table, base, Wide::ZERO);
    extend(v3, table, base, 1);
    extend(v2, table, base, 2);
    extend(v1, table, base, 4);
    extend(v, table, base, 8);
    v3.times_x()
}

// A kind of tables: how many windows one has after its first four bits, and how many entries a window.
trait Cut {
    ghost fine: { Bool };

    ghost WINDOWS: { ℕ };

    ghost SIZE: { ℕ };

    const WINDOWS: usize;

    const SIZE: usize;

    // The entries of the window that begins at base, with V there, and V after them.
    fn fill_window(v: Wide, table: &mut [u64], base: usize) -> Wide
        requires { 2 * (base + 2 ^ window_width fine) ≤ length table.old }
        ensures by_index { (f : ℕ → ℕ) → Window f base (window_width fine) (val v) → Filled f table.old base → Filled f table.new (base + 2 ^ window_width fine) }
        ensures result_value { val result ≡ times_xs (window_width fine) (val v) }
        ensures table_len_unchanged { length table.new ≡ length table.old };

    ghost windows_are: { WINDOWS ≡ windows fine };

    ghost size_is: { SIZE ≡ 2 ^ window_width fine };
}

// The table with V at its first bit, and V after its last.
fn fill_table<C: Cut>(v: Wide, table: &mut [u64]) -> Wide
    requires { Room C.fine table.old }
    ensures table_of { TableOf C.fine (val v) table.new }
    ensures result_value { val result ≡ times_xs (table_bits C.fine) (val v) }
    ensures table_len_unchanged { length table.new ≡ length table.old }
{
    let mut next = fill_four(v, table, 0);
    for k in 0..C::WINDOWS {
        next = C::fill_window(next, table, 16 + k * C::SIZE);
    }
    next
}

// What the last bits of w add, as many as the table has, the last window looked up first.
fn sum_bits<C: Cut>(table: &[u64], w: u64) -> Wide
    requires { Room C.fine table.now }
    ensures { (v : ℕ) → TableOf C.fine v table.now → val result ≡ adds (table_bits C.fine) v w }
{
    let size = C::SIZE;
    let mut sum = Wide::ZERO;
    let mut left = w;
    for k in (0..C::WINDOWS).rev() {
        sum = sum ^ read_entry(table, 16 + k * size + (left % size as u64) as usize);
        left /= size as u64;
    }
    sum ^ read_entry(table, (left % 16) as usize)
}

// The tables by which a block is multiplied by a hash key: `are_of` says which key's they are.
pub(crate) trait Tables {
    ghost are_of: { Self → ℕ → Type 0 };

    // Room for them, which is filled where it stands: tables that are made and handed back would be copied, 20,992 bytes of the larger kind.
    fn zeros() -> Self;

    fn fill(&mut self, h: Block)
        ensures { are_of self.new (number h) };

    fn times(&self, x: Wide) -> Wide
        ensures { (h : ℕ) → are_of self.now h → block_of result ≡ times_h h (block_of x) };
}

// One table for both words of a block. Two words for each entry: of 16, and then of 7 windows of 16.
#[derive(Drop)]
pub(crate) struct Small {
    table: [u64; 256],
}

impl Cut for Small {
    ghost fine = { false };

    ghost WINDOWS = { 7 };

    ghost SIZE = { 16 };

    ghost windows_are = { refl };

    ghost size_is = { refl };

    const WINDOWS: usize = 7;

    const SIZE: usize = 16;

    fn fill_window(v: Wide, table: &mut [u64], base: usize) -> Wide {
        fill_four(v, table, base)
    }
}

impl Small {
    // What the last 32 bits of w add, and z moved on by as many.
    fn half_word(&self, w: u64, z: Wide) -> Wide
        ensures { (v : ℕ) → TableOf false v self.now.table → val result ≡ bit_xor (adds 32 v w) (times_xs 32 (val z)) }
    {
        sum_bits::<Small>(&self.table, w) ^ z.times_x32()
    }
}

impl Tables for Small {
    ghost are_of = { λ t h. TableOf false h t.table };

    fn zeros() -> Small {
        Small { table: [0; 256] }
    }

    fn fill(&mut self, h: Block) {
        fill_table::<Small>(Wide::from(h), &mut self.table);
    }

    // The last half of a word first.
    fn times(&self, x: Wide) -> Wide {
        let fourth = self.half_word(x.low, Wide::ZERO);
        let third = self.half_word(x.low / 0x1_0000_0000, fourth);
        let second = self.half_word(x.high, third);
        self.half_word(x.high / 0x1_0000_0000, second)
    }
}

// A table for each word of a block. Two words for each entry: of 16, and then of 10 windows of 64.
#[derive(Drop)]
pub(crate) struct Fine {
    front: [u64; 1312],
    back: [u64; 1312],
}

impl Cut for Fine {
    ghost fine = { true };

    ghost WINDOWS = { 10 };

    ghost SIZE = { 64 };

    ghost windows_are = { refl };

    ghost size_is = { refl };

    const WINDOWS: usize = 10;

    const SIZE: usize = 64;

    // Of six bits: the last four, and then those whose highest bit is one of the first two.
    fn fill_window(v: Wide, table: &mut [u64], base: usize) -> Wide {
        let v1 = v.times_x();
        let next = fill_four(v1.times_x(), table, base);
        extend(v1, table, base, 16);
        extend(v, table, base, 32);
        next
    }
}

impl Tables for Fine {
    ghost are_of = { λ t h. TableOf true h t.front × TableOf true (times_xs 64 h) t.back };

    fn zeros() -> Fine {
        Fine {
            front: [0; 1312],
            back: [0; 1312],
        }
    }

    fn fill(&mut self, h: Block) {
        let v = fill_table::<Fine>(Wide::from(h), &mut self.front);
        fill_table::<Fine>(v, &mut self.back);
    }

    fn times(&self, x: Wide) -> Wide {
        sum_bits::<Fine>(&self.front, x.high) ^ sum_bits::<Fine>(&self.back, x.low)
    }
}
