// Blocks that differ in their last byte alone share most of rounds 1 and 2.
ghost use Rattle.std.specs.Prelude.{◌≡◌, ◌%◌};
ghost use Rattle.std.specs.Int.Bits.{bit_xor};
ghost use Rattle.aes.specs.Cipher.{add_column};
ghost use Rattle.aes_fast.specs.ByTables.{column_from, table_entry};
ghost use Rattle.aes_fast.specs.Halves.{columns_of};
ghost use Rattle.aes_fast.specs.Start.{column_adds, begun_by, start_by};

use crate::halves::{Halves, add_halves, from_columns};
use crate::rounds::round_of_three;
use crate::three_words::ThreeWords;
use crate::{Keyed, Tables};
use octets::strings::Block;

// The last byte's key; column 0 of round 1 without what the last byte adds; round 2 without what that column adds.
#[derive(Clone, Copy)]
pub struct Start {
    pub key: u8,
    pub first: u32,
    pub second: Halves,
}

// What table 3 has for the byte a is added to the word u, a column.
fn add_entry(t: &Tables, u: u32, a: u64) -> u32
    ensures { column_from result ≡ add_column (column_from u) (table_entry t.now 3 (a % 256)) }
{
    u ^ t[3][(a % 256) as usize]
}

// What the word u, round 1's column 0, adds to the state of round 2.
fn column_adds(t: &Tables, u: u32) -> Halves
    ensures { columns_of result ≡ column_adds t.now (column_from u) }
{
    from_columns(
        t[0][(u % 256) as usize],
        t[3][(u / 16777216 % 256) as usize],
        t[2][(u / 65536 % 256) as usize],
        t[1][(u / 256 % 256) as usize],
    )
}

impl Keyed<'_> {
    pub fn start_of(self, b: Block) -> Start
        ensures { result ≡ start_by self.entry.tables.now self.entry.keys.now b }
    {
        let t = self.tables;
        let s = add_halves(Halves::from(b), Halves::from(self.keys[0]));
        let one = round_of_three(t, ThreeWords::from(s), ThreeWords::from(self.keys[1]));
        let two = round_of_three(t, one, ThreeWords::from(self.keys[2]));
        let u = (one.first % 4294967296) as u32;
        Start {
            key: self.keys[0][3][3],
            first: add_entry(t, u, s.second / 72057594037927936),
            second: add_halves(Halves::from(two), column_adds(t, u)),
        }
    }
}

// The last byte with its key.
fn add_byte(low: u8, key: u8) -> u8
    ensures { result ≡ bit_xor low key }
{
    low ^ key
}

// The state after rounds 1 and 2 of the block that ends with the byte `low`.
pub(crate) fn begun(t: &Tables, s: Start, low: u8) -> Halves
    ensures { columns_of result ≡ begun_by t.now s low }
{
    let last = add_byte(low, s.key);
    let u = add_entry(t, s.first, last as u64);
    add_halves(s.second, column_adds(t, u))
}
