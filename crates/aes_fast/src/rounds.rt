// The rounds by tables: of one block alone over a state in four words, else over one in three, and the last over one in two. A byte of a word is its place in a table.
ghost use Rattle.std.specs.Prelude.{◌≡◌, ◌+◌, ◌-◌, ◌%◌, ◌≤◌, length, take, drop};
ghost use Rattle.aes_fast.specs.ByTables.{column_from, mixed_by, substituted_by, round_by, last_round_by, column_fed, later_rounds_by};
ghost use Rattle.aes_fast.specs.Halves.{columns_of};
ghost use Rattle.aes_fast.specs.FourWords.{columns_in};
ghost use Rattle.aes_fast.specs.ThreeWords.{columns_held};

use crate::four_words::FourWords;
use crate::halves::{Both, Halves, add_halves, from_columns};
use crate::three_words::{ThreeWords, three_words_with};
use crate::{Keyed, Tables};
use aes::{LAST_ROUND, RoundKeys};
use aes_state::State;

fn mixed_column(t: &Tables, a: u64, b: u64, c: u64, d: u64) -> u32
    ensures { column_from result ≡ mixed_by t.now (a % 256) (b % 256) (c % 256) (d % 256) }
{
    t[1][(b % 256) as usize]
        ^ t[0][(a % 256) as usize]
        ^ t[2][(c % 256) as usize]
        ^ t[3][(d % 256) as usize]
}

// A column of the last round: from each table's word the row in which it has the byte's S-box value, once.
fn last_column(t: &Tables, a: u64, b: u64, c: u64, d: u64) -> u32
    ensures { column_from result ≡ substituted_by t.now (a % 256) (b % 256) (c % 256) (d % 256) }
{
    t[2][(a % 256) as usize] % 256
        + t[3][(b % 256) as usize] / 256 % 256 * 256
        + t[0][(c % 256) as usize] / 65536 % 256 * 65536
        + t[1][(d % 256) as usize] / 16777216 % 256 * 16777216
}

pub(crate) fn last_round(t: &Tables, s: Halves, k: Halves) -> Halves
    ensures { columns_of result ≡ last_round_by t.now (columns_of s) (columns_of k) }
{
    let a = s.first;
    let b = s.second;
    let c0 = last_column(t, a, a / 1099511627776, b / 65536, b / 72057594037927936);
    let c1 = last_column(
        t,
        a / 4294967296,
        b / 256,
        b / 281474976710656,
        a / 16777216,
    );
    let c2 = last_column(t, b, b / 1099511627776, a / 65536, a / 72057594037927936);
    let c3 = last_column(
        t,
        b / 4294967296,
        a / 256,
        a / 281474976710656,
        b / 16777216,
    );
    add_halves(from_columns(c0, c1, c2, c3), k)
}

// What the word u, a column, adds to the columns of the next round.
fn feed(t: &Tables, x: FourWords, u: u32) -> FourWords
    ensures { columns_in result ≡ column_fed t.now (columns_in x) (column_from u) }
{
    let d = x.a ^ t[0][(u % 256) as usize];
    let c = x.d ^ t[1][(u / 256 % 256) as usize];
    let b = x.c ^ t[2][(u / 65536 % 256) as usize];
    let a = x.b ^ t[3][(u / 16777216 % 256) as usize];
    FourWords { a, b, c, d }
}

// A round of a state in four words: its columns one after the other, beginning with the key.
fn round_of_four(t: &Tables, s: FourWords, k: FourWords) -> FourWords
    ensures { columns_in result ≡ round_by t.now (columns_in s) (columns_in k) }
{
    let x = feed(t, k, s.a);
    let y = feed(t, x, s.b);
    let z = feed(t, y, s.c);
    feed(t, z, s.d)
}

// A round of a state in three words. In this order, and with a column's terms in that of mixed_column, the compiler keeps the words of two blocks in registers.
pub(crate) fn round_of_three(t: &Tables, s: ThreeWords, k: ThreeWords) -> ThreeWords
    ensures { columns_held result ≡ round_by t.now (columns_held s) (columns_held k) }
{
    let a = s.first;
    let c = s.c as u64;
    let d = s.d as u64;
    let c0 = mixed_column(t, a, a / 1099511627776, c / 65536, d / 16777216);
    let c1 = mixed_column(t, a / 4294967296, c / 256, d / 65536, a / 16777216);
    let c3 = mixed_column(t, d, a / 256, a / 281474976710656, c / 16777216);
    let c2 = mixed_column(t, c, d / 256, a / 65536, a / 72057594037927936);
    three_words_with(c0, c1, c2, c3, k)
}

// The last round of a state in three words.
fn last_of_three(t: &Tables, s: ThreeWords, k: Halves) -> Halves
    ensures { columns_of result ≡ last_round_by t.now (columns_held s) (columns_of k) }
{
    last_round(t, Halves::from(s), k)
}

// The round keys of the middle rounds that are left after the first `done`.
fn middle_keys(keys: &RoundKeys, done: usize) -> &[State]
    requires { done ≤ 13 }
    ensures keys { result.now ≡ take (13 - done) (drop (done + 1) keys.now) }
    ensures count { length result.now ≡ 13 - done }
{
    &keys[done + 1..LAST_ROUND]
}

impl Keyed<'_> {
    // The rounds that are left after the first `done`.
    pub(crate) fn rounds_after(self, done: usize, s: Halves) -> Halves
        requires { done ≤ 13 }
        ensures { columns_of result ≡ later_rounds_by self.entry.tables.now self.entry.keys.now done (columns_of s) }
    {
        let Keyed { tables, keys } = self;
        let mut x = FourWords::from(s);
        for key in middle_keys(keys, done) {
            x = round_of_four(tables, x, FourWords::from(*key));
        }
        let h = Halves::from(x);
        last_round(tables, h, Halves::from(keys[LAST_ROUND]))
    }

    // The same of two states side by side: neither waits for the other. Of a function that several call the compiler would leave a call for each block.
    #[inline(always)]
    pub(crate) fn rounds_after_two(self, done: usize, one: ThreeWords, other: ThreeWords) -> Both
        requires { done ≤ 13 }
        ensures one_value { columns_of result.one ≡ later_rounds_by self.entry.tables.now self.entry.keys.now done (columns_held one) }
        ensures other_value { columns_of result.other ≡ later_rounds_by self.entry.tables.now self.entry.keys.now done (columns_held other) }
    {
        let Keyed { tables, keys } = self;
        let mut x = one;
        let mut y = other;
        for key in middle_keys(keys, done) {
            let k = ThreeWords::from(*key);
            x = round_of_three(tables, x, k);
            y = round_of_three(tables, y, k);
        }
        let k = Halves::from(keys[LAST_ROUND]);
        Both {
            one: last_of_three(tables, x, k),
            other: last_of_three(tables, y, k),
        }
    }
}
