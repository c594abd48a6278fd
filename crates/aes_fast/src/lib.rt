// AES-256 by constant tables of words that a caller lends down, one block or two at a time.
#![tactic(auto)]

mod four_words;
pub mod halves;
mod rounds;
mod row_0;
mod row_1;
mod row_2;
mod row_3;
pub mod start;
mod three_words;
mod words;

ghost use Rattle.std.specs.Prelude.{◌≡◌};
ghost use Rattle.aes_fast.specs.ByTables.{cipher_by};
ghost use Rattle.aes_fast.specs.Right.{round_tables};
ghost use Rattle.aes_fast.specs.Halves.{halves_block};
ghost use Rattle.aes_fast.specs.Start.{cipher_from};
ghost use Rattle.aes_fast.specs.Laws.{Ciphered};

use aes::RoundKeys;
use halves::{Both, Halves, add_halves};
use octets::strings::Block;
use rounds::round_of_three;
use row_0::ROW_0;
use row_1::ROW_1;
use row_2::ROW_2;
use row_3::ROW_3;
use start::{Start, begun};
use three_words::ThreeWords;

// For each row, a word for each byte.
pub type Tables = [[u32; 256]; 4];

// The four tables, 4,096 bytes: for a byte in each row, what it adds to a mixed column. Constants, as document 01 has tables of S-box values.
pub fn round_tables() -> Tables
    ensures { result ≡ round_tables }
{
    [ROW_0, ROW_1, ROW_2, ROW_3]
}

// The tables and the round keys that a caller lends down together.
#[derive(Clone, Copy)]
pub struct Keyed<'a> {
    pub tables: &'a Tables,
    pub keys: &'a RoundKeys,
}

impl Keyed<'_> {
    pub fn encrypt(self, b: Block) -> Block
        ensures { Ciphered self.entry.tables.now self.entry.keys.now (λ f. f b) result }
    {
        Block::from(self.rounds_after(0, add_halves(Halves::from(b), Halves::from(self.keys[0]))))
    }

    // The block that ends with the byte `low`, from what it shares with others.
    pub fn encrypt_from(self, s: Start, low: u8) -> Halves
        ensures { halves_block result ≡ cipher_from self.entry.tables.now self.entry.keys.now s low }
    {
        self.rounds_after(2, begun(self.tables, s, low))
    }

    // In the loop of a text: where two call it, the compiler would leave a call for each pair of blocks.
    #[inline(always)]
    pub fn encrypt_two_from(self, s: Start, low: u8, next: u8) -> Both
        ensures { (halves_block result.one ≡ cipher_from self.entry.tables.now self.entry.keys.now s low)
            × (halves_block result.other ≡ cipher_from self.entry.tables.now self.entry.keys.now s next) }
    {
        let one = ThreeWords::from(begun(self.tables, s, low));
        let other = ThreeWords::from(begun(self.tables, s, next));
        self.rounds_after_two(2, one, other)
    }

    // Any block, beside one that begins with others, in the loop of a text too.
    #[inline(always)]
    pub fn encrypt_beside(self, b: Halves, s: Start, low: u8) -> Both
        ensures { (halves_block result.one ≡ cipher_by self.entry.tables.now self.entry.keys.now (halves_block b))
            × (halves_block result.other ≡ cipher_from self.entry.tables.now self.entry.keys.now s low) }
    {
        let none = ThreeWords::from(add_halves(b, Halves::from(self.keys[0])));
        let one = round_of_three(self.tables, none, ThreeWords::from(self.keys[1]));
        let two = round_of_three(self.tables, one, ThreeWords::from(self.keys[2]));
        let other = ThreeWords::from(begun(self.tables, s, low));
        self.rounds_after_two(2, two, other)
    }

    // Any two blocks.
    pub fn encrypt_two(self, b: Block, c: Block) -> Both
        ensures { Ciphered self.entry.tables.now self.entry.keys.now (λ f. f b) (halves_block result.one)
            × Ciphered self.entry.tables.now self.entry.keys.now (λ f. f c) (halves_block result.other) }
    {
        let key = Halves::from(self.keys[0]);
        let one = ThreeWords::from(add_halves(Halves::from(b), key));
        let other = ThreeWords::from(add_halves(Halves::from(c), key));
        self.rounds_after_two(0, one, other)
    }
}
