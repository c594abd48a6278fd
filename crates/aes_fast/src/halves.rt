// A block, and a state, as two words of 64 bits: columns 0 and 1, and columns 2 and 3, the first byte lowest.
ghost use Rattle.std.specs.Prelude.{◌≡◌, [], ◌∷◌, ◌/◌};
ghost use Rattle.octets.specs.Lent.{over};
ghost use Rattle.octets.specs.Xor.{xors};
ghost use Rattle.aes.specs.State.{column, state_of, column_bytes};
ghost use Rattle.aes_fast.specs.ByTables.{column_from};
ghost use Rattle.aes_fast.specs.Halves.{columns_of, halves_block, block_at};

use crate::words::column_word;
use aes_state::State;
use octets::strings::{Block, put, two_eights};

#[derive(Clone, Copy)]
pub struct Halves {
    pub first: u64,
    pub second: u64,
}

#[derive(Clone, Copy)]
pub struct Both {
    pub one: Halves,
    pub other: Halves,
}

impl Halves {
    const ZERO: Halves = Halves {
        first: 0,
        second: 0,
    };
}

pub(crate) fn half_of(a: u32, b: u32) -> u64
    ensures { (column_from result ≡ column_from a) × (column_from (result / 4294967296) ≡ column_from b) }
{
    a as u64 + b as u64 * 4294967296
}

pub(crate) fn from_columns(a: u32, b: u32, c: u32, d: u32) -> Halves
    ensures { columns_of result ≡ column_from a ∷ column_from b ∷ column_from c ∷ column_from d ∷ [] }
{
    Halves {
        first: half_of(a, b),
        second: half_of(c, d),
    }
}

impl From<State> for Halves {
    ghost from_gives = { λ s h. columns_of h ≡ state_of (λ c. column_bytes (column s c)) };

    fn from(s: State) -> Halves {
        from_columns(
            column_word(s[0]),
            column_word(s[1]),
            column_word(s[2]),
            column_word(s[3]),
        )
    }
}

impl From<Block> for Halves {
    ghost from_gives = { λ b h. halves_block h ≡ b };

    fn from(b: Block) -> Halves {
        let (words, _) = b.as_chunks::<8>();
        Halves {
            first: u64::from_le_bytes(words[0]),
            second: u64::from_le_bytes(words[1]),
        }
    }
}

impl From<Halves> for Block {
    ghost from_gives = { λ h b. b ≡ halves_block h };

    fn from(h: Halves) -> Block {
        two_eights(h.first.to_le_bytes(), h.second.to_le_bytes())
    }
}

// The block from place i on, and zeros where no whole block lies there.
pub fn halves_at(s: &[u8], i: usize) -> Halves
    ensures { halves_block result ≡ block_at s.now i }
{
    let Some(rest) = s.get(i..) else {
        return Halves::ZERO;
    };
    match rest.first_chunk() {
        Some(b) => Halves::from(*b),
        None => Halves::ZERO,
    }
}

pub fn add_halves(a: Halves, b: Halves) -> Halves
    ensures { halves_block result ≡ xors (halves_block a) (halves_block b) }
{
    Halves {
        first: a.first ^ b.first,
        second: a.second ^ b.second,
    }
}

// The block over the front of an output that has no room for it whole.
#[cold]
#[inline(never)]
fn put_front(out: &mut [u8], h: Halves)
    ensures { out.new ≡ over (halves_block h) out.old }
{
    put(out, &Block::from(h));
}

// The block over the front of the output, as far as it reaches.
pub fn put_halves(out: &mut [u8], h: Halves)
    ensures { out.new ≡ over (halves_block h) out.old }
{
    if out.len() < 16 {
        put_front(out, h);
        return;
    }
    out[..8].copy_from_slice(&h.first.to_le_bytes());
    out[8..16].copy_from_slice(&h.second.to_le_bytes());
}
