// Blocks as 128-bit numbers in two words.
ghost use Rattle.std.specs.Prelude.{◌≡◌, ◌+◌, ◌≤◌, length};
ghost use Rattle.std.specs.Int.Bits.{bit_xor};
ghost use Rattle.octets.specs.BigEndian.{number};
ghost use Rattle.octets.specs.Running.{add_from};
ghost use Rattle.octets.specs.Xor.{xors};
ghost use Rattle.ghash.specs.Field.{times_x, times_xs};
ghost use Rattle.ghash.specs.Words.{val, block_of};

use octets::big_endian::bytes64;
use octets::strings::{Block, two_eights};
use std::ops::BitXor;

#[derive(Clone, Copy)]
pub struct Wide {
    pub high: u64,
    pub low: u64,
}

impl Wide {
    pub const ZERO: Wide = Wide { high: 0, low: 0 };

    // V of algorithm 1 after one bit of X, with no branch on the bit that falls out.
    pub(crate) fn times_x(self) -> Wide
        ensures { val result ≡ times_x (val self) }
    {
        Wide {
            high: (self.high / 2) ^ (self.low % 2 * 0xe100_0000_0000_0000),
            low: self.high % 2 * 0x8000_0000_0000_0000 + self.low / 2,
        }
    }

    // V after 32 bits of X: for each bit that falls out R is added, whose lowest bit does not fall out again. For one bit this is no plainer than R itself,
    // which must-fail/wrong_polynomial names.
    pub(crate) fn times_x32(self) -> Wide
        ensures { val result ≡ times_xs 32 (val self) }
    {
        let out = self.low % 0x1_0000_0000;
        let added = (out * 0x1_0000_0000)
            ^ (out * 0x8000_0000)
            ^ (out * 0x4000_0000)
            ^ (out * 0x200_0000);
        Wide {
            high: (self.high / 0x1_0000_0000) ^ added,
            low: self.high % 0x1_0000_0000 * 0x1_0000_0000 + self.low / 0x1_0000_0000,
        }
    }

    // A part that stays within the block, added from place k on. (cbc_mac does so to a state of its own kind: the two lines in common would be no plainer apart.)
    pub(crate) fn add_part(self, k: usize, part: &[u8]) -> Wide
        requires { k + length part.now ≤ 16 }
        ensures { block_of result ≡ add_from k (block_of self) part.now }
    {
        let mut b = [0u8; 16];
        b[k..k + part.len()].copy_from_slice(part);
        self ^ Wide::from(b)
    }
}

impl BitXor for Wide {
    type Output = Wide;

    ghost bitxor_gives = { λ a b r. (val r ≡ bit_xor (val a) (val b)) × (block_of r ≡ xors (block_of a) (block_of b)) };

    fn bitxor(self, other: Wide) -> Wide {
        Wide {
            high: self.high ^ other.high,
            low: self.low ^ other.low,
        }
    }
}

impl From<Wide> for Block {
    ghost from_gives = { λ w b. b ≡ block_of w };

    fn from(w: Wide) -> Block {
        two_eights(bytes64(w.high), bytes64(w.low))
    }
}

impl From<Block> for Wide {
    ghost from_gives = { λ b w. (block_of w ≡ b) × (val w ≡ number b) };

    fn from(b: Block) -> Wide {
        let (words, _) = b.as_chunks::<8>();
        Wide {
            high: u64::from_be_bytes(words[0]),
            low: u64::from_be_bytes(words[1]),
        }
    }
}
