// CBC-MAC as a running chain: a state, and how many bytes of its block it has taken. By tables and round keys that a caller lends down.
#![tactic(auto)]

ghost use Rattle.std.specs.Prelude.{◌≡◌, ◌+◌, ◌%◌, ◌≤◌, length};
ghost use Rattle.octets.specs.Running.{add_from, absorb, close};
ghost use Rattle.aes_fast.specs.ByTables.{cipher_by};
ghost use Rattle.aes_fast.specs.Laws.{Ciphered};

use aes_fast::Keyed;
use aes_fast::halves::{Halves, add_halves};
use octets::strings::Block;

// A part that stays within the block, added from place k on. (ghash does so to a state of its own kind: the two lines in common would be no plainer apart.)
fn add_part(k: usize, y: Block, part: &[u8]) -> Block
    requires { k + length part.now ≤ 16 }
    ensures { result ≡ add_from k y part.now }
{
    let mut b = [0u8; 16];
    b[k..k + part.len()].copy_from_slice(part);
    Block::from(add_halves(Halves::from(y), Halves::from(b)))
}

// A part from the start of a block: whole blocks as blocks, and then the rest.
fn absorb_blocks(cipher: Keyed, y: Block, part: &[u8]) -> Block
    ensures { result ≡ absorb (cipher_by cipher.entry.tables.now cipher.entry.keys.now) 0 y part.now }
{
    let (blocks, rest) = part.as_chunks::<16>();
    let mut x = y;
    for b in blocks {
        x = cipher.encrypt(Block::from(add_halves(Halves::from(x), Halves::from(*b))));
    }
    add_part(0, x, rest)
}

// A part of any length, from place k of a block: what fills that block, and the rest from the start of the next.
pub fn absorb(cipher: Keyed, k: usize, y: Block, part: &[u8]) -> Block
    ensures { Ciphered cipher.entry.tables.now cipher.entry.keys.now (λ f. absorb f (k % 16) y part.now) result }
{
    let place = k % 16;
    if place == 0 {
        return absorb_blocks(cipher, y, part);
    }
    let room = 16 - place;
    if part.len() < room {
        return add_part(place, y, part);
    }
    let x = cipher.encrypt(add_part(place, y, &part[..room]));
    absorb_blocks(cipher, x, &part[room..])
}

// A block that has begun is filled with zeros.
pub fn close(cipher: Keyed, k: usize, y: Block) -> Block
    ensures { Ciphered cipher.entry.tables.now cipher.entry.keys.now (λ f. close f (k % 16) y) result }
{
    if k % 16 == 0 {
        return y;
    }
    cipher.encrypt(y)
}
