// GHASH of GCM's parts, by tables of the hash key.
ghost use Rattle.std.specs.Prelude.{◌≡◌, ◌++◌};
ghost use Rattle.ghash.specs.Ghash.{ghash_parts};

use crate::running::{absorb_text, close_block};
use crate::table::{Fine, Small, Tables};
use crate::words::Wide;
use octets::strings::Block;

// The length of text from which on fine tables are worth their making.
const LONG: usize = 2048;

// Each kind of tables has a function of its own, so that the two may have the same place on the stack.
fn hash_by<T: Tables + Drop>(h: Block, a: &[u8], b: &[u8], text: &[u8], last: Block) -> Block
    ensures { result ≡ ghash_parts h (a.now ++ b.now) text.now last }
{
    let mut t = T::zeros();
    t.fill(h);
    let first = absorb_text(&t, Wide::ZERO, 0, a);
    let place = a.len() % 16;
    let second = absorb_text(&t, first, place, b);
    let closed = close_block(&t, second, (place + b.len() % 16) % 16);
    let third = absorb_text(&t, closed, 0, text);
    let whole = close_block(&t, third, text.len() % 16);
    Block::from(t.times(whole ^ Wide::from(last)))
}

// The associated data in two parts, the text, each filled with zeros to whole blocks, and the last block.
pub fn ghash_parts(h: Block, a: &[u8], b: &[u8], text: &[u8], last: Block) -> Block
    ensures { result ≡ ghash_parts h (a.now ++ b.now) text.now last }
{
    if text.len() < LONG {
        return hash_by::<Small>(h, a, b, text, last);
    }
    hash_by::<Fine>(h, a, b, text, last)
}
