// The hash carried along a text that comes in parts: a state, and a place within its block.
ghost use Rattle.std.specs.Prelude.{◌≡◌, ℕ, ◌<◌};
ghost use Rattle.octets.specs.Running.{absorb, close};
ghost use Rattle.ghash.specs.Field.{times_h};
ghost use Rattle.ghash.specs.Words.{block_of};

use crate::table::Tables;
use crate::words::Wide;

// The state after the text, which begins a block.
fn absorb_blocks<T: Tables>(t: &T, y: Wide, text: &[u8]) -> Wide
    ensures { (h : ℕ) → T.are_of t.now h → block_of result ≡ absorb (times_h h) 0 (block_of y) text.now }
{
    let (blocks, rest) = text.as_chunks::<16>();
    let mut s = y;
    for b in blocks {
        s = t.times(s ^ Wide::from(*b));
    }
    s.add_part(0, rest)
}

// The state after the text, of which the first byte comes to place k.
pub(crate) fn absorb_text<T: Tables>(t: &T, y: Wide, k: usize, text: &[u8]) -> Wide
    requires { k < 16 }
    ensures { (h : ℕ) → T.are_of t.now h → block_of result ≡ absorb (times_h h) k (block_of y) text.now }
{
    if k == 0 {
        return absorb_blocks(t, y, text);
    }
    let room = 16 - k;
    if text.len() < room {
        return y.add_part(k, text);
    }
    let whole = t.times(y.add_part(k, &text[..room]));
    absorb_blocks(t, whole, &text[room..])
}

// A block that has begun is filled with zeros.
pub(crate) fn close_block<T: Tables>(t: &T, y: Wide, k: usize) -> Wide
    ensures { (h : ℕ) → T.are_of t.now h → block_of result ≡ close (times_h h) k (block_of y) }
{
    if k == 0 { y } else { t.times(y) }
}
