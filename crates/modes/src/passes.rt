// CCM's pass along a text: the chain beside the counter, two blocks a call.
ghost use Rattle.std.specs.Prelude.{◌≡◌, Bool, true, false, ◌+◌, ◌≤◌, ◌<◌, length};
ghost use Rattle.octets.specs.Blocks.{fill, cut, chain};
ghost use Rattle.octets.specs.Lent.{when, over};
ghost use Rattle.octets.specs.Xor.{xors};
ghost use Rattle.aes.specs.Cipher.{cipher};
ghost use Rattle.aes_fast.specs.Halves.{halves_block};
ghost use Rattle.aes_fast.specs.Start.{cipher_from};
ghost use Rattle.modes.specs.Calls.{text_max};
ghost use Rattle.modes.specs.Counter.{ctr, with_pad, plain_block, shown_text, writes_into, front_of};

use crate::cipher::Cipher;
use crate::counter::{KeyStream, summed};
use crate::tail::Tail;
use aes_fast::halves::{Both, Halves, add_halves, halves_at, put_halves};
use aes_fast::start::Start;
use octets::strings::{Block, first, put, xor};

// A direction of the pass: what it chains and what it writes of a block, and of a last part of the text, of a block or less.
pub(crate) trait Direction {
    // Whether the text is a ciphertext.
    ghost opening: { Bool };

    // The plaintext's block, which is chained.
    fn plain(text: Halves, pad: Halves) -> Halves
        ensures { halves_block result ≡ when opening (xors (halves_block text) (halves_block pad)) (halves_block text) };

    // What is written.
    fn shown(text: Halves, pad: Halves) -> Halves
        ensures { halves_block result ≡ when opening (halves_block pad) (xors (halves_block text) (halves_block pad)) };

    // The plaintext's last part, and zeros after it.
    fn last(text: Tail, pad: Block) -> Block
        ensures { result ≡ fill (when opening (xors text.entry.bytes.now pad) text.entry.bytes.now) };

    // And what is written of it.
    fn put_last(text: Tail, pad: Block, out: &mut [u8])
        requires { length out.old ≡ length text.bytes.now }
        ensures { out.new ≡ xors (shown_text opening text.entry.bytes.now) pad };
}

// Of a plaintext, which is chained itself; its sum with the pads is written.
pub(crate) struct Sealing;

impl Direction for Sealing {
    ghost opening = { false };

    fn plain(text: Halves, _pad: Halves) -> Halves {
        text
    }

    fn shown(text: Halves, pad: Halves) -> Halves {
        add_halves(text, pad)
    }

    fn last(text: Tail, _pad: Block) -> Block {
        first(text.bytes)
    }

    fn put_last(text: Tail, pad: Block, out: &mut [u8]) {
        let sum = summed(text, pad);
        put(out, &sum);
    }
}

// Of a ciphertext: its sum with the pads is chained, and the pads alone are written, which hold nothing of the text.
pub(crate) struct Opening;

impl Direction for Opening {
    ghost opening = { true };

    fn plain(text: Halves, pad: Halves) -> Halves {
        add_halves(text, pad)
    }

    fn shown(_text: Halves, pad: Halves) -> Halves {
        pad
    }

    fn last(text: Tail, pad: Block) -> Block {
        summed(text, pad)
    }

    fn put_last(_text: Tail, pad: Block, out: &mut [u8]) {
        put(out, &pad);
    }
}

// What is written of the block at place `at`, to the same place of the output, where that is not empty.
fn put_shown<D: Direction>(text: &[u8], at: usize, pad: Halves, out: &mut [u8])
    requires { (at + 16 ≤ length text.now) × (0 < length out.old → at + 16 ≤ length out.old) }
    ensures { out.new ≡ when (writes_into out.old) (with_pad (shown_text D.opening text.now) at (halves_block pad) out.old) out.old }
{
    if out.len() == 0 {
        return;
    }
    let shown = D::shown(halves_at(text, at), pad);
    put_halves(&mut out[at..], shown);
}

// The block at place `at` with its pad: its plaintext is chained to y, beside the pad of the counter that ends with the byte `low`.
fn pass_block<D: Direction>(
    aes: Cipher,
    s: Start,
    low: u8,
    y: Halves,
    pad: Halves,
    text: &[u8],
    at: usize,
    out: &mut [u8],
) -> Both
    requires { (at + 16 ≤ length text.now) × (0 < length out.old → at + 16 ≤ length out.old) }
    ensures one_value { halves_block result.one ≡ cipher aes.entry.keyed.keys.now (xors (halves_block y) (plain_block D.opening text.now at (halves_block pad))) }
    ensures other_value { halves_block result.other ≡ cipher_from aes.entry.keyed.tables.now aes.entry.keyed.keys.now s low }
    ensures out_after { out.new ≡ when (writes_into out.old) (with_pad (shown_text D.opening text.now) at (halves_block pad) out.old) out.old }
{
    put_shown::<D>(text, at, pad, out);
    let plain = D::plain(halves_at(text, at), pad);
    aes.keyed.encrypt_beside(add_halves(y, plain), s, low)
}

// The chain along a last part of the text.
fn chain_last<D: Direction>(aes: Cipher, pad: Block, y: Block, text: Tail) -> Block
    ensures { result ≡ chain (cipher aes.entry.keyed.keys.now) y (cut (when D.opening (xors text.entry.bytes.now pad) text.entry.bytes.now)) }
{
    if text.bytes.len() == 0 {
        return y;
    }
    aes.encrypt(xor(y, D::last(text, pad)))
}

// One pass over a text, in both directions: the chain along its plaintext, each block but the last beside the next counter's pad.
// Where the output is not empty, the ciphertext of a text that is sealed goes over its front, and of one that is opened the pads alone: its plaintext goes nowhere.
pub(crate) fn pass<D: Direction>(pads: KeyStream<3>, y: Block, text: &[u8], out: &mut [u8]) -> Block
    requires { (length text.now ≤ text_max) × (0 < length out.old → length text.now ≤ length out.old) }
    ensures value { result ≡ chain (cipher pads.entry.aes.keyed.keys.now) y (cut (when D.opening (ctr (cipher pads.entry.aes.keyed.keys.now) 3 (front_of false pads.entry.base) 1 text.now) text.now)) }
    ensures out_after { out.new ≡ over (ctr (cipher pads.entry.aes.keyed.keys.now) 3 (front_of false pads.entry.base) 1 (shown_text D.opening text.now)) out.old }
{
    let n = text.len();
    let mut h = Halves::from(y);
    let mut at = 0;
    let mut k = 1;
    // The round keys by value, in this function's own frame: docs/DECISIONS.md.
    let keys = *pads.aes.keyed.keys;
    let aes = Cipher::of(pads.aes.keyed.tables, &keys);
    let own = KeyStream::<3> {
        aes,
        base: pads.base,
    };
    let mut s = own.start_at(1);
    let mut pad = aes.keyed.encrypt_from(s, 1);
    // By a `for` over the blocks, opening 1,024 bytes took 150,969 instructions, and so 132,326.
    while 16 < n - at {
        let v = own.renewed(s, k);
        let low = ((k + 1) % 256) as u8;
        let both = pass_block::<D>(aes, v, low, h, pad, text, at, out);
        h = both.one;
        pad = both.other;
        s = v;
        at += 16;
        k += 1;
    }
    let last = Block::from(pad);
    let tail = Tail {
        bytes: &text[at..n],
    };
    let z = chain_last::<D>(aes, last, Block::from(h), tail);
    if out.len() == 0 {
        return z;
    }
    D::put_last(tail, last, &mut out[at..n]);
    z
}
