// Counter mode, which CCM and GCM share.
ghost use Rattle.std.specs.Prelude.{◌≡◌, not, ◌+◌, ◌-◌, ◌%◌, ◌≤◌, ◌<◌, length, take};
ghost use Rattle.octets.specs.Blocks.{fill};
ghost use Rattle.octets.specs.Xor.{xors};
ghost use Rattle.aes.specs.Cipher.{cipher};
ghost use Rattle.aes_fast.specs.Halves.{halves_block};
ghost use Rattle.refusals.specs.Numbers.{outcome_number};
ghost use Rattle.modes.specs.Pads.{Serves};
ghost use Rattle.modes.specs.Counter.{counter_block, ctr, with_pad, counter_fits, counter_answer};

use crate::cipher::Cipher;
use crate::tail::Tail;
use aes_fast::halves::{Halves, add_halves, halves_at, put_halves};
use aes_fast::start::Start;
use octets::strings::{Block, first, put, xor};
use refusals::Refusal;

// A cipher, and a block whose front is that of the counter blocks which it makes pads of. Their last W bytes are the counter's field.
#[derive(Clone, Copy)]
pub(crate) struct KeyStream<'a, const W: usize> {
    pub(crate) aes: Cipher<'a>,
    pub(crate) base: Block,
    ghost width: { (0 < W) × (W < 8) },
}

// A last part of a text with its pad, and zeros after it.
pub(crate) fn summed(text: Tail, pad: Block) -> Block
    ensures { result ≡ fill (xors text.entry.bytes.now pad) }
{
    let sum: Block = xor(first(text.bytes), pad);
    first(&sum[..text.bytes.len()])
}

// The block at place `at` of the text, with its pad, to the same place of the output.
// That it lies in both is a fact of the place and a string together: a type for the pair would be made for each call and taken apart in it.
fn add_at(text: &[u8], at: usize, pad: Halves, out: &mut [u8])
    requires { (at + 16 ≤ length text.now) × (at + 16 ≤ length out.old) }
    ensures { out.new ≡ with_pad text.now at (halves_block pad) out.old }
{
    let block = halves_at(text, at);
    let sum = add_halves(block, pad);
    put_halves(&mut out[at..], sum);
}

impl<const W: usize> KeyStream<'_, W> {
    pub(crate) fn block(self, i: usize) -> Block
        ensures { result ≡ counter_block W (take (16 - W) self.entry.base) i }
    {
        let mut b = self.base;
        b[16 - W..].copy_from_slice(&i.to_be_bytes()[8 - W..]);
        b
    }

    // Whether the counters from i on that n bytes take would run over the field.
    fn runs_over(self, i: usize, n: usize) -> bool
        requires { i ≤ 2 }
        ensures { result ≡ not (counter_fits W i n) }
    {
        256usize.pow(W as u32) < i + n.div_ceil(16)
    }

    // What the counters share that differ from k in the last byte alone.
    pub(crate) fn start_at(self, k: usize) -> Start
        ensures { Serves self.entry.aes.keyed.tables.now self.entry.aes.keyed.keys.now W (take (16 - W) self.entry.base) result k }
    {
        self.aes.keyed.start_of(self.block(k))
    }

    // The start for the counter after k, from that for k.
    pub(crate) fn renewed(self, s: Start, k: usize) -> Start
        requires { (k < 18446744073709551615) × Serves self.aes.keyed.tables.now self.aes.keyed.keys.now W (take (16 - W) self.base) s k }
        ensures { Serves self.entry.aes.keyed.tables.now self.entry.aes.keyed.keys.now W (take (16 - W) self.entry.base) result (k + 1) }
    {
        if (k + 1) % 256 == 0 {
            return self.start_at(k + 1);
        }
        s
    }

    // A block or less, with counter k. That the output is as long is a fact of the two together: a type for the pair would be made for each call.
    fn add_single(self, k: usize, text: Tail, out: &mut [u8])
        requires { length out.old ≡ length text.bytes.now }
        ensures { out.new ≡ ctr (cipher self.entry.aes.keyed.keys.now) W (take (16 - W) self.entry.base) k text.entry.bytes.now }
    {
        if text.bytes.len() == 0 {
            return;
        }
        let sum = summed(text, self.aes.encrypt(self.block(k)));
        put(out, &sum);
    }

    // Less than two blocks, from counter i on.
    fn add_rest(self, i: usize, text: &[u8], out: &mut [u8])
        requires { (length text.now < 32) × (length out.old ≡ length text.now) × (i < 18446744073709551615) }
        ensures { out.new ≡ ctr (cipher self.entry.aes.keyed.keys.now) W (take (16 - W) self.entry.base) i text.now }
    {
        let n = text.len();
        let middle = n.min(16);
        let front = Tail {
            bytes: &text[..middle],
        };
        let rest = Tail {
            bytes: &text[middle..n],
        };
        self.add_single(i, front, &mut out[..middle]);
        self.add_single(i + 1, rest, &mut out[middle..n]);
    }

    // Two blocks a call, and then what is left, from an even counter i on: a pair's counters differ in the last byte alone.
    fn add_pairs(self, i: usize, text: &[u8], out: &mut [u8])
        requires { (length out.old ≡ length text.now) × (i % 2 ≡ 0) × (i ≤ 3) }
        ensures { out.new ≡ ctr (cipher self.entry.aes.keyed.keys.now) W (take (16 - W) self.entry.base) i text.now }
    {
        // The round keys by value, in this function's own frame: docs/DECISIONS.md.
        let keys = *self.aes.keyed.keys;
        let aes = Cipher::of(self.aes.keyed.tables, &keys);
        let own = KeyStream::<W> {
            aes,
            base: self.base,
        };
        let n = text.len();
        let mut at = 0;
        let mut k = i;
        let mut s = own.start_at(i);
        // By a `for` over the pairs, GCM sealing of 65,536 bytes took 4,223,794 instructions, and so 4,068,142.
        while 32 <= n - at {
            let next = at + 16;
            let later = k + 1;
            let pads = aes
                .keyed
                .encrypt_two_from(s, (k % 256) as u8, (later % 256) as u8);
            add_at(text, at, pads.one, out);
            add_at(text, next, pads.other, out);
            at = next + 16;
            k = later + 1;
            if k % 256 == 0 {
                let v = own.start_at(k);
                s = v;
            }
        }
        own.add_rest(k, &text[at..n], &mut out[at..n]);
    }

    // The text added to the pads from counter i on, over the front of the output; refused, and nothing written, where the field would run over.
    pub(crate) fn add(self, i: usize, text: &[u8], out: &mut [u8]) -> Result<(), Refusal>
        requires { (length text.now ≤ length out.old) × (i ≤ 2) }
        ensures { counter_answer (cipher self.entry.aes.keyed.keys.now) W (take (16 - W) self.entry.base) i text.now out.old ≡ (outcome_number result, out.new) }
    {
        let n = text.len();
        if self.runs_over(i, n) {
            return Err(Refusal::CounterRunsOver);
        }
        let head = n.min(16 * (i % 2));
        let front = Tail {
            bytes: &text[..head],
        };
        self.add_single(i, front, &mut out[..head]);
        self.add_pairs(i + i % 2, &text[head..n], &mut out[head..n]);
        Ok(())
    }
}
