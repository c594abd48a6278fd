// CCM: SP 800-38C with a 12-byte nonce, a 3-byte length field and a 16-byte tag.
ghost use Rattle.std.specs.Prelude.{◌≡◌, false, ◌∷◌, ◌++◌, ◌+◌, ◌≤◌, length, drop};
ghost use Rattle.octets.specs.BigEndian.{be};
ghost use Rattle.octets.specs.Blocks.{cut, chain};
ghost use Rattle.octets.specs.Lent.{answer};
ghost use Rattle.aes.specs.Cipher.{cipher};
ghost use Rattle.refusals.specs.Numbers.{outcome_number};
ghost use Rattle.modes.specs.Calls.{tag_decides};
ghost use Rattle.modes.specs.Counter.{counter_block, front_of};
ghost use Rattle.modes.specs.Ccm.{flags, data_blocks, chain_start, counter_front, ccm_tag_right, ccm_sealed, ccm_opened};

use crate::cipher::Cipher;
use crate::counter::KeyStream;
use crate::message::Message;
use crate::passes::{Opening, Sealing, pass};
use crate::short::open_short;
use crate::sizes::{IV_SIZE, SHORT};
use crate::tag::check_tag;
use cbc_mac::{absorb, close};
use octets::big_endian::bytes16;
use octets::strings::{Block, put, xor};
use refusals::Refusal;

// The flags of the first block: 7Ah with associated data, 3Ah without.
fn flags_of(with_data: bool) -> u8
    ensures { result ≡ flags with_data }
{
    if with_data { 0x7a } else { 0x3a }
}

// The counter blocks' front, with a field of zeros.
fn base_of(iv: &[u8]) -> Block
    requires { length iv.now ≡ 12 }
    ensures { result ≡ counter_front iv.now ++ be 3 0 }
{
    let mut b = [0; 16];
    b[0] = 2;
    b[1..=IV_SIZE].copy_from_slice(&iv[..IV_SIZE]);
    b
}

// B0: the flags, the nonce, and the length of the payload in three bytes, where counter blocks have the counter.
fn first_block(pads: KeyStream<3>, with_data: bool, n: usize) -> Block
    ensures { result ≡ flags with_data ∷ (drop 1 (front_of false pads.entry.base) ++ be 3 n) }
{
    let mut b = pads.block(n);
    b[0] = flags_of(with_data);
    b
}

// The chain after the associated data.
fn chain_data(aes: Cipher, y: Block, m: Message) -> Block
    ensures { result ≡ chain (cipher aes.entry.keyed.keys.now) y (data_blocks (m.entry.a.now ++ m.entry.b.now)) }
{
    let n = m.a.len() + m.b.len();
    if n == 0 {
        return y;
    }
    let size = bytes16(n);
    let x = absorb(aes.keyed, 0, y, &size);
    let u = absorb(aes.keyed, 2, x, m.a);
    let v = absorb(aes.keyed, 2 + m.a.len(), u, m.b);
    close(aes.keyed, 2 + n, v)
}

// The chain's state before the payload, and S0.
#[derive(Clone, Copy)]
struct Begun {
    chain: Block,
    pad: Block,
}

// The chain up to the payload. The first block is ciphered beside counter block 0.
fn chain_start(pads: KeyStream<3>, m: Message) -> Begun
    ensures chain_value { result.chain ≡ chain_start (cipher pads.entry.aes.keyed.keys.now) (drop 1 (front_of false pads.entry.base)) (m.entry.a.now ++ m.entry.b.now) (length m.entry.text.now) }
    ensures pad_value { result.pad ≡ cipher pads.entry.aes.keyed.keys.now (counter_block 3 (front_of false pads.entry.base) 0) }
{
    let with_data = m.a.len() + m.b.len() != 0;
    let first = first_block(pads, with_data, m.text.len());
    let both = pads.aes.encrypt_two(first, pads.block(0));
    let chain = chain_data(pads.aes, Block::from(both.one), m);
    let pad = Block::from(both.other);
    Begun { chain, pad }
}

// That the result has room is a fact of the message and the output together: a type for the pair would be made in lib.rt and taken apart here.
pub(crate) fn seal(aes: Cipher, m: Message, out: &mut [u8]) -> Result<(), Refusal>
    requires { length m.text.now + 16 ≤ length out.old }
    ensures { answer 0 (ccm_sealed (cipher aes.entry.keyed.keys.now) m.entry.iv.now (m.entry.a.now ++ m.entry.b.now) m.entry.text.now) out.old ≡ (outcome_number result, out.new) }
{
    let n = m.text.len();
    let pads = KeyStream::<3> {
        aes,
        base: base_of(m.iv),
    };
    let begun = chain_start(pads, m);
    let z = pass::<Sealing>(pads, begun.chain, m.text, out);
    let tag = xor(z, begun.pad);
    put(&mut out[n..], &tag);
    Ok(())
}

// Refused where the tag is wrong. The pass is lent an output of no bytes: a plaintext that is not authentic has nowhere to go.
pub(crate) fn verify(aes: Cipher, m: Message, tag: &Block) -> Result<(), Refusal>
    ensures { outcome_number result ≡ tag_decides (ccm_tag_right (cipher aes.entry.keyed.keys.now) m.entry.iv.now (m.entry.a.now ++ m.entry.b.now) m.entry.text.now tag.now) }
{
    let pads = KeyStream::<3> {
        aes,
        base: base_of(m.iv),
    };
    let begun = chain_start(pads, m);
    let z = pass::<Opening>(pads, begun.chain, m.text, &mut []);
    let right = xor(z, begun.pad);
    check_tag(tag, &right)
}

// The plaintext, where the tag is right. It has room, which is a fact of two values as in `seal`.
pub(crate) fn open(aes: Cipher, m: Message, tag: &Block, out: &mut [u8]) -> Result<(), Refusal>
    requires { length m.text.now ≤ length out.old }
    ensures { ccm_opened (cipher aes.entry.keyed.keys.now) m.entry.iv.now (m.entry.a.now ++ m.entry.b.now) m.entry.text.now tag.now out.old ≡ (outcome_number result, out.new) }
{
    let pads = KeyStream::<3> {
        aes,
        base: base_of(m.iv),
    };
    if m.text.len() <= SHORT {
        let begun = chain_start(pads, m);
        return open_short(pads, begun.chain, begun.pad, m.text, tag, out);
    }
    verify(aes, m, tag)?;
    pads.add(1, m.text, out)
}
