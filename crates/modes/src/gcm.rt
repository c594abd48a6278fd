// GCM: SP 800-38D with a 96-bit IV and a 16-byte tag.
ghost use Rattle.std.specs.Prelude.{◌≡◌, true, ◌++◌, ◌+◌, ◌*◌, ◌≤◌, length};
ghost use Rattle.octets.specs.BigEndian.{be};
ghost use Rattle.octets.specs.Lent.{answer};
ghost use Rattle.aes.specs.Cipher.{cipher};
ghost use Rattle.refusals.specs.Numbers.{outcome_number};
ghost use Rattle.modes.specs.Calls.{tag_decides};
ghost use Rattle.modes.specs.Counter.{front_of};
ghost use Rattle.modes.specs.Gcm.{gcm_tag, gcm_tag_right, gcm_sealed, gcm_opened};

use crate::cipher::Cipher;
use crate::counter::KeyStream;
use crate::message::Message;
use crate::sizes::IV_SIZE;
use crate::tag::check_tag;
use ghash::hash::ghash_parts;
use octets::big_endian::bytes64;
use octets::strings::{Block, put, two_eights, xor};
use refusals::Refusal;

// The counter blocks' front, with a field of zeros.
fn base_of(iv: &[u8]) -> Block
    requires { length iv.now ≡ 12 }
    ensures { result ≡ iv.now ++ be 4 0 }
{
    let mut b = [0; 16];
    b[..IV_SIZE].copy_from_slice(&iv[..IV_SIZE]);
    b
}

// The last block of the hash: both lengths in bits, 64 bits each.
fn lengths_block(m: Message) -> Block
    ensures { result ≡ be 8 (8 * (length m.entry.a.now + length m.entry.b.now)) ++ be 8 (8 * length m.entry.text.now) }
{
    let data = m.a.len() + m.b.len();
    two_eights(bytes64(8 * data as u64), bytes64(8 * m.text.len() as u64))
}

// The tag of a ciphertext. The hash key is made beside the tag's pad.
fn tag_of(pads: KeyStream<4>, m: Message) -> Block
    ensures { result ≡ gcm_tag (cipher pads.entry.aes.keyed.keys.now) (front_of true pads.entry.base) (m.entry.a.now ++ m.entry.b.now) m.entry.text.now }
{
    let both = pads.aes.encrypt_two([0; 16], pads.block(1));
    let key = Block::from(both.one);
    let s = ghash_parts(key, m.a, m.b, m.text, lengths_block(m));
    xor(s, Block::from(both.other))
}

pub(crate) fn seal(aes: Cipher, m: Message, out: &mut [u8]) -> Result<(), Refusal>
    requires { length m.text.now + 16 ≤ length out.old }
    ensures { answer 0 (gcm_sealed (cipher aes.entry.keyed.keys.now) m.entry.iv.now (m.entry.a.now ++ m.entry.b.now) m.entry.text.now) out.old ≡ (outcome_number result, out.new) }
{
    let n = m.text.len();
    let pads = KeyStream::<4> {
        aes,
        base: base_of(m.iv),
    };
    pads.add(2, m.text, out)?;
    let c = Message {
        iv: m.iv,
        a: m.a,
        b: m.b,
        text: &out[..n],
    };
    let tag = tag_of(pads, c);
    put(&mut out[n..], &tag);
    Ok(())
}

// Refused where the tag is wrong.
pub(crate) fn verify(aes: Cipher, m: Message, tag: &Block) -> Result<(), Refusal>
    ensures { outcome_number result ≡ tag_decides (gcm_tag_right (cipher aes.entry.keyed.keys.now) m.entry.iv.now (m.entry.a.now ++ m.entry.b.now) m.entry.text.now tag.now) }
{
    let pads = KeyStream::<4> {
        aes,
        base: base_of(m.iv),
    };
    let right = tag_of(pads, m);
    check_tag(tag, &right)
}

// The plaintext, where the tag is right. The output is lent on only after the tag was found right.
pub(crate) fn open(aes: Cipher, m: Message, tag: &Block, out: &mut [u8]) -> Result<(), Refusal>
    requires { length m.text.now ≤ length out.old }
    ensures { gcm_opened (cipher aes.entry.keyed.keys.now) m.entry.iv.now (m.entry.a.now ++ m.entry.b.now) m.entry.text.now tag.now out.old ≡ (outcome_number result, out.new) }
{
    verify(aes, m, tag)?;
    let pads = KeyStream::<4> {
        aes,
        base: base_of(m.iv),
    };
    pads.add(2, m.text, out)
}
