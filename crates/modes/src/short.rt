// CCM's opening of a short text: the pass keeps the pads, which hold nothing of the text. So the ciphertext is gone over twice, and ciphered once.
ghost use Rattle.std.specs.Prelude.{◌≡◌, false, ◌≤◌, length};
ghost use Rattle.octets.specs.Lent.{over};
ghost use Rattle.octets.specs.Xor.{xors};
ghost use Rattle.aes.specs.Cipher.{cipher};
ghost use Rattle.refusals.specs.Numbers.{outcome_number};
ghost use Rattle.modes.specs.Counter.{counter_block, front_of};
ghost use Rattle.modes.specs.Within.{short_max, opened_from};

use crate::counter::KeyStream;
use crate::passes::{Opening, pass};
use crate::sizes::SHORT;
use crate::tag::check_tag;
use octets::strings::{Block, xor};
use refusals::Refusal;

// The sum of a ciphertext and its pads over the front of the output.
fn put_sum(out: &mut [u8], c: &[u8], pads: &[u8])
    requires { (length pads.now ≡ length c.now) × (length c.now ≤ length out.old) }
    ensures { out.new ≡ over (xors c.now pads.now) out.old }
{
    for (i, b) in c.iter().enumerate() {
        out[i] = b ^ pads[i];
    }
}

// The plaintext where the tag is right, from the chain's state y before it and from S0. The output is lent on only after the tag was found right.
pub(crate) fn open_short(
    pads: KeyStream<3>,
    y: Block,
    s0: Block,
    c: &[u8],
    tag: &Block,
    out: &mut [u8],
) -> Result<(), Refusal>
    requires { (length c.now ≤ short_max) × (length c.now ≤ length out.old) × (s0 ≡ cipher pads.aes.keyed.keys.now (counter_block 3 (front_of false pads.base) 0)) }
    ensures { opened_from (cipher pads.entry.aes.keyed.keys.now) (front_of false pads.entry.base) y c.now tag.now out.old ≡ (outcome_number result, out.new) }
{
    let n = c.len();
    let mut kept = [0; SHORT];
    let z = pass::<Opening>(pads, y, c, &mut kept);
    let right = xor(z, s0);
    check_tag(tag, &right)?;
    put_sum(out, c, &kept[..n]);
    Ok(())
}
