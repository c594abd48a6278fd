// Bytes as elements of GF(2^8), the S-box as a constant table, and its inverse worked out (FIPS 197, sections 4, 5.1.1 and 5.3.2).
#![tactic(auto)]

pub mod inv_sbox;
mod sbox;

ghost use Rattle.std.specs.Prelude.{◌≡◌};
ghost use Rattle.aes_field.specs.Field.{xtime, sbox};

use sbox::SBOX;

// Times x in the field.
#[tactic(auto, unfolding(crate::specs::Field::xtime))]
pub fn double(a: u8) -> u8
    ensures { result ≡ xtime a }
{
    ((a as u16 * 2 % 256) as u8) ^ (a / 128 * 27)
}

// 5.1.1: the S-box of a byte.
pub fn sub(a: u8) -> u8
    ensures { result ≡ sbox a }
{
    SBOX[a as usize]
}
