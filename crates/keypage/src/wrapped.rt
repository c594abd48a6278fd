// A KEY part of format 04h: a wrapped key.
ghost use Rattle.std.specs.Prelude.{◌≡◌, ◌<◌};
ghost use Rattle.keypage.specs.KeyPart.{kek_type, identifier_of, wrapped_at, wrapped_of};

use crate::sizes::{IDENTIFIER_AT, IDENTIFIER_LENGTH_AT, KEK_TYPE_AT};
use octets::big_endian::read16;
use octets::strings::part;

// The KEK type, the identifier and the wrapped key of such a part, and where the last begins; of any bytes what the layout has there.
pub fn kek_type(s: &[u8]) -> usize
    ensures { result ≡ kek_type s.now }
{
    read16(s, KEK_TYPE_AT)
}

pub fn identifier(s: &[u8]) -> &[u8]
    ensures { result.now ≡ identifier_of s.now }
{
    let n = read16(s, IDENTIFIER_LENGTH_AT);
    part(s, IDENTIFIER_AT, n)
}

pub fn wrapped_at(s: &[u8]) -> usize
    ensures { (result ≡ wrapped_at s.now) × (result < 65540) }
{
    IDENTIFIER_AT + read16(s, IDENTIFIER_LENGTH_AT)
}

pub fn wrapped(s: &[u8]) -> &[u8]
    ensures { result.now ≡ wrapped_of s.now }
{
    part(s, wrapped_at(s), s.len())
}
