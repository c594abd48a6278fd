// The KEY part of format 04h, its key wrapped by a row's key.
ghost use Rattle.std.specs.Prelude.{◌≡◌, ◌++◌, ◌≤◌, List, ℕ, length, take};
ghost use Rattle.octets.specs.BigEndian.{be};
ghost use Rattle.keytable.specs.Row.{name_max};
ghost use Rattle.keywrap.specs.Wrap.{wrapped};
ghost use Rattle.keywrap.specs.Calls.{key_size_lem};
ghost use Rattle.page_writer.specs.Written.{wrapped_part, wrapped_part_size};

use keypage::sizes::IDENTIFIER_AT;
use octets::big_endian::bytes16;
use octets::strings::put_three;
use std::marker::Model;

// The longest: four bytes, an identifier of 32 and a wrapped key of 40.
const PART_MAX: usize = 76;

pub(crate) const WRAPPED_SIZE: usize = 40;

// A key of 32 bytes, wrapped.
fn wrapped_key(kek: &[u8], key: &[u8]) -> [u8; WRAPPED_SIZE]
    requires { (length kek.now ≡ key_size_lem) × (length key.now ≡ key_size_lem) }
    ensures { result ≡ wrapped kek.now key.now }
{
    let mut w = [0; WRAPPED_SIZE];
    keywrap::wrap(kek, key, &mut w).unwrap();
    w
}

// The words before the identifier.
fn part_head(kind: usize, size: usize) -> [u8; IDENTIFIER_AT]
    ensures { result ≡ be 2 kind ++ be 2 size }
{
    let [kind_high, kind_low] = bytes16(kind);
    let [size_high, size_low] = bytes16(size);
    [kind_high, kind_low, size_high, size_low]
}

// How long the KEY part is with an identifier of 32 bytes at most.
pub(crate) fn part_size(identifier: &[u8]) -> usize
    requires { length identifier.now ≤ name_max }
    ensures { result ≡ wrapped_part_size (length identifier.now) }
{
    IDENTIFIER_AT + identifier.len() + WRAPPED_SIZE
}

// Such a KEY part, in the front of its room.
#[derive(Drop)]
pub(crate) struct Part {
    room: [u8; PART_MAX],
    size: usize,
}

impl Model for Part {
    ghost Value = { List ℕ };

    ghost view = { λ part. take part.size part.room };

    ghost invariant = { λ part. part.size ≤ 76 };
}

impl Part {
    pub(crate) fn of(kek: &[u8], kind: usize, identifier: &[u8], key: &[u8]) -> Part
        requires { (length kek.now ≡ key_size_lem) × (length key.now ≡ key_size_lem) × (length identifier.now ≤ name_max) }
        ensures { result ≡ wrapped_part kind identifier.now (wrapped kek.now key.now) }
    {
        let mut room = [0; PART_MAX];
        let head = part_head(kind, identifier.len());
        let w = wrapped_key(kek, key);
        put_three(&head, identifier, &w, &mut room);
        Part {
            room,
            size: part_size(identifier),
        }
    }

    pub(crate) fn as_bytes(&self) -> &[u8]
        ensures { result.now ≡ self.now }
    {
        &self.room[..self.size]
    }
}
