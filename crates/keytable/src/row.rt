// A row of the key table: its layout, and which type and name it answers to. specs/Row.antt has the definitions.
ghost use Rattle.std.specs.Prelude.{◌≡◌, ◌<◌};
ghost use Rattle.octets.specs.Places.{placed};
ghost use Rattle.keytable.specs.Row.{use_of, type_fits, row_ok, type_in, name_of, placed_name, placed_key, row_in, matches};
ghost use Rattle.keytable.specs.Marks.{mark_count, row_mark};

use crate::sizes::{
    KEK_USE, KEY_AT, KEY_SIZE, MARK_COUNT, NAME_AT, NAME_LENGTH_AT, NAME_MAX, TYPE_AT, USE_AT,
    USE_MAX, ZERO_AT, ZERO_SIZE,
};
use crate::{DATA_TYPE, is_kek_type};
use octets::big_endian::{read8, read16, read64};
use octets::strings::{all_zero, equal, part, part_in};

// Whether a row of this use may have this type.
fn type_fits(u: usize, kind: usize) -> bool
    ensures { result ≡ type_fits u kind }
{
    if u == KEK_USE {
        return is_kek_type(kind);
    }
    kind == DATA_TYPE
}

// The bytes of a row, or fewer, where some are missing.
#[derive(Clone, Copy)]
pub(crate) struct Row<'a> {
    pub(crate) bytes: &'a [u8],
}

impl<'a> Row<'a> {
    // The row's use, type, name and key.
    pub(crate) fn usage(self) -> usize
        ensures { (result ≡ use_of self.entry.bytes.now) × (result < 256) }
    {
        read8(self.bytes, USE_AT)
    }

    pub(crate) fn kind(self) -> usize
        ensures { result ≡ type_in self.entry.bytes.now }
    {
        read16(self.bytes, TYPE_AT)
    }

    pub(crate) fn name(self) -> &'a [u8]
        ensures place { placed result ≡ placed_name (placed self.entry.bytes) }
        ensures value { result.now ≡ name_of self.entry.bytes.now }
    {
        part_in(self.bytes, NAME_AT, read8(self.bytes, NAME_LENGTH_AT))
    }

    pub(crate) fn key(self) -> &'a [u8]
        ensures { placed result ≡ placed_key (placed self.entry.bytes) }
    {
        part_in(self.bytes, KEY_AT, KEY_SIZE)
    }

    // Whether its bytes keep to the layout.
    #[tactic(auto, unfolding(crate::specs::Row::row_ok))]
    pub(crate) fn keeps_to_the_layout(self) -> bool
        ensures { result ≡ row_ok self.entry.bytes.now }
    {
        let row = self.bytes;
        let k = read8(row, NAME_LENGTH_AT);
        let u = self.usage();
        if k > NAME_MAX {
            return false;
        }
        let typed = type_fits(u, self.kind());
        let reserved = all_zero(part(row, ZERO_AT, ZERO_SIZE));
        let padding = all_zero(part(row, NAME_AT + k, NAME_MAX - k));
        (1 <= k) & (k <= NAME_MAX) & (1 <= u) & (u <= USE_MAX) & typed & reserved & padding
    }

    // Its mark (specs/Marks.antt), of its name and the zeros after it.
    #[tactic(auto, using(crate::proofs::Marks::mark_words))]
    pub(crate) fn mark(self) -> usize
        ensures { (result ≡ row_mark self.entry.bytes.now) × (result < mark_count) }
    {
        let name = part(self.bytes, NAME_AT, NAME_MAX);
        let b = read64(name, 8).rotate_right(4);
        let c = read64(name, 16).rotate_right(20);
        let d = read64(name, 24).rotate_right(36);
        let mix = read64(name, 0) ^ b ^ c ^ d;
        let sum = mix / 0x100000000 % 0x100000000 * 0x297A2D39 + mix % 0x100000000 * 0x1E3779B1;
        (sum / 0x4000000) as usize % MARK_COUNT
    }

    // Whether it has this type and this name, whole. Many names begin alike, so the byte where this one ends is looked at first.
    pub(crate) fn answers_to(self, kind: usize, name: &[u8]) -> bool
        ensures { result ≡ matches kind name.now (row_in self.entry.bytes.now) }
    {
        let n = name.len();
        if n > 0 && read8(part(self.bytes, NAME_AT, n), n - 1) != read8(name, n - 1) {
            return false;
        }
        (self.kind() == kind) & equal(self.name(), name)
    }
}
