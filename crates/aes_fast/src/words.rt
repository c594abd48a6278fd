// A column as a word of 32 bits, row 0 lowest.
ghost use Rattle.std.specs.Prelude.{◌≡◌};
ghost use Rattle.aes.specs.State.{column_bytes};
ghost use Rattle.aes_fast.specs.ByTables.{column_from};

use aes_state::Column;

pub(crate) fn column_word(a: Column) -> u32
    ensures { column_from result ≡ column_bytes a }
{
    u32::from_le_bytes(a)
}
