// The tests of writing: the lowest number that applies refuses.
ghost use Rattle.std.specs.Prelude.{◌≡◌};
ghost use Rattle.refusals.specs.Numbers.{outcome_number};
ghost use Rattle.page_writer.specs.Chosen.{values_of};
ghost use Rattle.page_writer.specs.Write.{not_carried, write_number, wrapping_number};

use crate::fields::Chosen;
use crate::filling::{page_size, passes_page};
use crate::wrapping::{WRAPPED_SIZE, part_size};
use keypage::parts::{part_broken, part_long, part_refused};
use keypage::reading::list_ok;
use keypage::sizes::{KEY_SIZE, NAME_MAX, WRAPPED_FORMAT};
use keypage::wrapped::wrapped;
use keytable::is_kek_type;
use refusals::Refusal;

// Whether a wrapped key that is carried has another length than 40 bytes.
fn not_carried(v: Chosen, s: &[u8]) -> bool
    ensures { result ≡ not_carried (values_of v) s.now }
{
    v.format() == WRAPPED_FORMAT && wrapped(s).len() != WRAPPED_SIZE
}

// A page of a KEY part as it stands. 2: its list or that part breaks its layout. 3: a field is too wide or not permitted, or its format or KEK type is not.
// 4: the page, or its reference or identifier, passes its maximum. 5: the room. 8: a wrapped key that is carried has not 40 bytes.
#[tactic(auto, unfolding(crate::specs::Write::write_number))]
pub(crate) fn test_writing(v: Chosen, s: &[u8], list: &[u8], room: usize) -> Result<(), Refusal>
    ensures { outcome_number result ≡ write_number (values_of v) s.now list.now room }
{
    let format = v.format();
    if !list_ok(list) || part_broken(format, s) {
        return Err(Refusal::Layout);
    }
    if !v.good() || part_refused(format, s) {
        return Err(Refusal::NotPermitted);
    }
    if passes_page(s.len(), list.len()) || part_long(format, s) {
        return Err(Refusal::PastMaximum);
    }
    if room < page_size(s.len(), list.len()) {
        return Err(Refusal::NoRoom);
    }
    if not_carried(v, s) {
        return Err(Refusal::WrappedLength);
    }
    Ok(())
}

// A page whose key is to be wrapped, before the row is looked for. 2: its list breaks its layout, the key has not 32 bytes, or the identifier none.
// 3: a field is too wide or not permitted, the format is not 04h, or the type is no key-encrypting key's: 0 is a data row's. 4: the identifier or the page
// passes its maximum. 5: the room.
#[tactic(auto, unfolding(crate::specs::Write::wrapping_number))]
pub(crate) fn test_wrapping(
    v: Chosen,
    kind: usize,
    identifier: &[u8],
    key: &[u8],
    list: &[u8],
    room: usize,
) -> Result<(), Refusal>
    ensures { outcome_number result ≡ wrapping_number (values_of v) kind identifier.now key.now list.now room }
{
    if !list_ok(list) || key.len() != KEY_SIZE || identifier.is_empty() {
        return Err(Refusal::Layout);
    }
    if !v.good() || v.format() != WRAPPED_FORMAT || !is_kek_type(kind) {
        return Err(Refusal::NotPermitted);
    }
    if NAME_MAX < identifier.len() || passes_page(part_size(identifier), list.len()) {
        return Err(Refusal::PastMaximum);
    }
    if room < page_size(part_size(identifier), list.len()) {
        return Err(Refusal::NoRoom);
    }
    Ok(())
}
