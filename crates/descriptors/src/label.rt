// Labels: two zero bytes, then a list in which four types are present.
ghost use Rattle.std.specs.Prelude.{◌≡◌};
ghost use Rattle.descriptors.specs.Labels.{holds, label_says, label_answer};

use crate::descriptor::{Descriptors, type_of};
use crate::list::{Opening, check_list_as};
use refusals::Refusal;

const LABEL_MAX: usize = 4096;

// The zero bytes before the list.
const ZEROS: [u8; 2] = [0; 2];

// The types that a label's list has.
const PRESENT: [usize; 4] = [0x00, 0x01, 0x03, 0x04];

// How a label's list is opened: not strict, since managers in the field put reserved types into labels (document 02, No. 7).
pub const LABEL_OPENING: Opening = Opening {
    label: true,
    strict: false,
};

// Whether one of the whole descriptors that a list begins with has this type.
fn has(list: &[u8], kind: usize) -> bool
    ensures { result ≡ holds kind list.now }
{
    Descriptors { left: list }.any(|d| matches!(d, Ok(d) if type_of(d) == kind))
}

// Tests a label, and counts its descriptors that are not reserved.
pub fn check_label(label: &[u8]) -> Result<usize, Refusal>
    ensures { label_says result ≡ label_answer label.now }
{
    let list = label.strip_prefix(&ZEROS).ok_or(Refusal::Layout)?;
    if !PRESENT.iter().all(|kind| has(list, *kind)) {
        return Err(Refusal::Layout);
    }
    let count = check_list_as(list, LABEL_OPENING)?;
    if label.len() > LABEL_MAX {
        return Err(Refusal::PastMaximum);
    }
    Ok(count)
}
