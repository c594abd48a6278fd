// How a list is opened; the test of a whole list, and the count of its descriptors that are not reserved.
ghost use Rattle.std.specs.Prelude.{◌≡◌, ◌&&◌, not, leb};
ghost use Rattle.descriptors.specs.Descriptor.{is_reserved, is_refused, strict_by_default};
ghost use Rattle.descriptors.specs.Tested.{tested_says, list_answer};

use crate::descriptor::{Descriptors, type_of};
use refusals::Refusal;

// The reserved types of a page and of a label: from these on, and to this.
const PAGE_RESERVED: usize = 0x04;

const LABEL_RESERVED: usize = 0x05;

const RESERVED_TO: usize = 0xBF;

// A list opened without a choice is opened strict: document 02, No. 7.
pub const STRICT_BY_DEFAULT: bool = true;

// How a list is opened: as a label's or a page's, and whether a reserved type is refused.
#[derive(Clone, Copy)]
pub struct Opening {
    pub label: bool,
    pub strict: bool,
}

impl Opening {
    // The opening of a list without a choice.
    pub(crate) fn by_default(label: bool) -> Opening
        ensures { result ≡ record { label = label; strict = strict_by_default } }
    {
        Opening {
            label,
            strict: STRICT_BY_DEFAULT,
        }
    }

    // Whether a type is reserved.
    pub(crate) fn reserves(self, kind: usize) -> bool
        ensures { result ≡ is_reserved self.label kind }
    {
        let first = if self.label {
            LABEL_RESERVED
        } else {
            PAGE_RESERVED
        };
        (first..=RESERVED_TO).contains(&kind)
    }

    // Whether a descriptor's type is at least the least, and admitted.
    fn admits(self, least: usize, kind: usize) -> bool
        ensures { result ≡ (leb least kind && not (is_refused self.label self.strict kind)) }
    {
        least <= kind && !(self.strict && self.reserves(kind))
    }
}

// Tests a whole list, and counts its descriptors that are not reserved.
pub fn check_list_as(list: &[u8], opening: Opening) -> Result<usize, Refusal>
    ensures { tested_says result ≡ list_answer opening.label opening.strict list.now }
{
    let mut least = 0;
    let mut count = 0;
    for d in (Descriptors { left: list }) {
        let kind = type_of(d?);
        if !opening.admits(least, kind) {
            return Err(Refusal::Layout);
        }
        if !opening.reserves(kind) {
            count += 1;
        }
        least = kind + 1;
    }
    Ok(count)
}

// The same without a choice.
pub fn check_list(list: &[u8], label: bool) -> Result<usize, Refusal>
    ensures { tested_says result ≡ list_answer label strict_by_default list.now }
{
    check_list_as(list, Opening::by_default(label))
}
