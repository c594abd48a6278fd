// The fields of a key page, from arguments that are words such as scope=2.
use crate::saying::{Said, misused};
use crate::taking::{ARGUMENT_ROOM, argument, has_argument};
use field_words::{Fields, name_field, none_named};

// The fields after argument i.
fn name_argument(rt: &HostRuntime, f: Fields, i: usize) -> Result<Fields, Said> {
    let mut word = [0u8; ARGUMENT_ROOM];
    let word = argument(rt, i, &mut word);
    name_field(f, word).ok_or_else(|| misused(rt, b"a field is name=value, each name once", word))
}

// The fields that the arguments from one on name.
pub(crate) fn take_fields(rt: &HostRuntime, first: usize) -> Result<Fields, Said> {
    (first..usize::MAX)
        .take_while(|i| has_argument(rt, *i))
        .try_fold(none_named(), |fields, i| name_argument(rt, fields, i))
}
