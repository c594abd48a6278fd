// The reader: the caller's list, and a place in it. Its functions are thin; the cursor's do the work.
ghost use Rattle.std.specs.Prelude.{◌≡◌};
ghost use Rattle.descriptors.specs.Descriptor.{strict_by_default};
ghost use Rattle.descriptors.specs.Readers.{opened_says, opened_of, shown_says, next_of};

use crate::cursor::{Cursor, advance_at, begin_as, part_at};
use crate::list::Opening;
use refusals::Refusal;

#[derive(Clone, Copy)]
pub struct Reader<'a> {
    pub list: &'a [u8],
    pub place: Cursor,
}

// What opening gives: the count of the descriptors to come, and the reader at the list's start.
#[derive(Clone, Copy)]
pub struct Opened<'a> {
    pub count: usize,
    pub reader: Reader<'a>,
}

// Opens a list.
pub fn open_as(list: &[u8], opening: Opening) -> Result<Opened<'_>, Refusal>
    ensures { opened_says list.entry opening.label opening.strict result ≡ opened_of list.entry opening.label opening.strict }
{
    let begun = begin_as(list, opening)?;
    Ok(Opened {
        count: begun.count,
        reader: Reader {
            list,
            place: begun.place,
        },
    })
}

// The same without a choice.
pub fn open(list: &[u8], label: bool) -> Result<Opened<'_>, Refusal>
    ensures { opened_says list.entry label strict_by_default result ≡ opened_of list.entry label strict_by_default }
{
    open_as(list, Opening::by_default(label))
}

// A step where the caller holds the reader: the descriptor is shown, and the place moves past it.
// Where none is left (`Ok(None)`), and where the step is refused, the place stays as it was.
pub fn next<'a>(r: &mut Reader<'a>) -> Result<Option<&'a [u8]>, Refusal>
    ensures { next_of r.old ≡ (shown_says r.old result, r.new) }
{
    let Some((shown, place)) = advance_at(r.list, r.place)? else {
        return Ok(None);
    };
    r.place = place;
    Ok(Some(part_at(r.list, shown)))
}
