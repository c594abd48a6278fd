// The cursor: a place in a list, and how the list was opened.
ghost use Rattle.std.specs.Prelude.{◌≡◌, ◌-◌};
ghost use Rattle.octets.specs.Places.{placed, part_in};
ghost use Rattle.descriptors.specs.Descriptor.{strict_by_default};
ghost use Rattle.descriptors.specs.Steps.{step_says, step_answer, begun_says, begun_of, advance_says, advance_of};

use crate::descriptor::{Descriptors, type_of};
use crate::list::{Opening, check_list_as};
use octets::strings::part_in;
use refusals::Refusal;

#[derive(Clone, Copy)]
pub struct Cursor {
    pub at: usize,
    pub opening: Opening,
}

// Where a descriptor begins and ends.
#[derive(Clone, Copy)]
pub struct Span {
    pub from: usize,
    pub end: usize,
}

// What opening gives: the count of the descriptors to come, and the cursor at the list's start.
#[derive(Clone, Copy)]
pub struct Begun {
    pub count: usize,
    pub place: Cursor,
}

// The first descriptor at or after the cursor that is not reserved.
pub fn step_at(list: &[u8], c: Cursor) -> Result<Option<Span>, Refusal>
    ensures { step_says result ≡ step_answer c.opening.label c.opening.strict list.now c.at }
{
    let left = list.get(c.at..).ok_or(Refusal::Layout)?;
    let mut from = c.at;
    for d in (Descriptors { left }) {
        let d = d?;
        let end = from + d.len();
        if !c.opening.reserves(type_of(d)) {
            return Ok(Some(Span { from, end }));
        }
        if c.opening.strict {
            return Err(Refusal::Layout);
        }
        from = end;
    }
    Ok(None)
}

// Opens a list.
pub fn begin_as(list: &[u8], opening: Opening) -> Result<Begun, Refusal>
    ensures { begun_says opening.label opening.strict result ≡ begun_of list.now opening.label opening.strict }
{
    let count = check_list_as(list, opening)?;
    Ok(Begun {
        count,
        place: Cursor { at: 0, opening },
    })
}

// The same without a choice.
pub fn begin(list: &[u8], label: bool) -> Result<Begun, Refusal>
    ensures { begun_says label strict_by_default result ≡ begun_of list.now label strict_by_default }
{
    begin_as(list, Opening::by_default(label))
}

// One step from the cursor: the descriptor shown, and the cursor past it.
pub fn advance_at(list: &[u8], c: Cursor) -> Result<Option<(Span, Cursor)>, Refusal>
    ensures { advance_says c result ≡ advance_of list.now c }
{
    let step = step_at(list, c)?;
    Ok(step.map(|shown| (shown, Cursor { at: shown.end, ..c })))
}

// The bytes of a list from one place to another, as the part of the list that they are.
pub fn part_at(list: &[u8], shown: Span) -> &[u8]
    ensures { placed result ≡ part_in (placed list.entry) shown.from (shown.end - shown.from) }
{
    part_in(list, shown.from, shown.end.saturating_sub(shown.from))
}
