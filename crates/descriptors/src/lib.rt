// Descriptor lists and labels of document 01: their test, a cursor that steps along a list, and a reader that holds both.
// specs/Parse.antt has the descriptors of a list, specs/Tested.antt, specs/Steps.antt and specs/Labels.antt the numbers.
#![tactic(auto)]

pub mod cursor;
mod descriptor;
pub mod label;
pub mod list;
pub mod reader;

ghost use Rattle.std.specs.Prelude.{◌≡◌};
ghost use Rattle.refusals.specs.Numbers.{outcome_number};
ghost use Rattle.descriptors.specs.Descriptor.{strict_by_default};
ghost use Rattle.descriptors.specs.Tested.{list_check};
ghost use Rattle.descriptors.specs.Steps.{list_step};
ghost use Rattle.descriptors.specs.Labels.{label_check};

use cursor::{Cursor, Span, step_at};
use label::check_label;
use list::{Opening, check_list_as};
use refusals::Refusal;

// Stores the count of a list's unreserved descriptors; or changes nothing, and gives 2.
pub fn list_check_as(list: &[u8], opening: Opening, count: &mut u64) -> Result<(), Refusal>
    ensures { list_check opening.label opening.strict list.now count.old ≡ (outcome_number result, count.new) }
{
    *count = check_list_as(list, opening)? as u64;
    Ok(())
}

// The same without a choice.
pub fn list_check(list: &[u8], label: bool, count: &mut u64) -> Result<(), Refusal>
    ensures { list_check label strict_by_default list.now count.old ≡ (outcome_number result, count.new) }
{
    list_check_as(list, Opening::by_default(label), count)
}

// Stores where the next descriptor begins and ends, both the place itself where none is left; or changes nothing, and gives 2.
pub fn list_step(list: &[u8], c: Cursor, shown: &mut [u64; 2]) -> Result<(), Refusal>
    ensures { list_step c.opening.label c.opening.strict list.now c.at shown.old ≡ (outcome_number result, shown.new) }
{
    let span = step_at(list, c)?.unwrap_or(Span {
        from: c.at,
        end: c.at,
    });
    *shown = [span.from as u64, span.end as u64];
    Ok(())
}

// Stores the count of a label's unreserved descriptors; or changes nothing, and gives 2 or 4.
pub fn label_check(label: &[u8], count: &mut u64) -> Result<(), Refusal>
    ensures { label_check label.now count.old ≡ (outcome_number result, count.new) }
{
    *count = check_label(label)? as u64;
    Ok(())
}
