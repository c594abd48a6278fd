// Descriptor lists and labels. Any value of `label` and of `strict` but 0 is yes.
ghost use Rattle.std.specs.Prelude.{◌≡◌, not, eqb};
ghost use Rattle.descriptors.specs.Descriptor.{strict_by_default};
ghost use Rattle.descriptors.specs.Tested.{list_check};
ghost use Rattle.descriptors.specs.Steps.{list_step};
ghost use Rattle.descriptors.specs.Labels.{label_check};

use descriptors::cursor::Cursor;
use descriptors::list::Opening;
use refusals::number;

fn opening_of(label: u8, strict: u8) -> Opening
    ensures { result ≡ record { label = not (eqb label 0); strict = not (eqb strict 0) } }
{
    Opening {
        label: label != 0,
        strict: strict != 0,
    }
}

#[unsafe(no_mangle)]
pub extern "C" fn spadeswirl_list_check(list: &[u8], label: u8, count: &mut u64) -> u8
    ensures { list_check (not (eqb label 0)) strict_by_default list.now count.old ≡ (result, count.new) }
{
    number(descriptors::list_check(list, label != 0, count))
}

#[unsafe(no_mangle)]
pub extern "C" fn spadeswirl_list_check_as(
    list: &[u8],
    label: u8,
    strict: u8,
    count: &mut u64,
) -> u8
    ensures { list_check (not (eqb label 0)) (not (eqb strict 0)) list.now count.old ≡ (result, count.new) }
{
    number(descriptors::list_check_as(list, opening_of(label, strict), count))
}

#[unsafe(no_mangle)]
pub extern "C" fn spadeswirl_list_step(
    list: &[u8],
    label: u8,
    strict: u8,
    place: u64,
    shown: &mut [u64; 2],
) -> u8
    ensures { list_step (not (eqb label 0)) (not (eqb strict 0)) list.now place shown.old ≡ (result, shown.new) }
{
    let cursor = Cursor {
        at: place as usize,
        opening: opening_of(label, strict),
    };
    number(descriptors::list_step(list, cursor, shown))
}

#[unsafe(no_mangle)]
pub extern "C" fn spadeswirl_label_check(label: &[u8], count: &mut u64) -> u8
    ensures { label_check label.now count.old ≡ (result, count.new) }
{
    number(descriptors::label_check(label, count))
}
