// Writing a key page (document 02, No. 3), of its fields, its KEY part and its descriptors. specs/Written.antt has the page, specs/Write.antt the numbers.
#![tactic(auto)]

mod fields;
mod filling;
mod numbers;
mod wrapping;

ghost use Rattle.std.specs.Prelude.{◌≡◌};
ghost use Rattle.refusals.specs.Numbers.{outcome_number};
ghost use Rattle.page_writer.specs.Write.{write_answer, write_wrapped_answer};

use fields::Chosen;
use filling::Page;
use keytable::key_at;
use numbers::{test_wrapping, test_writing};
use refusals::Refusal;
use wrapping::Part;

// The fields that a page is written from, in the order of the C interface: scope to key format.
pub const CHOSEN_COUNT: usize = 12;

// Writes the page of these fields, of a KEY part as it stands and of descriptors end to end, over the front of the output, and its length; or nothing.
pub fn write(
    fields: &[u64; CHOSEN_COUNT],
    s: &[u8],
    list: &[u8],
    out: &mut [u8],
    n: &mut u64,
) -> Result<(), Refusal>
    ensures { write_answer fields.now s.now list.now out.old n.old ≡ ((outcome_number result, out.new), n.new) }
{
    let fields = Chosen::from(*fields);
    test_writing(fields, s, list, out.len())?;
    let page = Page {
        fields,
        part: s,
        list,
    };
    page.fill(out);
    *n = page.size() as u64;
    Ok(())
}

// Wraps the key by the row of this KEK type and this whole identifier, and writes its page over the front of the output, and its length; or nothing.
pub fn write_wrapped(
    table: &[u8],
    fields: &[u64; CHOSEN_COUNT],
    kind: usize,
    identifier: &[u8],
    key: &[u8],
    list: &[u8],
    out: &mut [u8],
    n: &mut u64,
) -> Result<(), Refusal>
    ensures { write_wrapped_answer table.now fields.now kind identifier.now key.now list.now out.old
        n.old ≡ ((outcome_number result, out.new), n.new) }
{
    keytable::check(table)?;
    let fields = Chosen::from(*fields);
    test_wrapping(fields, kind, identifier, key, list, out.len())?;
    // Document 01 has a lookup's answer taken apart like this, so there is no `?` here.
    let Ok(at) = keytable::find(table, kind, identifier) else {
        return Err(Refusal::NoRow);
    };
    let part = Part::of(key_at(table, at), kind, identifier, key);
    let page = Page {
        fields,
        part: part.as_bytes(),
        list,
    };
    page.fill(out);
    *n = page.size() as u64;
    Ok(())
}
