// The text of a descriptor list, of a label or of a key page: the count, and a line for each descriptor that document 01's reader shows.
// specs/Lines.antt has the text.
#![tactic(auto)]

mod line;

ghost use Rattle.std.specs.Prelude.{◌≡◌, true, ◌≤◌, length};
ghost use Rattle.wording.specs.Writer.{Adds};
ghost use Rattle.descriptors.specs.Tested.{list_ok};
ghost use Rattle.descriptors.specs.Labels.{label_max};
ghost use Rattle.descriptor_text.specs.Lines.{list_text};
ghost use Rattle.descriptor_text.specs.Described.{described_as, described_says, label_described, page_described};

use descriptors::label::{LABEL_OPENING, check_label};
use descriptors::list::Opening;
use descriptors::reader::{Opened, next, open_as};
use keypage::reading::{LIST_OPENING, list_in};
use line::put_descriptor;
use octets::strings::part;
use refusals::Refusal;
use wording::text::Text;
use wording::writing::Writer;

// The zero bytes of a label before its list.
const ZERO_SIZE: usize = 2;

// Room for the text of any list of 4,096 bytes.
const ROOM: usize = 12288;

// Writes the text of a list that is accepted: the count, and a line for each descriptor that the reader shows.
fn put_list(writer: &mut Writer<'_>, list: &[u8], opening: Opening) -> Result<(), Refusal>
    requires { list_ok opening.label opening.strict list.now ≡ true }
    ensures { Adds (list_text opening.label list.now) writer.old writer.new result }
{
    let Opened { count, mut reader } = open_as(list, opening)?;
    writer.put_line(b"descriptors", count as u64)?;
    while let Some(descriptor) = next(&mut reader)? {
        put_descriptor(writer, descriptor)?;
    }
    Ok(())
}

// That text by value; of a list of 4,096 bytes it always has room.
fn describe(list: &[u8], opening: Opening) -> Text<ROOM>
    requires { (list_ok opening.label opening.strict list.now ≡ true) × (length list.now ≤ label_max) }
    ensures { described_as 0 (list_text opening.label list.now) ≡ (0, result.size, result.bytes) }
{
    let mut bytes = [0u8; ROOM];
    let mut writer = Writer {
        out: &mut bytes,
        at: 0,
    };
    put_list(&mut writer, list, opening).unwrap();
    let size = writer.at;
    Text { size, bytes }
}

// The text of a label; or 2 or 4, as its check gives.
pub fn describe_label(label: &[u8]) -> Result<Text<ROOM>, Refusal>
    ensures { label_described label.now ≡ described_says result }
{
    check_label(label)?;
    Ok(describe(part(label, ZERO_SIZE, label.len()), LABEL_OPENING))
}

// The text of a key page's list, which is stepped along as reading tests it; or 2, 3 or 4, as reading gives.
pub fn describe_page(page: &[u8]) -> Result<Text<ROOM>, Refusal>
    ensures { page_described page.now ≡ described_says result }
{
    keypage::reading::check(page)?;
    Ok(describe(list_in(page), LIST_OPENING))
}
