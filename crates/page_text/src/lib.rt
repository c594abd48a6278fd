// The page lister of document 01: the text of a page's fields, or `refused` and the number. specs/Listing.antt has the text.
#![tactic(auto)]

ghost use Rattle.std.specs.Prelude.{◌≡◌, ◌≤◌, length};
ghost use Rattle.refusals.specs.Numbers.{number_of};
ghost use Rattle.wording.specs.Lines.{refused_line};
ghost use Rattle.wording.specs.Writer.{Adds};
ghost use Rattle.page_text.specs.Listing.{lines_in, lines_said, listing, listing_max, listing_answer};

use refusals::Refusal;
use wording::text::Text;
use wording::writing::Writer;

// The longest page.
const PAGE_MAX: usize = 4096;

// How many fields a page has, as it is read.
const FIELD_COUNT: usize = 14;

const LISTING_MAX: usize = 256;

// A line of each word and its number.
fn put_lines(writer: &mut Writer<'_>, lines: &[(&str, u64)]) -> Result<(), Refusal>
    ensures { Adds (lines_said lines.now) writer.old writer.new result }
{
    for (word, n) in lines {
        writer.put_line(word.as_bytes(), *n)?;
    }
    Ok(())
}

// The eight lines, of the fields in the order in which a page is read.
fn put_fields(writer: &mut Writer<'_>, fields: [u64; FIELD_COUNT]) -> Result<(), Refusal>
    ensures text { Adds (lines_in fields) writer.old writer.new result }
    ensures has_room { length (lines_in fields) ≤ listing_max }
{
    let [
        scope,
        lock,
        _ceem,
        _rdmc,
        _sdk,
        _ckod,
        _ckorp,
        _ckorl,
        encrypt,
        decrypt,
        algorithm,
        format,
        key_length,
        descriptors,
    ] = fields;
    put_lines(
        writer,
        &[
            ("scope", scope),
            ("lock", lock),
            ("encrypt", encrypt),
            ("decrypt", decrypt),
            ("algorithm", algorithm),
            ("format", format),
            ("key length", key_length),
            ("descriptors", descriptors),
        ],
    )
}

fn put_refused(writer: &mut Writer<'_>, refusal: Refusal) -> Result<(), Refusal>
    ensures { Adds (refused_line (number_of refusal)) writer.old writer.new result }
{
    writer.put_line(b"refused", refusal.number() as u64)
}

// Over 4,096 bytes there is no other test.
fn put_listing(writer: &mut Writer<'_>, input: &[u8]) -> Result<(), Refusal>
    ensures text { Adds (listing input.now) writer.old writer.new result }
    ensures has_room { length (listing input.now) ≤ listing_max }
{
    if PAGE_MAX < input.len() {
        return put_refused(writer, Refusal::PastMaximum);
    }
    let mut fields = [0u64; FIELD_COUNT];
    match keypage::reading::read(input, &mut fields) {
        Ok(()) => put_fields(writer, fields),
        Err(refusal) => put_refused(writer, refusal),
    }
}

// The text that document 01's page lister prints for an input, which always has room.
pub fn list_page(input: &[u8]) -> Text<LISTING_MAX>
    ensures { (listing_answer input.now ≡ (result.size, result.bytes)) × (result.size ≤ listing_max) }
{
    let mut bytes = [0u8; LISTING_MAX];
    let mut writer = Writer {
        out: &mut bytes,
        at: 0,
    };
    put_listing(&mut writer, input).unwrap();
    let size = writer.at;
    Text { size, bytes }
}
