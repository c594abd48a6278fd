// The line of one descriptor.
ghost use Rattle.descriptor_text.specs.Lines.{descriptor_line};
ghost use Rattle.wording.specs.Writer.{Adds};

use octets::strings::part;
use refusals::Refusal;
use wording::writing::Writer;

// Where a descriptor's length stands, after its type and a zero byte, and where its bytes begin.
const LENGTH_AT: usize = 2;

const LENGTH_SIZE: usize = 2;

const BYTES_AT: usize = 4;

// Type, length and bytes, with a space between each two.
pub(crate) fn put_descriptor(writer: &mut Writer<'_>, d: &[u8]) -> Result<(), Refusal>
    ensures { Adds (descriptor_line d.now) writer.old writer.new result }
{
    writer.put_hex(part(d, 0, 1), true)?;
    writer.put_byte(b' ')?;
    writer.put_hex(part(d, LENGTH_AT, LENGTH_SIZE), true)?;
    writer.put_byte(b' ')?;
    writer.put_shown(part(d, BYTES_AT, d.len()), true)?;
    writer.put_byte(b'\n')
}
