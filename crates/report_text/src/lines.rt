// The lines of the rows: `open`, the name in hexadecimal digits, and how many open by it.
ghost use Rattle.std.specs.Prelude.{◌≡◌, true, ◌≤◌};
ghost use Rattle.wording.specs.Writer.{Adds};
ghost use Rattle.keytable.specs.Table.{row_count, row_max, rows_of, head_ok};
ghost use Rattle.report_text.specs.Report.{open_line};
ghost use Rattle.report_text.specs.Counted.{count_lines};

use keytable::{ROW_MAX, name_at, place_of};
use refusals::Refusal;
use wording::writing::Writer;

fn put_open(writer: &mut Writer<'_>, name: &[u8], n: u64) -> Result<(), Refusal>
    ensures { Adds (open_line name.now n) writer.old writer.new result }
{
    writer.put_string(b"open ")?;
    writer.put_hex(name, true)?;
    writer.put_line(b"", n)
}

// A line for each row of a table of so many rows.
pub(crate) fn put_rows(
    writer: &mut Writer<'_>,
    table: &[u8],
    rows: usize,
    counts: [u64; ROW_MAX],
) -> Result<(), Refusal>
    requires { (head_ok table.now ≡ true) × (rows ≡ row_count table.now) × (rows ≤ row_max) }
    ensures { Adds (count_lines counts 0 (rows_of table.now)) writer.old writer.new result }
{
    for i in 0..rows {
        put_open(writer, name_at(table, place_of(i as u16)), counts[i])?;
    }
    Ok(())
}
