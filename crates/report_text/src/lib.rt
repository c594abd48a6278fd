// The report over a dump of a cartridge (document 02, No. 1): its text, or `refused` and the number. specs/Report.antt has the text.
#![tactic(auto)]

mod counting;
mod lines;
mod reading;

ghost use Rattle.std.specs.Prelude.{◌≡◌, MatchResult};
ghost use Rattle.refusals.specs.Numbers.{number_of, outcome_number};
ghost use Rattle.wording.specs.Writer.{Adds};
ghost use Rattle.report_text.specs.Report.{report_text, report_number, printed, reported};
ghost use Rattle.report_text.specs.Counted.{Reportable};

use counting::{Counted, count};
use lines::put_rows;
use refusals::Refusal;
use wording::text::Text;
use wording::writing::Writer;

// The longest dump that is read.
const DUMP_MAX: usize = 65536;

// Room for the text of any report: 64 lines of at most 91 bytes, and three more.
const ROOM: usize = 6144;

// What is refused, if anything, and what is printed in either case.
#[derive(Clone, Copy)]
pub struct Reported {
    pub outcome: Result<(), Refusal>,
    pub text: Text<ROOM>,
}

// The records of a dump counted, where neither the table nor the dump is refused.
fn count_accepted(table: &[u8], dump: &[u8]) -> Result<Counted, Refusal>
    ensures { MatchResult result (λ c. (report_number table.now dump.now ≡ 0) × Reportable table.now dump.now c.rows c.records c.bytes c.opens)
        (λ e. report_number table.now dump.now ≡ number_of e) }
{
    let rows = keytable::check(table)?;
    let longer = DUMP_MAX < dump.len();
    if longer {
        return Err(Refusal::PastMaximum);
    }
    Ok(count(table, rows, dump))
}

// The text of what was counted; the tail is what the records leave of the dump.
fn put_report(
    writer: &mut Writer<'_>,
    table: &[u8],
    dump: &[u8],
    counted: Counted,
) -> Result<(), Refusal>
    requires { Reportable table.now dump.now counted.rows counted.records counted.bytes counted.opens }
    ensures { Adds (report_text table.now dump.now) writer.old writer.new result }
{
    writer.put_line(b"records", counted.records as u64)?;
    writer.put_line(b"bytes", counted.bytes as u64)?;
    put_rows(writer, table, counted.rows, counted.opens)?;
    writer.put_line(b"tail", (dump.len() - counted.bytes) as u64)
}

// The text of what was counted, or `refused` and the number.
fn put_printed(
    writer: &mut Writer<'_>,
    table: &[u8],
    dump: &[u8],
    counted: Result<Counted, Refusal>,
) -> Result<(), Refusal>
    requires { MatchResult counted (λ c. (report_number table.now dump.now ≡ 0) × Reportable table.now dump.now c.rows c.records c.bytes c.opens)
        (λ e. report_number table.now dump.now ≡ number_of e) }
    ensures { Adds (printed table.now dump.now) writer.old writer.new result }
{
    match counted {
        Ok(counted) => put_report(writer, table, dump, counted),
        Err(refusal) => writer.put_line(b"refused", refusal.number() as u64),
    }
}

// The report over a dump, by a table. Its text always has room.
pub fn report(table: &[u8], dump: &[u8]) -> Reported
    ensures { reported table.now dump.now ≡ (outcome_number result.outcome, result.text.size, result.text.bytes) }
{
    let counted = count_accepted(table, dump);
    let mut bytes = [0u8; ROOM];
    let mut writer = Writer {
        out: &mut bytes,
        at: 0,
    };
    put_printed(&mut writer, table, dump, counted).unwrap();
    let size = writer.at;
    Reported {
        outcome: counted.map(|_| ()),
        text: Text { size, bytes },
    }
}
