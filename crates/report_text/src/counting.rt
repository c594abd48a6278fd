// The records of a dump counted, and those that open by each row. The table was checked before, once.
ghost use Rattle.std.specs.Prelude.{◌≡◌, true, ◌≤◌, length};
ghost use Rattle.keytable.specs.Table.{table_ok};
ghost use Rattle.report_text.specs.Dump.{dump_max};
ghost use Rattle.report_text.specs.Counted.{Countable, CountsOne, CountsAll};

use crate::reading::Records;
use keytable::{ROW_MAX, number_at};
use record::opening::opened_by;

// How many rows the table has, how many records the dump, how long they are together, and how many open by each row.
#[derive(Clone, Copy)]
pub(crate) struct Counted {
    pub(crate) rows: usize,
    pub(crate) records: usize,
    pub(crate) bytes: usize,
    pub(crate) opens: [u64; ROW_MAX],
}

// Counts a record for the row by which it opens with no caller's data.
fn count_record(table: &[u8], r: &[u8], opens: &mut [u64])
    requires { (table_ok table.now ≡ true) × Countable table.now opens.old }
    ensures { CountsOne table.now r.now opens.old opens.new }
{
    if let Ok(at) = opened_by(table, r, &[]) {
        opens[number_at(at)] += 1;
    }
}

// Each record's tag is tested once.
pub(crate) fn count(table: &[u8], rows: usize, dump: &[u8]) -> Counted
    requires { (table_ok table.now ≡ true) × (length dump.now ≤ dump_max) }
    ensures { (result.rows ≡ rows) × CountsAll table.now dump.now result.records result.bytes result.opens }
{
    let mut opens = [0u64; ROW_MAX];
    let mut records = 0;
    let mut bytes = 0;
    for record in (Records { rest: dump }) {
        count_record(table, record, &mut opens);
        records += 1;
        bytes += record.len();
    }
    Counted {
        rows,
        records,
        bytes,
        opens,
    }
}
