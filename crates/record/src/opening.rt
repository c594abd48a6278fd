// Opening a record, and verifying one, which is lent no output. Opening lends its output to the mode alone, which writes only after the tag was found right.
ghost use Rattle.std.specs.Prelude.{◌≡◌, IfOk};
ghost use Rattle.refusals.specs.Numbers.{outcome_number};
ghost use Rattle.record.specs.Open.{open_answer, verify_answer, TestsFind, opened_at, opening_says};

use crate::accepted::Record;
use crate::header::read;
use crate::sizes::{CALLERS_MAX, COUNT_AT};
use keytable::{DATA_TYPE, key_at, use_at};
use octets::big_endian::read32;
use refusals::Refusal;

// What the tests before the tag's find: the place of the name's row, and the record.
#[derive(Clone, Copy)]
pub(crate) struct Ready<'a> {
    pub(crate) at: usize,
    pub(crate) record: Record<'a>,
}

// The tests of opening into so much room, but for the table's and the tag's. It is for callers that have checked the table.
fn ready_to_open<'a>(
    table: &[u8],
    r: &'a [u8],
    aad: &[u8],
    room: usize,
) -> Result<Ready<'a>, Refusal>
    ensures find { TestsFind table.now r.now aad.now room result }
    ensures same { IfOk result (λ ready. ready.record.bytes.now ≡ r.now) }
{
    let header = read(r)?;
    let record = Record { bytes: r, header };
    if CALLERS_MAX < aad.len() {
        return Err(Refusal::PastMaximum);
    }
    if room < header.n {
        return Err(Refusal::NoRoom);
    }
    // Document 01 has a lookup's answer taken apart like this, so there is no `?` here.
    let Ok(at) = keytable::find(table, DATA_TYPE, record.name()) else {
        return Err(Refusal::NoRow);
    };
    let u = use_at(table, at);
    let differs = u != header.mode;
    if differs {
        return Err(Refusal::OtherUse);
    }
    Ok(Ready { at, record })
}

// Opens: after Ok the first n bytes of the output are the plaintext, and n is stored where C lends a count, which a refusal leaves as it was.
pub fn open(
    table: &[u8],
    r: &[u8],
    aad: &[u8],
    out: &mut [u8],
    count: &mut u64,
) -> Result<(), Refusal>
    ensures { open_answer table.now r.now aad.now out.old count.old ≡ ((outcome_number result, out.new), count.new) }
{
    keytable::check(table)?;
    let Ready { at, record } = ready_to_open(table, r, aad, out.len())?;
    record.open(key_at(table, at), aad, out)?;
    *count = record.header.n as u64;
    Ok(())
}

// Opens without an output: the place of the row by which the record opens. It is for callers that have checked the table: of the table's layout it looks at
// the header alone.
pub fn opened_by(table: &[u8], r: &[u8], aad: &[u8]) -> Result<usize, Refusal>
    ensures { opening_says result ≡ opened_at table.now r.now aad.now }
{
    let Ready { at, record } = ready_to_open(table, r, aad, read32(r, COUNT_AT))?;
    record.verify(key_at(table, at), aad)?;
    Ok(at)
}

// Verifies: what opening answers where there is room for the plaintext. It is lent no output.
pub fn verify(table: &[u8], r: &[u8], aad: &[u8]) -> Result<(), Refusal>
    ensures { outcome_number result ≡ verify_answer table.now r.now aad.now }
{
    keytable::check(table)?;
    opened_by(table, r, aad)?;
    Ok(())
}
