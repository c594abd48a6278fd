// The records of a dump, each read where the one before it ends.
ghost use Rattle.std.specs.Prelude.{◌≡◌, true, false, take, MatchOption};
ghost use Rattle.std.specs.Iterator.{YieldsFirstRef, item_count};
ghost use Rattle.record.specs.Record.{end_in};
ghost use Rattle.report_text.specs.Dump.{readable, records_in};

use record::header::{check, end_in};

// The record that a dump begins with, as long as its own header says; None where none can be read there.
fn first_record(dump: &[u8]) -> Option<&[u8]>
    ensures { MatchOption result (readable dump.now ≡ false) (λ r. (readable dump.now ≡ true) × (r.now ≡ take (end_in dump.now) dump.now)) }
{
    let record = dump.get(..end_in(dump))?;
    match check(record) {
        Ok(()) => Some(record),
        Err(_) => None,
    }
}

// The records that a dump begins with, one after the other.
#[derive(Clone, Copy)]
pub(crate) struct Records<'a> {
    pub(crate) rest: &'a [u8],
}

impl<'a> Iterator for Records<'a> {
    type Item = &'a [u8];

    ghost next_gives = { YieldsFirstRef (λ s. records_in s.rest.now) };

    ghost remaining = { item_count (λ s. records_in s.rest.now) };

    fn next(&mut self) -> Option<&'a [u8]> {
        let record = first_record(self.rest)?;
        self.rest = &self.rest[record.len()..];
        Some(record)
    }
}
