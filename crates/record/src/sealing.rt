// Sealing a record: the tests by themselves, which write nothing, and then the record.
ghost use Rattle.std.specs.Prelude.{◌≡◌, length};
ghost use Rattle.std.proofs.Math.Option.{some};
ghost use Rattle.octets.specs.Lent.{over};
ghost use Rattle.refusals.specs.Numbers.{outcome_number};
ghost use Rattle.keytable.specs.Table.{row_at};
ghost use Rattle.keytable.specs.Find.{row_found};
ghost use Rattle.record.specs.Seal.{record_of, record_for, Fillable, ready_answer, seal_answer};

use crate::header::{Header, passes_maximum};
use crate::sizes::CALLERS_MAX;
use keytable::{DATA_TYPE, key_at, use_at};
use modes::{encrypt, iv_size};
use octets::strings::{put, put_both};
use refusals::Refusal;

// What is sealed: the name of the row, the IV, the caller's associated data and the plaintext.
#[derive(Clone, Copy)]
pub(crate) struct Contents<'a> {
    pub(crate) name: &'a [u8],
    pub(crate) iv: &'a [u8],
    pub(crate) aad: &'a [u8],
    pub(crate) plain: &'a [u8],
}

impl Contents<'_> {
    // Every test of sealing into so much room: the place of the name's row, or the lowest number that applies.
    pub(crate) fn ready(self, table: &[u8], room: usize) -> Result<usize, Refusal>
        ensures { ready_answer table.now self.entry.name.now self.entry.iv.now self.entry.aad.now (length self.entry.plain.now) room ≡ (outcome_number result, row_found table.now result) }
    {
        keytable::check(table)?;
        let found = keytable::find(table, DATA_TYPE, self.name);
        // Without a row the lengths are CCM's, as those of a byte that names no mode are.
        let u = found.map_or(0, |at| use_at(table, at));
        if self.name.is_empty() | (self.iv.len() != iv_size(u)) {
            return Err(Refusal::Layout);
        }
        let header = Header {
            mode: u,
            k: self.name.len(),
            n: self.plain.len(),
        };
        if passes_maximum(header.k, header.n) | (CALLERS_MAX < self.aad.len()) {
            return Err(Refusal::PastMaximum);
        }
        if room < header.places().end {
            return Err(Refusal::NoRoom);
        }
        // Document 01 has a lookup's answer taken apart like this, so there is no `?` here.
        let Ok(at) = found else {
            return Err(Refusal::NoRow);
        };
        Ok(at)
    }

    // Writes the record of a use and a key.
    fn fill(self, u: u8, key: &[u8], out: &mut [u8])
        requires { Fillable u key.now self.name.now self.iv.now self.aad.now self.plain.now out.old }
        ensures { out.new ≡ over (record_of u key.now self.entry.name.now self.entry.iv.now self.entry.aad.now self.entry.plain.now) out.old }
    {
        let header = Header {
            mode: u,
            k: self.name.len(),
            n: self.plain.len(),
        };
        let (front, rest) = out.split_at_mut(header.places().iv);
        put_both(&header.bytes(), self.name, front);
        let (iv, rest) = rest.split_at_mut(self.iv.len());
        put(iv, self.iv);
        encrypt(u, key, self.iv, front, self.aad, self.plain, rest).unwrap();
    }

    // Writes the record by the row at the place that the tests found.
    pub(crate) fn write(self, table: &[u8], at: usize, out: &mut [u8])
        requires { ready_answer table.now self.name.now self.iv.now self.aad.now (length self.plain.now) (length out.old) ≡ (0, some (row_at table.now at)) }
        ensures { out.new ≡ over (record_for table.now self.entry.name.now self.entry.iv.now self.entry.aad.now self.entry.plain.now) out.old }
    {
        let u = use_at(table, at);
        self.fill(u, key_at(table, at), out);
    }
}

// Seals: after Ok the first 52 + k + n bytes of the output are the record.
pub fn seal(
    table: &[u8],
    name: &[u8],
    iv: &[u8],
    aad: &[u8],
    plain: &[u8],
    out: &mut [u8],
) -> Result<(), Refusal>
    ensures { seal_answer table.now name.now iv.now aad.now plain.now out.old ≡ (outcome_number result, out.new) }
{
    let contents = Contents {
        name,
        iv,
        aad,
        plain,
    };
    let at = contents.ready(table, out.len())?;
    contents.write(table, at, out);
    Ok(())
}
