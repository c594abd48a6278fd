// Loading the key of a page: every refusal comes before the first write. The KEY part is handed to the reader of its format.
ghost use Rattle.std.specs.Prelude.{◌≡◌, true, false, ℕ, ◌≤◌, length, IfErr, IfOk, MatchOption};
ghost use Rattle.std.proofs.Math.Option.{some, none};
ghost use Rattle.refusals.specs.Numbers.{number_of, outcome_number};
ghost use Rattle.keytable.specs.Row.{row_key_size};
ghost use Rattle.keytable.specs.Table.{table_ok, row_for, data_row, row_at};
ghost use Rattle.keypage.specs.Page.{algorithm_in, format_in, key_part_of};
ghost use Rattle.keypage.specs.KeyPart.{reference_format, wrapped_format};
ghost use Rattle.keypage.specs.Load.{kek_row, row_named, part_answer, load_answer};

use crate::parts::Format;
use crate::reading::{FIELD_COUNT, Page};
use crate::sizes::KEY_SIZE;
use crate::wrapped::{identifier, kek_type, wrapped};
use keytable::{DATA_TYPE, key_at, use_at};
use octets::strings::put;
use refusals::Refusal;

// A key table that its check accepts.
#[derive(Clone, Copy)]
struct Table<'a> {
    bytes: &'a [u8],
    ghost accepted: { table_ok bytes.now ≡ true },
}

impl<'a> Table<'a> {
    #[tactic(auto, unfolding(keytable::specs::Calls::table_number, keytable::specs::Calls::table_answer))]
    fn of(t: &'a [u8]) -> Result<Table<'a>, Refusal>
        ensures table { IfOk result (λ table. table.bytes ≡ t.entry) }
        ensures refused { IfErr result (λ e. (number_of e ≡ 1) × (table_ok t.entry.now ≡ false)) }
    {
        keytable::check(t)?;
        Ok(Table { bytes: t })
    }

    // The place of the row of a type and a whole name. Document 01 has a lookup's answer taken apart by `let .. else`, so no caller uses `?` on it.
    fn find(self, kind: usize, name: &[u8]) -> Option<usize>
        ensures { let row = row_for self.entry.bytes.now kind name.now in
            MatchOption result (row ≡ none) (λ at. (row ≡ some (row_at self.entry.bytes.now at)) × (length (row_at self.entry.bytes.now at).row_key ≡ row_key_size)) }
    {
        keytable::find(self.bytes, kind, name).ok()
    }
}

// A reference, matched whole as a name: the row's key.
#[tactic(auto, unfolding(crate::specs::Load::key_loaded))]
fn load_reference(table: Table, algorithm: usize, s: &[u8], out: &mut [u8]) -> Result<(), Refusal>
    ensures { part_answer (data_row table.entry.bytes.now s.now) algorithm reference_format s.now out.old ≡ (outcome_number result, out.new) }
{
    let Some(at) = table.find(DATA_TYPE, s) else {
        return Err(Refusal::NoRow);
    };
    if use_at(table.bytes, at) as usize != algorithm {
        return Err(Refusal::OtherUse);
    }
    put(out, key_at(table.bytes, at));
    Ok(())
}

// A wrapped key: its wrapped part is passed on to the unwrapping, with the KEK of that type and identifier. The algorithm index plays no part.
#[tactic(auto, unfolding(crate::specs::Load::key_loaded))]
fn load_wrapped(table: Table, s: &[u8], out: &mut [u8]) -> Result<(), Refusal>
    requires { row_key_size ≤ length out.old }
    ensures { (algorithm : ℕ) → part_answer (kek_row table.entry.bytes.now s.now) algorithm wrapped_format s.now out.old ≡ (outcome_number result, out.new) }
{
    let kind = kek_type(s);
    let Some(at) = table.find(kind, identifier(s)) else {
        return Err(Refusal::NoRow);
    };
    keywrap::unwrap(key_at(table.bytes, at), wrapped(s), out)
}

// The key of a page's KEY part: 6 to 9, or it stands in the output.
#[tactic(auto, unfolding(crate::specs::Load::key_loaded))]
fn load_key(table: Table, page: Page, out: &mut [u8]) -> Result<(), Refusal>
    requires { row_key_size ≤ length out.old }
    ensures { let p = page.entry.bytes.now in
        part_answer (row_named table.entry.bytes.now (format_in p) (key_part_of p)) (algorithm_in p) (format_in p) (key_part_of p) out.old ≡ (outcome_number result, out.new) }
{
    let s = page.key_part();
    match page.format() {
        Format::Plain => {
            put(out, s);
            Ok(())
        }
        Format::Reference => load_reference(table, page.algorithm(), s, out),
        Format::Wrapped => load_wrapped(table, s, out),
    }
}

// Loads: the first 32 bytes of the output are the key, and the page's fields are stored; or nothing is written.
#[tactic(auto, unfolding(crate::specs::Load::load_row, crate::specs::Load::load_number, crate::specs::Read::page_read_number))]
pub fn load(
    table: &[u8],
    p: &[u8],
    out: &mut [u8],
    fields: &mut [u64; FIELD_COUNT],
) -> Result<(), Refusal>
    ensures { load_answer table.now p.now out.old fields.old ≡ ((outcome_number result, out.new), fields.new) }
{
    let table = Table::of(table)?;
    let page = Page::of(p)?;
    if out.len() < KEY_SIZE {
        return Err(Refusal::NoRoom);
    }
    load_key(table, page, out)?;
    *fields = page.fields();
    Ok(())
}
