// The key table of document 01, with document 02's types of keys: its check, and the lookup of a type and a name. specs/Table.antt has the layout,
// specs/Calls.antt the numbers.
#![tactic(auto)]

mod mark_set;
mod row;
mod rows;
mod sizes;

ghost use Rattle.std.specs.Prelude.{◌≡◌};
ghost use Rattle.octets.specs.Places.{placed};
ghost use Rattle.refusals.specs.Numbers.{outcome_number};
ghost use Rattle.keytable.specs.Row.{is_kek_type, placed_name, placed_key};
ghost use Rattle.keytable.specs.Table.{row_place, number_of_place, row_size_at, row_at, placed_row};
ghost use Rattle.keytable.specs.Calls.{table_says, table_answer, find_use};
ghost use Rattle.keytable.specs.Find.{found_says, found_answer};

use octets::strings::part_in;
use refusals::Refusal;
use row::Row;
use rows::Rows;
use sizes::{HEAD_SIZE, KEK_BY_SAI, KEK_BY_VALUE, NAME_MAX, ROW_SIZE, TYPE_MAX};

// The type of a row that is no key-encrypting key's: records and references look for it.
pub const DATA_TYPE: usize = 0x0000;

// The most rows that a table may have.
pub const ROW_MAX: usize = 64;

// Checks a table: its count of rows, or number 1.
#[tactic(auto, using(crate::proofs::Calls::table_accepted))]
pub fn check(t: &[u8]) -> Result<usize, Refusal>
    ensures { table_says result ≡ table_answer t.now }
{
    let rows = Rows::of(t)?;
    if !rows.keep_to_the_layout() || !rows.differ() {
        return Err(Refusal::TableLayout);
    }
    Ok(rows.count())
}

// Whether a key-encrypting key may have this type. Types are numbers and no enum, since the public calls take any (docs/CONTRACTS.md).
pub fn is_kek_type(kind: usize) -> bool
    ensures { result ≡ is_kek_type kind }
{
    (kind == KEK_BY_SAI) | (kind == KEK_BY_VALUE)
}

// The place of the first row with this type and this whole name, or number 6 where there is none. It is for callers that have checked the table: of the
// layout it looks at the header alone, and a header that breaks it is number 1.
#[tactic(auto, using(crate::proofs::Lookup::place_of_broken, crate::proofs::Lookup::place_of_looked, refusals::proofs::Laws::said_on))]
pub fn find(t: &[u8], kind: usize, name: &[u8]) -> Result<usize, Refusal>
    ensures { found_says result ≡ found_answer t.now kind name.now }
{
    Rows::of(t)?.find_from(0, kind, name).ok_or(Refusal::NoRow)
}

// The place of row number i, from 0, and the number of the row at a place.
pub fn place_of(i: u16) -> usize
    ensures { result ≡ row_place i }
{
    HEAD_SIZE + ROW_SIZE * (i as usize)
}

pub fn number_at(at: usize) -> usize
    ensures { result ≡ number_of_place at }
{
    at.saturating_sub(HEAD_SIZE) / ROW_SIZE
}

// How long the row at a place is: a row's size, or none where it does not lie in the table. A number and no Option, since `row_size_at` of specs/Table, on
// which the clause of `row_at` stands, has one.
#[tactic(auto, using(crate::proofs::Lookup::size_within, crate::proofs::Lookup::size_past))]
fn row_size_at(t: &[u8], at: usize) -> usize
    ensures { result ≡ row_size_at t.now at }
{
    if t.len().saturating_sub(at) < ROW_SIZE {
        0
    } else {
        ROW_SIZE
    }
}

// The row at a place, as the part of the table that it is, and none where it does not lie in the table.
pub fn row_at(t: &[u8], at: usize) -> &[u8]
    ensures { placed result ≡ placed_row (placed t.entry) at }
{
    part_in(t, at, row_size_at(t, at))
}

// The name, the use and the key of the row at a place; none, 0 and none where no row lies there.
pub fn name_at(t: &[u8], at: usize) -> &[u8]
    ensures { placed result ≡ placed_name (placed_row (placed t.entry) at) }
{
    Row {
        bytes: row_at(t, at),
    }
    .name()
}

pub fn use_at(t: &[u8], at: usize) -> u8
    ensures { result ≡ (row_at t.now at).row_use }
{
    Row {
        bytes: row_at(t, at),
    }
    .usage() as u8
}

pub fn key_at(t: &[u8], at: usize) -> &[u8]
    ensures { placed result ≡ placed_key (placed_row (placed t.entry) at) }
{
    Row {
        bytes: row_at(t, at),
    }
    .key()
}

// Stores the use of the row with this type and this whole name; or changes nothing, and is refused by 1 where the table is broken, 2 for an empty name, 3 for
// a type over 2, 4 for a name of more than 32 bytes, or 6 where there is no such row.
pub fn find_use(t: &[u8], kind: usize, name: &[u8], use_out: &mut u64) -> Result<(), Refusal>
    ensures { find_use t.now kind name.now use_out.old ≡ (outcome_number result, use_out.new) }
{
    check(t)?;
    if name.is_empty() {
        return Err(Refusal::Layout);
    }
    if kind > TYPE_MAX {
        return Err(Refusal::NotPermitted);
    }
    if name.len() > NAME_MAX {
        return Err(Refusal::PastMaximum);
    }
    // Document 01 has a lookup's answer taken apart like this, so there is no `?` here.
    let Ok(at) = find(t, kind, name) else {
        return Err(Refusal::NoRow);
    };
    *use_out = use_at(t, at) as u64;
    Ok(())
}
