// The rows of a key table: whether all keep to the layout, which has a type and a name, and whether no two have the same.
ghost use Rattle.std.specs.Prelude.{◌≡◌, true, false, MatchResult, ok_or, ◌+◌, ◌≤◌, ◌<◌, length, drop};
ghost use Rattle.refusals.specs.declared.Refusal.TheVariants.{TableLayout, NoRow};
ghost use Rattle.octets.specs.Tests.{all, part_of};
ghost use Rattle.keytable.specs.Row.{row_size, row_ok};
ghost use Rattle.keytable.specs.Table.{head_ok, row_place, row_count, row_parts, rows_of, distinct};
ghost use Rattle.keytable.specs.Find.{place_from};
ghost use Rattle.keytable.specs.Marks.{last_of_its_pair};

use crate::ROW_MAX;
use crate::mark_set::MarkSet;
use crate::row::Row;
use crate::sizes::{
    FIRST_ROW_AT, FORMAT_AT, HEAD_SIZE, ROW_COUNT_AT, ROW_LENGTH_AT, ROW_SIZE, TABLE_FORMAT,
};
use octets::big_endian::read16;
use refusals::Refusal;

// Whether the header keeps to the layout, and the total to its count of rows.
#[tactic(auto, unfolding(crate::specs::Table::head_ok))]
fn head_ok(t: &[u8]) -> bool
    ensures { result ≡ head_ok t.now }
{
    let r = read16(t, ROW_COUNT_AT);
    (read16(t, FORMAT_AT) == TABLE_FORMAT)
        & (r <= ROW_MAX)
        & (read16(t, FIRST_ROW_AT) == HEAD_SIZE)
        & (read16(t, ROW_LENGTH_AT) == ROW_SIZE)
        & (t.len() == HEAD_SIZE + ROW_SIZE * r)
}

// The rows of a table whose header keeps to the layout.
#[derive(Clone, Copy)]
pub(crate) struct Rows<'a> {
    pub(crate) table: &'a [u8],
    ghost whole: { length table.now ≡ row_place (row_count table.now) },
}

impl<'a> Rows<'a> {
    // The rows of a table, or number 1 where its header breaks the layout.
    #[tactic(auto, using(crate::proofs::Accepted::head_total))]
    pub(crate) fn of(table: &'a [u8]) -> Result<Rows<'a>, Refusal>
        ensures { MatchResult result (λ rows. (rows.table.now ≡ table.now) × (head_ok table.now ≡ true)) (λ e. (e ≡ TableLayout) × (head_ok table.now ≡ false)) }
    {
        if !head_ok(table) {
            return Err(Refusal::TableLayout);
        }
        Ok(Rows { table })
    }

    // How many there are.
    pub(crate) fn count(self) -> usize
        ensures { result ≡ row_count self.entry.table.now }
    {
        (self.table.len() - HEAD_SIZE) / ROW_SIZE
    }

    // Row number i.
    fn get(self, i: usize) -> Row<'a>
        requires { i < row_count self.table.now }
        ensures { result.bytes.now ≡ part_of self.entry.table.now (row_place i) row_size }
    {
        let at = HEAD_SIZE + ROW_SIZE * i;
        let end = at + ROW_SIZE;
        Row {
            bytes: &self.table[at..end],
        }
    }

    // Whether each row keeps to the layout.
    pub(crate) fn keep_to_the_layout(self) -> bool
        ensures { result ≡ all row_ok (row_parts self.entry.table.now) }
    {
        (0..self.count()).all(|i| self.get(i).keeps_to_the_layout())
    }

    // The place of the first row from number `from` on that has this type and this name.
    #[tactic(auto, using(crate::proofs::Lookup::place_from_here, crate::proofs::Lookup::place_from_turn, crate::proofs::Lookup::place_from_end))]
    pub(crate) fn find_from(self, from: usize, kind: usize, name: &[u8]) -> Option<usize>
        requires { from ≤ row_count self.table.now }
        ensures { ok_or result NoRow ≡ place_from (row_place from) kind name.now (drop from (rows_of self.entry.table.now)) }
    {
        for i in from..self.count() {
            if self.get(i).answers_to(kind, name) {
                return Some(HEAD_SIZE + ROW_SIZE * i);
            }
        }
        None
    }

    // Whether no later row has row number i's type and name.
    fn last_of_its_pair(self, i: usize) -> bool
        requires { i < row_count self.table.now }
        ensures { result ≡ last_of_its_pair self.entry.table.now i }
    {
        let next = i + 1;
        let this = self.get(i);
        self.find_from(next, this.kind(), this.name()).is_none()
    }

    // Whether no two rows have the same type and the same name. It goes from the last row to the first: rows of one name have one mark, so a row is looked
    // for among those after it only where one of them has its mark.
    pub(crate) fn differ(self) -> bool
        requires { all row_ok (row_parts self.table.now) ≡ true }
        ensures { result ≡ distinct (rows_of self.entry.table.now) }
    {
        let mut seen = MarkSet::new();
        for i in (0..self.count()).rev() {
            let m = self.get(i).mark();
            if seen.contains(m) && !self.last_of_its_pair(i) {
                return false;
            }
            seen.insert(m);
        }
        true
    }
}
