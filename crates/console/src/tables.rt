// check-table TABLE
use crate::rooms::{TABLE_ROOM, room};
use crate::saying::{Said, cannot_write, granted};
use crate::taking::take_file;

pub(crate) fn check_table(rt: &HostRuntime) -> Result<(), Said> {
    let mut table = room::<TABLE_ROOM>();
    let table = take_file(rt, 2, &mut table)?;
    let rows = granted(rt, keytable::check(table))?;
    println!(rt; "rows {rows}").map_err(|e| cannot_write(rt, &e))
}
