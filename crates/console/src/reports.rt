// report TABLE DUMP
use crate::rooms::{DUMP_ROOM, TABLE_ROOM, room};
use crate::saying::{Said, granted, write_out};
use crate::taking::take_file;

// The text is `refused` and the number where the report is refused; then what the number means goes to standard error.
pub(crate) fn report(rt: &HostRuntime) -> Result<(), Said> {
    let mut table = room::<TABLE_ROOM>();
    let table = take_file(rt, 2, &mut table)?;
    let mut dump = room::<DUMP_ROOM>();
    let dump = take_file(rt, 3, &mut dump)?;
    let reported = report_text::report(table, dump);
    let written = write_out(rt, reported.text.as_bytes());
    granted(rt, reported.outcome)?;
    written
}
