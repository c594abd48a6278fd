// open TABLE RECORD [ASSOCIATED], and verify TABLE RECORD [ASSOCIATED], which gives nothing but a refusal.
use crate::rooms::{ASSOCIATED_ROOM, LONG_ROOM, PLAIN_ROOM, TABLE_ROOM, room};
use crate::saying::{Said, granted, write_out};
use crate::taking::{take_file, take_optional};
use octets::strings::part;

fn open_bytes(
    rt: &HostRuntime,
    table: &[u8],
    record: &[u8],
    associated: &[u8],
) -> Result<(), Said> {
    let mut plain = room::<PLAIN_ROOM>();
    let mut count = 0;
    granted(
        rt,
        record::opening::open(table, record, associated, &mut plain, &mut count),
    )?;
    write_out(rt, part(&plain, 0, count as usize))
}

pub(crate) fn open(rt: &HostRuntime, only_verify: bool) -> Result<(), Said> {
    let mut table = room::<TABLE_ROOM>();
    let table = take_file(rt, 2, &mut table)?;
    let mut record = room::<LONG_ROOM>();
    let record = take_file(rt, 3, &mut record)?;
    let mut associated = room::<ASSOCIATED_ROOM>();
    let associated = take_optional(rt, 4, &mut associated)?;
    if only_verify {
        return granted(rt, record::opening::verify(table, record, associated));
    }
    open_bytes(rt, table, record, associated)
}
