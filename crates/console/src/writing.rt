// write-page KEYPART LIST NAME=VALUE ..
use crate::fields::take_fields;
use crate::rooms::{LIST_ROOM, PAGE_ROOM, WRITTEN_ROOM, room};
use crate::saying::{Said, granted, write_out};
use crate::taking::take_file;
use octets::strings::part;

pub(crate) fn write_page(rt: &HostRuntime) -> Result<(), Said> {
    let fields = take_fields(rt, 4)?;
    let mut key_part = room::<PAGE_ROOM>();
    let key_part = take_file(rt, 2, &mut key_part)?;
    let mut list = room::<LIST_ROOM>();
    let list = take_file(rt, 3, &mut list)?;
    let mut page = room::<WRITTEN_ROOM>();
    let mut count = 0;
    granted(
        rt,
        page_writer::write(&fields.values(), key_part, list, &mut page, &mut count),
    )?;
    write_out(rt, part(&page, 0, count as usize))
}
