// wrap-page TABLE TYPE IDENTIFIER KEY LIST NAME=VALUE ..
use crate::fields::take_fields;
use crate::rooms::{LIST_ROOM, PAGE_ROOM, TABLE_ROOM, WORD_ROOM, WRITTEN_ROOM, room};
use crate::saying::{Said, granted, write_out};
use crate::taking::{take_file, take_number, take_word};
use octets::strings::part;

pub(crate) fn wrap_page(rt: &HostRuntime) -> Result<(), Said> {
    let fields = take_fields(rt, 7)?;
    let kind = take_number(rt, 3)?;
    let mut identifier = room::<WORD_ROOM>();
    let identifier = take_word(rt, 4, &mut identifier)?;
    let mut table = room::<TABLE_ROOM>();
    let table = take_file(rt, 2, &mut table)?;
    let mut key = room::<PAGE_ROOM>();
    let key = take_file(rt, 5, &mut key)?;
    let mut list = room::<LIST_ROOM>();
    let list = take_file(rt, 6, &mut list)?;
    let mut page = room::<WRITTEN_ROOM>();
    let mut count = 0;
    granted(
        rt,
        page_writer::write_wrapped(
            table,
            &fields.values(),
            kind as usize,
            identifier,
            key,
            list,
            &mut page,
            &mut count,
        ),
    )?;
    write_out(rt, part(&page, 0, count as usize))
}
