// seal TABLE NAME IV DATA [ASSOCIATED]
use crate::rooms::{ASSOCIATED_ROOM, PLAIN_ROOM, RECORD_ROOM, TABLE_ROOM, WORD_ROOM, room};
use crate::saying::{Said, granted, write_out};
use crate::taking::{take_file, take_optional, take_word};
use octets::strings::part;

pub(crate) fn seal(rt: &HostRuntime) -> Result<(), Said> {
    let mut table = room::<TABLE_ROOM>();
    let table = take_file(rt, 2, &mut table)?;
    let mut name = room::<WORD_ROOM>();
    let name = take_word(rt, 3, &mut name)?;
    let mut iv = room::<WORD_ROOM>();
    let iv = take_word(rt, 4, &mut iv)?;
    let mut plain = room::<PLAIN_ROOM>();
    let plain = take_file(rt, 5, &mut plain)?;
    let mut associated = room::<ASSOCIATED_ROOM>();
    let associated = take_optional(rt, 6, &mut associated)?;
    let mut out = room::<RECORD_ROOM>();
    granted(
        rt,
        record::sealing::seal(table, name, iv, associated, plain, &mut out),
    )?;
    write_out(rt, part(&out, 0, record::header::end_in(&out)))
}
