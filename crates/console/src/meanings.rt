// meaning NUMBER, in hexadecimal: the line of a number that another program of the unit gave.
use crate::rooms::{WORD_ROOM, room};
use crate::saying::{Said, refuse};
use crate::taking::take_word;

pub(crate) fn meaning_of(rt: &HostRuntime) -> Result<(), Said> {
    let mut number = room::<WORD_ROOM>();
    let number = take_word(rt, 2, &mut number)?;
    Err(refuse(rt, number.first().copied().unwrap_or(0)))
}
