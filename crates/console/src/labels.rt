// label LABEL. The two commands on descriptors differ in the room and in what is read: a shared function would take both.
use crate::rooms::{LONG_ROOM, room};
use crate::saying::{Said, granted, write_out};
use crate::taking::take_file;
use descriptor_text::describe_label;

pub(crate) fn label(rt: &HostRuntime) -> Result<(), Said> {
    let mut label = room::<LONG_ROOM>();
    let label = take_file(rt, 2, &mut label)?;
    let text = granted(rt, describe_label(label))?;
    write_out(rt, text.as_bytes())
}
