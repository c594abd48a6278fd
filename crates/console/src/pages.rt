// descriptors PAGE
use crate::rooms::{PAGE_ROOM, room};
use crate::saying::{Said, granted, write_out};
use crate::taking::take_file;
use descriptor_text::describe_page;

pub(crate) fn descriptors(rt: &HostRuntime) -> Result<(), Said> {
    let mut page = room::<PAGE_ROOM>();
    let page = take_file(rt, 2, &mut page)?;
    let text = granted(rt, describe_page(page))?;
    write_out(rt, text.as_bytes())
}
