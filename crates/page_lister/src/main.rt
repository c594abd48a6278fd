// The page lister: reads a page on standard input, to its end or to one byte more than a page may have, and prints its listing.
#![tactic(auto)]

use reading::read_full;
use std::io;

const ROOM: usize = 4097;

fn main(rt: HostRuntime) -> io::Result<()> {
    let mut page = [0u8; ROOM];
    let n = read_full(&mut rt.stdin(), &mut page)?;
    rt.write_all(page_text::list_page(&page[..n]).as_bytes())
}
