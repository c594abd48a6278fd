// Key pages: read, where their parts are, a key loaded, and written. Each call of the header has a function of its own, also where two are alike.
ghost use Rattle.std.specs.Prelude.{◌≡◌};
ghost use Rattle.keypage.specs.Read.{page_read_answer};
ghost use Rattle.keypage.specs.Places.{places_answer};
ghost use Rattle.keypage.specs.Load.{load_answer};
ghost use Rattle.page_writer.specs.Write.{write_answer, write_wrapped_answer};

use keypage::places::PLACE_COUNT;
use keypage::reading::FIELD_COUNT;
use page_writer::CHOSEN_COUNT;
use refusals::number;

#[unsafe(no_mangle)]
pub extern "C" fn spadeswirl_page_read(page: &[u8], fields: &mut [u64; FIELD_COUNT]) -> u8
    ensures { page_read_answer page.now fields.old ≡ (result, fields.new) }
{
    number(keypage::reading::read(page, fields))
}

#[unsafe(no_mangle)]
pub extern "C" fn spadeswirl_page_parts(page: &[u8], at: &mut [u64; PLACE_COUNT]) -> u8
    ensures { places_answer page.now at.old ≡ (result, at.new) }
{
    number(keypage::places::places(page, at))
}

#[unsafe(no_mangle)]
pub extern "C" fn spadeswirl_page_load(
    table: &[u8],
    page: &[u8],
    out: &mut [u8],
    fields: &mut [u64; FIELD_COUNT],
) -> u8
    ensures { load_answer table.now page.now out.old fields.old ≡ ((result, out.new), fields.new) }
{
    number(keypage::loading::load(table, page, out, fields))
}

#[unsafe(no_mangle)]
pub extern "C" fn spadeswirl_page_write(
    fields: &[u64; CHOSEN_COUNT],
    part: &[u8],
    list: &[u8],
    out: &mut [u8],
    n: &mut u64,
) -> u8
    ensures { write_answer fields.now part.now list.now out.old n.old ≡ ((result, out.new), n.new) }
{
    number(page_writer::write(fields, part, list, out, n))
}

#[unsafe(no_mangle)]
pub extern "C" fn spadeswirl_page_write_wrapped(
    table: &[u8],
    fields: &[u64; CHOSEN_COUNT],
    kind: u16,
    identifier: &[u8],
    key: &[u8],
    list: &[u8],
    out: &mut [u8],
    n: &mut u64,
) -> u8
    ensures { write_wrapped_answer table.now fields.now kind identifier.now key.now list.now out.old
        n.old ≡ ((result, out.new), n.new) }
{
    number(page_writer::write_wrapped(table, fields, kind as usize, identifier, key, list, out, n))
}
