// The key table: its check, and the lookup of a type and a name.
ghost use Rattle.std.specs.Prelude.{◌≡◌};
ghost use Rattle.keytable.specs.Calls.{table_number, find_use};

use refusals::number;

#[unsafe(no_mangle)]
pub extern "C" fn spadeswirl_table_check(table: &[u8]) -> u8
    ensures { result ≡ table_number table.now }
{
    number(keytable::check(table).map(|_| ()))
}

#[unsafe(no_mangle)]
pub extern "C" fn spadeswirl_find(table: &[u8], kind: u16, name: &[u8], found: &mut u64) -> u8
    ensures { find_use table.now kind name.now found.old ≡ (result, found.new) }
{
    number(keytable::find_use(table, kind as usize, name, found))
}
