// The C interface for a drive's boot part: the unwrapping of a key, by itself. In libspadeswirl.a the constants of all calls stand in one section,
// which most linkers bring to a program whole; this archive has no more of them than unwrapping needs.
#![tactic(auto)]

ghost use Rattle.std.specs.Prelude.{◌≡◌};
ghost use Rattle.keywrap.specs.Calls.{unwrap_answer};

use refusals::number;

#[unsafe(no_mangle)]
pub extern "C" fn spadeswirl_unwrap(kek: &[u8], wrapped: &[u8], out: &mut [u8]) -> u8
    ensures { unwrap_answer kek.now wrapped.now out.old ≡ (result, out.new) }
{
    number(keywrap::unwrap(kek, wrapped, out))
}
