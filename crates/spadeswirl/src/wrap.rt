// AES Key Wrap, each way a call of the header's.
ghost use Rattle.std.specs.Prelude.{◌≡◌};
ghost use Rattle.keywrap.specs.Calls.{wrap_answer, unwrap_answer};

use refusals::number;

#[unsafe(no_mangle)]
pub extern "C" fn spadeswirl_wrap(kek: &[u8], key: &[u8], out: &mut [u8]) -> u8
    ensures { wrap_answer kek.now key.now out.old ≡ (result, out.new) }
{
    number(keywrap::wrap(kek, key, out))
}

#[unsafe(no_mangle)]
pub extern "C" fn spadeswirl_unwrap(kek: &[u8], wrapped: &[u8], out: &mut [u8]) -> u8
    ensures { unwrap_answer kek.now wrapped.now out.old ≡ (result, out.new) }
{
    number(keywrap::unwrap(kek, wrapped, out))
}
