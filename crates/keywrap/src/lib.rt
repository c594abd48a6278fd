// AES Key Wrap of a key of 32 bytes (NIST, November 2001), over lent bytes.
#![tactic(auto)]

mod register;
mod steps;

ghost use Rattle.std.specs.Prelude.{◌≡◌, length};
ghost use Rattle.refusals.specs.Numbers.{outcome_number};
ghost use Rattle.keywrap.specs.Wrap.{register_bytes, wrapped, unwrapped};
ghost use Rattle.keywrap.specs.Calls.{key_size_lem, wrapped_size, wrap_answer, unwrap_answer};

use aes::expand_key;
use octets::strings::{equal, put};
use refusals::Refusal;
use register::{Register, START_VALUE, from_key, from_wrapped};
use steps::{unwrap_steps, wrap_steps};

const KEY_SIZE: usize = 32;

const WRAPPED_SIZE: usize = 40;

#[tactic(auto, unfolding(crate::specs::Wrap::wrapped))]
fn wrapped_of(kek: &[u8], key: &[u8]) -> Register
    requires { (length kek.now ≡ key_size_lem) × (length key.now ≡ key_size_lem) }
    ensures { register_bytes result ≡ wrapped kek.now key.now }
{
    wrap_steps(expand_key(*kek.as_array().unwrap()), from_key(key))
}

#[tactic(auto, unfolding(crate::specs::Wrap::unwrapped))]
fn unwrapped_of(kek: &[u8], w: &[u8]) -> Register
    requires { (length kek.now ≡ key_size_lem) × (length w.now ≡ wrapped_size) }
    ensures { result ≡ unwrapped kek.now w.now }
{
    unwrap_steps(expand_key(*kek.as_array().unwrap()), from_wrapped(w))
}

// Writes the wrapped key, 40 bytes, over the front of the output; or changes nothing, and refuses with
// `Layout` where one of the keys has another length than 32, or `NoRoom` where the output has room for less than 40 bytes.
#[tactic(auto, unfolding(crate::specs::Calls::wrap_answer, crate::specs::Calls::wrap_number))]
pub fn wrap(kek: &[u8], key: &[u8], out: &mut [u8]) -> Result<(), Refusal>
    ensures { wrap_answer kek.now key.now out.old ≡ (outcome_number result, out.new) }
{
    if kek.len() != KEY_SIZE || key.len() != KEY_SIZE {
        return Err(Refusal::Layout);
    }
    if out.len() < WRAPPED_SIZE {
        return Err(Refusal::NoRoom);
    }
    put(out, wrapped_of(kek, key).as_flattened());
    Ok(())
}

// Writes the key, 32 bytes, over the front of the output, once A was found to be the initial value; or changes nothing, and refuses with
// `Layout` where kek has another length than 32, `NoRoom` where the output has room for less than 32 bytes, `WrappedLength` where what is wrapped
// has another length than 40, or `WrongTag` where A ended as another value.
#[tactic(auto, unfolding(crate::specs::Calls::unwrap_answer, crate::specs::Calls::unwrap_number, crate::specs::Wrap::start_right, crate::specs::Wrap::unwrapped_key))]
pub fn unwrap(kek: &[u8], wrapped: &[u8], out: &mut [u8]) -> Result<(), Refusal>
    ensures { unwrap_answer kek.now wrapped.now out.old ≡ (outcome_number result, out.new) }
{
    if kek.len() != KEY_SIZE {
        return Err(Refusal::Layout);
    }
    if out.len() < KEY_SIZE {
        return Err(Refusal::NoRoom);
    }
    if wrapped.len() != WRAPPED_SIZE {
        return Err(Refusal::WrappedLength);
    }
    let r = unwrapped_of(kek, wrapped);
    if !equal(&r[0], &START_VALUE) {
        return Err(Refusal::WrongTag);
    }
    put(out, r[1..].as_flattened());
    Ok(())
}
