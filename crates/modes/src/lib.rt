// CCM and GCM over AES-256 (SP 800-38C, SP 800-38D), each by the byte that names it.
#![tactic(auto)]

mod arguments;
mod ccm;
mod cipher;
mod counter;
mod gcm;
mod message;
mod mode;
mod passes;
mod short;
mod sizes;
mod tag;
mod tail;

ghost use Rattle.std.specs.Prelude.{◌≡◌};
ghost use Rattle.refusals.specs.Numbers.{outcome_number};
ghost use Rattle.modes.specs.Modes.{names_mode, mode_of};
ghost use Rattle.modes.specs.Calls.{encrypt_answer, decrypt_answer, verify_number};

use aes_fast::round_tables;
use arguments::{check_arguments, check_decryption, wrong_sizes};
use cipher::{Cipher, round_keys};
use message::Message;
use mode::Mode;
use octets::strings::Block;
use refusals::Refusal;
use sizes::{IV_SIZE, TAG_SIZE};

// Whether the byte names a mode: 1 CCM, 2 GCM.
pub fn names_mode(u: u8) -> bool
    ensures { result ≡ names_mode u }
{
    u == Mode::Ccm as u8 || u == Mode::Gcm as u8
}

// The lengths of the IV and of the tag: the same in both modes.
pub fn iv_size(u: u8) -> usize
    ensures { result ≡ (mode_of u).iv_size }
{
    IV_SIZE
}

pub fn tag_size(u: u8) -> usize
    ensures { result ≡ (mode_of u).tag_size }
{
    TAG_SIZE
}

// Over associated data that comes in two parts. A call takes any byte for its mode, as docs/CONTRACTS.md says, so `u` is no `Mode`.
pub fn encrypt(
    u: u8,
    key: &[u8],
    iv: &[u8],
    a: &[u8],
    b: &[u8],
    plain: &[u8],
    out: &mut [u8],
) -> Result<(), Refusal>
    ensures { encrypt_answer (mode_of u) key.now iv.now a.now b.now plain.now out.old ≡ (outcome_number result, out.new) }
{
    check_arguments(wrong_sizes(u, key, iv), a, b, plain, tag_size(u), out.len())?;
    let m = Message {
        iv,
        a,
        b,
        text: plain,
    };
    let tables = round_tables();
    let keys = round_keys(key);
    Mode::from(u).seal(Cipher::of(&tables, &keys), m, out)
}

pub fn decrypt(
    u: u8,
    key: &[u8],
    iv: &[u8],
    a: &[u8],
    b: &[u8],
    c: &[u8],
    tag: &[u8],
    out: &mut [u8],
) -> Result<(), Refusal>
    ensures { decrypt_answer (mode_of u) key.now iv.now a.now b.now c.now tag.now out.old ≡ (outcome_number result, out.new) }
{
    check_decryption(u, key, iv, a, b, c, tag, out.len())?;
    let tag: &Block = tag.as_array().unwrap();
    let m = Message { iv, a, b, text: c };
    let tables = round_tables();
    let keys = round_keys(key);
    Mode::from(u).open(Cipher::of(&tables, &keys), m, tag, out)
}

// What decryption answers where there is room for the plaintext; nothing is written.
pub fn verify(
    u: u8,
    key: &[u8],
    iv: &[u8],
    a: &[u8],
    b: &[u8],
    c: &[u8],
    tag: &[u8],
) -> Result<(), Refusal>
    ensures { outcome_number result ≡ verify_number (mode_of u) key.now iv.now a.now b.now c.now tag.now }
{
    check_decryption(u, key, iv, a, b, c, tag, c.len())?;
    let tag: &Block = tag.as_array().unwrap();
    let m = Message { iv, a, b, text: c };
    let tables = round_tables();
    let keys = round_keys(key);
    Mode::from(u).verify(Cipher::of(&tables, &keys), m, tag)
}
