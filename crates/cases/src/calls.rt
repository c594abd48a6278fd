// The calls that a line can name, how many strings each takes, and what each does. specs/Calls.antt has the table.
ghost use Rattle.std.specs.Prelude.{◌≡◌, ◌≤◌};
ghost use Rattle.refusals.specs.Numbers.{outcome_number};
ghost use Rattle.aes.specs.Calls.{encrypt_block, decrypt_block};
ghost use Rattle.octets.specs.Lent.{when};
ghost use Rattle.cases.specs.Calls.{calls, call_named, repeated, block_rounds};
ghost use Rattle.cases.specs.Named.{named_of, named_place, entry};

use octets::strings::equal;
use refusals::Refusal;

const BLOCK_ROUNDS: usize = 1000;

// A flag and not a closure: what a closure computes of each key and block would take a longer contract than these two arms.
fn one_round(key: &[u8], block: &mut [u8], there: bool) -> Result<(), Refusal>
    ensures { when there encrypt_block decrypt_block key.now block.old ≡ (outcome_number result, block.new) }
{
    if there {
        aes::encrypt_block(key, block)
    } else {
        aes::decrypt_block(key, block)
    }
}

// A block that many times over, each output the next input, up to the first refusal.
fn rounds(key: &[u8], block: &mut [u8], there: bool) -> Result<(), Refusal>
    ensures { repeated (when there encrypt_block decrypt_block) block_rounds key.now block.old ≡ (outcome_number result, block.new) }
{
    for _ in 0..BLOCK_ROUNDS {
        one_round(key, block, there)?;
    }
    Ok(())
}

#[derive(Clone, Copy)]
pub(crate) enum Call {
    Encrypt,
    Decrypt,
    EncryptRounds,
    DecryptRounds,
    CcmEncrypt,
    GcmEncrypt,
    CcmDecrypt,
    GcmDecrypt,
    Wrap,
    Unwrap,
}

const CALLS: [(&str, Call); 10] = [
    ("aes256_encrypt", Call::Encrypt),
    ("aes256_decrypt", Call::Decrypt),
    ("aes256_encrypt_1000", Call::EncryptRounds),
    ("aes256_decrypt_1000", Call::DecryptRounds),
    ("ccm_encrypt", Call::CcmEncrypt),
    ("gcm_encrypt", Call::GcmEncrypt),
    ("ccm_decrypt", Call::CcmDecrypt),
    ("gcm_decrypt", Call::GcmDecrypt),
    ("wrap", Call::Wrap),
    ("unwrap", Call::Unwrap),
];

// The call that has the name in a table.
#[tactic(auto, unfolding(crate::specs::Named::named_of))]
fn named_in(table: &[(&str, Call)], name: &[u8]) -> Option<Call>
    ensures { result ≡ named_of name.now table.now }
{
    let (_, call) = table.iter().find(|e| equal(e.0.as_bytes(), name))?;
    Some(*call)
}

impl Call {
    // The call of that name.
    pub(crate) fn named(name: &[u8]) -> Option<Call>
        ensures { named_place result ≡ call_named name.now calls }
    {
        named_in(&CALLS, name)
    }

    pub(crate) fn strings(self) -> usize
        ensures { (result ≡ (entry self).strings) × (result ≤ 5) }
    {
        match self {
            Call::Encrypt | Call::Decrypt | Call::EncryptRounds | Call::DecryptRounds => 1,
            Call::Wrap | Call::Unwrap => 2,
            Call::CcmEncrypt | Call::GcmEncrypt => 4,
            Call::CcmDecrypt | Call::GcmDecrypt => 5,
        }
    }

    // The call, on up to five strings, as the specification's `Gives` takes them, and what is lent.
    pub(crate) fn run(
        self,
        a: &[u8],
        b: &[u8],
        c: &[u8],
        d: &[u8],
        e: &[u8],
        lent: &mut [u8],
    ) -> Result<(), Refusal>
        ensures { (entry self).gives a.now b.now c.now d.now e.now lent.old ≡ (outcome_number result, lent.new) }
    {
        match self {
            Call::Encrypt => aes::encrypt_block(a, lent),
            Call::Decrypt => aes::decrypt_block(a, lent),
            Call::EncryptRounds => rounds(a, lent, true),
            Call::DecryptRounds => rounds(a, lent, false),
            Call::CcmEncrypt => modes::encrypt(1, a, b, c, b"", d, lent),
            Call::GcmEncrypt => modes::encrypt(2, a, b, c, b"", d, lent),
            Call::CcmDecrypt => modes::decrypt(1, a, b, c, b"", d, e, lent),
            Call::GcmDecrypt => modes::decrypt(2, a, b, c, b"", d, e, lent),
            Call::Wrap => keywrap::wrap(a, b, lent),
            Call::Unwrap => keywrap::unwrap(a, b, lent),
        }
    }
}
