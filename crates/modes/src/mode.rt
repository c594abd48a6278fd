// The modes, and what each does with a cipher and a message.
ghost use Rattle.std.specs.Prelude.{◌≡◌, ◌++◌, ◌+◌, ◌≤◌, List, ℕ, length};
ghost use Rattle.octets.specs.Lent.{answer};
ghost use Rattle.refusals.specs.Numbers.{outcome_number};
ghost use Rattle.aes.specs.KeyExpansion.{schedule};
ghost use Rattle.modes.specs.Mode.{sealed};
ghost use Rattle.modes.specs.Modes.{mode_of};
ghost use Rattle.modes.specs.Named.{named};
ghost use Rattle.modes.specs.Calls.{tag_decides, decrypt_opened};

use crate::cipher::Cipher;
use crate::message::Message;
use crate::{ccm, gcm};
use octets::strings::Block;
use refusals::Refusal;

#[derive(Clone, Copy)]
pub(crate) enum Mode {
    Ccm = 1,
    Gcm = 2,
}

// By the byte that names it. What names none is measured by CCM's lengths.
impl From<u8> for Mode {
    ghost from_gives = { λ u m. named m ≡ mode_of u };

    fn from(u: u8) -> Mode {
        if u == Mode::Gcm as u8 {
            Mode::Gcm
        } else {
            Mode::Ccm
        }
    }
}

// Each mode has steps of its own (CCM chains the plaintext, GCM hashes the ciphertext): a trait would have no body that both share.
impl Mode {
    pub(crate) fn seal(self, aes: Cipher, m: Message, out: &mut [u8]) -> Result<(), Refusal>
        requires { length m.text.now + 16 ≤ length out.old }
        ensures { (key : List ℕ) → aes.entry.keyed.keys.now ≡ schedule key
            → answer 0 (sealed (named self) key m.entry.iv.now (m.entry.a.now ++ m.entry.b.now) m.entry.text.now) out.old ≡ (outcome_number result, out.new) }
    {
        match self {
            Mode::Ccm => ccm::seal(aes, m, out),
            Mode::Gcm => gcm::seal(aes, m, out),
        }
    }

    pub(crate) fn verify(self, aes: Cipher, m: Message, tag: &Block) -> Result<(), Refusal>
        ensures { (key : List ℕ) → aes.entry.keyed.keys.now ≡ schedule key
            → outcome_number result ≡ tag_decides ((named self).authentic key m.entry.iv.now (m.entry.a.now ++ m.entry.b.now) m.entry.text.now tag.now) }
    {
        match self {
            Mode::Ccm => ccm::verify(aes, m, tag),
            Mode::Gcm => gcm::verify(aes, m, tag),
        }
    }

    pub(crate) fn open(
        self,
        aes: Cipher,
        m: Message,
        tag: &Block,
        out: &mut [u8],
    ) -> Result<(), Refusal>
        requires { length m.text.now ≤ length out.old }
        ensures { (key : List ℕ) → aes.entry.keyed.keys.now ≡ schedule key
            → decrypt_opened (named self) key m.entry.iv.now (m.entry.a.now ++ m.entry.b.now) m.entry.text.now tag.now out.old ≡ (outcome_number result, out.new) }
    {
        match self {
            Mode::Ccm => ccm::open(aes, m, tag, out),
            Mode::Gcm => gcm::open(aes, m, tag, out),
        }
    }
}
