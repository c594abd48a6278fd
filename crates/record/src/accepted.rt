// A record whose header was accepted, taken apart by its fields.
ghost use Rattle.std.specs.Prelude.{◌≡◌, [], ◌∷◌, ◌≤◌, length};
ghost use Rattle.record.specs.Read.{header_answer};

use crate::header::Header;
use crate::sizes::NAME_AT;
use modes::{iv_size, tag_size};
use octets::strings::part;
use refusals::Refusal;

// Its bytes, and the fields that its header has.
#[derive(Clone, Copy)]
pub(crate) struct Record<'a> {
    pub(crate) bytes: &'a [u8],
    pub(crate) header: Header,
    ghost accepted: { header_answer bytes.now ≡ (0, header.mode ∷ header.k ∷ header.n ∷ []) },
}

impl<'a> Record<'a> {
    ghost use Rattle.octets.specs.Lent.{lowest};
    ghost use Rattle.refusals.specs.Numbers.{outcome_number};
    ghost use Rattle.keytable.specs.Row.{row_key_size};
    ghost use Rattle.record.specs.Record.{front_in, name_in, iv_in, text_in, tag_in};
    ghost use Rattle.record.specs.Seal.{callers_max};
    ghost use Rattle.record.specs.Open.{record_tag_tests, tag_answer};

    // Its parts: the header and the name together, the name, the IV, the ciphertext and the tag.
    fn front(self) -> &'a [u8]
        ensures { result.now ≡ front_in self.entry.bytes.now }
    {
        part(self.bytes, 0, self.header.places().iv)
    }

    pub(crate) fn name(self) -> &'a [u8]
        ensures { result.now ≡ name_in self.entry.bytes.now }
    {
        part(self.bytes, NAME_AT, self.header.k)
    }

    fn iv(self) -> &'a [u8]
        ensures { result.now ≡ iv_in self.entry.bytes.now }
    {
        let size = iv_size(self.header.mode);
        part(self.bytes, self.header.places().iv, size)
    }

    fn text(self) -> &'a [u8]
        ensures { result.now ≡ text_in self.entry.bytes.now }
    {
        part(self.bytes, self.header.places().text, self.header.n)
    }

    fn tag(self) -> &'a [u8]
        ensures { result.now ≡ tag_in self.entry.bytes.now }
    {
        let size = tag_size(self.header.mode);
        part(self.bytes, self.header.places().tag, size)
    }

    // Tests its tag by a key.
    pub(crate) fn verify(self, key: &[u8], aad: &[u8]) -> Result<(), Refusal>
        requires { (length key.now ≡ row_key_size) × (length aad.now ≤ callers_max) }
        ensures { outcome_number result ≡ lowest (record_tag_tests key.now self.entry.bytes.now aad.now) }
    {
        let mode = self.header.mode;
        let text = self.text();
        let tag = self.tag();
        modes::verify(mode, key, self.iv(), self.front(), aad, text, tag)
    }

    // The same, and decrypts it.
    pub(crate) fn open(self, key: &[u8], aad: &[u8], out: &mut [u8]) -> Result<(), Refusal>
        requires { (length key.now ≡ row_key_size) × (length aad.now ≤ callers_max) × (self.header.n ≤ length out.old) }
        ensures { tag_answer key.now self.entry.bytes.now aad.now out.old ≡ (outcome_number result, out.new) }
    {
        let mode = self.header.mode;
        let text = self.text();
        let tag = self.tag();
        modes::decrypt(mode, key, self.iv(), self.front(), aad, text, tag, out)
    }
}
