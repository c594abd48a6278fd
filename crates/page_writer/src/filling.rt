// The page itself: what it has before its KEY part, that part, and the list.
ghost use Rattle.std.specs.Prelude.{◌≡◌, ◌+◌, ◌*◌, ◌≤◌, ltb, length};
ghost use Rattle.octets.specs.Lent.{over};
ghost use Rattle.keypage.specs.Layout.{page_max, weight, scope_bits, lock_bits, ceem_bits, rdmc_bits, sdk_bits, ckod_bits, ckorp_bits, ckorl_bits};
ghost use Rattle.page_writer.specs.Chosen.{EachFits, values_of};
ghost use Rattle.page_writer.specs.Written.{head_of, page_size, page_of};

use crate::fields::Chosen;
use keypage::sizes::{
    ALGORITHM, BEFORE_LENGTH, CEEM, CKOD, CKORL, CKORP, CODE_AT, DECRYPTION, ENCRYPTION, FORMAT,
    KEY_AT, KEY_LENGTH_AT, LOCK, PAGE_CODE, PAGE_LENGTH_AT, PAGE_MAX, RDMC, SCOPE, SDK,
};
use octets::big_endian::bytes16;
use octets::strings::{put, put_three};

// Whether a page with so long a KEY part and list would pass its maximum, however long they are.
pub(crate) fn passes_page(part: usize, list: usize) -> bool
    ensures { result ≡ ltb page_max (page_size part list) }
{
    PAGE_MAX < KEY_AT.saturating_add(part).saturating_add(list)
}

// How long a page is that does not.
pub(crate) fn page_size(part: usize, list: usize) -> usize
    requires { page_size part list ≤ page_max }
    ensures { result ≡ page_size part list }
{
    KEY_AT + part + list
}

// A page that can be written, before it is.
#[derive(Clone, Copy)]
pub(crate) struct Page<'a> {
    pub(crate) fields: Chosen,
    pub(crate) part: &'a [u8],
    pub(crate) list: &'a [u8],
    ghost fit: { EachFits fields },
    ghost short: { page_size (length part.now) (length list.now) ≤ page_max },
}

impl Page<'_> {
    pub(crate) fn size(&self) -> usize
        ensures { result ≡ page_size (length self.now.part.now) (length self.now.list.now) }
    {
        page_size(self.part.len(), self.list.len())
    }

    // Byte 4: SCOPE and LOCK.
    fn scope_byte(&self) -> u8
        ensures { let v = self.now.fields in result ≡ v.scope * weight scope_bits + v.lock * weight lock_bits }
    {
        let v = self.fields;
        (v.scope as usize * SCOPE.weight + v.lock as usize * LOCK.weight) as u8
    }

    // Byte 5: CEEM, RDMC, SDK, CKOD, CKORP and CKORL.
    fn ceem_byte(&self) -> u8
        ensures { let v = self.now.fields in
            result ≡ v.ceem * weight ceem_bits + v.rdmc * weight rdmc_bits + v.sdk * weight sdk_bits + v.ckod * weight ckod_bits + v.ckorp * weight ckorp_bits + v.ckorl * weight ckorl_bits }
    {
        let v = self.fields;
        (v.ceem as usize * CEEM.weight
            + v.rdmc as usize * RDMC.weight
            + v.sdk as usize * SDK.weight
            + v.ckod as usize * CKOD.weight
            + v.ckorp as usize * CKORP.weight
            + v.ckorl as usize * CKORL.weight) as u8
    }

    // What the page has before its KEY part.
    fn head(&self) -> [u8; KEY_AT]
        ensures { result ≡ head_of (values_of self.now.fields) (length self.now.part.now) (page_size (length self.now.part.now) (length self.now.list.now)) }
    {
        let v = self.fields;
        let mut head = [0; KEY_AT];
        put(&mut head[CODE_AT..], &bytes16(PAGE_CODE));
        put(
            &mut head[PAGE_LENGTH_AT..],
            &bytes16(self.size() - BEFORE_LENGTH),
        );
        head[SCOPE.in_byte] = self.scope_byte();
        head[CEEM.in_byte] = self.ceem_byte();
        head[ENCRYPTION.in_byte] = v.encryption as u8;
        head[DECRYPTION.in_byte] = v.decryption as u8;
        head[ALGORITHM.in_byte] = v.algorithm as u8;
        head[FORMAT.in_byte] = v.format as u8;
        put(&mut head[KEY_LENGTH_AT..], &bytes16(self.part.len()));
        head
    }

    // Writes the page over the front of the output.
    #[tactic(auto, unfolding(crate::specs::Written::page_of))]
    pub(crate) fn fill(&self, out: &mut [u8])
        ensures { out.new ≡ over (page_of (values_of self.now.fields) self.now.part.now self.now.list.now) out.old }
    {
        put_three(&self.head(), self.part, self.list, out);
    }
}
