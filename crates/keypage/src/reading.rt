// Reading a page by itself: 2, 3 or 4, or its fields.
ghost use Rattle.std.specs.Prelude.{◌≡◌, ◌&&◌, ◌/◌, ◌%◌, get_or, IfErr, IfOk};
ghost use Rattle.std.specs.Result.{is_ok};
ghost use Rattle.octets.specs.Tests.{every};
ghost use Rattle.refusals.specs.Numbers.{outcome_number};
ghost use Rattle.keypage.specs.Page as laid;
ghost use Rattle.keypage.specs.Page.{algorithm_in, format_in, key_part_of, list_at, list_in, page_list_ok, page_list_count, page_ok, fields_ok, fields_of};
ghost use Rattle.keypage.specs.KeyPart.{by_format};
ghost use Rattle.keypage.specs.Read.{page_read_number, page_read_answer};

use crate::parts::{Format, part_broken, part_long, part_refused};
use crate::sizes::{
    ALGORITHM, ALGORITHM_MAX, BEFORE_LENGTH, Bits, CEEM, CKOD, CKORL, CKORP, CODE_AT, DECRYPTION,
    DECRYPTION_MAX, ENCRYPTION, ENCRYPTION_MAX, FORMAT, KEY_AT, KEY_LENGTH_AT, LOCK, PAGE_CODE,
    PAGE_LENGTH_AT, PAGE_MAX, PAGE_STRICT, RDMC, SCOPE, SCOPE_MAX, SDK, ZERO_AT, ZERO_BITS,
    ZERO_SIZE,
};
use descriptors::list::{Opening, check_list_as};
use octets::big_endian::{read8, read16};
use octets::strings::{all_zero, part};
use refusals::Refusal;

// The fields that reading and loading store, in the order of the C interface.
pub const FIELD_COUNT: usize = 14;

// How a page's list is opened, to be tested and to be stepped along.
pub const LIST_OPENING: Opening = Opening {
    label: false,
    strict: PAGE_STRICT,
};

// How many descriptors of a page's list are not reserved, where the list is accepted.
fn list_count(list: &[u8]) -> Result<usize, Refusal>
    ensures ok { is_ok result ≡ page_list_ok list.now }
    ensures count { IfOk result (λ n. n ≡ page_list_count list.now) }
    ensures refused { IfErr result (λ e. e ≡ Refusal.Layout) }
{
    check_list_as(list, LIST_OPENING)
}

// Whether a page's list is accepted.
pub fn list_ok(list: &[u8]) -> bool
    ensures { result ≡ page_list_ok list.now }
{
    list_count(list).is_ok()
}

// The KEY part, from byte 20, and the list after it.
pub fn key_part(p: &[u8]) -> &[u8]
    ensures { result.now ≡ key_part_of p.now }
{
    part(p, KEY_AT, read16(p, KEY_LENGTH_AT))
}

fn list_at(p: &[u8]) -> usize
    ensures { result ≡ list_at p.now }
{
    KEY_AT + read16(p, KEY_LENGTH_AT)
}

pub fn list_in(p: &[u8]) -> &[u8]
    ensures { result.now ≡ list_in p.now }
{
    part(p, list_at(p), p.len())
}

// A field as the page has it.
fn bits_in(p: &[u8], field: Bits) -> usize
    ensures { result ≡ get_or p.now field.in_byte 0 / field.weight % field.span }
{
    read8(p, field.in_byte) / field.weight % field.span
}

// Whether the page's own bytes keep to the layout.
#[tactic(auto, unfolding(crate::specs::Page::page_ok))]
fn page_ok(p: &[u8]) -> bool
    ensures { (result && page_list_ok (list_in p.now)) ≡ page_ok p.now }
{
    let reserved = all_zero(part(p, ZERO_AT, ZERO_SIZE));
    (read16(p, CODE_AT) == PAGE_CODE)
        & (p.len() == read16(p, PAGE_LENGTH_AT) + BEFORE_LENGTH)
        & (bits_in(p, ZERO_BITS) == 0)
        & reserved
        & (list_at(p) <= p.len())
}

// Whether scope, both modes and the algorithm index are permitted.
pub fn permitted(scope: usize, encryption: usize, decryption: usize, algorithm: usize) -> bool
    ensures { result ≡ every (laid.permitted scope encryption decryption algorithm) }
{
    (scope <= SCOPE_MAX)
        & (encryption <= ENCRYPTION_MAX)
        & (decryption <= DECRYPTION_MAX)
        & (1 <= algorithm)
        & (algorithm <= ALGORITHM_MAX)
}

#[tactic(auto, unfolding(crate::specs::Page::fields_ok))]
fn fields_ok(p: &[u8]) -> bool
    ensures { result ≡ fields_ok p.now }
{
    permitted(
        bits_in(p, SCOPE),
        bits_in(p, ENCRYPTION),
        bits_in(p, DECRYPTION),
        bits_in(p, ALGORITHM),
    )
}

// A page that reading accepts, and the count of its list.
#[derive(Clone, Copy)]
pub(crate) struct Page<'a> {
    bytes: &'a [u8],
    count: usize,
    ghost accepted: { page_read_number bytes.now ≡ 0 },
    ghost counted: { count ≡ page_list_count (list_in bytes.now) },
}

impl<'a> Page<'a> {
    // The page by itself, or 2, 3 or 4.
    #[tactic(auto, using(crate::proofs::ReadNumbers::unlisted_two), unfolding(crate::specs::Read::page_read_number))]
    pub(crate) fn of(p: &'a [u8]) -> Result<Page<'a>, Refusal>
        ensures number { outcome_number result ≡ page_read_number p.entry.now }
        ensures page { IfOk result (λ page. page.bytes ≡ p.entry) }
    {
        let format = bits_in(p, FORMAT);
        let s = key_part(p);
        let count = list_count(list_in(p))?;
        if !page_ok(p) || part_broken(format, s) {
            return Err(Refusal::Layout);
        }
        if !fields_ok(p) || part_refused(format, s) {
            return Err(Refusal::NotPermitted);
        }
        if PAGE_MAX < p.len() || part_long(format, s) {
            return Err(Refusal::PastMaximum);
        }
        Ok(Page { bytes: p, count })
    }

    #[tactic(auto, using(crate::proofs::ReadNumbers::format_known))]
    pub(crate) fn format(self) -> Format
        ensures { by_format (format_in self.entry.bytes.now) (Some Format.Plain) (Some Format.Reference) (Some Format.Wrapped) None ≡ Some result }
    {
        Format::of(bits_in(self.bytes, FORMAT)).unwrap()
    }

    pub(crate) fn algorithm(self) -> usize
        ensures { result ≡ algorithm_in self.entry.bytes.now }
    {
        bits_in(self.bytes, ALGORITHM)
    }

    pub(crate) fn key_part(self) -> &'a [u8]
        ensures { result.now ≡ key_part_of self.entry.bytes.now }
    {
        key_part(self.bytes)
    }

    pub(crate) fn list_at(self) -> usize
        ensures { result ≡ list_at self.entry.bytes.now }
    {
        list_at(self.bytes)
    }

    #[tactic(auto, unfolding(crate::specs::Page::fields_of))]
    pub(crate) fn fields(self) -> [u64; FIELD_COUNT]
        ensures { result ≡ fields_of self.entry.bytes.now }
    {
        let p = self.bytes;
        [
            bits_in(p, SCOPE) as u64,
            bits_in(p, LOCK) as u64,
            bits_in(p, CEEM) as u64,
            bits_in(p, RDMC) as u64,
            bits_in(p, SDK) as u64,
            bits_in(p, CKOD) as u64,
            bits_in(p, CKORP) as u64,
            bits_in(p, CKORL) as u64,
            bits_in(p, ENCRYPTION) as u64,
            bits_in(p, DECRYPTION) as u64,
            bits_in(p, ALGORITHM) as u64,
            bits_in(p, FORMAT) as u64,
            read16(p, KEY_LENGTH_AT) as u64,
            self.count as u64,
        ]
    }
}

// The page by itself: 2, 3 or 4 where it is refused.
pub fn check(p: &[u8]) -> Result<(), Refusal>
    ensures { outcome_number result ≡ page_read_number p.now }
{
    Page::of(p)?;
    Ok(())
}

// Reads a page: its fields are stored, or nothing is.
#[tactic(auto, unfolding(crate::specs::Read::page_read_answer))]
pub fn read(p: &[u8], fields: &mut [u64; FIELD_COUNT]) -> Result<(), Refusal>
    ensures { page_read_answer p.now fields.old ≡ (outcome_number result, fields.new) }
{
    *fields = Page::of(p)?.fields();
    Ok(())
}
