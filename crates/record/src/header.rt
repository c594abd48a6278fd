// A record's header, read and written. Sums are made in 64 bits, so that no count makes them come round.
ghost use Rattle.std.specs.Prelude.{◌≡◌, ◌^◌, ◌≤◌, ◌<◌};
ghost use Rattle.refusals.specs.Numbers.{outcome_number};
ghost use Rattle.keytable.specs.Row.{name_max};
ghost use Rattle.modes.specs.Calls.{text_max};
ghost use Rattle.modes.specs.Modes.{mode_of};
ghost use Rattle.record.specs.Record.{iv_at_lem, text_at_lem, tag_at, end_at, mode_in, count_in, name_size_lem, end_in, layout_ok, header};
ghost use Rattle.record.specs.Read.{passes, header_says, header_number, header_answer};

use crate::sizes::{
    COUNT_AT, FORMAT_AT, IV_LENGTH_AT, IV_OFFSET_AT, MODE_AT, NAME_AT, NAME_LENGTH_AT, NAME_MAX,
    NAME_OFFSET_AT, RECORD_FORMAT, TAG_OFFSET_AT, TEXT_MAX, TEXT_OFFSET_AT, ZERO_AT,
};
use modes::{iv_size, names_mode, tag_size};
use octets::big_endian::{bytes16, bytes32, read8, read16, read32};
use refusals::Refusal;

// The fields of a header that decide where all stands: the mode's byte, as the calls of `modes` take it, the length of the name and the count of the
// plaintext.
#[derive(Clone, Copy, Debug, PartialEq, Eq)]
pub struct Header {
    pub mode: u8,
    pub k: usize,
    pub n: usize,
}

// Where the parts after the name begin, and where the record ends.
#[derive(Clone, Copy)]
pub(crate) struct Places {
    pub(crate) iv: usize,
    pub(crate) text: usize,
    pub(crate) tag: usize,
    pub(crate) end: usize,
}

impl Header {
    // The fields that a record has, whatever its header holds beside them; past its end they are 0.
    fn of(r: &[u8]) -> Header
        ensures mode { result.mode ≡ mode_in r.now }
        ensures name { (result.k ≡ name_size_lem r.now) × (result.k < 2 ^ 16) }
        ensures count { (result.n ≡ count_in r.now) × (result.n < 2 ^ 32) }
    {
        Header {
            mode: read8(r, MODE_AT) as u8,
            k: read16(r, NAME_LENGTH_AT),
            n: read32(r, COUNT_AT),
        }
    }

    // A 32-bit sum would come round where n is FFFFFFFFh.
    pub(crate) fn places(self) -> Places
        requires { (self.k < 2 ^ 16) × (self.n < 2 ^ 32) }
        ensures iv { result.iv ≡ iv_at_lem self.k }
        ensures text { result.text ≡ text_at_lem (mode_of self.mode) self.k }
        ensures tag { result.tag ≡ tag_at (mode_of self.mode) self.k self.n }
        ensures end { result.end ≡ end_at (mode_of self.mode) self.k self.n }
    {
        let iv = NAME_AT + self.k;
        let text = iv + iv_size(self.mode);
        let tag = text + self.n;
        let end = tag + tag_size(self.mode);
        Places { iv, text, tag, end }
    }

    // The header that has these fields.
    #[tactic(auto, unfolding(crate::specs::Record::header))]
    pub(crate) fn bytes(self) -> [u8; NAME_AT]
        requires { (self.k ≤ name_max) × (self.n ≤ text_max) }
        ensures { result ≡ header self.mode self.k self.n }
    {
        let places = self.places();
        let mut header = [0; NAME_AT];
        header[FORMAT_AT..MODE_AT].copy_from_slice(&bytes16(RECORD_FORMAT));
        header[MODE_AT] = self.mode;
        header[COUNT_AT..NAME_OFFSET_AT].copy_from_slice(&bytes32(self.n));
        header[NAME_OFFSET_AT..NAME_LENGTH_AT].copy_from_slice(&bytes16(NAME_AT));
        header[NAME_LENGTH_AT..IV_OFFSET_AT].copy_from_slice(&bytes16(self.k));
        header[IV_OFFSET_AT..IV_LENGTH_AT].copy_from_slice(&bytes16(places.iv));
        header[IV_LENGTH_AT..TEXT_OFFSET_AT].copy_from_slice(&bytes16(iv_size(self.mode)));
        header[TEXT_OFFSET_AT..TAG_OFFSET_AT].copy_from_slice(&bytes32(places.text));
        header[TAG_OFFSET_AT..NAME_AT].copy_from_slice(&bytes32(places.tag));
        header
    }
}

// The end that a record's own header gives, whether or not the record reaches so far.
pub fn end_in(r: &[u8]) -> usize
    ensures { result ≡ end_in r.now }
{
    Header::of(r).places().end
}

// Whether the header's words and the record's end keep to the layout.
fn layout_ok(r: &[u8]) -> bool
    ensures { result ≡ layout_ok r.now }
{
    let h = Header::of(r);
    let p = h.places();
    (read16(r, FORMAT_AT) == RECORD_FORMAT)
        & (read8(r, ZERO_AT) == 0)
        & (read16(r, NAME_OFFSET_AT) == NAME_AT)
        & (1 <= h.k)
        & (read16(r, IV_OFFSET_AT) == p.iv)
        & (read16(r, IV_LENGTH_AT) == iv_size(h.mode))
        & (read32(r, TEXT_OFFSET_AT) == p.text)
        & (read32(r, TAG_OFFSET_AT) == p.tag)
        & (r.len() == p.end)
}

// Whether a name's length or a plaintext's count passes its maximum.
pub(crate) fn passes_maximum(k: usize, n: usize) -> bool
    ensures { result ≡ passes k n }
{
    (NAME_MAX < k) | (TEXT_MAX < n)
}

// Reads a record's header: its fields, or 2, 3 or 4.
#[tactic(auto, using(crate::proofs::Reading::header_two, crate::proofs::Reading::header_three, crate::proofs::Reading::header_four, crate::proofs::Reading::header_zero))]
pub fn read(r: &[u8]) -> Result<Header, Refusal>
    ensures { header_says result ≡ header_answer r.now }
{
    if !layout_ok(r) {
        return Err(Refusal::Layout);
    }
    let h = Header::of(r);
    if !names_mode(h.mode) {
        return Err(Refusal::NotPermitted);
    }
    if passes_maximum(h.k, h.n) {
        return Err(Refusal::PastMaximum);
    }
    Ok(h)
}

// The record by itself: accepted, or 2, 3 or 4.
pub fn check(r: &[u8]) -> Result<(), Refusal>
    ensures { outcome_number result ≡ header_number r.now }
{
    read(r)?;
    Ok(())
}
