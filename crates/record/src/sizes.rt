// The numbers of document 01's records that have a name. The header: where its words stand, and what the first of them holds.
pub(crate) const FORMAT_AT: usize = 0;

pub(crate) const RECORD_FORMAT: usize = 1;

pub(crate) const MODE_AT: usize = 2;

pub(crate) const ZERO_AT: usize = 3;

pub(crate) const COUNT_AT: usize = 4;

pub(crate) const NAME_OFFSET_AT: usize = 8;

pub(crate) const NAME_LENGTH_AT: usize = 10;

pub(crate) const IV_OFFSET_AT: usize = 12;

pub(crate) const IV_LENGTH_AT: usize = 14;

pub(crate) const TEXT_OFFSET_AT: usize = 16;

pub(crate) const TAG_OFFSET_AT: usize = 20;

// The header's size, which is where the name stands.
pub(crate) const NAME_AT: usize = 24;

// The maxima.
pub(crate) const NAME_MAX: usize = 32;

pub(crate) const TEXT_MAX: usize = 1048576;

pub(crate) const CALLERS_MAX: usize = 4096;
