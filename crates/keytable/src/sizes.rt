// The numbers of the key table (document 01; document 02, No. 2) that have a name. The header: where its words stand, and what they hold.
pub(crate) const FORMAT_AT: usize = 0;

pub(crate) const TABLE_FORMAT: usize = 1;

pub(crate) const ROW_COUNT_AT: usize = 2;

pub(crate) const FIRST_ROW_AT: usize = 4;

pub(crate) const HEAD_SIZE: usize = 8;

pub(crate) const ROW_LENGTH_AT: usize = 6;

pub(crate) const ROW_SIZE: usize = 72;

// A row: where its parts stand, and their sizes and maxima.
pub(crate) const NAME_LENGTH_AT: usize = 0;

pub(crate) const USE_AT: usize = 1;

pub(crate) const USE_MAX: usize = 3;

pub(crate) const KEK_USE: usize = 0x03;

pub(crate) const TYPE_AT: usize = 2;

pub(crate) const ZERO_AT: usize = 4;

pub(crate) const ZERO_SIZE: usize = 4;

pub(crate) const NAME_AT: usize = 8;

pub(crate) const NAME_MAX: usize = 32;

pub(crate) const KEY_AT: usize = 40;

pub(crate) const KEY_SIZE: usize = 32;

// The types of key-encrypting keys: the name is a DS_SAI, or a value that the device server assigned (source document 002).
pub(crate) const KEK_BY_SAI: usize = 0x0001;

pub(crate) const KEK_BY_VALUE: usize = 0x0002;

pub(crate) const TYPE_MAX: usize = 0x0002;

// How many marks there are (specs/Marks.antt).
pub(crate) const MARK_COUNT: usize = 2048;
