// Lengths in bytes and document 01's maxima.
pub(crate) const KEY_SIZE: usize = 32;

pub(crate) const IV_SIZE: usize = 12;

pub(crate) const TAG_SIZE: usize = 16;

pub(crate) const DATA_MAX: usize = 4152;

pub(crate) const TEXT_MAX: usize = 1048576;

// How long a text is at most whose pads CCM keeps while it opens it.
pub(crate) const SHORT: usize = 1024;
