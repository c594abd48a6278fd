// Byte strings: big-endian numbers, exclusive or, equality, and writing one string over another.
#![tactic(auto)]

pub mod big_endian;
pub mod strings;
