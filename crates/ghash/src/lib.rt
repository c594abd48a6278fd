// GHASH of SP 800-38D.
#![tactic(auto)]

pub mod hash;
mod running;
mod table;
mod words;
