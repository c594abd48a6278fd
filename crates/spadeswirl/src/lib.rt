// The C interface: one thin exported function for each call of include/spadeswirl.h, with the statement of the call below it.
#![tactic(auto)]

pub mod block;
pub mod ivs;
pub mod lists;
pub mod mode;
pub mod pages;
pub mod sealing;
pub mod table;
pub mod wrap;
