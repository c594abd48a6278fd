// What the programs read and write as text.
#![tactic(auto)]

pub mod decimal;
pub mod hex;
pub mod meaning;
pub mod text;
pub mod writing;
