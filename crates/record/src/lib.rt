// The records of document 01: a record's check by itself, sealing and opening. specs/Record.antt has the layout.
#![tactic(auto)]

mod accepted;
pub mod header;
pub mod next;
pub mod opening;
pub mod sealing;
mod sizes;
