// Key pages of document 01: reading one, what it holds and where, and loading its key. specs/Layout.antt and specs/Page.antt have the layout,
// specs/KeyPart.antt the formats.
#![tactic(auto)]

pub mod loading;
pub mod parts;
pub mod places;
pub mod reading;
pub mod sizes;
pub mod wrapped;
