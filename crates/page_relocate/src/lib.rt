// Relocate: a record's place at another size, and its bytes there; a target's record.
#![tactic(auto)]

pub mod record;
pub mod relocate;
pub mod relocation;
pub mod target;
