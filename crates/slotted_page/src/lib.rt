// One page: allocate and erase.
#![tactic(auto)]

pub mod allocate;
pub mod erase;
