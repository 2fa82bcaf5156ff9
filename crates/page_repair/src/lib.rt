// Repair on one page: which records are kept, and the page once it is settled what is done to each slot.
#![tactic(auto)]

pub mod keep;
pub mod marks;
pub mod mend;
pub mod plan;
