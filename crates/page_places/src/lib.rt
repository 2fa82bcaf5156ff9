// Where a new record goes on its page: allocate but for its bytes.
#![tactic(auto)]

pub mod reserve;
