// Compactify, and room made by it.
#![tactic(auto)]

mod compact;
pub mod room;
mod table;
