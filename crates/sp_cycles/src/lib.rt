//! The order that new values make among functions, and whether it has a cycle.
#![tactic(auto)]

mod laws;
mod order;

pub use laws::{chain_law, cycle_law};
pub use order::{Quoted, first_cycle};
