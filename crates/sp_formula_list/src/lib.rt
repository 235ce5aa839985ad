//! The list of the flow formulas of a specification, as a step of a command.
#![tactic(auto)]

mod laws;
mod listing;

pub use laws::{listed_law, listing_law};
pub use listing::{exceeded, listed, refused};
