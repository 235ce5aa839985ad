//! The list of the flow formulas of a mapping.
#![tactic(auto)]

mod laws;
mod listing;

pub use laws::{map_formulas_are_typed, tell_map_typed};
pub use listing::map_formulas;
