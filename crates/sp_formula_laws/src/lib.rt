//! Laws of the list of flow formulas.
#![tactic(auto)]

mod laws;

pub use laws::{formulas_are_typed, tell_typed};
