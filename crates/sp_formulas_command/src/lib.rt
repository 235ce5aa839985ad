//! `formulas`: the flow formulas of an interface.
#![tactic(auto)]

mod formulas;
mod laws;
mod printed;

pub use formulas::formulas_command;
pub use laws::formulas_law;
