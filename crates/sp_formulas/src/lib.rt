//! The flow formulas of a specification.
#![tactic(auto)]

mod adding;
mod derivations;
mod drafting;
mod exceptions;
mod fault;
mod goals;
mod guards;
mod moves;
mod one;
mod reading;
mod spot;
mod targets;
mod tuples;
mod variables;

pub use adding::push_settled;
pub use derivations::add_derivation;
pub use exceptions::add_exceptions;
pub use fault::FormulaFault;
pub use guards::add_guards;
pub use moves::{Renumbering, renumber};
pub use one::add;
pub use reading::walk;
pub use spot::{Goal, Hypothesis, Level, Place, Subject};
pub use targets::walk_each;
