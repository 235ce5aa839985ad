//! The names of an interface and its modules, with the lattice of its levels.
#![tactic(auto)]

mod alone;
mod judging;
mod laws;
mod ordered;

pub use laws::{broken_law, order_law};
pub use ordered::{Ordered, order_names};
