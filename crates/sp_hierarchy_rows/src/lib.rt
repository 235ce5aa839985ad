//! The rows of a hierarchy: which interfaces they name, and whether they stand in an order.
#![tactic(auto)]

mod names;
mod rows;

pub use names::interface_names;
pub use rows::judge_rows;
