//! Changes of a state: the true ones of an invocation listed in order, judged against each other, and then written.
#![tactic(auto)]

mod laws;
mod listed;
mod over;
mod rank;
mod walk;
mod writing;

pub use laws::{changed_law, clash_law, count_law, entries_law, order_law};
pub use listed::{ListFault, Listed, list_all};
pub use over::Over;
pub use writing::{fresh, write};
