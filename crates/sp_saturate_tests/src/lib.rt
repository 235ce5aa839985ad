//! Small formulas, term by term, and tests of the closure over them.
#![tactic(auto)]

mod builder;
mod worked;

pub use builder::{Builder, Term, Unbuilt};
pub use worked::{chain_of_equalities, reading};

#[cfg(test)]
mod forms;
#[cfg(test)]
mod tests;
