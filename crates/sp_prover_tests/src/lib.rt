//! Formulas to decide, and tests of the search over them.
#![tactic(auto)]

mod worked;

pub use worked::{Undecided, chain, conjunction, decided, parity};

#[cfg(test)]
mod tests;
