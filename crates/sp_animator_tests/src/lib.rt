//! Tests of runs, of purged lists and of comparisons, over texts, in a crate of their own so that no library is proved again
//! with them.
#![tactic(auto)]

#[cfg(test)]
mod comparisons;
#[cfg(test)]
mod runs;
#[cfg(test)]
mod steps;
mod texts;

pub use texts::{Ended, Kept, Ran, Texts, compared, kept, run};
