//! The closure of a formula's facts under the rules: what follows from the given facts and from assumptions on atoms.
#![tactic(auto)]

mod behind;
mod clashes;
mod facts;
mod follow;
mod fronts;
mod gaps;
mod parents;
mod trail;

pub use facts::{Facts, MOST_ASSUMPTIONS};
