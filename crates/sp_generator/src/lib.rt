//! The list of the flow formulas of a specification.
#![tactic(auto)]

mod agreements;
mod deeds;
mod effects;
mod items;
mod listing;
mod pairs;
mod site;

pub use listing::formulas;
