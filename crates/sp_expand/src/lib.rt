//! Arguments in the place of an expression's variables, within the limits of expressions.
#![tactic(auto)]

mod expand;
pub mod laws;
mod part;
mod size;

pub use expand::{put, put_within};
pub use part::{
    Called, Part, PartList, call, choice, constant, every, join, no_parts, not, two, variable,
};
pub use size::{Size, size_put};
