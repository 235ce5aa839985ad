//! A cursor over the tokens of a text, by which readers of texts take one token after another, and the readers of lists and
//! of the lines that several texts share.
#![tactic(auto)]

pub mod lines;
mod lists;
pub mod marks;
mod tokens;

pub use lists::{many, section, separated, separated_or_none};
pub use tokens::Tokens;
