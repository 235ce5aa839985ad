//! Reads expressions from their tokens, and the single tokens that every reader above uses.
#![tactic(auto)]

mod build;
mod expr;
mod leaf;
mod level;
mod parse;
pub mod tokens;

pub use expr::Found;
pub use parse::{parse_expr, read_expr};
