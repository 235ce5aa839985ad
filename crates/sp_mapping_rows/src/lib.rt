//! The parts of a mapping's text, judged and made.
#![tactic(auto)]

mod expression;
mod functions;
mod heads;
mod lattices;
mod levels;
mod over;
mod parameters;
mod types;

pub use functions::{all_missing as functions_missing, judge_functions, make_rows};
pub use heads::{row_heads, type_heads};
pub use lattices::judge_lattices;
pub use levels::level_over;
pub use over::{type_over, with_types};
pub use parameters::{all_missing as params_missing, judge_params, param_cores};
pub use types::{all_missing as types_missing, judge_types, type_numbers};
