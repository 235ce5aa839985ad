//! The levels of functions judged, and the parts of the specification that an interface and its modules stand for, made.
#![tactic(auto)]

mod assertions;
mod counting;
mod effects;
mod ends;
mod equations;
mod expression;
mod function;
mod functions;
mod lists;
mod numbers;
mod parts;
mod rooms;

pub use assertions::make_assertions;
pub use ends::judge_ends;
pub use functions::make_functions;
pub use numbers::tell_numbers_of;
pub use parts::{make_params, make_types};
