//! Values of specifications: their types, the operators on them, lists of arguments, places of a state and invocations.
#![tactic(auto)]

mod args;
mod arithmetic;
mod place;
mod value;

pub use args::Args;
pub use arithmetic::{add, int_le, int_lt, mul, sub};
pub use place::{Invocation, Place};
pub use value::{Op, Ty, Value};
