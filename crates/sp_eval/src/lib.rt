//! Evaluation: the value of an expression, of a V-function and of a level, and whether an instance is admissible. Nothing
//! here takes memory, and nothing refuses but a false assertion.
#![tactic(auto)]

mod assertions;
mod domains;
mod entries;
mod env;
mod evaluator;
mod laws;
mod values;

pub use assertions::{AssertionFalse, admissible};
pub use domains::{is_true, population, proper};
pub use entries::{Entries, InitialState, Overlay};
pub use env::Env;
pub use laws::{overlay_law, overlay_state_law, proper_law};
pub use values::{eval, eval_new, eval_over, level, look};
