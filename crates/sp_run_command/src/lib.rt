//! `run`: the answers of a script; and what `run` and `compare` share.
#![tactic(auto)]

mod laws;
mod printed;
mod run;
mod texts;
mod values;

pub use laws::run_law;
pub use printed::{push_answer, push_conflict};
pub use run::{full_at, run_command};
pub use texts::{Prepared, RunTexts, load_run, prepare};
