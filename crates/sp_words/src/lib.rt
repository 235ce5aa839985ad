//! Which words are a command of the program, as `clap` reads them.
#![tactic(auto)]

mod parse;
mod size;
mod verb;
mod words;

pub use verb::Verb;
pub use words::{Command, WordsFault, read_words};
