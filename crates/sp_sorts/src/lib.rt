//! The sorts of texts that commands read, and the word for a level.
#![tactic(auto)]

mod certs;
mod level;
mod reading;
mod sorts;

pub use certs::Certificates;
pub use level::judge_level;
pub use reading::{Parse, Reading, lexed, read_named_tree, read_tree};
