//! Systems: an interface with its modules and its sample, read and judged.
#![tactic(auto)]

mod instance;
mod interface;
mod system;

pub use instance::judge_instance;
pub use interface::{Elaborated, judge_interface};
pub use system::{System, judge_system, load_system};
