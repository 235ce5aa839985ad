//! What the texts of modules break: definitions, assertions and functions.
#![tactic(auto)]

mod assertions;
mod functions;
mod kinds;
mod modules;
mod rooms;
mod views;

pub use kinds::{answer_of, type_of};
pub use modules::judge_bodies;
pub use rooms::have_exception_room;
pub use views::view_cores;
