//! `hierarchy`: whether each flow formula of the interfaces of a hierarchy is proved, and each of the mappings between them.
#![tactic(auto)]

mod hierarchy;
mod laws;
mod parts;

pub use hierarchy::hierarchy_command;
pub use laws::{accepted_law, came_law, hides_law, hierarchy_law, secure_law};
