//! Instances and scripts of a specification, made of their trees; what the texts of values stand for.
#![tactic(auto)]

mod heads;
mod instance;
mod members;
mod names;
mod populations;
mod rows;
mod script;
mod spec_names;
mod tables;
mod vocabulary;

pub use instance::make_instance;
pub use members::members_of;
pub use names::{NameList, Named, list_names, push_names};
pub use script::make_script;
pub use spec_names::{all_names, designators, level_names};
pub use vocabulary::Vocabulary;
