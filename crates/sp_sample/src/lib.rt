//! The texts of `sample N`: an interface, its module and its instance, made of the number alone.
#![tactic(auto)]

mod instance;
mod interface;
mod module;
mod pieces;

pub use instance::sample_instance;
pub use interface::sample_interface;
pub use module::sample_module;
pub use pieces::push_numbered;
