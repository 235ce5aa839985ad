//! The names and headers of an interface and its modules: what every name stands for, or the first rule that they break.
#![tactic(auto)]

mod headers;
mod heads;
mod interface;
mod lent;
mod meaning;
mod module;
mod parts;
mod scopes;

pub use heads::{Head, Local, Sort, definition_heads, function_heads, parameter_heads, type_of};
pub use interface::judge_names;
pub use lent::{DeclaredType, Definition, LevelOrder};
pub use meaning::{found_are_lent, have_one_meaning, lent_are_found};
pub use scopes::Scopes;
