//! What an interface and its modules declare, by name: the list of the declarations, what a name stands for, and names that
//! are declared twice.
#![tactic(auto)]

mod declaration;
mod declared;
mod index;
mod levels;
mod listing;
mod names;
mod repeats;
mod visibility;

pub use declaration::{Declaration, Entity};
pub use declared::{Declared, declare_names};
pub use listing::{after, counted};
pub use names::Names;
pub use repeats::first_repeated;
pub use visibility::{can_be_taken, file_of, seen, taken};
