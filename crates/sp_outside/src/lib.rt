//! Where texts come from and where a report goes: traits whose calls have a written meaning, and one object in memory
//! for each.
#![tactic(auto)]

mod library;
mod memory_library;
mod memory_sink;
mod sink;

pub use library::{Library, LoadFault};
pub use memory_library::MemoryLibrary;
pub use memory_sink::MemorySink;
pub use sink::{Failed, Sink};

#[cfg(test)]
mod tests;
