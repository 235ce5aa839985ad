//! The step of the machine of an instance: what an invocation answers, and its changes of a state in memory.
#![tactic(auto)]

mod changing;
mod fault;
mod laws;
mod results;
mod stepping;

pub use fault::StepFault;
pub use laws::{conflict_fault_law, fault_law, one_fault_law};
pub use stepping::step;
