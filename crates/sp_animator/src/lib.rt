//! The machine of an instance in memory: its runs, a run compared with its purged run, lists purged at a level, and what a
//! lower machine lets see of an upper one.
#![tactic(auto)]

mod comparing;
mod laws;
mod purging;
mod running;
mod viewing;

pub use comparing::{CompareFault, Compared, compare};
pub use laws::{compare_fault_law, memory_run_law, run_fault_law};
pub use purging::purge;
pub use running::{RunFault, animate};
pub use sp_stepping::{StepFault, step};
pub use viewing::view;
