//! The top call: from the words of a command line to a status, over any library and any sink.
#![tactic(auto)]

mod laws;
mod perform;
mod top_call;

pub use laws::{command_law, one_ending, printed_law};
pub use sp_frame::Status;
pub use top_call::run;
