//! How the work of a command ends: steps and their refusals, answers, files and sorts of texts, and what is printed.
#![tactic(auto)]

mod lines;
mod load;
mod refusal;
mod report;
mod status;
mod text;

pub use lines::words_text;
pub use load::load_text;
pub use refusal::{LoadStop, Printed, Refusal, Stop, Verdict, WorkLimit, WorkPlace, as_loading};
pub use report::{
    Failure, Report, broken, refusal_status, refusal_text, report_of, verdict_status,
};
pub use status::Status;
pub use text::{Text, file_name, judged, read_file, read_named, read_text};
