//! What is printed of formulas, certificates, values and answers.
#![tactic(auto)]

mod answers;
mod constants;
mod counts;
mod expressions;
mod faults;
mod formulas;
mod headings;

pub use answers::{print_answer, print_value};
pub use constants::{function_name, level_name, truth_text};
pub use counts::push_count;
pub use expressions::print_expr;
pub use faults::print_cert_fault;
pub use formulas::print_formula;
pub use headings::{kind_text, print_heading, print_interface};
