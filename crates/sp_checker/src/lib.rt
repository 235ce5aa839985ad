//! A checker of certificates: a certificate that it accepts leaves its formula no open branch.
#![tactic(auto)]

mod checker;
mod laws;
mod lift;
mod trail;
mod walk;

pub use checker::Checker;
pub use laws::{checked_means_closed, first_format_is_plain, lifted_checks, lifted_is_spelled};
pub use lift::LiftFault;
