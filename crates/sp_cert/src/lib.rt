//! Certificates that a formula has no open branch: their texts, read and written, and what it means that one checks.
#![tactic(auto)]

mod cert;
mod laws;
mod line;
mod lines;
mod read;
mod write;

pub use cert::{Cert, CertFault, CertFile};
pub use laws::one_spelling;
pub use read::read_cert;
pub use write::write_cert;
