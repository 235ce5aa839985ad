//! `verify`: whether each flow formula of an interface has a certificate that checks, and ACCEPTED where all have; and
//! `migrate`: such certificates in the second format.
#![tactic(auto)]

mod judging;
mod laws;
mod lifting;
mod migrate;
mod printed;
mod reading;
mod verify;

pub use judging::Judgement;
pub use laws::{
    certified_law, migrate_law, migrated_accepted_law, migrated_law, verified_law, verify_law,
};
pub use migrate::migrate_command;
pub use reading::Texts;
pub use verify::verify_command;
