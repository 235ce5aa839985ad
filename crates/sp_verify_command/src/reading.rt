//! The texts of a system, and certificates for it.

ghost use Rattle.sp_frame.specs.Loads.{Loads};
ghost use Rattle.sp_verify_command.specs.Verify.{TextsRead};

use sp_frame::{LoadStop, read_file};
use sp_outside::Library;
use sp_sorts::Certificates;
use sp_system::{System, load_system};
use std::alloc::Global;

/// The texts of a system, and the certificates that are to be checked.
#[derive(Drop)]
pub struct Texts {
    pub system: System,
    pub certificates: Certificates,
}

/// The texts of the system of an interface's file, and the certificates of another file.
///
/// # Errors
/// `Refused` where one of them can't be loaded or read, `ReadFault`, and `Memory`.
#[tactic(auto, using(sp_frame::proofs::Connective::loads_after, sp_frame::proofs::Connective::loads_refused, sp_frame::proofs::Connective::loads_gives))]
pub fn load_texts<L: Library>(
    alloc: Global,
    lib: &mut L,
    interface: &str,
    certificates: &str,
) -> Result<Texts, LoadStop>
    ensures { Loads L.told L.faults lib.old lib.new (TextsRead interface.now certificates.now) result }
{
    let system = load_system(alloc, lib, interface)?;
    let certificates: Certificates = read_file(alloc, lib, certificates)?;
    Ok(Texts {
        system,
        certificates,
    })
}
