//! The names of an instance's members.

ghost use Rattle.std.specs.Prelude.{◌≡◌, ◌<◌, [], IfOk, length, map, slice_index_or};
ghost use Rattle.sp_core.specs.Instances.{IsInstanceOf};

use sp_core::{Instance, Spec};
use sp_text::{Memory, Name};
use std::alloc::Global;

// The names of a type's members.
fn names(alloc: Global, inst: &Instance, ty: u16) -> Result<Vec<Name>, Memory>
    requires { ty < length inst.now.members }
    ensures { IfOk result (λ names. names.items ≡ slice_index_or inst.now.members ty []) }
{
    let mut names = Vec::new(alloc);
    let size = inst.size(ty);
    for k in 0..size {
        let name = Name::new(alloc, inst.member(ty, k).bytes())?;
        names.push(name)?;
    }
    Ok(names)
}

/// The names of the members of each type.
///
/// # Errors
/// `Memory` where they can't be stored.
pub fn members_of(alloc: Global, spec: &Spec, inst: &Instance) -> Result<Vec<Vec<Name>>, Memory>
    requires { IsInstanceOf spec.now inst.now }
    ensures { IfOk result (λ members. map (λ names. names.items) members.items ≡ inst.now.members) }
{
    let mut members = Vec::new(alloc);
    let count = spec.types().len() as u16;
    for ty in 0..count {
        let names = names(alloc, inst, ty)?;
        members.push(names)?;
    }
    Ok(members)
}
