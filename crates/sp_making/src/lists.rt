//! Lists of names and formals.

ghost use Rattle.std.specs.Prelude.{◌≡◌, IfOk, map};
ghost use Rattle.sp_functions.specs.Assertions.{formal_of};

use sp_core::Formal;
use sp_scopes::Local;
use sp_text::{Memory, Name, Sequence};
use std::alloc::Global;

fn formal(alloc: Global, local: &Local) -> Result<Formal, Memory>
    ensures { IfOk result (λ f. f ≡ formal_of local.now) }
{
    Ok(Formal {
        name: Name::new(alloc, local.name.bytes())?,
        ty: local.ty,
    })
}

/// The formals of core for variables.
///
/// # Errors
/// `Memory` where they can't be stored.
pub fn formals(alloc: Global, locals: &[Local]) -> Result<Sequence<Formal>, Memory>
    ensures { IfOk result (λ all. all ≡ map formal_of locals.now) }
{
    let mut all = Vec::new(alloc);
    for local in locals {
        all.push(formal(alloc, local)?)?;
    }
    Ok(Sequence::new(all))
}

/// The same names.
///
/// # Errors
/// `Memory` where they can't be stored.
pub fn copies(alloc: Global, names: &[Name]) -> Result<Sequence<Name>, Memory>
    ensures { IfOk result (λ all. all ≡ names.now) }
{
    let mut all = Vec::new(alloc);
    for name in names {
        all.push(Name::new(alloc, name.bytes())?)?;
    }
    Ok(Sequence::new(all))
}
