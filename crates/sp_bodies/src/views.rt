//! The expressions of definitions, for what the modules see.

ghost use Rattle.std.specs.Prelude.{◌≡◌, [], IfOk};
ghost use Rattle.sp_judge.specs.Translation.{AreFine};
ghost use Rattle.sp_elaborate.specs.Views.{cores_from};

use sp_core::Expr;
use sp_definitions::{definition_cores, have_room};
use sp_scopes::Scopes;
use sp_text::Memory;
use std::alloc::Global;

/// The expressions of all definitions, which every module's view has, where these levels are the least and the greatest.
///
/// # Errors
/// `Memory` where they can't be stored.
#[tactic(auto, using(sp_elaborate::proofs::Views::one_list))]
pub fn view_cores(
    alloc: Global,
    scopes: &Scopes,
    bottom: u16,
    top: u16,
) -> Result<Vec<Expr>, Memory>
    ensures cores { IfOk result (λ all. all.items ≡ cores_from scopes.now bottom top [] scopes.now.definitions) }
    ensures fine { IfOk result (λ all. AreFine all.items) }
{
    if !have_room(scopes) {
        return Err(Memory);
    }
    let cores = definition_cores(alloc, scopes, bottom, top)?;
    Ok(cores)
}
