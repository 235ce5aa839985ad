//! What texts and levels break, and what is made of them.

ghost use Rattle.std.specs.Prelude.{◌≡◌, [], IfOk};
ghost use Rattle.sp_text.specs.Violations.{first_in_files};
ghost use Rattle.sp_judge.specs.Translation.{AreFine};
ghost use Rattle.sp_elaborate.specs.Views.{cores_from};
ghost use Rattle.sp_specification.specs.Bodies.{bodies_broken};
ghost use Rattle.sp_specification.specs.Ends.{ends_broken};
ghost use Rattle.sp_text.specs.Firsts.{behind};

use sp_bodies::judge_bodies;
use sp_core::Expr;
use sp_making::judge_ends;
use sp_scopes::Scopes;
use sp_text::{FileViolation, Memory, otherwise_in_files};
use sp_tree::{InterfaceTree, Module};
use std::alloc::Global;

/// The first of what the texts of modules break, or else of what the levels of functions do.
///
/// # Errors
/// `Memory` where what is around can't be stored.
#[tactic(auto, using(crate::proofs::Passes::first_pass))]
pub(crate) fn judge_rest(
    alloc: Global,
    scopes: &Scopes,
    ends: (u16, u16),
    cores: &[Expr],
    interface: &InterfaceTree,
    modules: &[Module],
) -> Result<Option<FileViolation>, Memory>
    requires cores { cores.now ≡ cores_from scopes.now ends.0 ends.1 [] scopes.now.definitions }
    requires fine { AreFine cores.now }
    ensures { IfOk result (λ r. r ≡ first_in_files (behind (bodies_broken scopes.now ends.0 ends.1 modules.now) (ends_broken scopes.now ends.0 ends.1 interface.now modules.now))) }
{
    let bodies = judge_bodies(alloc, scopes, ends.0, ends.1, cores, modules)?;
    if bodies.is_some() {
        return Ok(bodies);
    }
    let levels = judge_ends(alloc, scopes, ends.0, ends.1, cores, interface, modules)?;
    Ok(otherwise_in_files(bodies, levels))
}
