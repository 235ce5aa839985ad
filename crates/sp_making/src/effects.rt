//! The core effects of a function.

ghost use Rattle.std.specs.Prelude.{◌≡◌, IfOk, map};
ghost use Rattle.sp_core.specs.Effects.{EffectTrees, effect_tree, effect_trees_of};
ghost use Rattle.sp_judge.specs.Translation.{AreFine};
ghost use Rattle.sp_effects.specs.EffectCore.{effects_core};
ghost use Rattle.sp_effects.specs.Made.{IsBuilt};
ghost use Rattle.sp_specification.specs.Functions as spec;

use sp_core::Effect;
use sp_effects::{Effects, has_effect_room, translate_effects};
use sp_judge::Scope;
use sp_scopes::{Local, Sort};
use sp_text::{Memory, Name};
use sp_tree::{EffectTree, Ident};
use sqlite_items::Items;
use std::alloc::Global;

fn result_name(alloc: Global, name: &Option<Ident>) -> Result<Name, Memory>
    ensures { IfOk result (λ n. n ≡ spec.result_name name.now) }
{
    match name {
        None => Name::new(alloc, &[]),
        Some(name) => Name::new(alloc, name.name.bytes()),
    }
}

/// The result of a function of this sort, whose result has this name.
///
/// # Errors
/// `Memory` where the name can't be stored.
pub fn answer_of(alloc: Global, sort: Sort, name: &Option<Ident>) -> Result<Option<Local>, Memory>
    ensures { IfOk result (λ answer. answer ≡ spec.answer_of sort name.now) }
{
    match sort {
        Sort::Plain(_) => Ok(None),
        Sort::Primitive(_) => Ok(None),
        Sort::Derived(_) => Ok(None),
        Sort::Operation => Ok(None),
        Sort::Both(ty) => Ok(Some(Local {
            name: result_name(alloc, name)?,
            ty,
        })),
    }
}

// Effects that break nothing are all made.
fn built(made: Effects) -> Result<Items<Effect>, Memory>
    ensures { (ws : EffectTrees) → IsBuilt ws made → IfOk result (λ es. effect_trees_of (map effect_tree es) ≡ ws) }
{
    match made.effects {
        Some(effects) => Ok(effects),
        None => Err(Memory),
    }
}

/// The core effects of a function with these formals and this result, where they break nothing.
///
/// # Errors
/// `Memory` where they can't be stored, or where an expression in them exceeds a limit.
pub fn make_effects(
    alloc: Global,
    scope: &Scope,
    answer: &Option<Local>,
    formals: &[Local],
    ws: &[EffectTree],
) -> Result<Items<Effect>, Memory>
    requires { AreFine scope.now.cores }
    ensures { IfOk result (λ es. effect_trees_of (map effect_tree es) ≡ effects_core scope.now answer.now formals.now (spec.texts ws.now)) }
{
    if !has_effect_room(formals, ws) {
        return Err(Memory);
    }
    let made = translate_effects(alloc, scope, answer, formals, ws)?;
    built(made)
}
