//! The functions of a specification.

ghost use Rattle.std.specs.Prelude.{◌≡◌, ◌∷◌, [], IfOk, OnOk, map, option_copied};
ghost use Rattle.sp_judge.specs.Translation.{AreFine};
ghost use Rattle.sp_elaborate.specs.Views.{cores_from, view};
ghost use Rattle.sp_naming.specs.Numbers.{numbered};
ghost use Rattle.sp_specification.specs.Ends.{whole_view};
ghost use Rattle.sp_specification.specs.Meaning.{AreFunctions, IsLevelled, function_texts, numbered_functions};
ghost use Rattle.sp_making.specs.Grown.{AddsFunctions};
ghost use Rattle.sp_making.specs.Seen.{at_module};

use crate::equations::equation_of;
use crate::function::make_function;
use sp_core::{Expr, Function};
use sp_judge::Scope;
use sp_naming::{after, counted};
use sp_scopes::{Head, Scopes};
use sp_text::Memory;
use sp_tree::{Equation, FunDecl, InterfaceTree, Module};
use sqlite_items::at;
use std::alloc::Global;

// The function of module `k` with this head and level equation, if it has them.
fn levelled(
    alloc: Global,
    whole: &Scope,
    k: u16,
    head: Option<&Head>,
    equation: Option<&Equation>,
    x: &FunDecl,
) -> Result<Function, Memory>
    requires { AreFine whole.now.cores }
    ensures { IfOk result (IsLevelled (at_module whole.now k) whole.now (option_copied head.entry) (option_copied equation.entry) x.now) }
{
    match head {
        None => Err(Memory),
        Some(head) => match equation {
            None => Err(Memory),
            Some(equation) => make_function(alloc, whole, k, head, x, equation),
        },
    }
}

#[tactic(auto, using(crate::proofs::Growing::adds_function))]
fn push_function(
    alloc: Global,
    whole: &Scope,
    k: u16,
    equations: &[Equation],
    x: &FunDecl,
    all: &mut Vec<Function>,
) -> Result<(), Memory>
    requires { AreFine whole.now.cores }
    ensures { OnOk result (AddsFunctions whole.now equations.now ((k, x.now) ∷ []) all.old.items all.new.items) }
{
    let g = all.len();
    let head = at(whole.names.functions(), g);
    let equation = equation_of(whole, equations, g);
    all.push(levelled(alloc, whole, k, head, equation, x)?)?;
    Ok(())
}

#[tactic(auto, using(crate::proofs::Growing::adds_no_functions))]
fn push_all(
    alloc: Global,
    whole: &Scope,
    k: u16,
    equations: &[Equation],
    xs: &[FunDecl],
    all: &mut Vec<Function>,
) -> Result<(), Memory>
    requires { AreFine whole.now.cores }
    ensures { OnOk result (AddsFunctions whole.now equations.now (map (λ x. (k, x)) xs.now) all.old.items all.new.items) }
{
    if let [first, rest @ ..] = xs {
        push_function(alloc, whole, k, equations, first, all)?;
        push_all(alloc, whole, k, equations, rest, all)?;
    }
    Ok(())
}

#[tactic(auto, using(crate::proofs::Growing::adds_no_functions))]
fn push_modules(
    alloc: Global,
    whole: &Scope,
    k: u16,
    equations: &[Equation],
    modules: &[Module],
    all: &mut Vec<Function>,
) -> Result<(), Memory>
    requires { AreFine whole.now.cores }
    ensures { OnOk result (AddsFunctions whole.now equations.now (numbered numbered_functions k modules.now) all.old.items all.new.items) }
{
    if let [first, rest @ ..] = modules {
        push_all(alloc, whole, k, equations, first.functions.items(), all)?;
        push_modules(alloc, whole, after(k), equations, rest, all)?;
    }
    Ok(())
}

#[tactic(auto, using(crate::proofs::Growing::all_functions))]
fn functions_seen(
    alloc: Global,
    whole: &Scope,
    equations: &[Equation],
    modules: &[Module],
) -> Result<Vec<Function>, Memory>
    requires { AreFine whole.now.cores }
    ensures { IfOk result (λ all. AreFunctions (at_module whole.now) whole.now equations.now 0 (function_texts modules.now) all.items) }
{
    let mut all = Vec::new(alloc);
    push_modules(alloc, whole, 0, equations, modules, &mut all)?;
    Ok(all)
}

/// The functions of a specification, in order, where these are the expressions of the definitions between these levels.
///
/// # Errors
/// `Memory` where they can't be stored, or where the texts break a rule.
pub fn make_functions(
    alloc: Global,
    scopes: &Scopes,
    bottom: u16,
    top: u16,
    cores: &[Expr],
    interface: &InterfaceTree,
    modules: &[Module],
) -> Result<Vec<Function>, Memory>
    requires cores { cores.now ≡ cores_from scopes.now bottom top [] scopes.now.definitions }
    requires fine { AreFine cores.now }
    ensures { IfOk result (λ all. AreFunctions (λ k. view scopes.now k bottom top) (whole_view scopes.now bottom top) interface.now.levels 0 (function_texts modules.now) all.items) }
{
    let whole = Scope {
        names: scopes,
        module_number: counted(0, scopes.modules()),
        cores,
        bottom,
        top,
    };
    functions_seen(alloc, &whole, interface.levels.items(), modules)
}
