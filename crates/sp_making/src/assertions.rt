//! The assertions of a specification.

ghost use Rattle.std.specs.Prelude.{◌≡◌, ◌∷◌, [], IfOk, OnOk, map};
ghost use Rattle.sp_plain.specs.Text.{text};
ghost use Rattle.sp_judge.specs.Translation.{AreFine};
ghost use Rattle.sp_elaborate.specs.Views.{cores_from, view};
ghost use Rattle.sp_naming.specs.Numbers.{numbered};
ghost use Rattle.sp_functions.specs.Assertions.{IsAssertionOf};
ghost use Rattle.sp_specification.specs.Meaning.{AreAssertions, assertion_texts, numbered_assertions};
ghost use Rattle.sp_making.specs.Grown.{AddsAssertions};
ghost use Rattle.sp_making.specs.Seen.{at_module};

use sp_core::{Assertion, Expr};
use sp_definitions::has_room;
use sp_functions::make_assertion;
use sp_judge::Scope;
use sp_naming::{after, counted};
use sp_scopes::Scopes;
use sp_text::Memory;
use sp_tree::{ExprTree, Module};
use std::alloc::Global;

// The assertion of this text in module `k`.
fn assertion(alloc: Global, whole: &Scope, k: u16, e: &ExprTree) -> Result<Assertion, Memory>
    requires { AreFine whole.now.cores }
    ensures { IfOk result (IsAssertionOf (at_module whole.now k) (text e.now)) }
{
    let scope = Scope {
        names: whole.names,
        module_number: k,
        cores: whole.cores,
        bottom: whole.bottom,
        top: whole.top,
    };
    if !has_room(&[], e) {
        return Err(Memory);
    }
    make_assertion(alloc, &scope, e)
}

#[tactic(auto, using(crate::proofs::Growing::adds_assertion))]
fn push_assertion(
    alloc: Global,
    whole: &Scope,
    k: u16,
    e: &ExprTree,
    all: &mut Vec<Assertion>,
) -> Result<(), Memory>
    requires { AreFine whole.now.cores }
    ensures { OnOk result (AddsAssertions whole.now ((k, e.now) ∷ []) all.old.items all.new.items) }
{
    all.push(assertion(alloc, whole, k, e)?)?;
    Ok(())
}

#[tactic(auto, using(crate::proofs::Growing::adds_no_assertions))]
fn push_all(
    alloc: Global,
    whole: &Scope,
    k: u16,
    es: &[ExprTree],
    all: &mut Vec<Assertion>,
) -> Result<(), Memory>
    requires { AreFine whole.now.cores }
    ensures { OnOk result (AddsAssertions whole.now (map (λ e. (k, e)) es.now) all.old.items all.new.items) }
{
    if let [first, rest @ ..] = es {
        push_assertion(alloc, whole, k, first, all)?;
        push_all(alloc, whole, k, rest, all)?;
    }
    Ok(())
}

#[tactic(auto, using(crate::proofs::Growing::adds_no_assertions))]
fn push_modules(
    alloc: Global,
    whole: &Scope,
    k: u16,
    modules: &[Module],
    all: &mut Vec<Assertion>,
) -> Result<(), Memory>
    requires { AreFine whole.now.cores }
    ensures { OnOk result (AddsAssertions whole.now (numbered numbered_assertions k modules.now) all.old.items all.new.items) }
{
    if let [first, rest @ ..] = modules {
        push_all(alloc, whole, k, first.assertions.items(), all)?;
        push_modules(alloc, whole, after(k), rest, all)?;
    }
    Ok(())
}

#[tactic(auto, using(crate::proofs::Growing::all_assertions))]
fn assertions_seen(
    alloc: Global,
    whole: &Scope,
    modules: &[Module],
) -> Result<Vec<Assertion>, Memory>
    requires { AreFine whole.now.cores }
    ensures { IfOk result (λ all. AreAssertions (at_module whole.now) (assertion_texts modules.now) all.items) }
{
    let mut all = Vec::new(alloc);
    push_modules(alloc, whole, 0, modules, &mut all)?;
    Ok(all)
}

/// The assertions of a specification, in order, where these are the expressions of the definitions between these levels.
///
/// # Errors
/// `Memory` where they can't be stored.
pub fn make_assertions(
    alloc: Global,
    scopes: &Scopes,
    bottom: u16,
    top: u16,
    cores: &[Expr],
    modules: &[Module],
) -> Result<Vec<Assertion>, Memory>
    requires cores { cores.now ≡ cores_from scopes.now bottom top [] scopes.now.definitions }
    requires fine { AreFine cores.now }
    ensures { IfOk result (λ all. AreAssertions (λ k. view scopes.now k bottom top) (assertion_texts modules.now) all.items) }
{
    let whole = Scope {
        names: scopes,
        module_number: counted(0, scopes.modules()),
        cores,
        bottom,
        top,
    };
    assertions_seen(alloc, &whole, modules)
}
