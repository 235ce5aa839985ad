//! What functions break by what they do.

ghost use Rattle.std.specs.Prelude.{◌≡◌, IfOk};
ghost use Rattle.sp_text.specs.Violations.{first};
ghost use Rattle.sp_plain.specs.Text.{text};
ghost use Rattle.sp_judge.specs.Translation.{AreFine};
ghost use Rattle.sp_effects.specs.EffectRules.{body_broken};
ghost use Rattle.sp_functions.specs.Depths as spec_depths;
ghost use Rattle.sp_functions.specs.Judged as spec_judged;
ghost use Rattle.sp_specification.specs.Functions as spec;

use sp_definitions::has_room;
use sp_effects::{has_effect_room, judge_body};
use sp_functions::{derived_depth, judge_reading, later_flags, make_expression};
use sp_judge::Scope;
use sp_scopes::{Head, Local, Sort};
use sp_text::{Memory, Name, Rule, Span, Violation};
use sp_tree::{Body, EffectTree, ExprTree, FunDecl, Ident};
use sp_values::Ty;
use std::alloc::Global;

/// The type that a function's head declares; an O-function declares none.
pub fn type_of(sort: Sort) -> Ty
    ensures { result ≡ spec.head_type sort }
{
    match sort {
        Sort::Plain(ty) => ty,
        Sort::Primitive(ty) => ty,
        Sort::Derived(ty) => ty,
        Sort::Operation => Ty::Boolean,
        Sort::Both(ty) => ty,
    }
}

fn result_name(alloc: Global, name: &Option<Ident>) -> Result<Name, Memory>
    ensures { IfOk result (λ x. x ≡ spec.result_name name.now) }
{
    match name {
        None => Name::new(alloc, &[]),
        Some(x) => Name::new(alloc, x.name.bytes()),
    }
}

/// The result of an OV-function, with its name and type; no other function has one.
///
/// # Errors
/// `Memory` where its name can't be stored.
pub fn answer_of(alloc: Global, sort: Sort, name: &Option<Ident>) -> Result<Option<Local>, Memory>
    ensures { IfOk result (λ r. r ≡ spec.answer_of sort name.now) }
{
    match sort {
        Sort::Both(ty) => {
            let name = result_name(alloc, name)?;
            Ok(Some(Local { name, ty }))
        }
        Sort::Plain(_) => Ok(None),
        Sort::Primitive(_) => Ok(None),
        Sort::Derived(_) => Ok(None),
        Sort::Operation => Ok(None),
    }
}

fn judge_initial(
    alloc: Global,
    scope: &Scope,
    flags: &[bool],
    head: &Head,
    e: &ExprTree,
) -> Result<Option<Violation>, Memory>
    requires flags { flags.now ≡ spec_judged.all_flags scope.now.names.functions }
    requires fine { AreFine scope.now.cores }
    ensures { IfOk result (λ r. r ≡ first (spec_judged.initial_broken scope.now head.now.formals (spec.head_type head.now.sort) (text e.now))) }
{
    let formals = head.formals.items();
    if !has_room(formals, e) {
        return Err(Memory);
    }
    let ty = type_of(head.sort);
    judge_reading(alloc, scope, flags, Rule::ReadsState, formals, ty, e)
}

// What the derivation of function `g` breaks.
fn judge_derivation(
    alloc: Global,
    scope: &Scope,
    g: u16,
    head: &Head,
    e: &ExprTree,
) -> Result<Option<Violation>, Memory>
    requires fine { AreFine scope.now.cores }
    ensures { IfOk result (λ r. r ≡ first (spec_judged.derivation_broken scope.now g head.now.formals (spec.head_type head.now.sort) (text e.now))) }
{
    let formals = head.formals.items();
    if !has_room(formals, e) {
        return Err(Memory);
    }
    let flags = later_flags(alloc, g, scope.names.functions())?;
    let ty = type_of(head.sort);
    judge_reading(alloc, scope, &flags, Rule::Cyclic, formals, ty, e)
}

// What the effects of a function break, whose name stands at `place`, and whose result has this name.
fn judge_effects(
    alloc: Global,
    scope: &Scope,
    head: &Head,
    place: Span,
    name: &Option<Ident>,
    effects: &[EffectTree],
) -> Result<Option<Violation>, Memory>
    requires fine { AreFine scope.now.cores }
    ensures { IfOk result (λ r. r ≡ first (body_broken scope.now place head.now.formals (spec.answer_of head.now.sort name.now) (spec.texts effects.now))) }
{
    let formals = head.formals.items();
    if !has_effect_room(formals, effects) {
        return Err(Memory);
    }
    let answer = answer_of(alloc, head.sort, name)?;
    judge_body(alloc, scope, place, formals, &answer, effects)
}

/// The first of what function `g` breaks by what it does.
///
/// # Errors
/// `Memory` where what is around can't be stored.
pub(crate) fn judge_kind(
    alloc: Global,
    scope: &Scope,
    flags: &[bool],
    g: u16,
    head: &Head,
    x: &FunDecl,
) -> Result<Option<Violation>, Memory>
    requires flags { flags.now ≡ spec_judged.all_flags scope.now.names.functions }
    requires fine { AreFine scope.now.cores }
    ensures { IfOk result (λ r. r ≡ first (spec.kind_broken scope.now g head.now x.now.head.name.span x.now.head.result x.now.body)) }
{
    match &x.body {
        Body::Initially(e) => judge_initial(alloc, scope, flags, head, e),
        Body::Derivation(e) => judge_derivation(alloc, scope, g, head, e),
        Body::Effects(ws) => {
            let place = x.head.name.span;
            judge_effects(alloc, scope, head, place, &x.head.result, ws.items())
        }
    }
}

// The depth of a function with this derivation.
fn derivation_depth(
    alloc: Global,
    scope: &Scope,
    before: &[u8],
    formals: &[Local],
    e: &ExprTree,
) -> Result<u8, Memory>
    requires fine { AreFine scope.now.cores }
    ensures { IfOk result (λ n. n ≡ spec_depths.derived_depth before.now (spec_judged.made scope.now formals.now (text e.now))) }
{
    if !has_room(formals, e) {
        return Err(Memory);
    }
    let derivation = make_expression(alloc, scope, formals, e)?;
    Ok(derived_depth(before, &derivation))
}

/// The depth of a function, from those of the functions before it.
///
/// # Errors
/// `Memory` where its derivation can't be stored.
pub(crate) fn depth_of(
    alloc: Global,
    scope: &Scope,
    before: &[u8],
    head: &Head,
    body: &Body,
) -> Result<u8, Memory>
    requires fine { AreFine scope.now.cores }
    ensures { IfOk result (λ n. n ≡ spec.depth_of scope.now before.now head.now body.now) }
{
    match body {
        Body::Derivation(e) => derivation_depth(alloc, scope, before, head.formals.items(), e),
        Body::Initially(_) => Ok(0),
        Body::Effects(_) => Ok(0),
    }
}
