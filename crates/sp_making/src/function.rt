//! One function.

ghost use Rattle.std.specs.Prelude.{IfOk, Option};
ghost use Rattle.sp_tree.specs.declared.module.Body.TheVariants as body_;
ghost use Rattle.sp_tree.specs.declared.names.Ident.{Ident as IdentValue};
ghost use Rattle.sp_judge.specs.Translation.{AreFine};
ghost use Rattle.sp_functions.specs.Exceptions.{AreExceptionsOf};
ghost use Rattle.sp_specification.specs.Ends.{level_tree};
ghost use Rattle.sp_specification.specs.Functions.{IsFunctionOf, IsKindOf};
ghost use Rattle.sp_making.specs.Seen.{at_module};

use crate::effects::{answer_of, make_effects};
use crate::equations::make_level;
use crate::expression::make;
use crate::lists::formals;
use crate::rooms::have_exception_room;
use sp_core::{Expr, Function, Kind};
use sp_judge::Scope;
use sp_scopes::{Head, Local, Sort};
use sp_text::{Memory, Name, Sequence};
use sp_tree::{Body, EffectTree, Equation, ExprTree, FunDecl, Ident};
use std::alloc::Global;

fn exceptions_of(
    alloc: Global,
    scope: &Scope,
    formals: &[Local],
    exceptions: &[(Ident, ExprTree)],
) -> Result<Sequence<(Name, Expr)>, Memory>
    requires { AreFine scope.now.cores }
    ensures { IfOk result (AreExceptionsOf scope.now formals.now exceptions.now) }
{
    if !have_exception_room(formals, exceptions) {
        return Err(Memory);
    }
    let all = sp_functions::make_exceptions(alloc, scope, formals, exceptions)?;
    Ok(Sequence::new(all))
}

// A head is of the sort that the body says; that of another has no function.
fn primitive(alloc: Global, scope: &Scope, head: &Head, e: &ExprTree) -> Result<Kind, Memory>
    requires { AreFine scope.now.cores }
    ensures { (o : Option IdentValue) → IfOk result (IsKindOf scope.now head.now o (body_.Initially e.now)) }
{
    match head.sort {
        Sort::Primitive(ty) => {
            let initial = make(alloc, scope, head.formals.items(), e)?;
            Ok(Kind::Primitive(ty, initial))
        }
        Sort::Plain(_) => Err(Memory),
        Sort::Derived(_) => Err(Memory),
        Sort::Operation => Err(Memory),
        Sort::Both(_) => Err(Memory),
    }
}

fn derived(alloc: Global, scope: &Scope, head: &Head, e: &ExprTree) -> Result<Kind, Memory>
    requires { AreFine scope.now.cores }
    ensures { (o : Option IdentValue) → IfOk result (IsKindOf scope.now head.now o (body_.Derivation e.now)) }
{
    match head.sort {
        Sort::Derived(ty) => {
            let derivation = make(alloc, scope, head.formals.items(), e)?;
            Ok(Kind::Derived(ty, derivation))
        }
        Sort::Plain(_) => Err(Memory),
        Sort::Primitive(_) => Err(Memory),
        Sort::Operation => Err(Memory),
        Sort::Both(_) => Err(Memory),
    }
}

fn changing(
    alloc: Global,
    scope: &Scope,
    head: &Head,
    name: &Option<Ident>,
    ws: &Sequence<EffectTree>,
) -> Result<Kind, Memory>
    requires { AreFine scope.now.cores }
    ensures { IfOk result (IsKindOf scope.now head.now name.now (body_.Effects ws.now)) }
{
    let answer = answer_of(alloc, head.sort, name)?;
    let effects = make_effects(alloc, scope, &answer, head.formals.items(), ws.items())?;
    match head.sort {
        Sort::Operation => Ok(Kind::Operation(effects)),
        Sort::Both(ty) => Ok(Kind::Both(ty, effects)),
        Sort::Plain(_) => Err(Memory),
        Sort::Primitive(_) => Err(Memory),
        Sort::Derived(_) => Err(Memory),
    }
}

fn kind_of(
    alloc: Global,
    scope: &Scope,
    head: &Head,
    name: &Option<Ident>,
    body: &Body,
) -> Result<Kind, Memory>
    requires { AreFine scope.now.cores }
    ensures { IfOk result (IsKindOf scope.now head.now name.now body.now) }
{
    match body {
        Body::Initially(e) => primitive(alloc, scope, head, e),
        Body::Derivation(e) => derived(alloc, scope, head, e),
        Body::Effects(ws) => changing(alloc, scope, head, name, ws),
    }
}

/// The core function of a text of module `k` with this head and level equation, where `whole` is what the interface sees.
///
/// # Errors
/// `Memory` where it can't be stored; or where the function has effects of which an expression exceeds a limit, or a head
/// that isn't of the sort of its body.
pub fn make_function(
    alloc: Global,
    whole: &Scope,
    k: u16,
    head: &Head,
    x: &FunDecl,
    equation: &Equation,
) -> Result<Function, Memory>
    requires { AreFine whole.now.cores }
    ensures { IfOk result (IsFunctionOf (at_module whole.now k) head.now x.now (level_tree whole.now equation.now)) }
{
    let scope = Scope {
        names: whole.names,
        module_number: k,
        cores: whole.cores,
        bottom: whole.bottom,
        top: whole.top,
    };
    let exceptions = exceptions_of(alloc, &scope, head.formals.items(), x.exceptions.items())?;
    let kind = kind_of(alloc, &scope, head, &x.head.result, &x.body)?;
    let level = make_level(alloc, whole, equation)?;
    Ok(Function {
        name: Name::new(alloc, head.name.bytes())?,
        visible: !x.hidden,
        formals: formals(alloc, head.formals.items())?,
        exceptions,
        kind,
        level,
    })
}
