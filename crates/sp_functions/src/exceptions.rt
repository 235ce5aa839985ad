//! The exceptions of a function.

ghost use Rattle.std.specs.Prelude.{◌≡◌, IfOk, length};
ghost use Rattle.std.specs.List.{flat_map};
ghost use Rattle.sp_text.specs.Violations.{first};
ghost use Rattle.sp_scopes.specs.Headers as spec_headers;
ghost use Rattle.sp_judge.specs.Translation.{AreFine};
ghost use Rattle.sp_functions.specs.Exceptions as spec;
ghost use Rattle.sp_functions.specs.Exceptions.{AreExceptionsOf, HasRoom, HaveRoom, IsExceptionOf, condition_broken, exception_names};

use crate::judging::{judge_alone, make_expression};
use sp_core::Expr;
use sp_judge::Scope;
use sp_naming::first_repeated;
use sp_scopes::Local;
use sp_text::{MOST_EXCEPTIONS, Memory, Name, Quantity, Violation, earlier, exceeds};
use sp_tree::{ExprTree, Ident};
use sp_values::Ty;
use sqlite_items::at;
use std::alloc::Global;

fn past(most: usize, quantity: Quantity, names: &[Ident]) -> Option<Violation>
    ensures { result ≡ first (spec_headers.past most quantity names.now) }
{
    match at(names, most) {
        None => None,
        Some(x) => exceeds(x.span, quantity),
    }
}

fn names_of(alloc: Global, exceptions: &[(Ident, ExprTree)]) -> Result<Vec<Ident>, Memory>
    ensures { IfOk result (λ names. names.items ≡ exception_names exceptions.now) }
{
    let mut names = Vec::new(alloc);
    for exception in exceptions {
        names.push(exception.0.copy(alloc)?)?;
    }
    Ok(names)
}

#[tactic(auto, using(crate::proofs::Rooms::room_at))]
fn judge_conditions(
    alloc: Global,
    scope: &Scope,
    formals: &[Local],
    exceptions: &[(Ident, ExprTree)],
) -> Result<Option<Violation>, Memory>
    requires fine { AreFine scope.now.cores }
    requires room { HaveRoom (length formals.now) exceptions.now }
    ensures { IfOk result (λ r. r ≡ first (flat_map (condition_broken scope.now formals.now) exceptions.now)) }
{
    let mut found = None;
    for exception in exceptions {
        found = earlier(found, judge_condition(alloc, scope, formals, exception)?);
    }
    Ok(found)
}

fn judge_condition(
    alloc: Global,
    scope: &Scope,
    formals: &[Local],
    exception: &(Ident, ExprTree),
) -> Result<Option<Violation>, Memory>
    requires fine { AreFine scope.now.cores }
    requires room { HasRoom (length formals.now) exception.now }
    ensures { IfOk result (λ r. r ≡ first (condition_broken scope.now formals.now exception.now)) }
{
    judge_alone(alloc, scope, formals, Some(Ty::Boolean), &exception.1)
}

/// The first of what the exceptions of a function with these formals break.
///
/// # Errors
/// `Memory` where what is around can't be stored.
pub fn judge_exceptions(
    alloc: Global,
    scope: &Scope,
    formals: &[Local],
    exceptions: &[(Ident, ExprTree)],
) -> Result<Option<Violation>, Memory>
    requires fine { AreFine scope.now.cores }
    requires room { HaveRoom (length formals.now) exceptions.now }
    ensures { IfOk result (λ r. r ≡ first (spec.exceptions_broken scope.now formals.now exceptions.now)) }
{
    let names = names_of(alloc, exceptions)?;
    let twice = first_repeated(alloc, &names)?;
    let many = past(MOST_EXCEPTIONS as usize, Quantity::Exceptions, &names);
    let conditions = judge_conditions(alloc, scope, formals, exceptions)?;
    Ok(earlier(earlier(twice, many), conditions))
}

fn make_exception(
    alloc: Global,
    scope: &Scope,
    formals: &[Local],
    exception: &(Ident, ExprTree),
) -> Result<(Name, Expr), Memory>
    requires fine { AreFine scope.now.cores }
    requires room { HasRoom (length formals.now) exception.now }
    ensures { IfOk result (IsExceptionOf scope.now formals.now exception.now) }
{
    let condition = make_expression(alloc, scope, formals, &exception.1)?;
    Ok((Name::new(alloc, exception.0.name.bytes())?, condition))
}

/// The core exceptions of a function with these formals.
///
/// # Errors
/// `Memory` where they can't be stored.
#[tactic(auto, using(crate::proofs::Rooms::room_at, crate::proofs::Rooms::exceptions_next))]
pub fn make_exceptions(
    alloc: Global,
    scope: &Scope,
    formals: &[Local],
    exceptions: &[(Ident, ExprTree)],
) -> Result<Vec<(Name, Expr)>, Memory>
    requires fine { AreFine scope.now.cores }
    requires room { HaveRoom (length formals.now) exceptions.now }
    ensures { IfOk result (λ es. AreExceptionsOf scope.now formals.now exceptions.now es.items) }
{
    let mut all = Vec::new(alloc);
    for exception in exceptions {
        all.push(make_exception(alloc, scope, formals, exception)?)?;
    }
    Ok(all)
}
