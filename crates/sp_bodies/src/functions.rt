//! What the functions of a module break.

ghost use Rattle.std.specs.Prelude.{◌≡◌, ◌++◌, ◌∷◌, [], IfOk, OnOk, option_copied};
ghost use Rattle.sp_text.specs.Violations.{first};
ghost use Rattle.sp_judge.specs.Translation.{AreFine};
ghost use Rattle.sp_functions.specs.Exceptions.{exceptions_broken};
ghost use Rattle.sp_functions.specs.Judged.{all_flags};
ghost use Rattle.sp_specification.specs.Bodies as spec;
ghost use Rattle.sp_specification.specs.Functions as spec_functions;

use crate::kinds::{depth_of, judge_kind};
use crate::rooms::have_exception_room;
use sp_functions::judge_exceptions;
use sp_judge::Scope;
use sp_naming::counted;
use sp_scopes::{Head, Local};
use sp_text::{
    MOST_DERIVATION_DEPTH, Memory, Quantity, Span, Violation, earlier, exceeds, otherwise,
};
use sp_tree::{ExprTree, FunDecl, Ident};
use sqlite_items::at;
use std::alloc::Global;

fn depth_rule(place: Span, depth: u8) -> Option<Violation>
    ensures { result ≡ first (spec_functions.depth_broken place depth) }
{
    if depth as u32 > MOST_DERIVATION_DEPTH {
        exceeds(place, Quantity::DerivationDepth)
    } else {
        None
    }
}

fn judge_excepted(
    alloc: Global,
    scope: &Scope,
    formals: &[Local],
    exceptions: &[(Ident, ExprTree)],
) -> Result<Option<Violation>, Memory>
    requires fine { AreFine scope.now.cores }
    ensures { IfOk result (λ r. r ≡ first (exceptions_broken scope.now formals.now exceptions.now)) }
{
    if !have_exception_room(formals, exceptions) {
        return Err(Memory);
    }
    judge_exceptions(alloc, scope, formals, exceptions)
}

// What the next function breaks, where the functions before it have these depths.
fn judge_function(
    alloc: Global,
    scope: &Scope,
    flags: &[bool],
    before: &[u8],
    head: &Head,
    x: &FunDecl,
) -> Result<Option<Violation>, Memory>
    requires flags { flags.now ≡ all_flags scope.now.names.functions }
    requires fine { AreFine scope.now.cores }
    ensures { IfOk result (λ r. r ≡ first (spec_functions.function_broken scope.now (spec.next_number before.now) before.now head.now x.now)) }
{
    let formals = head.formals.items();
    let exceptions = judge_excepted(alloc, scope, formals, x.exceptions.items())?;
    let kind = judge_kind(alloc, scope, flags, counted(0, before.len()), head, x)?;
    let depth = depth_of(alloc, scope, before, head, &x.body)?;
    let own = otherwise(kind, depth_rule(x.head.name.span, depth));
    Ok(earlier(exceptions, own))
}

fn judge_headed(
    alloc: Global,
    scope: &Scope,
    flags: &[bool],
    before: &[u8],
    head: Option<&Head>,
    x: &FunDecl,
) -> Result<Option<Violation>, Memory>
    requires flags { flags.now ≡ all_flags scope.now.names.functions }
    requires fine { AreFine scope.now.cores }
    ensures { IfOk result (λ r. r ≡ first (spec.headed_broken scope.now before.now (option_copied head.entry) x.now)) }
{
    match head {
        None => Ok(None),
        Some(head) => judge_function(alloc, scope, flags, before, head, x),
    }
}

fn headed_depth(
    alloc: Global,
    scope: &Scope,
    before: &[u8],
    head: Option<&Head>,
    x: &FunDecl,
) -> Result<u8, Memory>
    requires fine { AreFine scope.now.cores }
    ensures { IfOk result (λ n. n ≡ spec.headed_depth scope.now before.now (option_copied head.entry) x.now) }
{
    match head {
        None => Ok(0),
        Some(head) => depth_of(alloc, scope, before, head, &x.body),
    }
}

fn next_head<'a>(scope: &'a Scope, before: &[u8]) -> Option<&'a Head>
    ensures { option_copied result ≡ spec.next_head scope.now before.now }
{
    at(scope.names.functions(), counted(0, before.len()) as usize)
}

// What the next function breaks; its depth is appended.
fn judge_next(
    alloc: Global,
    scope: &Scope,
    flags: &[bool],
    depths: &mut Vec<u8>,
    x: &FunDecl,
) -> Result<Option<Violation>, Memory>
    requires flags { flags.now ≡ all_flags scope.now.names.functions }
    requires fine { AreFine scope.now.cores }
    ensures found { IfOk result (λ r. r ≡ first (spec.headed_broken scope.now depths.old.items (spec.next_head scope.now depths.old.items) x.now)) }
    ensures depths { OnOk result (depths.new.items ≡ depths.old.items ++ spec.headed_depth scope.now depths.old.items (spec.next_head scope.now depths.old.items) x.now ∷ []) }
{
    let head = next_head(scope, depths.as_slice());
    let found = judge_headed(alloc, scope, flags, depths.as_slice(), head, x)?;
    let depth = headed_depth(alloc, scope, depths.as_slice(), head, x)?;
    depths.push(depth)?;
    Ok(found)
}

/// The first of what the functions of a module break, where the functions before them have these depths; theirs are appended.
///
/// # Errors
/// `Memory` where what is around can't be stored.
pub(crate) fn judge_functions(
    alloc: Global,
    scope: &Scope,
    flags: &[bool],
    depths: &mut Vec<u8>,
    functions: &[FunDecl],
) -> Result<Option<Violation>, Memory>
    requires flags { flags.now ≡ all_flags scope.now.names.functions }
    requires fine { AreFine scope.now.cores }
    ensures found { IfOk result (λ r. r ≡ first (spec.functions_broken scope.now depths.old.items functions.now)) }
    ensures depths { OnOk result (depths.new.items ≡ spec.depths_after scope.now depths.old.items functions.now) }
{
    if let [x, functions @ ..] = functions {
        let here = judge_next(alloc, scope, flags, depths, x)?;
        let others = judge_functions(alloc, scope, flags, depths, functions)?;
        return Ok(earlier(here, others));
    }
    Ok(None)
}
