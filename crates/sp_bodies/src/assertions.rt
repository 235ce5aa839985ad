//! What the assertions of a module break.

ghost use Rattle.std.specs.Prelude.{◌≡◌, IfOk};
ghost use Rattle.sp_text.specs.declared.fault.Quantity.TheVariants as quantity;
ghost use Rattle.sp_text.specs.declared.limits.TheConstants.{MOST_ASSERTIONS};
ghost use Rattle.sp_text.specs.Violations.{first};
ghost use Rattle.sp_scopes.specs.Modules.{exceeds_at};
ghost use Rattle.sp_judge.specs.Translation.{AreFine};
ghost use Rattle.sp_functions.specs.Judged.{all_flags};
ghost use Rattle.sp_specification.specs.Bodies.{assertions_broken};
ghost use Rattle.sp_bodies.specs.Seen.{numbered_broken};

use sp_definitions::has_room;
use sp_functions::judge_assertion;
use sp_judge::Scope;
use sp_naming::after;
use sp_plain::span_of;
use sp_text::{MOST_ASSERTIONS, Memory, Quantity, Span, Violation, earlier, exceeds};
use sp_tree::ExprTree;
use std::alloc::Global;

// The limit on assertions, at the first one beyond it.
fn count_rule(number: u16, place: Span) -> Option<Violation>
    ensures { result ≡ first (exceeds_at number MOST_ASSERTIONS place quantity.Assertions) }
{
    if number as u32 == MOST_ASSERTIONS {
        exceeds(place, Quantity::Assertions)
    } else {
        None
    }
}

// The first of what an assertion breaks that has this number in the interface.
fn judge_numbered(
    alloc: Global,
    scope: &Scope,
    flags: &[bool],
    number: u16,
    e: &ExprTree,
) -> Result<Option<Violation>, Memory>
    requires flags { flags.now ≡ all_flags scope.now.names.functions }
    requires fine { AreFine scope.now.cores }
    ensures { IfOk result (λ r. r ≡ first (numbered_broken scope.now number e.now)) }
{
    if !has_room(&[], e) {
        return Err(Memory);
    }
    let own = judge_assertion(alloc, scope, flags, e)?;
    Ok(earlier(own, count_rule(number, span_of(e))))
}

/// The first of what the assertions of a module break, of which the first has this number in the interface.
///
/// # Errors
/// `Memory` where what is around can't be stored.
pub(crate) fn judge_assertions(
    alloc: Global,
    scope: &Scope,
    flags: &[bool],
    first_number: u16,
    assertions: &[ExprTree],
) -> Result<Option<Violation>, Memory>
    requires flags { flags.now ≡ all_flags scope.now.names.functions }
    requires fine { AreFine scope.now.cores }
    ensures { IfOk result (λ r. r ≡ first (assertions_broken scope.now first_number assertions.now)) }
{
    let mut found = None;
    let mut number = first_number;
    for e in assertions {
        found = earlier(found, judge_numbered(alloc, scope, flags, number, e)?);
        number = after(number);
    }
    Ok(found)
}
