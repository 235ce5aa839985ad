//! Assertions.

ghost use Rattle.std.specs.Prelude.{◌≡◌, ◌+◌, ◌<◌, [], Bool, IfOk, if◌then◌else◌, length, map};
ghost use Rattle.sp_text.specs.Violations as violations;
ghost use Rattle.sp_text.specs.Violations.{first};
ghost use Rattle.sp_core.specs.Tree.{Tree};
ghost use Rattle.sp_expand.specs.Sizes as spec_sizes;
ghost use Rattle.sp_plain.specs.Text.{span, text};
ghost use Rattle.sp_judge.specs.Translation.{AreFine, binders};
ghost use Rattle.sp_functions.specs.Assertions as spec;
ghost use Rattle.sp_functions.specs.Assertions.{IsAssertionOf, formal_of};
ghost use Rattle.sp_functions.specs.Judged as spec_judged;

use crate::judging::make_expression;
use sp_core::{Assertion, Formal};
use sp_expand::Size;
use sp_judge::{Scope, Site, extend, judge, translate};
use sp_plain::span_of;
use sp_reads::judge_reads;
use sp_scopes::Local;
use sp_text::{
    MOST_EXPRESSION_NODES, MOST_HEIGHT, MOST_QUANTIFIERS, Memory, Name, Quantity, Rule, Sequence,
    Span, Violation, earlier, exceeds, otherwise,
};
use sp_tree::{ExprNode, ExprTree};
use sp_values::Ty;
use std::alloc::Global;

fn copies(alloc: Global, locals: &[Local]) -> Result<Vec<Local>, Memory>
    ensures { IfOk result (λ all. all.items ≡ locals.now) }
{
    let mut all = Vec::new(alloc);
    for local in locals {
        all.push(Local {
            name: Name::new(alloc, local.name.bytes())?,
            ty: local.ty,
        })?;
    }
    Ok(all)
}

// The variables of the FORALLs that an assertion begins with, below others.
#[tactic(auto, using(sp_judge::proofs::Weights::weight_some))]
fn leading(
    alloc: Global,
    scope: &Scope,
    locals: &[Local],
    e: &ExprTree,
) -> Result<Vec<Local>, Memory>
    ensures { IfOk result (λ all. all.items ≡ spec.leading scope.now locals.now (text e.now)) }
{
    match &e.node {
        ExprNode::Quant(all, formal, b) => {
            let around = extend(alloc, scope, locals, formal)?;
            let inner = leading(alloc, scope, &around, b.get())?;
            if *all {
                Ok(inner)
            } else {
                copies(alloc, locals)
            }
        }
        ExprNode::Paren(a) => leading(alloc, scope, locals, a.get()),
        ExprNode::Name(_) => copies(alloc, locals),
        ExprNode::Number(_) => copies(alloc, locals),
        ExprNode::Truth(_) => copies(alloc, locals),
        ExprNode::Unknown => copies(alloc, locals),
        ExprNode::Bottom => copies(alloc, locals),
        ExprNode::Top => copies(alloc, locals),
        ExprNode::Call(..) => copies(alloc, locals),
        ExprNode::New(..) => copies(alloc, locals),
        ExprNode::Not(_) => copies(alloc, locals),
        ExprNode::Binary(..) => copies(alloc, locals),
        ExprNode::Join(..) => copies(alloc, locals),
        ExprNode::If(..) => copies(alloc, locals),
    }
}

// What stands below them.
#[tactic(auto, using(sp_judge::proofs::Weights::weight_some))]
fn below(e: &ExprTree) -> &ExprTree
    ensures { text result.now ≡ spec.below (text e.now) }
{
    match &e.node {
        ExprNode::Quant(all, _, b) => { if *all { below(b.get()) } else { e } }
        ExprNode::Paren(a) => below(a.get()),
        ExprNode::Name(_) => e,
        ExprNode::Number(_) => e,
        ExprNode::Truth(_) => e,
        ExprNode::Unknown => e,
        ExprNode::Bottom => e,
        ExprNode::Top => e,
        ExprNode::Call(..) => e,
        ExprNode::New(..) => e,
        ExprNode::Not(_) => e,
        ExprNode::Binary(..) => e,
        ExprNode::Join(..) => e,
        ExprNode::If(..) => e,
    }
}

fn exceeds_where(over: bool, place: Span, quantity: Quantity) -> Option<Violation>
    ensures { result ≡ first (if over then violations.exceeds place quantity else []) }
{
    if over { exceeds(place, quantity) } else { None }
}

fn assertion_limits(place: Span, variables: usize, size: Size) -> Option<Violation>
    requires { variables < 4294967288 }
    ensures { (t : Tree) → size ≡ spec_sizes.size t → result ≡ first (spec.assertion_limits place variables t) }
{
    let over = variables as u64 + size.quantifiers as u64 > MOST_QUANTIFIERS as u64;
    let high = exceeds_where(size.height > MOST_HEIGHT, place, Quantity::Height);
    let nested = exceeds_where(over, place, Quantity::Quantifiers);
    let many = exceeds_where(
        size.nodes > MOST_EXPRESSION_NODES,
        place,
        Quantity::ExpressionNodes,
    );
    let rest = earlier(nested, many);
    earlier(high, rest)
}

fn judge_body(
    alloc: Global,
    scope: &Scope,
    flags: &[bool],
    place: Span,
    locals: &[Local],
    b: &ExprTree,
) -> Result<Option<Violation>, Memory>
    requires flags { flags.now ≡ spec_judged.all_flags scope.now.names.functions }
    requires fine { AreFine scope.now.cores }
    requires room { length locals.now + binders (text b.now) < 4294967288 }
    ensures { IfOk result (λ r. r ≡ first (spec.body_broken scope.now place locals.now (text b.now))) }
{
    let part = translate(alloc, scope, locals, b)?;
    let limits = assertion_limits(place, locals.len(), part.size);
    let read = judge_reads(alloc, scope, flags, Rule::ReadsState, locals, b)?;
    Ok(earlier(limits, read))
}

// What an assertion breaks below its variables.
#[tactic(auto, using(crate::proofs::Asserted::leading_room))]
fn judge_inside(
    alloc: Global,
    scope: &Scope,
    flags: &[bool],
    e: &ExprTree,
) -> Result<Option<Violation>, Memory>
    requires flags { flags.now ≡ spec_judged.all_flags scope.now.names.functions }
    requires fine { AreFine scope.now.cores }
    requires room { binders (text e.now) < 4294967288 }
    ensures { IfOk result (λ r. r ≡ first (spec.body_broken scope.now (span (text e.now)) (spec.leading scope.now [] (text e.now)) (spec.below (text e.now)))) }
{
    let variables = leading(alloc, scope, &[], e)?;
    judge_body(alloc, scope, flags, span_of(e), &variables, below(e))
}

/// The first of what an assertion breaks, where the flags are those of all V-functions.
///
/// # Errors
/// `Memory` where what is around can't be stored.
pub fn judge_assertion(
    alloc: Global,
    scope: &Scope,
    flags: &[bool],
    e: &ExprTree,
) -> Result<Option<Violation>, Memory>
    requires flags { flags.now ≡ spec_judged.all_flags scope.now.names.functions }
    requires fine { AreFine scope.now.cores }
    requires room { binders (text e.now) < 4294967288 }
    ensures { IfOk result (λ r. r ≡ first (spec.assertion_broken scope.now (text e.now))) }
{
    let inner = judge(alloc, scope, Site::Outside, &[], Some(Ty::Boolean), e)?;
    let own = judge_inside(alloc, scope, flags, e)?;
    Ok(otherwise(inner, own))
}

fn formal(alloc: Global, local: &Local) -> Result<Formal, Memory>
    ensures { IfOk result (λ f. f ≡ formal_of local.now) }
{
    Ok(Formal {
        name: Name::new(alloc, local.name.bytes())?,
        ty: local.ty,
    })
}

fn formals(alloc: Global, locals: &[Local]) -> Result<Vec<Formal>, Memory>
    ensures { IfOk result (λ all. all.items ≡ map formal_of locals.now) }
{
    let mut all = Vec::new(alloc);
    for local in locals {
        all.push(formal(alloc, local)?)?;
    }
    Ok(all)
}

/// The core assertion of a text.
///
/// # Errors
/// `Memory` where it can't be stored.
#[tactic(auto, using(crate::proofs::Asserted::leading_room))]
pub fn make_assertion(alloc: Global, scope: &Scope, e: &ExprTree) -> Result<Assertion, Memory>
    requires fine { AreFine scope.now.cores }
    requires room { binders (text e.now) < 4294967288 }
    ensures { IfOk result (IsAssertionOf scope.now (text e.now)) }
{
    let variables = leading(alloc, scope, &[], e)?;
    let body = make_expression(alloc, scope, &variables, below(e))?;
    let vars = Sequence::new(formals(alloc, &variables)?);
    Ok(Assertion { vars, body })
}
