//! Expressions of functions.

ghost use Rattle.std.specs.Prelude.{◌≡◌, ◌+◌, ◌<◌, ◌++◌, [], IfOk, List, Some, if◌then◌else◌, length};
ghost use Rattle.sp_text.specs.Violations as violations;
ghost use Rattle.sp_text.specs.Violations.{first};
ghost use Rattle.sp_text.specs.declared.violation.Violation.{Violation as ViolationValue};
ghost use Rattle.sp_core.specs.Tree.{Tree, tree};
ghost use Rattle.sp_expand.specs.Parts.{IsPart};
ghost use Rattle.sp_expand.specs.Sizes as spec_sizes;
ghost use Rattle.sp_plain.specs.Text.{text};
ghost use Rattle.sp_judge.specs.Broken.{whole_broken};
ghost use Rattle.sp_judge.specs.Translation.{AreFine, binders};
ghost use Rattle.sp_judge.specs.declared.scope.Site.TheVariants as site;
ghost use Rattle.sp_definitions.specs.Definitions as spec_definitions;
ghost use Rattle.sp_reads.specs.ReadTexts.{reads};
ghost use Rattle.sp_functions.specs.Judged as spec;

use sp_core::Expr;
use sp_expand::{Part, Size};
use sp_judge::{Scope, Site, judge, limit_of, translate};
use sp_plain::span_of;
use sp_reads::judge_reads;
use sp_scopes::Local;
use sp_text::{Memory, Rule, Span, Violation, breaks, earlier, otherwise};
use sp_tree::ExprTree;
use sp_values::{Ty, Value};
use std::alloc::Global;

/// The first of what an expression of this type breaks, of which besides the limits rules ask that break `others`.
///
/// # Errors
/// `Memory` where what is around can't be stored.
pub fn judge_with(
    alloc: Global,
    scope: &Scope,
    others: Option<Violation>,
    locals: &[Local],
    ty: Ty,
    e: &ExprTree,
) -> Result<Option<Violation>, Memory>
    requires fine { AreFine scope.now.cores }
    requires room { length locals.now + binders (text e.now) < 4294967288 }
    ensures { (xs : List ViolationValue) → others ≡ first xs → IfOk result (λ r. r ≡ first (spec.judged scope.now locals.now ty (text e.now) xs)) }
{
    let inner = judge(alloc, scope, Site::Outside, locals, Some(ty), e)?;
    let part = translate(alloc, scope, locals, e)?;
    let own = earlier(limit_of(span_of(e), &part), others);
    Ok(otherwise(inner, own))
}

/// The first of what an expression of this type breaks which may read none of the flagged V-functions, by this rule.
///
/// # Errors
/// `Memory` where what is around can't be stored.
pub fn judge_reading(
    alloc: Global,
    scope: &Scope,
    flags: &[bool],
    rule: Rule,
    locals: &[Local],
    ty: Ty,
    e: &ExprTree,
) -> Result<Option<Violation>, Memory>
    requires fine { AreFine scope.now.cores }
    requires room { length locals.now + binders (text e.now) < 4294967288 }
    ensures { IfOk result (λ r. r ≡ first (spec.judged scope.now locals.now ty (text e.now) (reads scope.now flags.now rule locals.now (text e.now)))) }
{
    let read = judge_reads(alloc, scope, flags, rule, locals, e)?;
    judge_with(alloc, scope, read, locals, ty, e)
}

/// The first of what an expression breaks that stands by itself outside effects, where this type is asked, if any.
///
/// # Errors
/// `Memory` where what is around can't be stored.
pub fn judge_alone(
    alloc: Global,
    scope: &Scope,
    locals: &[Local],
    asked: Option<Ty>,
    e: &ExprTree,
) -> Result<Option<Violation>, Memory>
    requires fine { AreFine scope.now.cores }
    requires room { length locals.now + binders (text e.now) < 4294967288 }
    ensures { IfOk result (λ r. r ≡ first (whole_broken scope.now site.Outside locals.now asked (text e.now))) }
{
    let inner = judge(alloc, scope, Site::Outside, locals, asked, e)?;
    let part = translate(alloc, scope, locals, e)?;
    Ok(otherwise(inner, limit_of(span_of(e), &part)))
}

fn breaks_where(over: bool, place: Span, rule: Rule) -> Option<Violation>
    ensures { result ≡ first (if over then violations.breaks place rule else []) }
{
    if over { breaks(place, rule) } else { None }
}

fn quantified(place: Span, size: Size) -> Option<Violation>
    ensures { (t : Tree) → size ≡ spec_sizes.size t → result ≡ first (spec.quantified place t) }
{
    breaks_where(size.quantifiers > 0, place, Rule::LevelQuantifies)
}

fn quantifies(
    alloc: Global,
    scope: &Scope,
    locals: &[Local],
    e: &ExprTree,
) -> Result<Option<Violation>, Memory>
    requires fine { AreFine scope.now.cores }
    requires room { length locals.now + binders (text e.now) < 4294967288 }
    ensures { IfOk result (λ r. r ≡ first (spec.quantifies scope.now locals.now (text e.now))) }
{
    let part = translate(alloc, scope, locals, e)?;
    Ok(quantified(span_of(e), part.size))
}

/// The first of what a level breaks, where the flags are those of all V-functions.
///
/// # Errors
/// `Memory` where what is around can't be stored.
pub fn judge_level(
    alloc: Global,
    scope: &Scope,
    flags: &[bool],
    locals: &[Local],
    e: &ExprTree,
) -> Result<Option<Violation>, Memory>
    requires flags { flags.now ≡ spec.all_flags scope.now.names.functions }
    requires fine { AreFine scope.now.cores }
    requires room { length locals.now + binders (text e.now) < 4294967288 }
    ensures { IfOk result (λ r. r ≡ first (spec.level_broken scope.now locals.now (text e.now))) }
{
    let read = judge_reads(alloc, scope, flags, Rule::LevelReadsState, locals, e)?;
    let quantified = quantifies(alloc, scope, locals, e)?;
    judge_with(
        alloc,
        scope,
        earlier(read, quantified),
        locals,
        Ty::Level,
        e,
    )
}

// The expression of a part within the limits, else `?`.
#[tactic(auto, using(crate::proofs::Made::kept_some, crate::proofs::Made::kept_none))]
fn kept(part: Part) -> Expr
    ensures { (t : Tree) → IsPart t part → tree result ≡ spec_definitions.kept t }
{
    match part.core {
        Some(core) => core.into_inner(),
        None => Expr::Const(Value::Unknown),
    }
}

/// What is made of an expression: its translation, or `?` where that exceeds a limit.
///
/// # Errors
/// `Memory` where it can't be stored.
pub fn make_expression(
    alloc: Global,
    scope: &Scope,
    locals: &[Local],
    e: &ExprTree,
) -> Result<Expr, Memory>
    requires fine { AreFine scope.now.cores }
    requires room { length locals.now + binders (text e.now) < 4294967288 }
    ensures { IfOk result (λ x. tree x ≡ spec.made scope.now locals.now (text e.now)) }
{
    Ok(kept(translate(alloc, scope, locals, e)?))
}
