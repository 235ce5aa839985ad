//! The first rule that an effect breaks that is written as an expression.

ghost use Rattle.std.specs.Prelude.{◌≡◌, ◌+◌, ◌≤◌, ◌<◌, ◌^◌, [], nat_eq, if◌then◌else◌, length, map, IfOk};
ghost use Rattle.std.specs.Option.{option_copied};
ghost use Rattle.sp_text.specs.Violations.{breaks as spec_breaks, first};
ghost use Rattle.sp_text.specs.declared.fault.Rule.TheVariants as rule;
ghost use Rattle.sp_core.specs.Tree.{Tree};
ghost use Rattle.sp_core.specs.WellFormed.{alone, is_variable};
ghost use Rattle.sp_expand.specs.Parts.{IsPart};
ghost use Rattle.sp_plain.specs.Text.{text, texts_of};
ghost use Rattle.sp_judge.specs.Broken.{limit_rules, whole_broken};
ghost use Rattle.sp_judge.specs.Translation.{AreFine, binders, binders_in, translations};
ghost use Rattle.sp_judge.specs.declared.scope.Site.TheVariants as site;
ghost use Rattle.sp_effects.specs.EffectRules as spec_rules;
ghost use Rattle.sp_effects.specs.Forms as spec_forms;

use crate::form::{Target, target_of};
use sp_core::Expr;
use sp_expand::Part;
use sp_judge::{
    Meaning, Scope, Site, asked_of, count_rule, find, judge, limit_of, next_type, rest, translate,
};
use sp_naming::Entity;
use sp_plain::span_of;
use sp_scopes::Local;
use sp_text::{Memory, Name, Rule, Span, Violation, breaks, earlier, otherwise};
use sp_tree::{BinOp, ExprNode, ExprTree, Ident};
use sp_values::Ty;
use std::alloc::Global;

fn limits(place: Span, part: Result<Part, Memory>) -> Result<Option<Violation>, Memory>
    ensures { (t : Tree) → IfOk part (IsPart t) → IfOk result (λ r. r ≡ first (limit_rules place t)) }
{
    match part {
        Ok(part) => Ok(limit_of(place, &part)),
        Err(e) => Err(e),
    }
}

/// The first rule or limit that an expression breaks that stands by itself.
pub(crate) fn judge_whole(
    alloc: Global,
    scope: &Scope,
    site: Site,
    locals: &[Local],
    asked: Option<Ty>,
    e: &ExprTree,
) -> Result<Option<Violation>, Memory>
    requires fine { AreFine scope.now.cores }
    requires room { length locals.now + binders (text e.now) < 4294967288 }
    ensures { IfOk result (λ r. r ≡ first (whole_broken scope.now site locals.now asked (text e.now))) }
{
    let inner = judge(alloc, scope, site, locals, asked, e)?;
    let own = limits(span_of(e), translate(alloc, scope, locals, e))?;
    Ok(otherwise(inner, own))
}

fn judge_arguments(
    alloc: Global,
    scope: &Scope,
    locals: &[Local],
    formals: &[Local],
    args: &[ExprTree],
) -> Result<Option<Violation>, Memory>
    requires fine { AreFine scope.now.cores }
    requires room { length locals.now + binders_in (texts_of (map text args.now)) < 4294967288 }
    ensures { IfOk result (λ r. r ≡ first (spec_rules.all_whole scope.now site.Right locals.now formals.now (texts_of (map text args.now)))) }
{
    if let [arg, args @ ..] = args {
        let left = judge_whole(alloc, scope, Site::Right, locals, next_type(formals), arg)?;
        let right = judge_arguments(alloc, scope, locals, rest(formals), args)?;
        return Ok(earlier(left, right));
    }
    Ok(None)
}

fn is_variable(k: u32, part: Result<Part, Memory>) -> Result<bool, Memory>
    ensures { (t : Tree) → IfOk part (IsPart t) → IfOk result (λ r. r ≡ is_variable k t) }
{
    match part {
        Err(e) => Err(e),
        Ok(part) => match &part.core {
            None => Ok(false),
            Some(core) => match core.get() {
                Expr::Var(j) => Ok(*j == k),
                _ => Ok(false),
            },
        },
    }
}

// How many of the arguments are the variable alone.
fn alone(
    alloc: Global,
    scope: &Scope,
    locals: &[Local],
    k: u32,
    args: &[ExprTree],
) -> Result<usize, Memory>
    requires fine { AreFine scope.now.cores }
    requires room { length locals.now + binders_in (texts_of (map text args.now)) < 4294967288 }
    ensures few { IfOk result (λ n. n ≤ length args.now) }
    ensures count { IfOk result (λ n. n ≡ alone k (translations scope.now locals.now (texts_of (map text args.now)))) }
{
    if let [arg, args @ ..] = args {
        let others = alone(alloc, scope, locals, k, args)?;
        if is_variable(k, translate(alloc, scope, locals, arg))? {
            return Ok(others + 1);
        }
        return Ok(others);
    }
    Ok(0)
}

fn alone_rule(place: Span, count: usize) -> Option<Violation>
    ensures { result ≡ first (if nat_eq count 1 then [] else spec_breaks place rule.TargetNotInjective) }
{
    if count == 1 {
        None
    } else {
        breaks(place, Rule::TargetNotInjective)
    }
}

// The first of the variables that isn't exactly one argument alone.
fn judge_alone(
    alloc: Global,
    scope: &Scope,
    locals: &[Local],
    place: Span,
    args: &[ExprTree],
    from: u32,
    more: u32,
) -> Result<Option<Violation>, Memory>
    requires fine { AreFine scope.now.cores }
    requires room { length locals.now + binders_in (texts_of (map text args.now)) < 4294967288 }
    requires few { from + more < 2 ^ 32 }
    ensures { IfOk result (λ r. r ≡ first (spec_rules.injective_rules place (translations scope.now locals.now (texts_of (map text args.now))) from more)) }
{
    if more == 0 {
        return Ok(None);
    }
    let own = alone_rule(place, alone(alloc, scope, locals, from, args)?);
    let others = judge_alone(alloc, scope, locals, place, args, from + 1, more - 1)?;
    Ok(earlier(own, others))
}

/// The first rule that a change breaks, without what it reads new.
pub(crate) fn judge_change(
    alloc: Global,
    scope: &Scope,
    formals: u32,
    bound: u32,
    locals: &[Local],
    place: Span,
    f: &Ident,
    target: Target,
    args: &[ExprTree],
    value: &ExprTree,
) -> Result<Option<Violation>, Memory>
    requires fine { AreFine scope.now.cores }
    requires room { length locals.now + binders_in (texts_of (map text args.now)) < 4294967288 }
    requires value_room { length locals.now + binders (text value.now) < 4294967288 }
    requires few { formals + bound < 2 ^ 32 }
    ensures { IfOk result (λ r. r ≡ first (spec_rules.change_broken scope.now formals bound locals.now place f.now target (texts_of (map text args.now)) (text value.now))) }
{
    let head = scope.head_of(Meaning::Shared(Entity::Function(target.fun)));
    let inner = judge_arguments(alloc, scope, locals, asked_of(head, args.len()), args)?;
    let call = otherwise(inner, count_rule(f.span, head, args.len()));
    let alone = judge_alone(alloc, scope, locals, place, args, formals, bound)?;
    let value = judge_whole(alloc, scope, Site::Right, locals, Some(target.ty), value)?;
    Ok(earlier(otherwise(call, alone), value))
}

fn taken_rule(taken: bool, place: Span) -> Option<Violation>
    ensures { result ≡ first (if taken then spec_breaks place rule.ResultTwice else []) }
{
    if taken {
        breaks(place, Rule::ResultTwice)
    } else {
        None
    }
}

// The first rule that a result breaks.
fn judge_result(
    alloc: Global,
    scope: &Scope,
    locals: &[Local],
    taken: bool,
    place: Span,
    ty: Ty,
    value: &ExprTree,
) -> Result<Option<Violation>, Memory>
    requires fine { AreFine scope.now.cores }
    requires room { length locals.now + binders (text value.now) < 4294967288 }
    ensures { IfOk result (λ r. r ≡ first (spec_rules.result_broken scope.now locals.now taken place ty (text value.now))) }
{
    let inner = judge_whole(alloc, scope, Site::Right, locals, Some(ty), value)?;
    Ok(otherwise(inner, taken_rule(taken, place)))
}

// The first rule that an effect breaks that is neither.
fn judge_loose(
    alloc: Global,
    scope: &Scope,
    locals: &[Local],
    e: &ExprTree,
) -> Result<Option<Violation>, Memory>
    requires { length locals.now + binders (text e.now) < 2 ^ 32 }
    ensures { IfOk result (λ r. r ≡ first (spec_rules.loose_broken scope.now locals.now (text e.now))) }
{
    let inner = judge(alloc, scope, Site::Loose, locals, None, e)?;
    Ok(otherwise(inner, breaks(span_of(e), Rule::NotDetermining)))
}

// The first rule that an equation of these sides breaks as an effect.
fn judge_equation(
    alloc: Global,
    scope: &Scope,
    formals: u32,
    answer: &Option<Local>,
    bound: u32,
    locals: &[Local],
    taken: bool,
    e: &ExprTree,
    a: &ExprTree,
    v: &ExprTree,
) -> Result<Option<Violation>, Memory>
    requires fine { AreFine scope.now.cores }
    requires room { length locals.now + binders (text e.now) < 4294967288 }
    requires left_room { length locals.now + binders (text a.now) < 4294967288 }
    requires right_room { length locals.now + binders (text v.now) < 4294967288 }
    requires few { formals + bound < 2 ^ 32 }
    ensures { IfOk result (λ r. r ≡ first (spec_rules.form_broken scope.now formals bound locals.now taken (text e.now) (spec_forms.equation_form scope.now locals.now answer.now (text a.now) (text v.now)))) }
{
    match &a.node {
        ExprNode::New(f, args) => match target_of(scope, find(scope, locals, &f.name)) {
            None => judge_loose(alloc, scope, locals, e),
            Some(target) => judge_change(
                alloc,
                scope,
                formals,
                bound,
                locals,
                a.span,
                f,
                target,
                args.as_slice(),
                v,
            ),
        },
        ExprNode::Name(x) => judge_named(
            alloc, scope, formals, answer, bound, locals, taken, e, x, v,
        ),
        _ => judge_loose(alloc, scope, locals, e),
    }
}

// The first rule that an equation breaks whose left side is this name.
fn judge_named(
    alloc: Global,
    scope: &Scope,
    formals: u32,
    answer: &Option<Local>,
    bound: u32,
    locals: &[Local],
    taken: bool,
    e: &ExprTree,
    name: &Name,
    v: &ExprTree,
) -> Result<Option<Violation>, Memory>
    requires fine { AreFine scope.now.cores }
    requires room { length locals.now + binders (text e.now) < 4294967288 }
    requires right_room { length locals.now + binders (text v.now) < 4294967288 }
    ensures { IfOk result (λ r. r ≡ first (spec_rules.form_broken scope.now formals bound locals.now taken (text e.now) (spec_forms.result_form answer.now name.now (text v.now)))) }
{
    match answer {
        None => judge_loose(alloc, scope, locals, e),
        Some(answer) => {
            if answer.name == *name {
                judge_result(alloc, scope, locals, taken, span_of(e), answer.ty, v)
            } else {
                judge_loose(alloc, scope, locals, e)
            }
        }
    }
}

/// The first rule that an effect breaks that is written as an expression.
pub(crate) fn judge_plain(
    alloc: Global,
    scope: &Scope,
    formals: u32,
    answer: &Option<Local>,
    bound: u32,
    locals: &[Local],
    taken: bool,
    e: &ExprTree,
) -> Result<Option<Violation>, Memory>
    requires fine { AreFine scope.now.cores }
    requires room { length locals.now + binders (text e.now) < 4294967288 }
    requires few { formals + bound < 2 ^ 32 }
    ensures { IfOk result (λ r. r ≡ first (spec_rules.form_broken scope.now formals bound locals.now taken (text e.now) (spec_forms.form scope.now locals.now answer.now (text e.now)))) }
{
    match &e.node {
        ExprNode::Binary(BinOp::Eq, a, v) => judge_equation(
            alloc,
            scope,
            formals,
            answer,
            bound,
            locals,
            taken,
            e,
            a.get(),
            v.get(),
        ),
        _ => judge_loose(alloc, scope, locals, e),
    }
}
