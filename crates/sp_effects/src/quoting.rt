//! The quoted references in changes.

ghost use Rattle.std.specs.Prelude.{◌≡◌, ◌+◌, ◌++◌, ◌<◌, ◌^◌, List, length, map, OnOk};
ghost use Rattle.sp_text.specs.Violations.{first};
ghost use Rattle.sp_text.specs.declared.violation.Violation.{Violation as ViolationValue};
ghost use Rattle.sp_plain.specs.Text.{text, texts_of};
ghost use Rattle.sp_judge.specs.Names.{with_formal};
ghost use Rattle.sp_judge.specs.Translation.{AreFine, binders, binders_in};
ghost use Rattle.sp_effects.specs.EffectRules as spec_rules;
ghost use Rattle.sp_effects.specs.EffectText.{effect_binders, effect_binders_in, effect_text, effect_texts_of};
ghost use Rattle.sp_effects.specs.Forms as spec_forms;

use crate::change::judge_change;
use crate::form::{Target, target_of};
use crate::judging::{extend_all, judge_formals};
use sp_cycles::Quoted;
use sp_judge::{Meaning, Scope, extend, find};
use sp_naming::Entity;
use sp_scopes::Local;
use sp_text::{Memory, Span, Violation};
use sp_tree::{BinOp, EffectTree, ExprNode, ExprTree, FormalTree, Ident};
use std::alloc::Global;

#[tactic(auto, using(crate::proofs::Appended::nothing))]
fn push_quote(
    changed: u16,
    place: Span,
    meaning: Meaning,
    out: &mut Vec<Quoted>,
) -> Result<(), Memory>
    ensures { OnOk result (out.new.items ≡ out.old.items ++ spec_rules.quote_of changed place meaning) }
{
    if let Meaning::Shared(Entity::Function(read)) = meaning {
        out.push(Quoted {
            place,
            read,
            changed,
        })?;
    }
    Ok(())
}

// Whether what was judged breaks nothing.
fn breaks_nothing(found: Option<Violation>) -> bool
    ensures { (xs : List ViolationValue) → found ≡ first xs → result ≡ spec_rules.breaks_nothing xs }
{
    found.is_none()
}

// Appends the quoted references of an expression in a change of a function.
#[cycle(quotes)]
#[tactic(auto, using(sp_judge::proofs::Weights::weight_some, crate::proofs::Appended::nothing, crate::proofs::Appended::twice))]
fn push_quotes(
    alloc: Global,
    scope: &Scope,
    changed: u16,
    locals: &[Local],
    e: &ExprTree,
    out: &mut Vec<Quoted>,
) -> Result<(), Memory>
    requires { length locals.now + binders (text e.now) < 2 ^ 32 }
    ensures { OnOk result (out.new.items ≡ out.old.items ++ spec_rules.quotes scope.now changed locals.now (text e.now)) }
{
    match &e.node {
        ExprNode::Name(_) => Ok(()),
        ExprNode::Number(_) => Ok(()),
        ExprNode::Truth(_) => Ok(()),
        ExprNode::Unknown => Ok(()),
        ExprNode::Bottom => Ok(()),
        ExprNode::Top => Ok(()),
        ExprNode::Call(_, args) => push_each(alloc, scope, changed, locals, args.as_slice(), out),
        ExprNode::New(f, args) => {
            push_each(alloc, scope, changed, locals, args.as_slice(), out)?;
            push_quote(changed, e.span, find(scope, locals, &f.name), out)
        }
        ExprNode::Paren(a) => push_quotes(alloc, scope, changed, locals, a.get(), out),
        ExprNode::Not(a) => push_quotes(alloc, scope, changed, locals, a.get(), out),
        ExprNode::Binary(_, a, b) => {
            push_quotes(alloc, scope, changed, locals, a.get(), out)?;
            push_quotes(alloc, scope, changed, locals, b.get(), out)
        }
        ExprNode::Join(_, a, b) => {
            push_quotes(alloc, scope, changed, locals, a.get(), out)?;
            push_quotes(alloc, scope, changed, locals, b.get(), out)
        }
        ExprNode::If(c, a, b) => {
            push_quotes(alloc, scope, changed, locals, c.get(), out)?;
            push_quotes(alloc, scope, changed, locals, a.get(), out)?;
            push_quotes(alloc, scope, changed, locals, b.get(), out)
        }
        ExprNode::Quant(_, formal, b) => {
            push_below(alloc, scope, changed, locals, formal, b.get(), out)
        }
    }
}

#[cycle(quotes)]
fn push_below(
    alloc: Global,
    scope: &Scope,
    changed: u16,
    locals: &[Local],
    formal: &FormalTree,
    body: &ExprTree,
    out: &mut Vec<Quoted>,
) -> Result<(), Memory>
    requires { length locals.now + 1 + binders (text body.now) < 2 ^ 32 }
    ensures { OnOk result (out.new.items ≡ out.old.items ++ spec_rules.quotes scope.now changed (with_formal scope.now locals.now formal.now) (text body.now)) }
{
    let around = extend(alloc, scope, locals, formal)?;
    push_quotes(alloc, scope, changed, &around, body, out)
}

#[cycle(quotes)]
#[tactic(auto, using(sp_judge::proofs::Weights::weight_some, crate::proofs::Appended::nothing, crate::proofs::Appended::twice))]
fn push_each(
    alloc: Global,
    scope: &Scope,
    changed: u16,
    locals: &[Local],
    args: &[ExprTree],
    out: &mut Vec<Quoted>,
) -> Result<(), Memory>
    requires { length locals.now + binders_in (texts_of (map text args.now)) < 2 ^ 32 }
    ensures { OnOk result (out.new.items ≡ out.old.items ++ spec_rules.quotes_in scope.now changed locals.now (texts_of (map text args.now))) }
{
    if let [arg, args @ ..] = args {
        push_quotes(alloc, scope, changed, locals, arg, out)?;
        return push_each(alloc, scope, changed, locals, args, out);
    }
    Ok(())
}

// Appends those of a change that breaks nothing by itself.
#[tactic(auto, using(crate::proofs::Appended::nothing, crate::proofs::Appended::twice))]
fn push_change(
    alloc: Global,
    scope: &Scope,
    formals: u32,
    bound: u32,
    locals: &[Local],
    place: Span,
    f: &Ident,
    target: Target,
    args: &[ExprTree],
    value: &ExprTree,
    out: &mut Vec<Quoted>,
) -> Result<(), Memory>
    requires fine { AreFine scope.now.cores }
    requires room { length locals.now + binders_in (texts_of (map text args.now)) < 4294967288 }
    requires value_room { length locals.now + binders (text value.now) < 4294967288 }
    requires few { formals + bound < 2 ^ 32 }
    ensures { OnOk result (out.new.items ≡ out.old.items ++ spec_rules.form_quotes scope.now formals bound locals.now (spec_forms.Change place f.now target (texts_of (map text args.now)) (text value.now))) }
{
    let own = judge_change(
        alloc, scope, formals, bound, locals, place, f, target, args, value,
    )?;
    if breaks_nothing(own) {
        push_each(alloc, scope, target.fun, locals, args, out)?;
        push_quotes(alloc, scope, target.fun, locals, value, out)
    } else {
        Ok(())
    }
}

// Appends those of an equation, where it is a change.
#[tactic(auto, using(crate::proofs::Appended::nothing, crate::proofs::Appended::result_quotes))]
fn push_equation(
    alloc: Global,
    scope: &Scope,
    formals: u32,
    answer: &Option<Local>,
    bound: u32,
    locals: &[Local],
    a: &ExprTree,
    v: &ExprTree,
    out: &mut Vec<Quoted>,
) -> Result<(), Memory>
    requires fine { AreFine scope.now.cores }
    requires left_room { length locals.now + binders (text a.now) < 4294967288 }
    requires right_room { length locals.now + binders (text v.now) < 4294967288 }
    requires few { formals + bound < 2 ^ 32 }
    ensures { OnOk result (out.new.items ≡ out.old.items ++ spec_rules.form_quotes scope.now formals bound locals.now (spec_forms.equation_form scope.now locals.now answer.now (text a.now) (text v.now))) }
{
    match &a.node {
        ExprNode::New(f, args) => match target_of(scope, find(scope, locals, &f.name)) {
            None => Ok(()),
            Some(target) => push_change(
                alloc,
                scope,
                formals,
                bound,
                locals,
                a.span,
                f,
                target,
                args.as_slice(),
                v,
                out,
            ),
        },
        _ => Ok(()),
    }
}

// Appends those of an effect that is written as an expression.
#[tactic(auto, using(crate::proofs::Appended::nothing))]
fn push_plain(
    alloc: Global,
    scope: &Scope,
    formals: u32,
    answer: &Option<Local>,
    bound: u32,
    locals: &[Local],
    e: &ExprTree,
    out: &mut Vec<Quoted>,
) -> Result<(), Memory>
    requires fine { AreFine scope.now.cores }
    requires room { length locals.now + binders (text e.now) < 4294967288 }
    requires few { formals + bound < 2 ^ 32 }
    ensures { OnOk result (out.new.items ≡ out.old.items ++ spec_rules.form_quotes scope.now formals bound locals.now (spec_forms.form scope.now locals.now answer.now (text e.now))) }
{
    match &e.node {
        ExprNode::Binary(BinOp::Eq, a, v) => {
            push_equation(
                alloc,
                scope,
                formals,
                answer,
                bound,
                locals,
                a.get(),
                v.get(),
                out,
            )
        }
        _ => Ok(()),
    }
}

// Appends those of the changes in an effect that break nothing by themselves.
#[cycle(effect_quotes)]
#[tactic(auto, using(crate::proofs::Lengths::formals_length, crate::proofs::Lengths::effect_some, crate::proofs::Appended::nothing, crate::proofs::Appended::twice))]
fn push_effect(
    alloc: Global,
    scope: &Scope,
    formals: u32,
    answer: &Option<Local>,
    bound: u32,
    locals: &[Local],
    w: &EffectTree,
    out: &mut Vec<Quoted>,
) -> Result<(), Memory>
    requires fine { AreFine scope.now.cores }
    requires room { length locals.now + effect_binders (effect_text w.now) < 4294967288 }
    requires few { formals + bound + effect_binders (effect_text w.now) < 2 ^ 32 }
    ensures { OnOk result (out.new.items ≡ out.old.items ++ spec_rules.effect_quotes scope.now formals answer.now bound locals.now (effect_text w.now)) }
{
    match w {
        EffectTree::Plain(e) => push_plain(alloc, scope, formals, answer, bound, locals, e, out),
        EffectTree::If(_, _, a, b) => {
            push_effects(
                alloc,
                scope,
                formals,
                answer,
                bound,
                locals,
                a.as_slice(),
                out,
            )?;
            push_effects(
                alloc,
                scope,
                formals,
                answer,
                bound,
                locals,
                b.as_slice(),
                out,
            )
        }
        EffectTree::Forall(_, variables, body) => {
            let variables = variables.items();
            if breaks_nothing(judge_formals(alloc, scope, bound, locals, variables)?) {
                let around = extend_all(alloc, scope, locals, variables)?;
                let deeper = bound + variables.len() as u32;
                push_effects(
                    alloc,
                    scope,
                    formals,
                    answer,
                    deeper,
                    &around,
                    body.as_slice(),
                    out,
                )
            } else {
                Ok(())
            }
        }
    }
}

/// Appends the quoted references of the changes in effects that break nothing by themselves.
///
/// # Errors
/// `Memory` where they can't be stored.
#[cycle(effect_quotes)]
pub(crate) fn push_effects(
    alloc: Global,
    scope: &Scope,
    formals: u32,
    answer: &Option<Local>,
    bound: u32,
    locals: &[Local],
    ws: &[EffectTree],
    out: &mut Vec<Quoted>,
) -> Result<(), Memory>
    requires fine { AreFine scope.now.cores }
    requires room { length locals.now + effect_binders_in (effect_texts_of (map effect_text ws.now)) < 4294967288 }
    requires few { formals + bound + effect_binders_in (effect_texts_of (map effect_text ws.now)) < 2 ^ 32 }
    ensures { OnOk result (out.new.items ≡ out.old.items ++ spec_rules.effects_quotes scope.now formals answer.now bound locals.now (effect_texts_of (map effect_text ws.now))) }
{
    for w in ws {
        push_effect(alloc, scope, formals, answer, bound, locals, w, out)?;
    }
    Ok(())
}
