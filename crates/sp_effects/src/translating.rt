//! Core effects of effects of a text.

ghost use Rattle.std.specs.Prelude.{◌≡◌, ◌+◌, ◌<◌, List, length, map, IfOk};
ghost use Rattle.sp_plain.specs.Text.{text, texts_of};
ghost use Rattle.sp_judge.specs.Translation.{AreFine, binders, binders_in, translations};
ghost use Rattle.sp_effects.specs.EffectCore as spec_core;
ghost use Rattle.sp_effects.specs.EffectCore.{effect_core, effects_core, form_core, nested, one_effect, types_named};
ghost use Rattle.sp_effects.specs.EffectRules.{with_formals};
ghost use Rattle.sp_effects.specs.EffectText.{effect_binders, effect_binders_in, effect_text, effect_texts_of};
ghost use Rattle.sp_effects.specs.Forms as spec_forms;
ghost use Rattle.sp_effects.specs.Made.{IsBuilt, IsExprs};

use crate::form::target_of;
use crate::making::{
    Effects, Exprs, below, change, join_effects, join_expr, no_effects, no_exprs, result_of, under,
};
use sp_expand::constant;
use sp_judge::{Scope, extend, find, translate, type_named};
use sp_scopes::Local;
use sp_text::{Memory, Name};
use sp_tree::{BinOp, EffectTree, ExprNode, ExprTree, FormalTree};
use sp_values::Value;
use std::alloc::Global;

// What is made of a target's arguments.
fn translate_each(
    alloc: Global,
    scope: &Scope,
    locals: &[Local],
    args: &[ExprTree],
) -> Result<Exprs, Memory>
    requires fine { AreFine scope.now.cores }
    requires room { length locals.now + binders_in (texts_of (map text args.now)) < 4294967288 }
    ensures { IfOk result (IsExprs (translations scope.now locals.now (texts_of (map text args.now)))) }
{
    let mut list = no_exprs(alloc);
    for arg in args {
        list = join_expr(list, translate(alloc, scope, locals, arg)?)?;
    }
    Ok(list)
}

fn neither(alloc: Global) -> Result<Effects, Memory>
    ensures { IfOk result (IsBuilt (one_effect spec_core.no_effect)) }
{
    result_of(alloc, constant(alloc, Value::Unknown))
}

fn translate_named(
    alloc: Global,
    scope: &Scope,
    answer: &Option<Local>,
    locals: &[Local],
    name: &Name,
    v: &ExprTree,
) -> Result<Effects, Memory>
    requires fine { AreFine scope.now.cores }
    requires room { length locals.now + binders (text v.now) < 4294967288 }
    ensures { IfOk result (IsBuilt (one_effect (form_core scope.now locals.now (spec_forms.result_form answer.now name.now (text v.now))))) }
{
    match answer {
        None => neither(alloc),
        Some(r) => {
            if r.name == *name {
                result_of(alloc, translate(alloc, scope, locals, v))
            } else {
                neither(alloc)
            }
        }
    }
}

fn translate_equation(
    alloc: Global,
    scope: &Scope,
    answer: &Option<Local>,
    locals: &[Local],
    a: &ExprTree,
    v: &ExprTree,
) -> Result<Effects, Memory>
    requires fine { AreFine scope.now.cores }
    requires left_room { length locals.now + binders (text a.now) < 4294967288 }
    requires right_room { length locals.now + binders (text v.now) < 4294967288 }
    ensures { IfOk result (IsBuilt (one_effect (form_core scope.now locals.now (spec_forms.equation_form scope.now locals.now answer.now (text a.now) (text v.now))))) }
{
    match &a.node {
        ExprNode::New(f, args) => match target_of(scope, find(scope, locals, &f.name)) {
            None => neither(alloc),
            Some(target) => change(
                alloc,
                target.fun,
                translate_each(alloc, scope, locals, args.as_slice()),
                translate(alloc, scope, locals, v),
            ),
        },
        ExprNode::Name(x) => translate_named(alloc, scope, answer, locals, x, v),
        _ => neither(alloc),
    }
}

fn translate_plain(
    alloc: Global,
    scope: &Scope,
    answer: &Option<Local>,
    locals: &[Local],
    e: &ExprTree,
) -> Result<Effects, Memory>
    requires fine { AreFine scope.now.cores }
    requires room { length locals.now + binders (text e.now) < 4294967288 }
    ensures { IfOk result (IsBuilt (one_effect (form_core scope.now locals.now (spec_forms.form scope.now locals.now answer.now (text e.now))))) }
{
    match &e.node {
        ExprNode::Binary(BinOp::Eq, a, v) => {
            translate_equation(alloc, scope, answer, locals, a.get(), v.get())
        }
        _ => neither(alloc),
    }
}

// What is made of an effect.
#[cycle(translate)]
#[tactic(auto, using(crate::proofs::Lengths::effect_some))]
fn translate_effect(
    alloc: Global,
    scope: &Scope,
    answer: &Option<Local>,
    locals: &[Local],
    w: &EffectTree,
) -> Result<Effects, Memory>
    requires fine { AreFine scope.now.cores }
    requires room { length locals.now + effect_binders (effect_text w.now) < 4294967288 }
    ensures { IfOk result (IsBuilt (effect_core scope.now answer.now locals.now (effect_text w.now))) }
{
    match w {
        EffectTree::Plain(e) => translate_plain(alloc, scope, answer, locals, e),
        EffectTree::If(_, c, a, b) => under(
            alloc,
            translate(alloc, scope, locals, c),
            translate_effects(alloc, scope, answer, locals, a.as_slice()),
            translate_effects(alloc, scope, answer, locals, b.as_slice()),
        ),
        EffectTree::Forall(_, formals, body) => translate_forall(
            alloc,
            scope,
            answer,
            locals,
            formals.items(),
            body.as_slice(),
        ),
    }
}

// What is made of effects below the variables of a FORALL effect.
#[cycle(translate)]
fn translate_forall(
    alloc: Global,
    scope: &Scope,
    answer: &Option<Local>,
    locals: &[Local],
    formals: &[FormalTree],
    body: &[EffectTree],
) -> Result<Effects, Memory>
    requires fine { AreFine scope.now.cores }
    requires room { length locals.now + (length formals.now + effect_binders_in (effect_texts_of (map effect_text body.now))) < 4294967288 }
    ensures { IfOk result (IsBuilt (nested (length locals.now) (types_named scope.now formals.now) (effects_core scope.now answer.now (with_formals scope.now locals.now formals.now) (effect_texts_of (map effect_text body.now))))) }
{
    if let [formal, formals @ ..] = formals {
        let around = extend(alloc, scope, locals, formal)?;
        let inner = translate_forall(alloc, scope, answer, &around, formals, body);
        return below(
            alloc,
            locals.len() as u32,
            type_named(scope, &formal.ty),
            inner,
        );
    }
    translate_effects(alloc, scope, answer, locals, body)
}

/// What is made of the effects of a function, where `answer` is the name and the type of its result.
///
/// # Errors
/// `Memory` where they can't be stored.
#[cycle(translate)]
pub fn translate_effects(
    alloc: Global,
    scope: &Scope,
    answer: &Option<Local>,
    locals: &[Local],
    ws: &[EffectTree],
) -> Result<Effects, Memory>
    requires fine { AreFine scope.now.cores }
    requires room { length locals.now + effect_binders_in (effect_texts_of (map effect_text ws.now)) < 4294967288 }
    ensures { IfOk result (IsBuilt (effects_core scope.now answer.now locals.now (effect_texts_of (map effect_text ws.now)))) }
{
    let mut all = no_effects(alloc);
    for w in ws {
        all = join_effects(all, translate_effect(alloc, scope, answer, locals, w)?)?;
    }
    Ok(all)
}
