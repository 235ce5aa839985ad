//! Core effects, made of their parts.

ghost use Rattle.std.specs.Prelude.{◌≡◌, ◌++◌, ◌∷◌, [], Some, IfOk};
ghost use Rattle.sp_core.specs.Tree.{Tree, Trees, none};
ghost use Rattle.sp_core.specs.Effects.{EffectTrees};
ghost use Rattle.sp_core.specs.Effects as effect;
ghost use Rattle.sp_expand.specs.Expansion.{joined};
ghost use Rattle.sp_expand.specs.Parts.{IsPart};
ghost use Rattle.sp_effects.specs.EffectCore.{joined_effects, one_effect};
ghost use Rattle.sp_effects.specs.Made.{IsBuilt, IsExprs};

use sp_core::{Effect, Expr};
use sp_expand::Part;
use sp_text::Memory;
use sp_values::Ty;
use sqlite_items::{Boxed, Items};
use std::alloc::Global;

/// What is made of a target's arguments: the expressions, where each is within the limits.
#[derive(Debug, Drop)]
pub struct Exprs {
    pub exprs: Option<Items<Expr>>,
}

/// What is made of effects: the core effects, where each expression in them is within the limits.
#[derive(Debug, Drop)]
pub struct Effects {
    pub effects: Option<Items<Effect>>,
}

/// No arguments.
pub(crate) fn no_exprs(alloc: Global) -> Exprs
    ensures { IsExprs none result }
{
    Exprs {
        exprs: Some(Items::new(alloc)),
    }
}

fn push_expr(exprs: Items<Expr>, core: Boxed<Expr>) -> Result<Exprs, Memory>
    ensures { IfOk result (λ x. x ≡ record { exprs = Some (exprs ++ core ∷ []) }) }
{
    let mut exprs = exprs;
    exprs.push(core.into_inner())?;
    Ok(Exprs { exprs: Some(exprs) })
}

/// One argument more.
pub(crate) fn join_expr(list: Exprs, part: Part) -> Result<Exprs, Memory>
    ensures { (ts : Trees) (t : Tree) → IsExprs ts list → IsPart t part → IfOk result (IsExprs (joined ts t)) }
{
    match list.exprs {
        None => Ok(Exprs { exprs: None }),
        Some(exprs) => match part.core {
            None => Ok(Exprs { exprs: None }),
            Some(core) => push_expr(exprs, core),
        },
    }
}

fn single(alloc: Global, one: Effect) -> Result<Effects, Memory>
    ensures { IfOk result (λ x. x ≡ record { effects = Some (one ∷ []) }) }
{
    let mut effects = Items::new(alloc);
    effects.push(one)?;
    Ok(Effects {
        effects: Some(effects),
    })
}

/// A change.
pub(crate) fn change(
    alloc: Global,
    fun: u16,
    args: Result<Exprs, Memory>,
    value: Result<Part, Memory>,
) -> Result<Effects, Memory>
    ensures { (ts : Trees) (t : Tree) → IfOk args (IsExprs ts) → IfOk value (IsPart t) → IfOk result (IsBuilt (one_effect (effect.Change fun ts t))) }
{
    match (args, value) {
        (Ok(args), Ok(value)) => match args.exprs {
            None => Ok(Effects { effects: None }),
            Some(args) => match value.core {
                None => Ok(Effects { effects: None }),
                Some(value) => single(alloc, Effect::Change(fun, args, value.into_inner())),
            },
        },
        _ => Err(Memory),
    }
}

/// A result.
pub(crate) fn result_of(alloc: Global, value: Result<Part, Memory>) -> Result<Effects, Memory>
    ensures { (t : Tree) → IfOk value (IsPart t) → IfOk result (IsBuilt (one_effect (effect.Answer t))) }
{
    match value {
        Ok(value) => match value.core {
            None => Ok(Effects { effects: None }),
            Some(value) => single(alloc, Effect::Answer(value.into_inner())),
        },
        Err(e) => Err(e),
    }
}

/// Effects under a condition.
pub(crate) fn under(
    alloc: Global,
    c: Result<Part, Memory>,
    a: Result<Effects, Memory>,
    b: Result<Effects, Memory>,
) -> Result<Effects, Memory>
    ensures { (t : Tree) (ws : EffectTrees) (vs : EffectTrees) → IfOk c (IsPart t) → IfOk a (IsBuilt ws) → IfOk b (IsBuilt vs) → IfOk result (IsBuilt (one_effect (effect.If t ws vs))) }
{
    match (c, a, b) {
        (Ok(c), Ok(a), Ok(b)) => match c.core {
            None => Ok(Effects { effects: None }),
            Some(c) => match a.effects {
                None => Ok(Effects { effects: None }),
                Some(a) => match b.effects {
                    None => Ok(Effects { effects: None }),
                    Some(b) => single(alloc, Effect::If(c.into_inner(), a, b)),
                },
            },
        },
        _ => Err(Memory),
    }
}

/// Effects below a variable.
pub(crate) fn below(
    alloc: Global,
    k: u32,
    ty: Ty,
    body: Result<Effects, Memory>,
) -> Result<Effects, Memory>
    ensures { (ws : EffectTrees) → IfOk body (IsBuilt ws) → IfOk result (IsBuilt (one_effect (effect.Every k ty ws))) }
{
    match body {
        Ok(body) => match body.effects {
            None => Ok(Effects { effects: None }),
            Some(effects) => single(alloc, Effect::Every(k, ty, effects)),
        },
        Err(e) => Err(e),
    }
}

/// No effects.
pub(crate) fn no_effects(alloc: Global) -> Effects
    ensures { IsBuilt effect.none result }
{
    Effects {
        effects: Some(Items::new(alloc)),
    }
}

fn append(effects: Items<Effect>, more: Items<Effect>) -> Result<Effects, Memory>
    ensures { IfOk result (λ x. x ≡ record { effects = Some (effects ++ more) }) }
{
    let mut effects = effects;
    effects.append(more)?;
    Ok(Effects {
        effects: Some(effects),
    })
}

/// Effects and more effects.
pub(crate) fn join_effects(all: Effects, more: Effects) -> Result<Effects, Memory>
    ensures { (ws : EffectTrees) (vs : EffectTrees) → IsBuilt ws all → IsBuilt vs more → IfOk result (IsBuilt (joined_effects ws vs)) }
{
    match all.effects {
        None => Ok(Effects { effects: None }),
        Some(effects) => match more.effects {
            None => Ok(Effects { effects: None }),
            Some(more) => append(effects, more),
        },
    }
}
