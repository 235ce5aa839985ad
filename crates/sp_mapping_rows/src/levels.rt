//! Upper levels over the lower parameters.

ghost use Rattle.std.specs.Prelude.{◌≡◌, ◌≤◌, ◌<◌, ◌+◌, IfOk, map, slice_get};
ghost use Rattle.sp_core.specs.Tree.{tree, trees_of};
ghost use Rattle.sp_expand.specs.Expansion.{AreScoped, IsScoped};
ghost use Rattle.sp_expand.specs.Parts.{AreParts, IsPart};
ghost use Rattle.sp_judge.specs.Translation.{AreFine, expanded};
ghost use Rattle.sp_mapping_rules.specs.Levels as spec;

use crate::over::value_over;
use sp_core::Expr;
use sp_expand::{Part, choice, constant, not, put_within, two, variable};
use sp_text::Memory;
use sp_values::Value;
use sqlite_items::at;
use std::alloc::Global;

/// What is made of an upper level over `n` variables, where the upper types become these and the upper parameters these expressions.
///
/// # Errors
/// `Memory` where it can't be stored.
#[cycle(level)]
pub fn level_over(
    alloc: Global,
    types: &[u16],
    cores: &[Expr],
    n: u32,
    e: &Expr,
) -> Result<Part, Memory>
    requires fine { AreFine cores.now }
    requires scoped { IsScoped n (tree e.now) }
    requires few { n ≤ 8 }
    ensures { IfOk result (IsPart (spec.level_over types.now cores.now n (tree e.now))) }
{
    match e {
        Expr::Const(value) => constant(alloc, value_over(types, *value)),
        Expr::Var(k) => variable(alloc, *k),
        Expr::Not(a) => not(alloc, level_over(alloc, types, cores, n, a.get())),
        Expr::Two(op, a, b) => two(
            alloc,
            *op,
            level_over(alloc, types, cores, n, a.get()),
            level_over(alloc, types, cores, n, b.get()),
        ),
        Expr::If(c, a, b) => choice(
            alloc,
            level_over(alloc, types, cores, n, c.get()),
            level_over(alloc, types, cores, n, a.get()),
            level_over(alloc, types, cores, n, b.get()),
        ),
        Expr::Param(q, args) => param_over(alloc, types, cores, n, *q, args.as_slice()),
        Expr::Look(_, _) => constant(alloc, Value::Unknown),
        Expr::Every(_, _, _) => constant(alloc, Value::Unknown),
        Expr::New(_, _) => constant(alloc, Value::Unknown),
    }
}

// The same of a parameter: its expression with the arguments for its formals.
#[cycle(level)]
fn param_over(
    alloc: Global,
    types: &[u16],
    cores: &[Expr],
    n: u32,
    q: u16,
    args: &[Expr],
) -> Result<Part, Memory>
    requires fine { AreFine cores.now }
    requires scoped { AreScoped n (trees_of (map tree args.now)) }
    requires few { n ≤ 8 }
    ensures { IfOk result (IsPart (expanded n (spec.levels_over types.now cores.now n (trees_of (map tree args.now))) (slice_get cores.now q))) }
{
    match at(cores, q as usize) {
        None => constant(alloc, Value::Unknown),
        Some(core) => {
            let parts = levels_over(alloc, types, cores, n, args)?;
            put_within(alloc, n, &parts, core)
        }
    }
}

#[cycle(level)]
fn levels_over(
    alloc: Global,
    types: &[u16],
    cores: &[Expr],
    n: u32,
    args: &[Expr],
) -> Result<Vec<Part>, Memory>
    requires fine { AreFine cores.now }
    requires scoped { AreScoped n (trees_of (map tree args.now)) }
    requires few { n ≤ 8 }
    ensures { IfOk result (λ all. AreParts (spec.levels_over types.now cores.now n (trees_of (map tree args.now))) all.items) }
{
    let mut all = Vec::new(alloc);
    for arg in args {
        all.push(level_over(alloc, types, cores, n, arg)?)?;
    }
    Ok(all)
}
