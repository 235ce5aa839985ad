//! What is assumed where a change or a result is made.

ghost use Rattle.std.specs.Prelude.{◌≡◌, ◌++◌, ◌∷◌, [], map, IfOk, IfErr, OnOk, if◌then◌else◌};
ghost use Rattle.sp_values.specs.declared.value.Value.TheVariants as value;
ghost use Rattle.sp_core.specs.Tree.{Const, Not, tree, trees_of};
ghost use Rattle.sp_formulas.specs.Formulas.{denied, level_at};
ghost use Rattle.sp_formulas.specs.Generated.{hypothesis_tree, level_tree};
ghost use Rattle.sp_formulas.specs.declared.fault.FormulaFault.TheVariants as fault;

use sp_core::{Expr, Function, Spec};
use sp_formulas::{FormulaFault, Hypothesis, Level};
use sp_values::Ty;
use std::alloc::Global;

/// Where a change or a result is made.
#[derive(Clone, Copy)]
pub struct Site<'a, 'b> {
    /// The function's number.
    pub fun: u16,
    pub function: &'a Function,
    /// Its guards from the outermost, their quantifiers numbered behind all its variables.
    pub guards: &'a [Expr],
    /// The types of the FORALL variables around it, from the outermost.
    pub vars: &'b [Ty],
}

fn push<'a>(out: &mut Vec<Hypothesis<'a>>, denied: bool, e: &'a Expr) -> Result<(), FormulaFault>
    ensures ok { OnOk result (map hypothesis_tree out.new.items ≡ map hypothesis_tree out.old.items ++ (if denied then Not (tree e.now) else tree e.now) ∷ []) }
    ensures err { IfErr result (λ f. f ≡ fault.Memory) }
{
    if out.push(Hypothesis { denied, e }).is_err() {
        return Err(FormulaFault::Memory);
    }
    Ok(())
}

/// That the exceptions of a function are false.
///
/// # Errors
/// `Memory` where they can't be listed.
pub fn denials<'a>(
    alloc: Global,
    function: &'a Function,
) -> Result<Vec<Hypothesis<'a>>, FormulaFault>
    ensures ok { IfOk result (λ all. map hypothesis_tree all.items ≡ denied function.now) }
    ensures err { IfErr result (λ f. f ≡ fault.Memory) }
{
    let mut all = Vec::new(alloc);
    for exception in function.exceptions.items() {
        push(&mut all, true, &exception.1)?;
    }
    Ok(all)
}

/// The same hypotheses in a list of its own.
///
/// # Errors
/// `Memory` where they can't be listed.
pub fn copied<'a>(
    alloc: Global,
    hyps: &[Hypothesis<'a>],
) -> Result<Vec<Hypothesis<'a>>, FormulaFault>
    ensures ok { IfOk result (λ all. all.items ≡ hyps.now) }
    ensures err { IfErr result (λ f. f ≡ fault.Memory) }
{
    let Ok(all) = Vec::from_slice(alloc, hyps) else {
        return Err(FormulaFault::Memory);
    };
    Ok(all)
}

/// The hypotheses, and these conditions behind them.
///
/// # Errors
/// `Memory` where they can't be listed.
pub fn assuming<'a>(
    alloc: Global,
    hyps: &[Hypothesis<'a>],
    conditions: &'a [Expr],
) -> Result<Vec<Hypothesis<'a>>, FormulaFault>
    ensures ok { IfOk result (λ all. map hypothesis_tree all.items ≡ map hypothesis_tree hyps.now ++ map tree conditions.now) }
    ensures err { IfErr result (λ f. f ≡ fault.Memory) }
{
    let mut all = copied(alloc, hyps)?;
    for condition in conditions {
        push(&mut all, false, condition)?;
    }
    Ok(all)
}

/// The level of a function at arguments; that of no function is this one.
pub fn level_at<'a>(spec: &'a Spec, none: &'a Expr, g: u16, args: &'a [Expr]) -> Level<'a>
    requires { tree none.now ≡ Const (value.Level 0) }
    ensures { level_tree result ≡ level_at spec.now g (trees_of (map tree args.now)) }
{
    let term = match spec.functions().get(g as usize) {
        Some(function) => &function.level,
        None => none,
    };
    Level {
        term,
        args: Some(args),
    }
}

/// The level of a function at its own arguments.
pub fn own_level(function: &Function) -> Level<'_>
    ensures { level_tree result ≡ tree function.now.level }
{
    Level {
        term: &function.level,
        args: None,
    }
}
