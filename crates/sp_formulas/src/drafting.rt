//! A formula's hypotheses and goal, made within the limits.

ghost use Rattle.std.specs.Prelude.{◌≡◌, ◌++◌, ◌+◌, ◌^◌, ◌<◌, ◌≤◌, IfOk, IfErr, OnOk, drop, length, map};
ghost use Rattle.std.specs.List.{All};
ghost use Rattle.sp_core.specs.Tree.{tree};
ghost use Rattle.sp_sequent.specs.Limits.{HasFewNodes};
ghost use Rattle.sp_formulas.specs.Drafts.{IsDraft, IsFault, IsOverNodes};
ghost use Rattle.sp_formulas.specs.Formulas.{known_from};
ghost use Rattle.sp_formulas.specs.Generated.{formula_of, goal_tree, hypothesis_tree};
ghost use Rattle.sp_formulas.specs.Moves.{IsBelow, settle};
ghost use Rattle.sp_formulas.specs.Typed.{IsTypedFormula};
ghost use Rattle.sp_formulas.specs.declared.fault.FormulaFault.TheVariants as fault;

use crate::adding::{instances, push_each, push_known, push_settled, spend_all};
use crate::fault::FormulaFault;
use crate::goals::{goal_expr, spend_goal};
use crate::spot::{Goal, Hypothesis, Subject};
use crate::tuples::Refused;
use crate::variables::types_over;
use sp_core::{Expr, Spec};
use sp_text::MOST_FORMULA_NODES;
use sp_values::Ty;
use std::alloc::Global;

/// The hypotheses and the goal of a formula that is being made.
#[derive(Drop)]
pub struct Draft {
    pub hyps: Vec<Expr>,
    pub goal: Expr,
}

/// The hypotheses over variables of these types, of which those from number `known` on are assumed proper.
fn hypotheses(
    alloc: Global,
    types: &[Ty],
    known: usize,
    hyps: &[Hypothesis<'_>],
    instances: Vec<Expr>,
) -> Result<Vec<Expr>, FormulaFault>
    requires room { length types.now < 2 ^ 31 }
    requires low { All (λ h. IsBelow (2 ^ 31) (tree h.e.now)) hyps.now }
    ensures ok { IfOk result (λ v. map tree v.items ≡ known_from known (drop known types.now) ++ (map (settle (length types.now)) (map hypothesis_tree hyps.now) ++ map tree instances.items)) }
    ensures err { IfErr result (λ f. f ≡ fault.Memory) }
{
    let mut all = Vec::new(alloc);
    push_known(alloc, types, known, &mut all)?;
    push_settled(alloc, types.len() as u32, hyps, &mut all)?;
    push_each(&mut all, instances)?;
    Ok(all)
}

/// Makes the goal of formula number `number`, where there is room for its nodes behind those of the hypotheses.
fn goal_within(
    alloc: Global,
    number: u32,
    types: &[Ty],
    hyps: &[Expr],
    goal: &Goal<'_>,
) -> Result<Expr, FormulaFault>
    requires room { length types.now < 2 ^ 31 }
    requires low { IsBelow (2 ^ 31) (goal_tree goal.now) }
    ensures ok { IfOk result (λ e. tree e ≡ settle (length types.now) (goal_tree goal.now)) }
    ensures few { OnOk result (HasFewNodes (map tree hyps.now) (goal_tree goal.now)) }
    ensures err { IfErr result (λ f. IsOverNodes number (map tree hyps.now) (goal_tree goal.now) f) }
{
    let Some(left) = spend_all(hyps, MOST_FORMULA_NODES) else {
        return Err(FormulaFault::TooManyNodes(number));
    };
    let Some(_) = spend_goal(goal, left) else {
        return Err(FormulaFault::TooManyNodes(number));
    };
    let Ok(goal) = goal_expr(alloc, types.len() as u32, goal) else {
        return Err(FormulaFault::Memory);
    };
    Ok(goal)
}

/// Makes the hypotheses and the goal of formula number `number`.
///
/// # Errors
/// The first limit that it exceeds but that of terms, or `Memory`.
pub fn make_draft(
    alloc: Global,
    spec: &Spec,
    number: u32,
    subject: &Subject<'_>,
    bound: &[Ty],
    hyps: &[Hypothesis<'_>],
    goal: &Goal<'_>,
) -> Result<Draft, FormulaFault>
    requires few { number ≤ 4096 }
    requires typed { IsTypedFormula spec.now (formula_of spec.now subject.now bound.now hyps.now goal.now) }
    ensures ok { IfOk result (λ d. IsDraft spec.now number (formula_of spec.now subject.now bound.now hyps.now goal.now) d) }
    ensures err { IfErr result (λ f. IsFault spec.now number (formula_of spec.now subject.now bound.now hyps.now goal.now) f) }
{
    let Ok(types) = types_over(alloc, subject.formals, bound) else {
        return Err(FormulaFault::Memory);
    };
    let instances = match instances(alloc, &types, spec.assertions()) {
        Ok(instances) => instances,
        Err(Refused::TooMany) => return Err(FormulaFault::TooManyInstances(number)),
        Err(Refused::Memory) => return Err(FormulaFault::Memory),
    };
    let hyps = hypotheses(alloc, &types, subject.known, hyps, instances)?;
    let goal = goal_within(alloc, number, &types, &hyps, goal)?;
    Ok(Draft { hyps, goal })
}
