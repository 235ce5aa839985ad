//! One formula more, within the limits.

ghost use Rattle.std.specs.Prelude.{◌≡◌, ◌+◌, ◌∷◌, [], length, map, IfErr, OnOk};
ghost use Rattle.sp_core.specs.Tree.{tree};
ghost use Rattle.sp_sequent.specs.Limits.{HasFewTerms};
ghost use Rattle.sp_sequent.specs.Numbers.{nodes_of};
ghost use Rattle.sp_sequent.specs.Subterms.{truths};
ghost use Rattle.sp_formulas.specs.Drafts.{IsDraft};
ghost use Rattle.sp_formulas.specs.Generated.{IsAdded, IsRefused, formula_of};
ghost use Rattle.sp_formulas.specs.Typed.{IsTypedFormula};
ghost use Rattle.sp_formulas.specs.declared.fault.FormulaFault.TheVariants as fault;

use crate::drafting::{Draft, make_draft};
use crate::fault::FormulaFault;
use crate::spot::{Goal, Hypothesis, Subject};
use crate::variables::variables;
use sp_core::Spec;
use sp_pool::Pool;
use sp_sequent::{Formula, Refused, fits};
use sp_text::{MOST_FORMULAS, Name, Sequence};
use sp_values::Ty;
use std::alloc::Global;

/// Adds a formula whose hypotheses and goal are made.
fn finish(
    alloc: Global,
    spec: &Spec,
    subject: &Subject<'_>,
    bound: &[Ty],
    hyps: &[Hypothesis<'_>],
    goal: &Goal<'_>,
    made: Draft,
    out: &mut Vec<Formula>,
) -> Result<(), FormulaFault>
    requires typed { IsTypedFormula spec.now (formula_of spec.now subject.now bound.now hyps.now goal.now) }
    requires made { IsDraft spec.now (length out.old.items + 1) (formula_of spec.now subject.now bound.now hyps.now goal.now) made }
    requires few_terms { HasFewTerms (map tree made.hyps.items) (tree made.goal) }
    ensures ok { OnOk result (IsAdded spec.now out.old.items out.new.items (formula_of spec.now subject.now bound.now hyps.now goal.now ∷ [])) }
    ensures err { IfErr result (λ f. f ≡ fault.Memory) }
{
    let Ok(vars) = variables(alloc, subject.formals, bound) else {
        return Err(FormulaFault::Memory);
    };
    let Ok(name) = Name::new(alloc, subject.name.bytes()) else {
        return Err(FormulaFault::Memory);
    };
    let formula = Formula {
        kind: subject.kind,
        fun: subject.fun,
        name,
        vars,
        hyps: Sequence::new(made.hyps),
        goal: made.goal,
    };
    if out.push(formula).is_err() {
        return Err(FormulaFault::Memory);
    }
    Ok(())
}

/// Adds a formula about the subject, over its formals and these bound variables.
///
/// # Errors
/// The first limit that it exceeds, or `Memory`.
pub fn add(
    alloc: Global,
    spec: &Spec,
    pool: &mut Pool,
    subject: &Subject<'_>,
    bound: &[Ty],
    hyps: &[Hypothesis<'_>],
    goal: &Goal<'_>,
    out: &mut Vec<Formula>,
) -> Result<(), FormulaFault>
    requires two { pool.old ≡ nodes_of truths }
    requires typed { IsTypedFormula spec.now (formula_of spec.now subject.now bound.now hyps.now goal.now) }
    ensures ok { OnOk result (IsAdded spec.now out.old.items out.new.items (formula_of spec.now subject.now bound.now hyps.now goal.now ∷ [])) }
    ensures refused { IfErr result (λ f. IsRefused spec.now (length out.old.items) (formula_of spec.now subject.now bound.now hyps.now goal.now ∷ []) f) }
    ensures two { pool.new ≡ nodes_of truths }
{
    spec.lattice();
    if out.len() >= MOST_FORMULAS as usize {
        return Err(FormulaFault::TooManyFormulas);
    }
    let number = out.len() as u32 + 1;
    let made = make_draft(alloc, spec, number, subject, bound, hyps, goal)?;
    match fits(alloc, pool, &made.hyps, &made.goal) {
        Ok(()) => finish(alloc, spec, subject, bound, hyps, goal, made, out),
        Err(Refused::Full) => Err(FormulaFault::TooManyTerms(number)),
        Err(Refused::Memory) => Err(FormulaFault::Memory),
    }
}
