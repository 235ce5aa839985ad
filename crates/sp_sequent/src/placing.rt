//! Expressions placed with their subterms in a pool, one behind the other.

ghost use Rattle.std.specs.Prelude.{◌≡◌, ◌<◌, ◌≤◌, ◌++◌, ◌∷◌, [], length, map, OnOk, IfOk, IfErr};
ghost use Rattle.std.specs.List.{All};
ghost use Rattle.sp_core.specs.Tree.{tree};
ghost use Rattle.sp_sequent.specs.Numbers.{IsShort, IsTooMany, Numbers, Reached, nodes_of};
ghost use Rattle.sp_sequent.specs.Subterms.{subterms, truths, with_all, ends};
ghost use Rattle.std.specs.List.{flat_map};
ghost use Rattle.sp_sequent.specs.declared.terms.Refused.TheVariants as refused;

use crate::terms::{Refused, insert};
use sp_core::Expr;
use sp_pool::{Mark, Pool, TermId};
use sp_values::Value;
use std::alloc::Global;

fn list(numbers: &mut Vec<TermId>, number: TermId) -> Result<(), Refused>
    ensures ok { OnOk result (numbers.new.items ≡ numbers.old.items ++ number ∷ []) }
    ensures err { IfErr result (λ r. r ≡ refused.Memory) }
{
    if numbers.push(number).is_err() {
        return Err(Refused::Memory);
    }
    Ok(())
}

/// Places expressions, one behind the other, and answers their numbers.
///
/// # Errors
/// `Full` only where there would be over 512 subterms, `Memory` where they can't be listed.
pub fn insert_each<'f>(
    alloc: Global,
    pool: &mut Pool,
    terms: &mut Vec<&'f Expr>,
    exprs: &'f [Expr],
) -> Result<Vec<TermId>, Refused>
    requires numbered { Numbers pool.old (map (λ r. tree r.now) terms.old.items) }
    requires short { All (λ e. IsShort (tree e)) exprs.now }
    ensures ok { IfOk result (λ ks. Reached (map (λ r. tree r.now) terms.old.items) pool.new (map (λ r. tree r.now) terms.new.items) (map (λ t. t.0) ks.items) (map tree exprs.now)) }
    ensures full { IfErr result (λ r. IsTooMany (with_all (map (λ r. tree r.now) terms.old.items) (flat_map ends (map tree exprs.now))) r) }
{
    let mut numbers = Vec::new(alloc);
    for e in exprs {
        let number = insert(pool, terms, e)?;
        list(&mut numbers, number)?;
    }
    Ok(numbers)
}

/// Places all that a formula says, in a pool of TRUE and FALSE.
fn place_all<'f>(
    alloc: Global,
    pool: &mut Pool,
    terms: &mut Vec<&'f Expr>,
    hyps: &'f [Expr],
    goal: &'f Expr,
) -> Result<(), Refused>
    requires numbered { Numbers pool.old (map (λ r. tree r.now) terms.old.items) }
    requires truths { map (λ r. tree r.now) terms.old.items ≡ truths }
    requires short { All (λ e. IsShort (tree e)) hyps.now }
    requires goal_short { IsShort (tree goal.now) }
    ensures ok { OnOk result (length (subterms (map tree hyps.now ++ tree goal.now ∷ [])) ≤ 512) }
    ensures full { IfErr result (λ r. IsTooMany (subterms (map tree hyps.now ++ tree goal.now ∷ [])) r) }
{
    insert_each(alloc, pool, terms, hyps)?;
    insert(pool, terms, goal)?;
    pool.len();
    Ok(())
}

/// Whether what a formula says has at most 512 subterms.
///
/// # Errors
/// `Full` exactly where it has more, `Memory` where they can't be listed.
pub fn fits(alloc: Global, pool: &mut Pool, hyps: &[Expr], goal: &Expr) -> Result<(), Refused>
    requires two { pool.old ≡ nodes_of truths }
    requires short { All (λ e. IsShort (tree e)) hyps.now }
    requires goal_short { IsShort (tree goal.now) }
    ensures ok { OnOk result (length (subterms (map tree hyps.now ++ tree goal.now ∷ [])) ≤ 512) }
    ensures full { IfErr result (λ r. IsTooMany (subterms (map tree hyps.now ++ tree goal.now ∷ [])) r) }
    ensures two { pool.new ≡ nodes_of truths }
{
    let yes = Expr::Const(Value::Truth(true));
    let no = Expr::Const(Value::Truth(false));
    let Ok(mut terms) = Vec::from_slice(alloc, &[&yes, &no]) else {
        return Err(Refused::Memory);
    };
    let answer = place_all(alloc, pool, &mut terms, hyps, goal);
    pool.len();
    pool.release(Mark(2));
    answer
}
