//! How many subterms formulas have.

ghost use Rattle.std.specs.Prelude.{◌≡◌, ◌≤◌, IfOk, OnOk, length, map};
ghost use Rattle.sp_text.specs.declared.limits.TheConstants.{MOST_FORMULAS};
ghost use Rattle.sp_formulas.specs.Formulas.{formula_as};
ghost use Rattle.sp_formulas.specs.Typed.{AreTypedFormulas, IsTypedFormula};
ghost use Rattle.sp_hold.specs.Holding.{claim};
ghost use Rattle.sp_sequent.specs.Claims.{terms_in};
ghost use Rattle.sp_sample_command.specs.Summary as definitions;

use sp_core::Spec;
use sp_pool::{Mark, Pool};
use sp_sequent::{Formula, Sequent};
use sp_text::Memory;
use std::alloc::Global;

// The number of subterms of a formula, TRUE and FALSE among them. The pool then holds these two again.
fn terms_of(alloc: Global, spec: &Spec, pool: &mut Pool, formula: &Formula) -> Result<u16, Memory>
    requires two { length pool.old ≡ 2 }
    requires typed { IsTypedFormula spec.now (formula_as formula.now) }
    ensures count { IfOk result (λ n. n ≡ length (terms_in (claim (formula_as formula.now)))) }
    ensures pool { OnOk result (length pool.new ≡ 2) }
{
    Sequent::build(alloc, spec, pool, formula)?;
    let count = pool.len();
    pool.release(Mark(2));
    Ok(count)
}

/// The numbers of subterms of the formulas together.
///
/// # Errors
/// `Memory` where the terms of a formula can't be held.
pub fn term_count(alloc: Global, spec: &Spec, formulas: &[Formula]) -> Result<u64, Memory>
    requires typed { AreTypedFormulas spec.now (map formula_as formulas.now) }
    requires few { length formulas.now ≤ MOST_FORMULAS }
    ensures { IfOk result (λ n. n ≡ definitions.term_count (map formula_as formulas.now)) }
{
    let mut pool = Pool::new(alloc)?;
    let mut total = 0;
    for formula in formulas {
        let count = terms_of(alloc, spec, &mut pool, formula)?;
        total += u64::from(count);
    }
    Ok(total)
}
