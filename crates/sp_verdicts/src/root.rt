//! A formula as closure, search and checker see it.

ghost use Rattle.std.specs.Prelude.{◌≡◌, length, IfOk};
ghost use Rattle.sp_sequent.specs.Claims.{IsTypedClaim, claim_of, question_of};

use sp_core::Spec;
use sp_pool::{Mark, Pool};
use sp_rules::Root;
use sp_sequent::{Formula, Sequent};
use sp_text::Memory;
use std::alloc::Global;

/// The root of a formula of the specification, whose terms are numbered in the pool. The pool is as before then.
///
/// # Errors
/// `Memory` where it can't be stored.
pub fn root_of(
    alloc: Global,
    spec: &Spec,
    pool: &mut Pool,
    formula: &Formula,
) -> Result<Root, Memory>
    requires two { length pool.old ≡ 2 }
    requires typed { IsTypedClaim spec.now (claim_of formula.now) }
    ensures root { IfOk result (λ r. r ≡ question_of spec.now (claim_of formula.now)) }
    ensures pool { pool.new ≡ pool.old }
{
    pool.len();
    let sequent = Sequent::build(alloc, spec, pool, formula)?;
    let root = sequent.root(alloc, spec, pool);
    pool.len();
    pool.release(Mark(2));
    root
}
