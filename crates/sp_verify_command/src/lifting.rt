//! Certificates migrated.

ghost use Rattle.std.specs.Prelude.{◌≡◌, ◌<◌, IfOk, All, length, map};
ghost use Rattle.sp_cert.specs.Tree.{tree, trees};
ghost use Rattle.sp_checker.specs.Lifts.{lifted_for};
ghost use Rattle.sp_checker.specs.Migration.{IsPlain};
ghost use Rattle.sp_formulas.specs.Formulas.{formula_as};
ghost use Rattle.sp_formulas.specs.Typed.{AreTypedFormulas, IsTypedFormula};
ghost use Rattle.sp_hold.specs.Holding.{claim};
ghost use Rattle.sp_sequent.specs.Claims.{question_of};
ghost use Rattle.sp_verify_command.specs.Migrate.{lifted_trees};

use sp_cert::Cert;
use sp_core::Spec;
use sp_pool::Pool;
use sp_sequent::Formula;
use sp_text::Memory;
use sp_verdicts::lift_formula;
use std::alloc::Global;

// The certificate of a formula, migrated. It checks, so nothing but memory can be wanting.
fn lift(
    alloc: Global,
    spec: &Spec,
    pool: &mut Pool,
    formula: &Formula,
    cert: &Cert,
) -> Result<Cert, Memory>
    requires two { length pool.old ≡ 2 }
    requires typed { IsTypedFormula spec.now (formula_as formula.now) }
    requires plain { IsPlain (tree cert.now) }
    ensures lifted { IfOk result (λ c. tree c ≡ lifted_for (question_of spec.now (claim (formula_as formula.now))) (tree cert.now)) }
    ensures pool { pool.new ≡ pool.old }
{
    match lift_formula(alloc, spec, pool, formula, cert) {
        Ok(lifted) => Ok(lifted),
        Err(_) => Err(Memory),
    }
}

/// The certificate of each formula, migrated.
///
/// # Errors
/// `Memory` where it can't be stored.
pub fn lift_all(
    alloc: Global,
    spec: &Spec,
    formulas: &[Formula],
    certs: &[Cert],
) -> Result<Vec<Cert>, Memory>
    requires typed { AreTypedFormulas spec.now (map formula_as formulas.now) }
    requires plain { All IsPlain (map tree certs.now) }
    ensures { IfOk result (λ all. trees all ≡ lifted_trees spec.now (map formula_as formulas.now) (map tree certs.now)) }
{
    let mut pool = Pool::new(alloc)?;
    let mut all = Vec::new(alloc);
    for (k, formula) in formulas.iter().enumerate() {
        let Some(cert) = certs.get(k) else {
            return Ok(all);
        };
        let lifted = lift(alloc, spec, &mut pool, formula, cert)?;
        all.push(lifted)?;
    }
    Ok(all)
}
