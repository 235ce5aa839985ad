//! Certificates judged by formulas.

ghost use Rattle.std.specs.Prelude.{◌≡◌, IfOk, false, length, map, slice_get, true};
ghost use Rattle.sp_cert.specs.Tree.{tree};
ghost use Rattle.sp_formulas.specs.Formulas.{formula_as};
ghost use Rattle.sp_formulas.specs.Typed.{AreTypedFormulas, IsTypedFormula};
ghost use Rattle.sp_frame.specs.declared.refusal.Verdict.TheVariants as verdict;
ghost use Rattle.sp_verify_command.specs.Judged as definitions;
ghost use Rattle.sp_verify_command.specs.Judged.{judged, judged_if, judgements, verdict_by};

use sp_cert::{Cert, CertFault};
use sp_core::Spec;
use sp_pool::Pool;
use sp_sequent::Formula;
use sp_text::{Memory, Sequence};
use sp_verdicts::{CheckFault, check_formula};
use std::alloc::Global;

/// How the certificate of a formula is judged.
#[derive(Clone, Copy, Debug, PartialEq, Eq)]
pub enum Judgement {
    /// It checks.
    Checked,
    /// It doesn't check; this is its first fault.
    Refused(CertFault),
    /// There is none.
    Absent,
}

// The certificate of a formula.
fn judge(
    alloc: Global,
    spec: &Spec,
    pool: &mut Pool,
    formula: &Formula,
    cert: &Cert,
) -> Result<Judgement, Memory>
    requires two { length pool.old ≡ 2 }
    requires typed { IsTypedFormula spec.now (formula_as formula.now) }
    ensures judged { IfOk result (λ j. j ≡ judged spec.now (formula_as formula.now) (tree cert.now)) }
    ensures pool { pool.new ≡ pool.old }
{
    match check_formula(alloc, spec, pool, formula, cert) {
        Ok(()) => Ok(Judgement::Checked),
        Err(CheckFault::Unchecked(fault)) => Ok(Judgement::Refused(fault)),
        Err(CheckFault::Memory) => Err(Memory),
    }
}

// The certificate in this place, if there is one.
fn judge_at(
    alloc: Global,
    spec: &Spec,
    pool: &mut Pool,
    formula: &Formula,
    certs: &[Cert],
    place: usize,
) -> Result<Judgement, Memory>
    requires two { length pool.old ≡ 2 }
    requires typed { IsTypedFormula spec.now (formula_as formula.now) }
    ensures judged { IfOk result (λ j. j ≡ judged_if spec.now (formula_as formula.now) (slice_get (map tree certs.now) place)) }
    ensures pool { pool.new ≡ pool.old }
{
    match certs.get(place) {
        Some(cert) => judge(alloc, spec, pool, formula, cert),
        None => Ok(Judgement::Absent),
    }
}

/// How the certificate of each formula is judged, in order.
///
/// # Errors
/// `Memory` where it can't be stored.
pub fn judge_all(
    alloc: Global,
    spec: &Spec,
    formulas: &[Formula],
    certs: &[Cert],
) -> Result<Sequence<Judgement>, Memory>
    requires typed { AreTypedFormulas spec.now (map formula_as formulas.now) }
    ensures { IfOk result (λ js. js ≡ judgements spec.now (map formula_as formulas.now) (map tree certs.now)) }
{
    let mut pool = Pool::new(alloc)?;
    let mut all = Vec::new(alloc);
    for (k, formula) in formulas.iter().enumerate() {
        let judgement = judge_at(alloc, spec, &mut pool, formula, certs, k)?;
        all.push(judgement)?;
    }
    Ok(Sequence::new(all))
}

/// How many formulas have no certificate that checks.
pub fn refused_count(judgements: &[Judgement]) -> usize
    ensures { result ≡ definitions.refused_count judgements.now }
{
    let mut count = 0;
    for judgement in judgements {
        if *judgement != Judgement::Checked {
            count += 1;
        }
    }
    count
}

/// How many certificates are too many.
pub fn extra_count(formulas: &[Formula], certs: &[Cert]) -> usize
    ensures { result ≡ definitions.extra_count (map formula_as formulas.now) (map tree certs.now) }
{
    certs.len().saturating_sub(formulas.len())
}

/// Whether a file is accepted of which so many formulas are refused, and so many certificates too many.
pub fn accepts(refused: usize, extra: usize) -> bool
    ensures accepted { result ≡ true → verdict_by refused extra ≡ verdict.Ok }
    ensures refused { result ≡ false → verdict_by refused extra ≡ verdict.Refused }
{
    refused == 0 && extra == 0
}
