//! The lines of an open branch.

ghost use Rattle.std.specs.Prelude.{◌≡◌, ◌++◌, IfOk, OnOk, length, map, slice_get};
ghost use Rattle.sp_core.specs.Tree.{tree};
ghost use Rattle.sp_rules.specs.Questions.{numbers};
ghost use Rattle.sp_sequent.specs.Claims.{IsTypedClaim, claim_of, numbers_of, terms_in};
ghost use Rattle.sp_sequent.specs.Numbers.{nodes_of};
ghost use Rattle.sp_sequent.specs.Subterms.{truths};
ghost use Rattle.sp_deciding.specs.Verdicts.{atom_line, atom_lines, term_text};

use sp_core::{Expr, Spec};
use sp_pool::{Pool, TermId};
use sp_report::{print_expr, truth_text};
use sp_sequent::{Formula, Refused, Sequent, insert, insert_each};
use sp_text::{Memory, push_text};
use sp_values::Value;
use std::alloc::Global;

// The formula in numbers.
fn numbered(alloc: Global, spec: &Spec, formula: &Formula) -> Result<Sequent, Memory>
    requires typed { IsTypedClaim spec.now (claim_of formula.now) }
    ensures { IfOk result (λ s. s ≡ numbers_of spec.now (claim_of formula.now)) }
{
    let mut pool = Pool::new(alloc)?;
    Sequent::build(alloc, spec, &mut pool, formula)
}

// Lists the terms of the formula behind TRUE and FALSE, in a pool of these alone.
fn place_terms<'f>(
    alloc: Global,
    spec: &Spec,
    pool: &mut Pool,
    terms: &mut Vec<&'f Expr>,
    formula: &'f Formula,
) -> Result<(), Refused>
    requires two { pool.old ≡ nodes_of truths }
    requires truths { map (λ r. tree r.now) terms.old.items ≡ truths }
    requires typed { IsTypedClaim spec.now (claim_of formula.now) }
    ensures { OnOk result (map (λ r. tree r.now) terms.new.items ≡ terms_in (claim_of formula.now)) }
{
    spec.lattice();
    insert_each(alloc, pool, terms, formula.hyps.items())?;
    insert(pool, terms, &formula.goal)?;
    Ok(())
}

// Lists the terms of the formula behind TRUE and FALSE. A formula never has too many.
fn list_terms<'f>(
    alloc: Global,
    spec: &Spec,
    terms: &mut Vec<&'f Expr>,
    formula: &'f Formula,
) -> Result<(), Memory>
    requires truths { map (λ r. tree r.now) terms.old.items ≡ truths }
    requires typed { IsTypedClaim spec.now (claim_of formula.now) }
    ensures { OnOk result (map (λ r. tree r.now) terms.new.items ≡ terms_in (claim_of formula.now)) }
{
    let mut pool = Pool::new(alloc)?;
    pool.len();
    match place_terms(alloc, spec, &mut pool, terms, formula) {
        Ok(()) => Ok(()),
        Err(_) => Err(Memory),
    }
}

// Appends the term of this number, if there is one.
fn push_term(
    alloc: Global,
    out: &mut Vec<u8>,
    spec: &Spec,
    formula: &Formula,
    terms: &[&Expr],
    number: TermId,
) -> Result<(), Memory>
    ensures { OnOk result (out.new.items ≡ out.old.items ++ term_text spec.now formula.now.vars (slice_get (map (λ r. tree r.now) terms.now) number.0)) }
{
    match terms.get(usize::from(number.0)) {
        Some(term) => print_expr(alloc, spec, formula, *term, out),
        None => Ok(()),
    }
}

// Appends an atom with its value.
fn push_atom(
    alloc: Global,
    out: &mut Vec<u8>,
    spec: &Spec,
    formula: &Formula,
    terms: &[&Expr],
    number: TermId,
    value: bool,
) -> Result<(), Memory>
    ensures { OnOk result (out.new.items ≡ out.old.items ++ atom_line spec.now formula.now.vars (map (λ r. tree r.now) terms.now) number.0 value) }
{
    push_text(alloc, out, b"  ")?;
    push_term(alloc, out, spec, formula, terms, number)?;
    push_text(alloc, out, b" ")?;
    push_text(alloc, out, truth_text(value))?;
    push_text(alloc, out, b"\n")
}

// Appends atoms with their values.
fn push_each(
    alloc: Global,
    out: &mut Vec<u8>,
    spec: &Spec,
    formula: &Formula,
    terms: &[&Expr],
    atoms: &[TermId],
    values: &[bool],
) -> Result<(), Memory>
    ensures { OnOk result (out.new.items ≡ out.old.items ++ atom_lines spec.now formula.now.vars (map (λ r. tree r.now) terms.now) (numbers atoms.now) values.now) }
{
    for (k, value) in values.iter().enumerate() {
        let Some(atom) = atoms.get(k) else {
            return Ok(());
        };
        push_atom(alloc, out, spec, formula, terms, *atom, *value)?;
    }
    Ok(())
}

/// Appends the atoms of a formula with their values.
pub fn push_atoms(
    alloc: Global,
    out: &mut Vec<u8>,
    spec: &Spec,
    formula: &Formula,
    values: &[bool],
) -> Result<(), Memory>
    requires typed { IsTypedClaim spec.now (claim_of formula.now) }
    ensures { OnOk result (out.new.items ≡ out.old.items ++ atom_lines spec.now formula.now.vars (terms_in (claim_of formula.now)) (numbers_of spec.now (claim_of formula.now)).atoms values.now) }
{
    let yes = Expr::Const(Value::Truth(true));
    let no = Expr::Const(Value::Truth(false));
    let mut terms = Vec::from_slice(alloc, &[&yes, &no])?;
    list_terms(alloc, spec, &mut terms, formula)?;
    let sequent = numbered(alloc, spec, formula)?;
    push_each(alloc, out, spec, formula, &terms, sequent.atoms(), values)
}
