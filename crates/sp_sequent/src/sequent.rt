//! A formula in numbers.

ghost use Rattle.std.specs.Prelude.{◌≡◌, ◌∷◌, [], length, map, slice_index_or, false, IfOk, IfErr, OnOk, OnErr};
ghost use Rattle.sp_core.specs.Tree.{tree};
ghost use Rattle.sp_rules.specs.Questions.{numbers};
ghost use Rattle.sp_sequent.specs.Claims.{IsTypedClaim, claim_of, numbers_of, terms_in};
ghost use Rattle.sp_sequent.specs.Numbers.{IsTooMany, Numbers, nodes_of};
ghost use Rattle.sp_sequent.specs.Sequents.{AreTerms, question_over};
ghost use Rattle.sp_sequent.specs.Subterms.{truths};

use crate::formula::Formula;
use crate::placing::insert_each;
use crate::sorts::{atoms, levels};
use crate::terms::{Refused, insert};
use sp_core::{Expr, Spec};
use sp_pool::{Mark, Pool, TermId};
use sp_rules::{Root, TermTable};
use sp_text::Memory;
use sp_values::Value;
use std::alloc::Global;
use std::marker::Model;

/// A formula by the numbers of its subterms in a pool: its hypotheses, its goal, its atoms and its level terms. It holds no
/// expression.
#[derive(Drop)]
pub struct Sequent {
    hyps: Vec<TermId>,
    goal: TermId,
    atoms: Vec<TermId>,
    levels: Vec<bool>,
}

impl Model for Sequent {
    ghost use Rattle.sp_rules.specs.Questions.{numbers};
    ghost use Rattle.sp_sequent.specs.Sequents.{AreTerms, TermNumbers};

    ghost Value = { TermNumbers };

    ghost view = { λ s. record { hypotheses = numbers s.hyps.items; goal = s.goal.0; atoms = numbers s.atoms.items; levels = s.levels.items } };

    ghost invariant = { λ s. AreTerms (record { hypotheses = numbers s.hyps.items; goal = s.goal.0; atoms = numbers s.atoms.items; levels = s.levels.items }) };
}

/// Numbers a formula, in a pool of TRUE and FALSE.
fn number_all<'f>(
    alloc: Global,
    spec: &Spec,
    pool: &mut Pool,
    terms: &mut Vec<&'f Expr>,
    f: &'f Formula,
) -> Result<Sequent, Refused>
    requires numbered { Numbers pool.old (map (λ r. tree r.now) terms.old.items) }
    requires truths { map (λ r. tree r.now) terms.old.items ≡ truths }
    requires typed { IsTypedClaim spec.now (claim_of f.now) }
    ensures pool { OnOk result (pool.new ≡ nodes_of (terms_in (claim_of f.now))) }
    ensures numbers { IfOk result (λ s. s ≡ numbers_of spec.now (claim_of f.now)) }
    ensures full { IfErr result (λ r. IsTooMany (terms_in (claim_of f.now)) r) }
{
    spec.lattice();
    let hyps = insert_each(alloc, pool, terms, f.hyps.items())?;
    let goal = insert(pool, terms, &f.goal)?;
    pool.len();
    let levels = levels(alloc, spec, f.vars.items(), terms)?;
    let atoms = atoms(alloc, spec, f.vars.items(), terms)?;
    Ok(Sequent {
        hyps,
        goal,
        atoms,
        levels,
    })
}

/// Numbers a formula in a pool of TRUE and FALSE, or leaves the pool as it was.
fn number(alloc: Global, spec: &Spec, pool: &mut Pool, f: &Formula) -> Result<Sequent, Memory>
    requires two { pool.old ≡ nodes_of truths }
    requires typed { IsTypedClaim spec.now (claim_of f.now) }
    ensures pool { OnOk result (pool.new ≡ nodes_of (terms_in (claim_of f.now))) }
    ensures numbers { IfOk result (λ s. s ≡ numbers_of spec.now (claim_of f.now)) }
    ensures refused { OnErr result (pool.new ≡ nodes_of truths) }
{
    let yes = Expr::Const(Value::Truth(true));
    let no = Expr::Const(Value::Truth(false));
    let Ok(mut terms) = Vec::from_slice(alloc, &[&yes, &no]) else {
        return Err(Memory);
    };
    match number_all(alloc, spec, pool, &mut terms, f) {
        Ok(sequent) => Ok(sequent),
        Err(Refused::Memory) => {
            pool.len();
            pool.release(Mark(2));
            Err(Memory)
        }
        Err(Refused::Full) => unreachable!(),
    }
}

impl Sequent {
    /// Numbers the subterms of a formula in a pool: TRUE and FALSE, then each other one in the order of its first end. The
    /// pool then holds these and no other; where there is no memory it is as before.
    ///
    /// # Errors
    /// `Memory` where the numbers can't be stored.
    pub fn build(
        alloc: Global,
        spec: &Spec,
        pool: &mut Pool,
        f: &Formula,
    ) -> Result<Sequent, Memory>
        requires two { length pool.old ≡ 2 }
        requires typed { IsTypedClaim spec.now (claim_of f.now) }
        ensures pool { OnOk result (pool.new ≡ nodes_of (terms_in (claim_of f.now))) }
        ensures numbers { IfOk result (λ s. s ≡ numbers_of spec.now (claim_of f.now)) }
        ensures refused { OnErr result (pool.new ≡ pool.old) }
    {
        pool.len();
        number(alloc, spec, pool, f)
    }

    /// The numbers of the hypotheses in order.
    pub fn hyps(&self) -> &[TermId]
        ensures { numbers result.now ≡ self.now.hypotheses }
    {
        &self.hyps
    }

    /// The number of the goal.
    pub fn goal(&self) -> TermId
        ensures { result.0 ≡ self.now.goal }
    {
        self.goal
    }

    /// The numbers of the atoms in order.
    pub fn atoms(&self) -> &[TermId]
        ensures { numbers result.now ≡ self.now.atoms }
    {
        &self.atoms
    }

    /// Whether a term is a level term.
    pub fn is_level(&self, t: TermId) -> bool
        ensures { result ≡ slice_index_or self.now.levels t.0 false }
    {
        if (t.0 as usize) < self.levels.len() {
            self.levels[t.0 as usize]
        } else {
            false
        }
    }

    /// Tells that the numbers are those of terms. It does nothing.
    pub fn tell_terms(&self)
        ensures { AreTerms self.now }
    {
        let _ = &self.levels;
    }

    /// The formula as closure, search and checker see it, over the pool that holds its terms.
    ///
    /// # Errors
    /// `Memory` where it can't be stored.
    pub fn root(&self, alloc: Global, spec: &Spec, pool: &Pool) -> Result<Root, Memory>
        requires { length pool.now ≡ length self.now.levels }
        ensures { IfOk result (λ r. r ≡ question_over spec.now pool.now self.now) }
    {
        let terms = TermTable::open(alloc, pool, &self.levels, spec.lattice())?;
        Root::new(alloc, terms, &self.hyps, self.goal, &self.atoms)
    }
}
