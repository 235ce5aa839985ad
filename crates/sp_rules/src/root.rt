//! What the closure of a formula starts from.

ghost use Rattle.std.specs.Prelude.{◌≡◌, ◌<◌, ◌++◌, ◌∷◌, [], IfOk, OnOk, All, map, true, false};
ghost use Rattle.sp_rules.specs.Terms.{count};
ghost use Rattle.sp_rules.specs.Facts.{has_truth};
ghost use Rattle.sp_rules.specs.Questions.{IsQuestion, Question, given_facts, numbers};

use crate::fact::Fact;
use crate::terms::TermTable;
use sp_pool::TermId;
use sp_text::Memory;
use std::alloc::Global;
use std::marker::Model;

/// A formula as search and checker see it: its terms, its given facts (each hypothesis is TRUE, the goal is FALSE), and its
/// atoms.
#[derive(Drop)]
pub struct Root {
    terms: TermTable,
    given: Vec<Fact>,
    atoms: Vec<u16>,
}

impl Model for Root {
    ghost use Rattle.sp_rules.specs.Questions.{IsQuestion, Question};

    ghost Value = { Question };

    ghost view = { λ r. record { terms = r.terms; given = r.given.items; atoms = r.atoms.items } };

    ghost invariant = { λ r. IsQuestion (record { terms = r.terms; given = r.given.items; atoms = r.atoms.items }) };
}

/// The numbers of terms.
fn numbers(alloc: Global, terms: &[TermId]) -> Result<Vec<u16>, Memory>
    ensures { IfOk result (λ v. v.items ≡ numbers terms.now) }
{
    let mut numbers = Vec::new(alloc);
    for term in terms {
        numbers.push(term.0)?;
    }
    Ok(numbers)
}

/// That each hypothesis is TRUE and the goal is FALSE.
fn given_facts(alloc: Global, hypotheses: &[TermId], goal: TermId) -> Result<Vec<Fact>, Memory>
    ensures { IfOk result (λ v. v.items ≡ given_facts (numbers hypotheses.now) goal.0) }
{
    let mut given = Vec::new(alloc);
    for hypothesis in hypotheses {
        given.push(Fact::Eq(hypothesis.0 as u32, 0))?;
    }
    given.push(Fact::Eq(goal.0 as u32, 1))?;
    Ok(given)
}

impl Root {
    /// The root of a formula with these hypotheses, this goal and these atoms, by their numbers among its terms.
    ///
    /// # Errors
    /// `Memory` where the facts and atoms can't be stored.
    pub fn new(
        alloc: Global,
        terms: TermTable,
        hypotheses: &[TermId],
        goal: TermId,
        atoms: &[TermId],
    ) -> Result<Root, Memory>
        requires hypotheses { All (λ t. t.0 < count terms) hypotheses.now }
        requires goal { goal.0 < count terms }
        requires atoms { All (λ t. t.0 < count terms) atoms.now }
        ensures { IfOk result (λ r. r ≡ record { terms = terms; given = given_facts (numbers hypotheses.now) goal.0; atoms = numbers atoms.now }) }
    {
        let given = given_facts(alloc, hypotheses, goal)?;
        let atoms = numbers(alloc, atoms)?;
        terms.count();
        Ok(Root {
            terms,
            given,
            atoms,
        })
    }

    /// Its terms.
    pub fn terms(&self) -> &TermTable
        ensures { result.now ≡ self.now.terms }
    {
        &self.terms
    }

    /// What is given: each hypothesis is TRUE, in order, and the goal is FALSE.
    pub fn given(&self) -> &[Fact]
        ensures { result.now ≡ self.now.given }
    {
        &self.given
    }

    /// The numbers of its atoms, in order.
    pub fn atoms(&self) -> &[u16]
        ensures { result.now ≡ self.now.atoms }
    {
        &self.atoms
    }

    /// Tells that the given facts are truth values of terms, and the atoms are terms. It does nothing.
    pub fn tell_question(&self)
        ensures { IsQuestion self.now }
    {
        let _ = &self.terms;
    }
}
