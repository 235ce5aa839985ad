//! A checker for one formula.

ghost use Rattle.std.specs.Prelude.{◌≡◌, ℕ, ◌*◌, ◌≤◌, All, IfOk, IsTrue, None, false, length};
ghost use Rattle.sp_rules.specs.declared.fact.Fact.{Fact};
ghost use Rattle.sp_rules.specs.Facts.{holds_in, is_one_of};
ghost use Rattle.sp_rules.specs.Questions.{is_truth_below};
ghost use Rattle.sp_rules.specs.Terms.{count as term_count};
ghost use Rattle.sp_cert.specs.Tree.{tree};
ghost use Rattle.sp_cert.specs.Within.{IsTree};
ghost use Rattle.sp_checker.specs.Accepting.{answer, fault_for, outcome};
ghost use Rattle.sp_checker.specs.Lifts.{IsLift};
ghost use Rattle.sp_checker.specs.Migration.{IsPlain};

use crate::lift::{LiftFault, lifted};
use crate::trail::add;
use crate::walk::tree_fault;
use sp_bits::BitTable;
use sp_cert::{Cert, CertFault};
use sp_rules::{Fact, Root};
use sp_text::Memory;
use std::alloc::Global;
use std::marker::Model;

/// A checker of certificates for one formula: its terms, what is given of them, and its atoms. It holds two tables of facts
/// and room for a trail, so that checking takes no memory.
#[derive(Drop)]
pub struct Checker<'a> {
    root: &'a Root,
    eq: BitTable,
    le: BitTable,
    trail: Vec<Fact>,
}

impl<'a> Model for Checker<'a> {
    ghost use Rattle.std.specs.Prelude.{◌≡◌, ◌*◌, ◌≤◌, vec_len};
    ghost use Rattle.sp_rules.specs.declared.fact.Fact.{Fact};
    ghost use Rattle.sp_rules.specs.Facts.{holds_in, is_one_of};
    ghost use Rattle.sp_rules.specs.Questions.{Question};
    ghost use Rattle.sp_rules.specs.Terms.{count};

    ghost Value = { Question };

    ghost view = { λ c. c.root.now };

    ghost invariant = { λ c. record {
      eq : c.eq.count ≡ count c.root.now.terms;
      le : c.le.count ≡ count c.root.now.terms;
      room : 2 * (count c.root.now.terms * count c.root.now.terms) ≤ vec_len c.trail;
      holds : (f : Fact) → holds_in c.eq c.le f ≡ is_one_of c.root.now.given f;
    } };
}

/// Puts facts into empty tables.
fn give_all(eq: &mut BitTable, le: &mut BitTable, facts: &[Fact])
    requires count { eq.old.count ≤ 512 }
    requires two { 2 ≤ eq.old.count }
    requires same_count { le.old.count ≡ eq.old.count }
    requires none { (f : Fact) → holds_in eq.old le.old f ≡ false }
    requires facts { All (λ f. IsTrue (is_truth_below eq.old.count f)) facts.now }
    ensures eq { eq.new.count ≡ eq.old.count }
    ensures le { le.new.count ≡ le.old.count }
    ensures holds { (f : Fact) → holds_in eq.new le.new f ≡ is_one_of facts.now f }
{
    for fact in facts {
        add(eq, le, *fact);
    }
}

/// The first fault of a certificate over the tables of what is given. The tables are left as they were.
fn fault_for(
    root: &Root,
    eq: &mut BitTable,
    le: &mut BitTable,
    trail: &mut [Fact],
    cert: &Cert,
) -> Option<CertFault>
    requires eq { eq.old.count ≡ term_count root.now.terms }
    requires le { le.old.count ≡ term_count root.now.terms }
    requires room { 2 * (term_count root.now.terms * term_count root.now.terms) ≤ length trail.old }
    requires holds { (f : Fact) → holds_in eq.old le.old f ≡ is_one_of root.now.given f }
    ensures size { length trail.new ≡ length trail.old }
    ensures same { (eq.new ≡ eq.old) × (le.new ≡ le.old) }
    ensures fault { result ≡ fault_for root.now (tree cert.now) }
{
    let terms = root.terms();
    terms.count();
    root.tell_question();
    let mut number = 0;
    let mut steps = 0;
    tree_fault(
        eq,
        le,
        trail,
        0,
        terms,
        root.atoms(),
        cert,
        0,
        &mut number,
        &mut steps,
    )
}

impl<'a> Checker<'a> {
    /// A checker of the formula's certificates.
    ///
    /// # Errors
    /// `Memory` where the tables or the trail can't be stored.
    pub fn open(alloc: Global, root: &'a Root) -> Result<Checker<'a>, Memory>
        ensures { IfOk result (λ c. c ≡ root.now) }
    {
        root.tell_question();
        let count = root.terms().count() as u16;
        let mut eq = BitTable::new(alloc, count)?;
        let mut le = BitTable::new(alloc, count)?;
        give_all(&mut eq, &mut le, root.given());
        let room = 2 * (count as usize * count as usize);
        let trail = vec![in alloc; Fact::Eq(0, 0); room]?;
        Ok(Checker {
            root,
            eq,
            le,
            trail,
        })
    }

    /// Ok where the certificate checks, else its first fault. It takes no memory, and each call starts afresh.
    ///
    /// # Errors
    /// The first fault, in prefix order.
    pub fn accepts(&mut self, cert: &Cert) -> Result<(), CertFault>
        ensures same { self.new ≡ self.old }
        ensures answer { result ≡ answer self.old (tree cert.now) }
    {
        let fault = fault_for(
            self.root,
            &mut self.eq,
            &mut self.le,
            self.trail.as_mut_slice(),
            cert,
        );
        outcome(fault)
    }

    /// The certificate of the second format in which steps that both branches of a split need stand once above it. It
    /// leaves the checker as it was. Only what checks is migrated, so the recursion is at most 21 nodes deep.
    ///
    /// # Errors
    /// `Unchecked` with the fault that `accepts` answers where the certificate doesn't check; `Memory`.
    pub fn lift(&mut self, alloc: Global, cert: &Cert) -> Result<Cert, LiftFault>
        requires plain { IsPlain (tree cert.now) }
        ensures same { self.new ≡ self.old }
        ensures answer { IsLift self.old (tree cert.now) result }
        ensures checks { IfOk result (λ c. fault_for self.old (tree c) ≡ None) }
        ensures spelled { (depth : ℕ) → IsTree 1 depth (tree cert.now) → IfOk result (λ c. IsTree 2 64 (tree c)) }
    {
        let trail = self.trail.as_mut_slice();
        let fault = fault_for(self.root, &mut self.eq, &mut self.le, trail, cert);
        if let Some(fault) = fault {
            return Err(LiftFault::Unchecked(fault));
        }
        let trail = self.trail.as_mut_slice();
        let Ok(migrated) = lifted(alloc, self.root, &mut self.eq, &mut self.le, trail, cert) else {
            return Err(LiftFault::Memory);
        };
        Ok(migrated)
    }
}

/// Ok where there is no fault.
fn outcome(fault: Option<CertFault>) -> Result<(), CertFault>
    ensures { result ≡ outcome fault }
{
    match fault {
        None => Ok(()),
        Some(fault) => Err(fault),
    }
}
