//! The search below what is assumed.

ghost use Rattle.std.specs.Prelude.{◌≡◌, ℕ, ◌+◌, ◌<◌, ◌≤◌, ◌↔◌, true, false, IfOk, IsTrue, length, slice_index, slice_index_or};
ghost use Rattle.sp_rules.specs.Facts.{has_truth};
ghost use Rattle.sp_rules.specs.Questions.{IsQuestion};
ghost use Rattle.sp_saturate.specs.Situations.{IsFollowing, assuming, supposed};
ghost use Rattle.sp_cert.specs.Tree.{tree, Leaf, Split};
ghost use Rattle.sp_prover.specs.Deciding.{AreUndetermined, AreUndeterminedBelow, HasTruths, IsDetermined};
ghost use Rattle.sp_prover.specs.Exploring.{Finds, IsClosed, IsPrepared, IsSettled, atom_at};

use crate::branch::Branch;
use either::{Either, Left, Right};
use sp_cert::Cert;
use sp_rules::{Fact, Step};
use sp_saturate::Facts;
use sp_text::{Memory, Sequence};
use sqlite_items::Boxed;
use std::alloc::Global;

/// How many atoms there are.
fn atom_count(facts: &Facts) -> usize
    ensures { result ≡ length facts.now.question.atoms }
{
    facts.atoms().len()
}

/// The term of an atom.
fn term_of(facts: &Facts, atom: usize) -> u32
    requires { atom < length facts.now.question.atoms }
    ensures { result ≡ atom_at facts.now atom }
{
    facts.atoms()[atom] as u32
}

/// Whether the truth value of a term follows.
fn is_determined(facts: &Facts, term: u32) -> bool
    ensures { IsTrue result ↔ IsDetermined facts.now.question.terms (supposed facts.now) term }
{
    facts.holds(Fact::Eq(term, 0)) || facts.holds(Fact::Eq(term, 1))
}

/// The same of an atom.
fn is_settled(facts: &Facts, atom: u16) -> bool
    requires { atom < length facts.now.question.atoms }
    ensures { IsTrue result ↔ IsSettled facts.now atom }
{
    is_determined(facts, term_of(facts, atom as usize))
}

/// Whether an atom follows.
fn is_true(facts: &Facts, atom: usize) -> bool
    requires { atom < length facts.now.question.atoms }
    ensures { IsTrue result ↔ IsFollowing facts.now (has_truth (atom_at facts.now atom) true) }
{
    facts.holds(Fact::Eq(term_of(facts, atom), 0))
}

/// The first place from one on whose atom's value doesn't follow.
fn next_open(facts: &Facts, places: &[u16], at: usize) -> usize
    requires within { (i : ℕ) → i < length places.now → slice_index places.now i < length facts.now.question.atoms }
    requires place { at ≤ length places.now }
    ensures above { at ≤ result }
    ensures place { result ≤ length places.now }
    ensures before { (i : ℕ) → at ≤ i → i < result → IsSettled facts.now (slice_index places.now i) }
    ensures free { result < length places.now → IsSettled facts.now (slice_index places.now result) → ⊥ }
{
    for i in at..places.len() {
        if !is_settled(facts, places[i]) {
            return i;
        }
    }
    places.len()
}

/// Puts an atom behind those before it whose value doesn't follow, where its own doesn't.
fn put_undetermined(facts: &Facts, atom: u16, places: &mut Vec<u16>) -> Result<(), Memory>
    requires within { atom < length facts.now.question.atoms }
    requires below { AreUndeterminedBelow facts.now.question.terms (supposed facts.now) facts.now.question.atoms atom places.old.items }
    ensures size { length places.new.items ≤ length places.old.items + 1 }
    ensures below { IfOk result (λ done. AreUndeterminedBelow facts.now.question.terms (supposed facts.now) facts.now.question.atoms (atom + 1) places.new.items) }
{
    if is_settled(facts, atom) {
        return Ok(());
    }
    places.push(atom)?;
    Ok(())
}

/// The indices of the atoms whose value doesn't follow.
pub fn undetermined(alloc: Global, facts: &Facts) -> Result<Vec<u16>, Memory>
    requires { length facts.now.question.atoms ≤ 512 }
    ensures size { IfOk result (λ v. length v.items ≤ length facts.now.question.atoms) }
    ensures undetermined { IfOk result (λ v. AreUndetermined facts.now.question.terms (supposed facts.now) facts.now.question.atoms v.items) }
{
    let mut places = Vec::new(alloc);
    for atom in 0..atom_count(facts) {
        put_undetermined(facts, atom as u16, &mut places)?;
    }
    Ok(places)
}

/// Which atoms follow.
fn truths(alloc: Global, facts: &Facts) -> Result<Vec<bool>, Memory>
    ensures size { IfOk result (λ v. length v.items ≡ length facts.now.question.atoms) }
    ensures truths { IfOk result (λ v. (k : ℕ) → k < length facts.now.question.atoms → (slice_index_or v.items k false ≡ true) ↔ IsFollowing facts.now (has_truth (atom_at facts.now k) true)) }
{
    let mut values = Vec::new(alloc);
    for k in 0..atom_count(facts) {
        values.push(is_true(facts, k))?;
    }
    Ok(values)
}

/// The certificate that needs no split.
fn unsplit(steps: Vec<Step>) -> Cert
    ensures { tree result ≡ Leaf steps.items }
{
    Cert::Leaf(Sequence::new(steps))
}

/// The steps to a clash, as a certificate.
pub fn leaf(alloc: Global, facts: &Facts) -> Result<Either<Cert, Branch>, Memory>
    requires clash { IsClosed facts.now }
    requires few { length facts.now.assumed ≤ 20 }
    requires question { IsQuestion facts.now.question }
    ensures { IfOk result (λ e. Finds facts.now e) }
{
    let steps = facts.steps(alloc)?;
    Ok(Left(unsplit(steps)))
}

/// The branch where each atom has the value that follows.
fn first_branch(alloc: Global, facts: &Facts) -> Result<Either<Cert, Branch>, Memory>
    requires clash { IsClosed facts.now → ⊥ }
    requires truths { HasTruths facts.now.question.terms }
    requires question { IsQuestion facts.now.question }
    requires settled { (k : ℕ) → k < length facts.now.question.atoms → IsSettled facts.now k }
    ensures { IfOk result (λ e. Finds facts.now e) }
{
    let values = truths(alloc, facts)?;
    Ok(Right(Branch { values }))
}

/// A case split.
fn split(alloc: Global, atom: u16, first: Cert, second: Cert) -> Result<Cert, Memory>
    ensures { IfOk result (λ c. tree c ≡ Split atom (tree first) (tree second)) }
{
    let first = Boxed::new(alloc, first)?;
    let second = Boxed::new(alloc, second)?;
    Ok(Cert::Split(atom as u32, first, second))
}

/// Searches below what is assumed, without a clash, by the atoms at the places from one on. The facts are left as they
/// were.
#[cycle(exploring)]
pub fn explore(
    alloc: Global,
    facts: &mut Facts,
    places: &[u16],
    at: usize,
) -> Result<Either<Cert, Branch>, Memory>
    requires prepared { IsPrepared facts.old places.now at }
    requires calm { IsClosed facts.old → ⊥ }
    ensures same { facts.new ≡ facts.old }
    ensures finds { IfOk result (λ e. Finds facts.old e) }
{
    let next = next_open(facts, places, at);
    if next == places.len() {
        return first_branch(alloc, facts);
    }
    let first = match explore_value(alloc, facts, places, next, true)? {
        Left(cert) => cert,
        Right(branch) => return Ok(Right(branch)),
    };
    let second = match explore_value(alloc, facts, places, next, false)? {
        Left(cert) => cert,
        Right(branch) => return Ok(Right(branch)),
    };
    Ok(Left(split(alloc, places[next], first, second)?))
}

/// Searches below a value of the atom at a place, if no clash follows from it.
#[cycle(exploring)]
fn explore_value(
    alloc: Global,
    facts: &mut Facts,
    places: &[u16],
    at: usize,
    value: bool,
) -> Result<Either<Cert, Branch>, Memory>
    requires at { at < length places.now }
    requires atom { slice_index places.now at < length facts.old.question.atoms }
    requires few { length facts.old.assumed < 20 }
    requires prepared { IsPrepared (assuming facts.old (slice_index places.now at) value) places.now (at + 1) }
    ensures same { facts.new ≡ facts.old }
    ensures finds { IfOk result (λ e. Finds (assuming facts.old (slice_index places.now at) value) e) }
{
    if let Some(steps) = facts.refute(alloc, places[at], value)? {
        return Ok(Left(unsplit(steps)));
    }
    let found = explore(alloc, facts, places, at + 1);
    facts.back();
    found
}
