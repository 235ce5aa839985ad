//! Formulas by the numbers of their terms.

use either::Either;
use sp_cert::Cert;
use sp_pool::Head;
use sp_prover::{Branch, DecideFault, decide_root};
use sp_rules::{Fact, Root, clashes};
use sp_saturate_tests::{Builder, Unbuilt};
use sp_values::{Op, Value};
use std::alloc::Global;

/// Why a formula isn't decided.
#[derive(Clone, Copy, Debug, PartialEq, Eq)]
pub enum Undecided {
    /// TRUE and FALSE aren't the first terms, or there are more than 512 atoms.
    NoFormula,
    Fault(DecideFault),
}

/// Decides a formula in numbers. What `decide_root` asks is tested as it runs.
///
/// # Errors
/// `NoFormula`, and those of `decide_root`.
pub fn decided(alloc: Global, root: &Root) -> Result<Either<Cert, Branch>, Undecided> {
    if !clashes(root.terms(), Fact::Eq(0, 1)) {
        return Err(Undecided::NoFormula);
    }
    if root.atoms().len() > 512 {
        return Err(Undecided::NoFormula);
    }
    decide_root(alloc, root).map_err(Undecided::Fault)
}

/// The BOOLEAN parameters of so many numbers.
fn parameters(alloc: Global, builder: &mut Builder, count: u16) -> Result<Vec<u16>, Unbuilt> {
    let mut terms = Vec::new(alloc);
    for k in 0..count {
        let term = builder.term(Head::Param(k), &[], false)?;
        terms.push(term).map_err(|_| Unbuilt::Memory)?;
    }
    Ok(terms)
}

/// That a high level is below the lowest.
fn high_below_low(builder: &mut Builder) -> Result<u16, Unbuilt> {
    let high = builder.term(Head::Const(Value::Level(1)), &[], true)?;
    let low = builder.term(Head::Const(Value::Level(0)), &[], true)?;
    builder.term(Head::Two(Op::LevelLe), &[high, low], false)
}

/// The hypothesis that not all of so many parameters are TRUE, and the goal that a high level is below the lowest.
///
/// # Errors
/// As those of `Builder`.
pub fn conjunction(alloc: Global, count: u16) -> Result<Root, Unbuilt> {
    let mut builder = Builder::new(alloc)?;
    let mut atoms = Vec::new(alloc);
    let mut all = 0;
    for k in 0..count {
        let parameter = builder.term(Head::Param(k), &[], false)?;
        atoms.push(parameter).map_err(|_| Unbuilt::Memory)?;
        all = builder.term(Head::Two(Op::And), &[all, parameter], false)?;
    }
    let not_all = builder.term(Head::Not, &[all], false)?;
    let goal = high_below_low(&mut builder)?;
    atoms.push(goal).map_err(|_| Unbuilt::Memory)?;
    builder.root(&[not_all], goal, &atoms)
}

/// That exactly one of two terms is TRUE.
fn apart(builder: &mut Builder, x: u16, y: u16) -> Result<u16, Unbuilt> {
    let not_x = builder.term(Head::Not, &[x], false)?;
    let not_y = builder.term(Head::Not, &[y], false)?;
    let first = builder.term(Head::Two(Op::And), &[x, not_y], false)?;
    let second = builder.term(Head::Two(Op::And), &[not_x, y], false)?;
    builder.term(Head::Two(Op::Or), &[first, second], false)
}

/// The hypothesis that oddly many of so many parameters are TRUE, counted from the first, and the same as the goal, counted
/// from the last. Each value of each parameter has to be tried.
///
/// # Errors
/// As those of `Builder`.
pub fn parity(alloc: Global, count: u16) -> Result<Root, Unbuilt> {
    let mut builder = Builder::new(alloc)?;
    let atoms = parameters(alloc, &mut builder, count)?;
    let mut hypothesis = 1;
    for atom in &atoms {
        hypothesis = apart(&mut builder, hypothesis, *atom)?;
    }
    let mut goal = 1;
    for atom in atoms.iter().rev() {
        goal = apart(&mut builder, goal, *atom)?;
    }
    builder.root(&[hypothesis], goal, &atoms)
}

/// That x denies y, and that it denies the contrary.
fn deny_both(
    builder: &mut Builder,
    x: u16,
    y: u16,
    hypotheses: &mut Vec<u16>,
) -> Result<(), Unbuilt> {
    let not_y = builder.term(Head::Not, &[y], false)?;
    let first = builder.term(Head::Two(Op::Or), &[x, y], false)?;
    let second = builder.term(Head::Two(Op::Or), &[x, not_y], false)?;
    hypotheses.push(first).map_err(|_| Unbuilt::Memory)?;
    hypotheses.push(second).map_err(|_| Unbuilt::Memory)?;
    Ok(())
}

/// Hypotheses that no parameter can be TRUE, since the next one would be both, and that the last but one can't be FALSE, for
/// the same reason; and the goal FALSE. It is proved only at the last split.
///
/// # Errors
/// As those of `Builder`.
pub fn chain(alloc: Global, count: u16) -> Result<Root, Unbuilt> {
    let mut builder = Builder::new(alloc)?;
    let atoms = parameters(alloc, &mut builder, count)?;
    let mut hypotheses = Vec::new(alloc);
    for pair in atoms.windows(2) {
        if let [x, y] = pair {
            let not_x = builder.term(Head::Not, &[*x], false)?;
            deny_both(&mut builder, not_x, *y, &mut hypotheses)?;
        }
    }
    if let [.., x, y] = atoms.as_slice() {
        deny_both(&mut builder, *x, *y, &mut hypotheses)?;
    }
    builder.root(&hypotheses, 1, &atoms)
}
