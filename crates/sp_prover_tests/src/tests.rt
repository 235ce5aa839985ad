use crate::{Undecided, chain, conjunction, decided, parity};
use either::{Left, Right};
use sp_cert::Cert;
use sp_checker::Checker;
use sp_pool::Head;
use sp_prover::{Branch, DecideFault};
use sp_rules::Root;
use sp_saturate_tests::{Builder, Unbuilt};
use sp_values::{Op, Value};
use std::alloc::Global;
use std::test::Fail;

/// What is decided, in short.
#[derive(Clone, Copy, Debug, PartialEq, Eq)]
enum Found {
    /// A certificate that a checker accepts.
    Proved,
    /// A certificate that it doesn't accept.
    Wrong,
    /// How many atoms are TRUE before the first that isn't, and how many there are.
    Open(usize, usize),
    TooManyAtoms(u32),
    NoMemory,
}

fn judged(alloc: Global, root: &Root, cert: &Cert) -> Found {
    match Checker::open(alloc, root) {
        Ok(mut checker) => {
            if checker.accepts(cert).is_ok() {
                Found::Proved
            } else {
                Found::Wrong
            }
        }
        Err(_) => Found::NoMemory,
    }
}

fn first_values(branch: &Branch) -> Found {
    let count = branch.values.len();
    let first = branch
        .values
        .iter()
        .position(|value| !*value)
        .unwrap_or(count);
    Found::Open(first, count)
}

fn outcome(alloc: Global, root: &Root) -> Found {
    match decided(alloc, root) {
        Ok(Left(cert)) => judged(alloc, root, &cert),
        Ok(Right(branch)) => first_values(&branch),
        Err(Undecided::Fault(DecideFault::TooManyAtoms(count))) => Found::TooManyAtoms(count),
        Err(_) => Found::NoMemory,
    }
}

#[test]
fn the_first_branch_has_as_many_true_as_may_be(rt: HostRuntime) -> Result<(), Fail> {
    // 19 of 20 parameters, then the last and the goal are FALSE.
    let root = conjunction(rt.alloc(), 20)?;
    assert_eq!(rt; outcome(rt.alloc(), &root), Found::Open(19, 21));
    let root = conjunction(rt.alloc(), 21)?;
    assert_eq!(rt; outcome(rt.alloc(), &root), Found::TooManyAtoms(21));
    Ok(())
}

#[test]
fn a_formula_that_needs_each_value_is_proved(rt: HostRuntime) -> Result<(), Fail> {
    let root = parity(rt.alloc(), 4)?;
    assert_eq!(rt; outcome(rt.alloc(), &root), Found::Proved);
    Ok(())
}

#[test]
fn twenty_atoms_are_proved_at_the_last_split(rt: HostRuntime) -> Result<(), Fail> {
    let root = chain(rt.alloc(), 20)?;
    assert_eq!(rt; outcome(rt.alloc(), &root), Found::Proved);
    let root = chain(rt.alloc(), 21)?;
    assert_eq!(rt; outcome(rt.alloc(), &root), Found::TooManyAtoms(21));
    Ok(())
}

/// That one level is below another is the goal, and so much is given: nothing, that a designator is known, and that too.
fn access(alloc: Global, given: usize) -> Result<Root, Unbuilt> {
    let mut builder = Builder::new(alloc)?;
    let user = builder.term(Head::Var(0), &[], false)?;
    let unknown = builder.term(Head::Const(Value::Unknown), &[], false)?;
    let is_unknown = builder.term(Head::Two(Op::Same), &[user, unknown], false)?;
    let known = builder.term(Head::Not, &[is_unknown], false)?;
    let level = builder.term(Head::Param(0), &[user], true)?;
    let other = builder.term(Head::Param(1), &[user], true)?;
    let below = builder.term(Head::Two(Op::LevelLe), &[level, other], false)?;
    let hypotheses = [known, below];
    builder.root(&hypotheses[..given.min(2)], below, &[is_unknown, below])
}

#[test]
fn a_goal_that_is_a_hypothesis_is_proved_and_another_is_open(rt: HostRuntime) -> Result<(), Fail> {
    let root = access(rt.alloc(), 2)?;
    assert_eq!(rt; outcome(rt.alloc(), &root), Found::Proved);
    let root = access(rt.alloc(), 1)?;
    assert_eq!(rt; outcome(rt.alloc(), &root), Found::Open(0, 2));
    // Nothing is given: the designator is unknown in the first branch, and the goal FALSE.
    let root = access(rt.alloc(), 0)?;
    assert_eq!(rt; outcome(rt.alloc(), &root), Found::Open(1, 2));
    Ok(())
}
