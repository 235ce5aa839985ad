//! Two formulas: one whose closure is large, and an ordinary one.

use crate::builder::{Builder, Term, Unbuilt};
use sp_pool::Head;
use sp_rules::Root;
use sp_values::Op;
use std::alloc::Global;

// The hypotheses and the goal of a chain of equalities. The terms are put into a borrowed builder, so that no step that
// fails has to let go of it.
fn put_chain(
    alloc: Global,
    builder: &mut Builder,
    variables: u16,
) -> Result<(Vec<u16>, u16), Unbuilt> {
    let mut hypotheses = Vec::new(alloc);
    let first = builder.term(Head::Var(0), &[], true)?;
    let mut last = first;
    for k in 1..variables {
        let next = builder.term(Head::Var(k), &[], true)?;
        let equality = builder.term(Head::Two(Op::Same), &[last, next], false)?;
        hypotheses.push(equality).map_err(|_| Unbuilt::Memory)?;
        last = next;
    }
    let goal = builder.term(Head::Two(Op::Same), &[first, last], false)?;
    Ok((hypotheses, goal))
}

/// `x0 = x1`, `x1 = x2` and so on, and the goal `x0 = ` the last one, over this many LEVEL variables, at least two: a
/// formula of twice as many terms and two.
///
/// # Errors
/// As those of `Builder`.
pub fn chain_of_equalities(alloc: Global, variables: u16) -> Result<Root, Unbuilt> {
    let mut builder = Builder::new(alloc)?;
    let (hypotheses, goal) = put_chain(alloc, &mut builder, variables)?;
    builder.root(&hypotheses, goal, &[])
}

/// The terms of the formula below, from 2 on.
const READING: [Term; 20] = [
    // l, m, u, v and w.
    (Head::Var(0), &[], true),
    (Head::Var(1), &[], true),
    (Head::Var(2), &[], false),
    (Head::Var(3), &[], false),
    (Head::Var(4), &[], false),
    // 7: l <= m, 8: f(u), 9: f(u) <= l, then NOT of this, and 11: both.
    (Head::Two(Op::LevelLe), &[2, 3], false),
    (Head::Look(0), &[4], true),
    (Head::Two(Op::LevelLe), &[8, 2], false),
    (Head::Not, &[9], false),
    (Head::Two(Op::And), &[7, 10], false),
    // 12: u = v, 13: f(v), 14: f(v) <= m, and 15: both.
    (Head::Two(Op::Same), &[4, 5], false),
    (Head::Look(0), &[5], true),
    (Head::Two(Op::LevelLe), &[13, 3], false),
    (Head::Two(Op::And), &[14, 12], false),
    // 16 and 17: g(w) and 'g(w), 18: their equality, and 19: either.
    (Head::Look(1), &[6], false),
    (Head::New(1), &[6], false),
    (Head::Two(Op::Same), &[16, 17], false),
    (Head::Two(Op::Or), &[15, 18], false),
    // 20: l = f(u), and 21: the goal.
    (Head::Two(Op::Same), &[2, 8], false),
    (Head::Two(Op::Or), &[19, 20], false),
];

/// A formula of 22 terms, as those of an operation that may read. With the levels `l` and `m`, the integers `u`, `v` and
/// `w`, and the V-functions `f` and `g`, its hypotheses are `l <= m AND NOT f(u) <= l` and `u = v`, and its goal is
/// `f(v) <= m AND u = v OR g(w) = 'g(w) OR l = f(u)`.
///
/// # Errors
/// As those of `Builder`.
pub fn reading(alloc: Global) -> Result<Root, Unbuilt> {
    let mut builder = Builder::new(alloc)?;
    builder.put(&READING)?;
    builder.root(&[11, 12], 21, &[7, 9, 12])
}
