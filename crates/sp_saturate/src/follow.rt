//! What follows from a new fact. It may forget some of it: the round over all rules finds that.
#![tactic(auto, using(crate::proofs::Trails::extends_then, crate::proofs::Trails::extends_none))]

ghost use Rattle.std.specs.Prelude.{◌≡◌, ℕ, ◌≤◌, ◌<◌, IsTrue, false, length};
ghost use Rattle.sp_rules.specs.Clash.{is_clash};
ghost use Rattle.sp_saturate.specs.Looking.{HasClashOn};
ghost use Rattle.sp_saturate.specs.Steps.{step_at};
ghost use Rattle.sp_saturate.specs.Trail.{Extends};

use crate::parents::Parents;
use crate::trail::Trail;
use sp_pool::Head;
use sp_rules::{Fact, Step, clashes};
use sp_values::{Op, Value};

/// The step to an equality by this rule, through p.
fn equal(i: u32, j: u32, rule: u8, p: u32) -> Step {
    Step {
        fact: Fact::Eq(i, j),
        rule,
        p,
        q: 0,
    }
}

/// The same to the order.
fn below(i: u32, j: u32, rule: u8, p: u32) -> Step {
    Step {
        fact: Fact::Le(i, j),
        rule,
        p,
        q: 0,
    }
}

/// Tries some steps, one after the other.
pub fn try_all(trail: &mut Trail, steps: &[Step])
    ensures { Extends trail.old trail.new }
{
    for step in steps {
        let _ = trail.try_step(step);
    }
}

/// Tries the steps of a term's own form.
fn try_form(trail: &mut Trail, t: u32)
    ensures { Extends trail.old trail.new }
{
    let x = trail.terms().argument(t, 0);
    let y = trail.terms().argument(t, 1);
    let z = trail.terms().argument(t, 2);
    match trail.terms().head(t) {
        Head::Not => try_all(
            trail,
            &[
                equal(t, 0, 19, 0),
                equal(t, 1, 19, 0),
                equal(x, 0, 19, t),
                equal(x, 1, 19, t),
            ],
        ),
        Head::If => try_all(trail, &[equal(t, y, 22, 0), equal(t, z, 22, 0)]),
        Head::Two(Op::Same) => try_all(trail, &[equal(x, y, 5, t), equal(t, 0, 6, 0)]),
        Head::Two(Op::LevelLe) => try_all(trail, &[below(x, y, 17, t), equal(t, 0, 18, 0)]),
        Head::Two(Op::And) => try_truth(trail, t, x, y, 20),
        Head::Two(Op::Or) => try_truth(trail, t, x, y, 21),
        Head::Two(Op::Lub) => try_all(trail, &[below(x, t, 13, 0), below(y, t, 13, 0)]),
        Head::Two(Op::Glb) => try_all(trail, &[below(t, x, 15, 0), below(t, y, 15, 0)]),
        _ => {}
    }
}

/// Tries the steps of AND or OR.
fn try_truth(trail: &mut Trail, t: u32, x: u32, y: u32, rule: u8)
    ensures { Extends trail.old trail.new }
{
    try_all(
        trail,
        &[
            equal(t, 0, rule, 0),
            equal(t, 1, rule, 0),
            equal(x, 0, rule, t),
            equal(y, 0, rule, t),
            equal(x, 1, rule, t),
            equal(y, 1, rule, t),
        ],
    );
}

/// Tries the terms of a word of a row as the second ones of equalities from i through p.
fn try_equal_word(trail: &mut Trail, word: u64, k: u32, i: u32, p: u32)
    requires { k ≤ 8 }
    ensures { Extends trail.old trail.new }
{
    let mut left = word;
    'bits: for _ in 0..64 {
        if left == 0 {
            return;
        }
        let j = 64 * k + left.trailing_zeros();
        left = left & (left - 1);
        let _ = trail.try_step(&equal(i, j, 3, p));
    }
}

/// The same to j, with the terms of the word as the first ones.
fn try_equal_word_to(trail: &mut Trail, word: u64, k: u32, j: u32, p: u32)
    requires { k ≤ 8 }
    ensures { Extends trail.old trail.new }
{
    let mut left = word;
    'bits: for _ in 0..64 {
        if left == 0 {
            return;
        }
        let i = 64 * k + left.trailing_zeros();
        left = left & (left - 1);
        let _ = trail.try_step(&equal(i, j, 3, p));
    }
}

/// The same of the order, from i.
fn try_below_word(trail: &mut Trail, word: u64, k: u32, i: u32, p: u32)
    requires { k ≤ 8 }
    ensures { Extends trail.old trail.new }
{
    let mut left = word;
    'bits: for _ in 0..64 {
        if left == 0 {
            return;
        }
        let j = 64 * k + left.trailing_zeros();
        left = left & (left - 1);
        let _ = trail.try_step(&below(i, j, 8, p));
    }
}

/// Tries the equalities that two equal terms have through each other.
fn try_equal_rows(trail: &mut Trail, i: u32, j: u32)
    ensures { Extends trail.old trail.new }
{
    for k in 0..trail.size().div_ceil(64) {
        let word = trail.equals(j, k) & !trail.equals(i, k);
        try_equal_word(trail, word, k, i, j);
        let word = trail.equals(i, k) & !trail.equals(j, k);
        try_equal_word_to(trail, word, k, j, i);
    }
}

/// Tries the order from i to the terms above j.
fn try_below_rows(trail: &mut Trail, i: u32, j: u32)
    ensures { Extends trail.old trail.new }
{
    for k in 0..trail.size().div_ceil(64) {
        let word = trail.uppers(j, k) & !trail.uppers(i, k);
        try_below_word(trail, word, k, i, j);
    }
}

/// Tries the order from the terms below i to j.
fn try_lowers(trail: &mut Trail, i: u32, j: u32)
    ensures { Extends trail.old trail.new }
{
    for h in 0..trail.size() {
        if trail.holds(Fact::Le(h, i)) {
            let _ = trail.try_step(&below(h, j, 8, i));
        }
    }
}

/// Tries that t is equal to each of some terms.
fn try_alike(trail: &mut Trail, t: u32, others: &[u32])
    ensures { Extends trail.old trail.new }
{
    for u in others {
        let _ = trail.try_step(&equal(t, *u, 4, 0));
    }
}

/// Tries that the terms of one list are equal to those of another.
fn try_all_alike(trail: &mut Trail, terms: &[u32], others: &[u32])
    ensures { Extends trail.old trail.new }
{
    for t in terms {
        try_alike(trail, *t, others);
    }
}

/// Tries the values of term t where p is one of its arguments and q the other.
fn try_values(trail: &mut Trail, integers: &[u32], t: u32, p: u32, q: u32)
    ensures { Extends trail.old trail.new }
{
    for j in integers {
        let _ = trail.try_step(&Step {
            fact: Fact::Eq(t, *j),
            rule: 23,
            p,
            q,
        });
        let _ = trail.try_step(&Step {
            fact: Fact::Eq(t, *j),
            rule: 23,
            p: q,
            q: p,
        });
    }
}

/// Tries the values of term t where the constant p is one of its arguments.
fn try_sums(trail: &mut Trail, integers: &[u32], t: u32, p: u32)
    ensures { Extends trail.old trail.new }
{
    match trail.terms().head(t) {
        Head::Two(Op::Add | Op::Sub | Op::Mul) => {}
        _ => return,
    }
    for q in integers {
        try_values(trail, integers, t, p, *q);
    }
}

/// Tries the forms of some terms.
fn try_forms(trail: &mut Trail, terms: &[u32])
    ensures { Extends trail.old trail.new }
{
    for t in terms {
        try_form(trail, *t);
    }
}

/// Tries the sums among some terms.
fn try_all_sums(trail: &mut Trail, parents: &Parents, terms: &[u32], p: u32)
    ensures { Extends trail.old trail.new }
{
    if !matches!(
        trail.terms().head(p),
        Head::Const(Value::Int(_) | Value::Unknown)
    ) {
        return;
    }
    for t in terms {
        try_sums(trail, parents.integers(), *t, p);
    }
}

/// Tries that some terms are TRUE, where they are the equality of two terms.
fn try_sames(trail: &mut Trail, terms: &[u32])
    ensures { Extends trail.old trail.new }
{
    for t in terms {
        if matches!(trail.terms().head(*t), Head::Two(Op::Same)) {
            let _ = trail.try_step(&equal(*t, 0, 6, 0));
        }
    }
}

/// Tries what the equality of i and j gives by the forms of terms: where j is no truth value, it can only be that an
/// equality of terms is TRUE.
fn follow_forms(trail: &mut Trail, parents: &Parents, i: u32, j: u32)
    ensures { Extends trail.old trail.new }
{
    if j < 2 {
        try_form(trail, i);
        try_forms(trail, parents.at(i));
    } else {
        try_sames(trail, parents.at(i));
    }
}

/// Tries what follows from an equality.
fn follow_equal(trail: &mut Trail, parents: &Parents, i: u32, j: u32)
    ensures { Extends trail.old trail.new }
{
    try_all(trail, &[equal(j, i, 2, 0), below(i, j, 9, 0)]);
    try_equal_rows(trail, i, j);
    follow_forms(trail, parents, i, j);
    try_all_sums(trail, parents, parents.at(i), j);
    if i != j {
        try_all_alike(trail, parents.at(i), parents.at(j));
    }
}

/// Tries the order from the bounds among some terms to j.
fn try_bounds(trail: &mut Trail, terms: &[u32], j: u32)
    ensures { Extends trail.old trail.new }
{
    for t in terms {
        let _ = trail.try_step(&below(*t, j, 14, 0));
    }
}

/// Tries the order from i to the bounds among some terms.
fn try_bounds_from(trail: &mut Trail, i: u32, terms: &[u32])
    ensures { Extends trail.old trail.new }
{
    for t in terms {
        let _ = trail.try_step(&below(i, *t, 16, 0));
    }
}

/// Tries what follows from the order of two terms.
fn follow_below(trail: &mut Trail, parents: &Parents, i: u32, j: u32)
    ensures { Extends trail.old trail.new }
{
    try_all(trail, &[equal(i, j, 10, 0), equal(j, i, 10, 0)]);
    try_below_rows(trail, i, j);
    try_lowers(trail, i, j);
    try_forms(trail, parents.at(i));
    try_bounds(trail, parents.at(i), j);
    try_bounds_from(trail, i, parents.at(j));
}

fn follow_fact(trail: &mut Trail, parents: &Parents, fact: Fact)
    ensures { Extends trail.old trail.new }
{
    match fact {
        Fact::Eq(i, j) => follow_equal(trail, parents, i, j),
        Fact::Le(i, j) => follow_below(trail, parents, i, j),
    }
}

/// Follows up the steps from the given one on, to the last.
pub fn follow(trail: &mut Trail, parents: &Parents, from: u32)
    ensures { Extends trail.old trail.new }
{
    for k in from..u32::MAX {
        if k >= trail.count() {
            return;
        }
        let fact = trail.fact(k);
        follow_fact(trail, parents, fact);
    }
}

/// Whether one of the steps from the given one on is a clash.
pub fn has_clash(trail: &Trail, from: u32) -> bool
    ensures clash { IsTrue result → HasClashOn trail.now }
    ensures calm { result ≡ false → (m : ℕ) → m < length trail.now.steps → from ≤ m → is_clash trail.now.terms (step_at trail.now.steps m).fact ≡ false }
{
    for k in from..trail.count() {
        if clashes(trail.terms(), trail.fact(k)) {
            return true;
        }
    }
    false
}

/// Tries what follows from a truth value by the forms of terms, and the clash of a term that has both.
fn follow_truth(trail: &mut Trail, parents: &Parents, fact: Fact)
    ensures { Extends trail.old trail.new }
{
    if let Fact::Eq(i, j) = fact
        && j < 2
    {
        try_all(trail, &[equal(j, i, 2, 0), equal(0, 1, 3, i)]);
        try_form(trail, i);
        try_forms(trail, parents.at(i));
    }
}

/// Follows up the truth values among the steps from the given one on, to the last.
fn follow_truths(trail: &mut Trail, parents: &Parents, from: u32)
    ensures { Extends trail.old trail.new }
{
    for k in from..u32::MAX {
        if k >= trail.count() {
            return;
        }
        let fact = trail.fact(k);
        follow_truth(trail, parents, fact);
    }
}

/// Follows up the steps from the given one on until one is a clash, or to the last. Whether it came to a clash.
pub fn follow_to_clash(trail: &mut Trail, parents: &Parents, from: u32) -> bool
    ensures extends { Extends trail.old trail.new }
    ensures clash { IsTrue result → HasClashOn trail.new }
{
    follow_truths(trail, parents, from);
    let mut calm = from;
    for k in from..u32::MAX {
        if has_clash(trail, calm) {
            return true;
        }
        calm = trail.count();
        if k >= calm {
            return false;
        }
        let fact = trail.fact(k);
        follow_fact(trail, parents, fact);
    }
    false
}

/// Tries the order of the constant of a level and term j.
fn try_level(trail: &mut Trail, i: u32, j: u32)
    ensures { Extends trail.old trail.new }
{
    try_all(
        trail,
        &[below(i, j, 11, 0), below(i, j, 12, 0), below(j, i, 12, 0)],
    );
}

/// Tries the order of term i, if it is the constant of a level, and each other term.
fn start_level(trail: &mut Trail, i: u32)
    ensures { Extends trail.old trail.new }
{
    if !matches!(trail.terms().head(i), Head::Const(Value::Level(_))) {
        return;
    }
    for j in 0..trail.size() {
        try_level(trail, i, j);
    }
}

/// Tries the steps of a term that need no fact.
fn start_term(trail: &mut Trail, i: u32)
    ensures { Extends trail.old trail.new }
{
    try_all(trail, &[equal(i, i, 1, 0), below(i, i, 7, 0)]);
    try_form(trail, i);
    start_level(trail, i);
}

/// Tries the steps that need no fact, of all terms.
pub fn start(trail: &mut Trail)
    ensures { Extends trail.old trail.new }
{
    for i in 0..trail.size() {
        start_term(trail, i);
    }
}
