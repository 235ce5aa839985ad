//! One round over all rules, which finds a step that the facts lack.

ghost use Rattle.std.specs.Prelude.{◌≡◌, ℕ, ◌<◌, ◌≤◌, true, false, None, Some, MatchOption};
ghost use Rattle.sp_rules.specs.Terms.{count, arg, has_op, node_at};
ghost use Rattle.sp_rules.specs.Laws.{IsClosed};
ghost use Rattle.sp_saturate.specs.Steps.{on};
ghost use Rattle.sp_saturate.specs.Trail.{is_new};
ghost use Rattle.sp_saturate.specs.Gaps.{IsGapOr, simple, EqualIsOld, BelowIsOld, UpperIsOld, FormIsOld, BoundsAreOld, TruthIsOld, TruthsAreOld, SumsAreOld, PairIsOld, TermIsOld, IsOld, is_low_head};

use crate::trail::Trail;
use sp_pool::Head;
use sp_rules::{Fact, Step};
use sp_values::{Op, Value};

#[inline(always)]
fn equal(i: u32, j: u32, rule: u8, p: u32) -> Step
    ensures { result ≡ simple (Fact.Eq i j) rule p }
{
    Step {
        fact: Fact::Eq(i, j),
        rule,
        p,
        q: 0,
    }
}

#[inline(always)]
fn below(i: u32, j: u32, rule: u8, p: u32) -> Step
    ensures { result ≡ simple (Fact.Le i j) rule p }
{
    Step {
        fact: Fact::Le(i, j),
        rule,
        p,
        q: 0,
    }
}

/// A new step to the equality of two terms that are alike.
fn alike_gap(trail: &Trail, i: u32, j: u32) -> Option<Step>
    ensures { IsGapOr trail.now (IsOld trail.now (simple (Fact.Eq i j) 4 0)) result }
{
    if trail.terms().argument_count(i) != trail.terms().argument_count(j) {
        return None;
    }
    let step = equal(i, j, 4, 0);
    if trail.is_new(&step) {
        return Some(step);
    }
    None
}

/// A new step from the equality of i and p: the other way round, or from i through p.
fn equal_row_gap(trail: &Trail, i: u32, p: u32) -> Option<Step>
    requires i { i < count trail.now.terms }
    requires p { p < count trail.now.terms }
    ensures { IsGapOr trail.now (EqualIsOld trail.now i p) result }
{
    if !trail.holds(Fact::Eq(i, p)) {
        return None;
    }
    let step = equal(p, i, 2, 0);
    if trail.is_new(&step) {
        return Some(step);
    }
    if trail.is_equal_within(p, i) {
        return None;
    }
    for j in 0..trail.size() {
        let step = equal(i, j, 3, p);
        if trail.is_new(&step) {
            return Some(step);
        }
    }
    None
}

/// A new step from the order of i and p: to their equality, or from i through p.
fn below_row_gap(trail: &Trail, i: u32, p: u32) -> Option<Step>
    requires i { i < count trail.now.terms }
    requires p { p < count trail.now.terms }
    ensures { IsGapOr trail.now (BelowIsOld trail.now i p) result }
{
    if !trail.holds(Fact::Le(i, p)) {
        return None;
    }
    let step = equal(i, p, 10, 0);
    if trail.is_new(&step) {
        return Some(step);
    }
    if trail.is_upper_within(p, i) {
        return None;
    }
    for j in 0..trail.size() {
        let step = below(i, j, 8, p);
        if trail.is_new(&step) {
            return Some(step);
        }
    }
    None
}

fn pair_gap(trail: &Trail, i: u32, j: u32) -> Option<Step>
    requires i { i < count trail.now.terms }
    requires j { j < count trail.now.terms }
    ensures { IsGapOr trail.now (PairIsOld trail.now i j) result }
{
    if let Some(step) = alike_gap(trail, i, j) {
        return Some(step);
    }
    if let Some(step) = equal_row_gap(trail, i, j) {
        return Some(step);
    }
    if let Some(step) = below_row_gap(trail, i, j) {
        return Some(step);
    }
    None
}

/// A new step to the order of i and j by the form of i.
fn upper_gap(trail: &Trail, i: u32, j: u32) -> Option<Step>
    ensures { IsGapOr trail.now (UpperIsOld trail.now i j) result }
{
    let step = below(i, j, 7, 0);
    if trail.is_new(&step) {
        return Some(step);
    }
    let step = below(i, j, 9, 0);
    if trail.is_new(&step) {
        return Some(step);
    }
    let step = below(i, j, 11, 0);
    if trail.is_new(&step) {
        return Some(step);
    }
    let step = below(i, j, 12, 0);
    if trail.is_new(&step) {
        return Some(step);
    }
    let step = below(i, j, 14, 0);
    if trail.is_new(&step) {
        return Some(step);
    }
    None
}

/// Whether a term with this head may lie below others by its form alone: it is the constant of a level or a LUB.
fn is_low_head(head: Head) -> bool
    ensures { result ≡ is_low_head head }
{
    matches!(head, Head::Const(Value::Level(_)) | Head::Two(Op::Lub))
}

/// A new step to the order of term i and another, by the form of i.
fn uppers_gap(trail: &Trail, i: u32) -> Option<Step>
    ensures { IsGapOr trail.now ((j : ℕ) → j < count trail.now.terms → UpperIsOld trail.now i j) result }
{
    if !trail.terms().is_level(i) && !is_low_head(trail.terms().head(i)) {
        return None;
    }
    for j in 0..trail.size() {
        if let Some(step) = upper_gap(trail, i, j) {
            return Some(step);
        }
    }
    None
}

/// Whether it is GLB.
fn is_high_head(head: Head) -> bool
    ensures { result ≡ has_op Op.Glb head }
{
    matches!(head, Head::Two(Op::Glb))
}

/// A new step to the order of another term and i, by the form of i.
fn lowers_gap(trail: &Trail, i: u32) -> Option<Step>
    ensures { IsGapOr trail.now ((h : ℕ) → h < count trail.now.terms → IsOld trail.now (simple (Fact.Le h i) 16 0)) result }
{
    if !is_high_head(trail.terms().head(i)) {
        return None;
    }
    for h in 0..trail.size() {
        let step = below(h, i, 16, 0);
        if trail.is_new(&step) {
            return Some(step);
        }
    }
    None
}

/// A new step to the equality of term i and itself, or of i as x = y, x <= y or IF.
fn form_gap(trail: &Trail, i: u32) -> Option<Step>
    ensures { IsGapOr trail.now (FormIsOld trail.now i) result }
{
    let x = trail.terms().argument(i, 0);
    let y = trail.terms().argument(i, 1);
    let z = trail.terms().argument(i, 2);
    let step = equal(i, i, 1, 0);
    if trail.is_new(&step) {
        return Some(step);
    }
    let step = equal(x, y, 5, i);
    if trail.is_new(&step) {
        return Some(step);
    }
    let step = equal(i, 0, 6, 0);
    if trail.is_new(&step) {
        return Some(step);
    }
    let step = equal(i, 0, 18, 0);
    if trail.is_new(&step) {
        return Some(step);
    }
    let step = equal(i, y, 22, 0);
    if trail.is_new(&step) {
        return Some(step);
    }
    let step = equal(i, z, 22, 0);
    if trail.is_new(&step) {
        return Some(step);
    }
    None
}

/// A new step to the order of term i as x <= y, LUB or GLB.
fn bounds_gap(trail: &Trail, i: u32) -> Option<Step>
    ensures { IsGapOr trail.now (BoundsAreOld trail.now i) result }
{
    let x = trail.terms().argument(i, 0);
    let y = trail.terms().argument(i, 1);
    let step = below(x, i, 13, 0);
    if trail.is_new(&step) {
        return Some(step);
    }
    let step = below(y, i, 13, 0);
    if trail.is_new(&step) {
        return Some(step);
    }
    let step = below(i, x, 15, 0);
    if trail.is_new(&step) {
        return Some(step);
    }
    let step = below(i, y, 15, 0);
    if trail.is_new(&step) {
        return Some(step);
    }
    let step = below(x, y, 17, i);
    if trail.is_new(&step) {
        return Some(step);
    }
    None
}

/// A new step of term i as NOT, AND or OR, by the rule of this number, to the truth value j.
fn truth_gap(trail: &Trail, i: u32, rule: u8, j: u32) -> Option<Step>
    ensures { IsGapOr trail.now (TruthIsOld trail.now i rule j) result }
{
    let step = equal(i, j, rule, 0);
    if trail.is_new(&step) {
        return Some(step);
    }
    let step = equal(trail.terms().argument(i, 0), j, rule, i);
    if trail.is_new(&step) {
        return Some(step);
    }
    let step = equal(trail.terms().argument(i, 1), j, rule, i);
    if trail.is_new(&step) {
        return Some(step);
    }
    None
}

fn truths_gap(trail: &Trail, i: u32) -> Option<Step>
    ensures { IsGapOr trail.now (TruthsAreOld trail.now i) result }
{
    for rule in 19..22 {
        if let Some(step) = truth_gap(trail, i, rule, 0) {
            return Some(step);
        }
        if let Some(step) = truth_gap(trail, i, rule, 1) {
            return Some(step);
        }
    }
    None
}

/// A new step to the value of term i, whose arguments are p and q.
fn value_gap(trail: &Trail, i: u32, p: u32, q: u32) -> Option<Step>
    ensures { IsGapOr trail.now ((j : ℕ) → j < count trail.now.terms → IsOld trail.now (record { fact = Fact.Eq i j; rule = 23; p = p; q = q })) result }
{
    for j in 0..trail.size() {
        let step = Step {
            fact: Fact::Eq(i, j),
            rule: 23,
            p,
            q,
        };
        if trail.is_new(&step) {
            return Some(step);
        }
    }
    None
}

/// A new step to the value of term i, whose first argument is p.
fn sum_gap(trail: &Trail, i: u32, p: u32) -> Option<Step>
    ensures { IsGapOr trail.now ((q j : ℕ) → q < count trail.now.terms → j < count trail.now.terms
        → on trail.now.steps (Fact.Eq (arg trail.now.terms i 1) q) ≡ true → IsOld trail.now (record { fact = Fact.Eq i j; rule = 23; p = p; q = q })) result }
{
    let y = trail.terms().argument(i, 1);
    for q in 0..trail.size() {
        if trail.holds(Fact::Eq(y, q))
            && let Some(step) = value_gap(trail, i, p, q)
        {
            return Some(step);
        }
    }
    None
}

/// A new step of term i as a sum, difference or product.
fn sums_gap(trail: &Trail, i: u32) -> Option<Step>
    requires { i < count trail.now.terms }
    ensures { IsGapOr trail.now (SumsAreOld trail.now i) result }
{
    if !trail.terms().is_calculation(i) {
        return None;
    }
    let x = trail.terms().argument(i, 0);
    for p in 0..trail.size() {
        if trail.holds(Fact::Eq(x, p))
            && let Some(step) = sum_gap(trail, i, p)
        {
            return Some(step);
        }
    }
    None
}

/// A new step of term i, or from it.
fn term_gap(trail: &Trail, i: u32) -> Option<Step>
    requires { i < count trail.now.terms }
    ensures { IsGapOr trail.now (TermIsOld trail.now i) result }
{
    if let Some(step) = form_gap(trail, i) {
        return Some(step);
    }
    if let Some(step) = bounds_gap(trail, i) {
        return Some(step);
    }
    if let Some(step) = truths_gap(trail, i) {
        return Some(step);
    }
    if let Some(step) = sums_gap(trail, i) {
        return Some(step);
    }
    if let Some(step) = uppers_gap(trail, i) {
        return Some(step);
    }
    if let Some(step) = lowers_gap(trail, i) {
        return Some(step);
    }
    for j in 0..trail.size() {
        if let Some(step) = pair_gap(trail, i, j) {
            return Some(step);
        }
    }
    None
}

/// A step that lacks nothing and whose fact isn't there, or None where the facts are closed.
pub fn gap(trail: &Trail) -> Option<Step>
    ensures { IsGapOr trail.now (IsClosed trail.now.terms (on trail.now.steps)) result }
{
    for i in 0..trail.size() {
        if let Some(step) = term_gap(trail, i) {
            return Some(step);
        }
    }
    None
}
