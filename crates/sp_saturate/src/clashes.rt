//! The first clash of a trail.

ghost use Rattle.std.specs.Prelude.{◌≡◌, ℕ, ◌<◌, ◌≤◌, ◌&&◌, true, false, Some, None, MatchOption};
ghost use Rattle.sp_rules.specs.Terms.{count};
ghost use Rattle.sp_saturate.specs.Steps.{on};
ghost use Rattle.sp_saturate.specs.Looking.{IsOn, is_clash_on, IsFirstIn};
ghost use Rattle.sp_rules.specs.Clash.{is_clash, IsFirstClash};

use crate::trail::Trail;
use sp_rules::{Fact, clashes};

fn is_clash_on(trail: &Trail, fact: Fact) -> bool
    ensures { result ≡ is_clash_on trail.now fact }
{
    trail.holds(fact) && clashes(trail.terms(), fact)
}

/// The first number with which i has an equality that is a clash.
fn equal_clash(trail: &Trail, i: u32) -> Option<u32>
    ensures { IsFirstIn (λ j. is_clash_on trail.now (Fact.Eq i j)) (count trail.now.terms) result }
{
    for j in 0..trail.size() {
        if is_clash_on(trail, Fact::Eq(i, j)) {
            return Some(j);
        }
    }
    None
}

/// The first number with which i has an order that is a clash.
fn below_clash(trail: &Trail, i: u32) -> Option<u32>
    ensures { IsFirstIn (λ j. is_clash_on trail.now (Fact.Le i j)) (count trail.now.terms) result }
{
    for j in 0..trail.size() {
        if is_clash_on(trail, Fact::Le(i, j)) {
            return Some(j);
        }
    }
    None
}

/// The first clash of a trail, equalities before the order, then by their numbers.
pub fn first_clash(trail: &Trail) -> Option<Fact>
    ensures { IsFirstClash trail.now.terms (IsOn (on trail.now.steps)) result }
{
    'equalities: for i in 0..trail.size() {
        if let Some(j) = equal_clash(trail, i) {
            return Some(Fact::Eq(i, j));
        }
    }
    'orders: for i in 0..trail.size() {
        if let Some(j) = below_clash(trail, i) {
            return Some(Fact::Le(i, j));
        }
    }
    None
}
