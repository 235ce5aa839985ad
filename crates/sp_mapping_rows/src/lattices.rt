//! The lattices of two specifications.

ghost use Rattle.std.specs.Prelude.{◌≡◌, ◌<◌, ◌≤◌};
ghost use Rattle.sp_text.specs.Violations.{first};
ghost use Rattle.sp_mapping_rules.specs.Lattices as spec;
ghost use Rattle.sp_mapping_rules.specs.Lattices.{all_below, is_named_alike, is_ordered_alike, is_pair_alike, lattice_broken};

use sp_core::Spec;
use sp_text::{Rule, Span, Violation, breaks};

fn is_named(upper: &Spec, lower: &Spec, k: u16) -> bool
    requires upper { k < upper.now.lattice.count }
    requires lower { k < lower.now.lattice.count }
    ensures { result ≡ is_named_alike upper.now lower.now k }
{
    upper.level_name(k).bytes() == lower.level_name(k).bytes()
}

// Whether the first levels have the same names.
fn are_named(upper: &Spec, lower: &Spec, count: u16) -> bool
    requires upper { count ≤ upper.now.lattice.count }
    requires lower { count ≤ lower.now.lattice.count }
    ensures { result ≡ all_below count (is_named_alike upper.now lower.now) }
{
    let mut alike = true;
    for k in 0..count {
        alike = alike && is_named(upper, lower, k);
    }
    alike
}

fn is_pair(upper: &Spec, lower: &Spec, x: u16, y: u16) -> bool
    requires upper_x { x < upper.now.lattice.count }
    requires upper_y { y < upper.now.lattice.count }
    requires lower_x { x < lower.now.lattice.count }
    requires lower_y { y < lower.now.lattice.count }
    ensures { result ≡ is_pair_alike upper.now lower.now x y }
{
    let below = lower.lattice().le(x, y);
    if upper.lattice().le(x, y) {
        below
    } else {
        !below
    }
}

// Whether a level is ordered alike with each.
fn is_ordered(upper: &Spec, lower: &Spec, x: u16) -> bool
    requires same { upper.now.lattice.count ≡ lower.now.lattice.count }
    requires level { x < upper.now.lattice.count }
    ensures { result ≡ is_ordered_alike upper.now lower.now x }
{
    let count = upper.lattice().count();
    let mut alike = true;
    for y in 0..count {
        alike = alike && is_pair(upper, lower, x, y);
    }
    alike
}

fn are_ordered(upper: &Spec, lower: &Spec, count: u16) -> bool
    requires same { upper.now.lattice.count ≡ lower.now.lattice.count }
    requires levels { count ≤ upper.now.lattice.count }
    ensures { result ≡ all_below count (is_ordered_alike upper.now lower.now) }
{
    let mut alike = true;
    for x in 0..count {
        alike = alike && is_ordered(upper, lower, x);
    }
    alike
}

fn is_same(upper: &Spec, lower: &Spec) -> bool
    ensures { result ≡ spec.same_lattice upper.now lower.now }
{
    let count = upper.lattice().count();
    count == lower.lattice().count()
        && (are_named(upper, lower, count) && are_ordered(upper, lower, count))
}

/// What two specifications break whose lattices differ, told at `place`.
pub fn judge_lattices(place: Span, upper: &Spec, lower: &Spec) -> Option<Violation>
    ensures { result ≡ first (lattice_broken place upper.now lower.now) }
{
    if is_same(upper, lower) {
        None
    } else {
        breaks(place, Rule::LatticeDiffers)
    }
}
