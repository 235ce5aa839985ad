//! Facts put into the tables of a checker, and taken out again.

ghost use Rattle.std.specs.Prelude.{◌≡◌, ℕ, ◌+◌, ◌<◌, ◌≤◌, ◌||◌, ◌&&◌, not, length, IsTrue};
ghost use Rattle.sp_rules.specs.Table.{in_range};
ghost use Rattle.sp_rules.specs.declared.fact.Fact.{Fact};
ghost use Rattle.sp_checker.specs.Trail.{free};
ghost use Rattle.sp_rules.specs.Facts.{holds_in};
ghost use Rattle.sp_rules.specs.Facts.{is_fact};
ghost use Rattle.sp_cert.specs.Checks.{Facts};
ghost use Rattle.sp_checker.specs.Trail.{Added, Trailed, EachWithin, Kept};

use sp_bits::BitTable;
use sp_rules::Fact;

/// Puts a fact into its table, and answers whether it is new.
#[tactic(auto, using(crate::proofs::Rooms::added_equal, crate::proofs::Rooms::added_order))]
pub fn add(eq: &mut BitTable, le: &mut BitTable, fact: Fact) -> bool
    requires fact { IsTrue (in_range eq.old.count fact) }
    requires count { eq.old.count ≤ 512 }
    requires same_count { le.old.count ≡ eq.old.count }
    ensures { Added fact eq.old le.old eq.new le.new result }
{
    match fact {
        Fact::Eq(i, j) => {
            let new = eq.set(i as u16, j as u16);
            eq.tell_within();
            new
        }
        Fact::Le(i, j) => {
            let new = le.set(i as u16, j as u16);
            le.tell_within();
            new
        }
    }
}

/// Takes a fact out of its table.
pub fn take_out(eq: &mut BitTable, le: &mut BitTable, fact: Fact)
    requires fact { IsTrue (in_range eq.old.count fact) }
    requires count { eq.old.count ≤ 512 }
    requires same_count { le.old.count ≡ eq.old.count }
    ensures eq { eq.new.count ≡ eq.old.count }
    ensures le { le.new.count ≡ le.old.count }
    ensures has { (f : Fact) → holds_in eq.new le.new f ≡ (not (is_fact fact f) && holds_in eq.old le.old f) }
{
    match fact {
        Fact::Eq(i, j) => eq.clear(i as u16, j as u16),
        Fact::Le(i, j) => le.clear(i as u16, j as u16),
    }
}

/// Puts a fact into its table and, where it is new, at the end of the trail. Answers the trail's new length.
pub fn put(
    eq: &mut BitTable,
    le: &mut BitTable,
    trail: &mut [Fact],
    len: usize,
    fact: Fact,
) -> usize
    requires fact { IsTrue (in_range eq.old.count fact) }
    requires count { eq.old.count ≤ 512 }
    requires same_count { le.old.count ≡ eq.old.count }
    requires room { len + (free eq.old + free le.old) ≤ length trail.old }
    ensures eq { eq.new.count ≡ eq.old.count }
    ensures le { le.new.count ≡ le.old.count }
    ensures room { result + (free eq.new + free le.new) ≤ length trail.new }
    ensures longer { len ≤ result }
    ensures has { (f : Fact) → holds_in eq.new le.new f ≡ (is_fact fact f || holds_in eq.old le.old f) }
    ensures trailed { (h0 : Facts) (from : ℕ) → Trailed h0 trail.old from len (holds_in eq.old le.old) → Trailed h0 trail.new from result (holds_in eq.new le.new) }
    ensures within { EachWithin eq.old.count trail.old len → EachWithin eq.old.count trail.new result }
    ensures kept { Kept trail.old trail.new len }
{
    if add(eq, le, fact) {
        trail[len] = fact;
        len + 1
    } else {
        len
    }
}

/// Takes the facts of the trail out again, down to a place.
pub fn undo(eq: &mut BitTable, le: &mut BitTable, trail: &[Fact], from: usize, len: usize)
    requires count { eq.old.count ≤ 512 }
    requires same_count { le.old.count ≡ eq.old.count }
    requires length { len ≤ length trail.now }
    requires within { EachWithin eq.old.count trail.now len }
    ensures eq { eq.new.count ≡ eq.old.count }
    ensures le { le.new.count ≡ le.old.count }
    ensures has { (h0 : Facts) → Trailed h0 trail.now from len (holds_in eq.old le.old) → (f : Fact) → holds_in eq.new le.new f ≡ h0 f }
{
    let mut left = len;
    while left > from {
        left -= 1;
        let fact = trail[left];
        take_out(eq, le, fact);
    }
}
