ghost use Rattle.std.specs.Prelude.{◌≡◌, ◌≤◌, IfOk, length, map, suc};
ghost use Rattle.sp_text.specs.declared.limits.TheConstants.{MOST_CHANGES};
ghost use Rattle.sp_core.specs.Effects.{changes_in, effect_tree, effect_trees_of};
ghost use Rattle.sp_core.specs.Ranks.{change_rank, greatest};
ghost use Rattle.sp_ranks.specs.Heights as meaning;
ghost use Rattle.sp_ranks.specs.Heights.{heights_within};

use crate::heights::{Height, height_of, raise_all};
use sp_core::Effect;
use sp_text::Memory;
use std::alloc::Global;

// How many changes stand in effects.
fn count_changes(alloc: Global, effects: &[Effect]) -> Result<usize, Memory>
    ensures { IfOk result (λ count. count ≡ length (changes_in (effect_trees_of (map effect_tree effects.now)))) }
{
    let mut first = Vec::new(alloc);
    raise_all(&[], effects, &mut first)?;
    Ok(first.len())
}

// The heights by as long chains as there are changes.
fn longest(alloc: Global, effects: &[Effect]) -> Result<Vec<Height>, Memory>
    requires { length (changes_in (effect_trees_of (map effect_tree effects.now))) ≤ MOST_CHANGES }
    ensures { IfOk result (λ all. all.items ≡ heights_within (changes_in (effect_trees_of (map effect_tree effects.now))) (length (changes_in (effect_trees_of (map effect_tree effects.now))))) }
{
    let count = count_changes(alloc, effects)?;
    let mut heights = Vec::new(alloc);
    for steps in 0..count {
        let _ = steps;
        let mut next = Vec::new(alloc);
        raise_all(&heights, effects, &mut next)?;
        heights = next;
    }
    Ok(heights)
}

/// The rank of each change, in text order: how many steps the longest chain has that ends at its function.
///
/// # Errors
/// `Memory` where they can't be listed.
pub fn ranks(alloc: Global, effects: &[Effect]) -> Result<Vec<u16>, Memory>
    requires { length (changes_in (effect_trees_of (map effect_tree effects.now))) ≤ MOST_CHANGES }
    ensures { IfOk result (λ all. all.items ≡ map (λ a. change_rank (changes_in (effect_trees_of (map effect_tree effects.now))) a.fun) (changes_in (effect_trees_of (map effect_tree effects.now)))) }
{
    let heights = longest(alloc, effects)?;
    let mut all = Vec::new(alloc);
    for number in 0..heights.len() {
        all.push(height_of(&heights, heights[number].fun))?;
    }
    Ok(all)
}

/// How many ranks there are, from 0 to the greatest of these.
pub fn count_ranks(ranks: &[u16]) -> u32
    ensures { result ≡ greatest suc ranks.now }
{
    let [first, rest @ ..] = ranks else {
        return 0;
    };
    let here = *first as u32 + 1;
    let behind = count_ranks(rest);
    if here < behind { behind } else { here }
}
