//! The heights of changes: how long chains of functions are that end at the changed one.

ghost use Rattle.std.specs.Prelude.{◌≡◌, ◌≤◌, ◌++◌, ℕ, OnOk, map, max};
ghost use Rattle.sp_text.specs.declared.limits.TheConstants.{MOST_CHANGES};
ghost use Rattle.sp_core.specs.Effects.{changes, changes_in, effect_tree, effect_trees_of};
ghost use Rattle.sp_core.specs.Ranks.{new_reads, new_reads_in};
ghost use Rattle.sp_core.specs.Tree.{tree, trees_of};
ghost use Rattle.sp_ranks.specs.Heights as meaning;
ghost use Rattle.sp_ranks.specs.Heights.{height_above, raised};

use sp_core::{Effect, Expr};
use sp_text::Memory;

/// A change: its function, and how many steps the longest chain has that ends at what it reads new.
#[derive(Clone, Copy)]
pub struct Height {
    pub fun: u16,
    pub steps: u16,
}

fn larger(a: u16, b: u16) -> u16
    ensures { result ≡ max a b }
{
    if a < b { b } else { a }
}

/// How many steps the longest chain has that ends at a function.
pub fn height_of(heights: &[Height], g: u16) -> u16
    ensures { result ≡ meaning.height_of heights.now g }
{
    let [first, rest @ ..] = heights else {
        return 0;
    };
    let behind = height_of(rest, g);
    if first.fun == g {
        larger(first.steps, behind)
    } else {
        behind
    }
}

// One step more than the longest chain that ends at a function that the expression reads new.
#[cycle(reading)]
fn height_above_reads(heights: &[Height], e: &Expr) -> u16
    requires { (g : ℕ) → meaning.height_of heights.now g ≤ MOST_CHANGES }
    ensures { result ≡ height_above heights.now (new_reads (tree e.now)) }
{
    match e {
        Expr::Const(_) => 0,
        Expr::Var(_) => 0,
        Expr::Not(a) => height_above_reads(heights, a.get()),
        Expr::Two(_, a, b) => larger(
            height_above_reads(heights, a.get()),
            height_above_reads(heights, b.get()),
        ),
        Expr::If(c, a, b) => larger(
            height_above_reads(heights, c.get()),
            larger(
                height_above_reads(heights, a.get()),
                height_above_reads(heights, b.get()),
            ),
        ),
        Expr::Param(_, parts) => height_above_all(heights, parts.as_slice()),
        Expr::Look(_, parts) => height_above_all(heights, parts.as_slice()),
        Expr::Every(_, _, body) => height_above_reads(heights, body.get()),
        Expr::New(g, parts) => larger(
            height_above_all(heights, parts.as_slice()),
            height_of(heights, *g) + 1,
        ),
    }
}

#[cycle(reading)]
fn height_above_all(heights: &[Height], parts: &[Expr]) -> u16
    requires { (g : ℕ) → meaning.height_of heights.now g ≤ MOST_CHANGES }
    ensures { result ≡ height_above heights.now (new_reads_in (trees_of (map tree parts.now))) }
{
    let mut most = 0;
    for part in parts {
        most = larger(most, height_above_reads(heights, part));
    }
    most
}

// Appends the heights of an effect's changes.
#[cycle(raising)]
fn raise_one(heights: &[Height], effect: &Effect, out: &mut Vec<Height>) -> Result<(), Memory>
    requires { (g : ℕ) → meaning.height_of heights.now g ≤ MOST_CHANGES }
    ensures { OnOk result (out.new.items ≡ out.old.items ++ raised heights.now (changes (effect_tree effect.now))) }
{
    match effect {
        Effect::Change(g, parts, value) => {
            let steps = larger(
                height_above_all(heights, parts.as_slice()),
                height_above_reads(heights, value),
            );
            out.push(Height { fun: *g, steps })?;
            Ok(())
        }
        Effect::Answer(_) => Ok(()),
        Effect::If(_, then, otherwise) => {
            raise_all(heights, then.as_slice(), out)?;
            raise_all(heights, otherwise.as_slice(), out)
        }
        Effect::Every(_, _, body) => raise_all(heights, body.as_slice(), out),
    }
}

/// Appends the heights of the changes of effects, in text order, where these are the heights by chains of one step less.
///
/// # Errors
/// `Memory` where there is no room for them.
#[cycle(raising)]
pub fn raise_all(
    heights: &[Height],
    effects: &[Effect],
    out: &mut Vec<Height>,
) -> Result<(), Memory>
    requires { (g : ℕ) → meaning.height_of heights.now g ≤ MOST_CHANGES }
    ensures { OnOk result (out.new.items ≡ out.old.items ++ raised heights.now (changes_in (effect_trees_of (map effect_tree effects.now)))) }
{
    for effect in effects {
        raise_one(heights, effect, out)?;
    }
    Ok(())
}
