//! The goal of a formula.

ghost use Rattle.std.specs.Prelude.{◌≡◌, ◌+◌, ◌^◌, ◌<◌, ◌≤◌, IfOk, IfSome, IfNone};
ghost use Rattle.sp_core.specs.Measures.{nodes};
ghost use Rattle.sp_core.specs.Tree.{tree};
ghost use Rattle.sp_formulas.specs.Generated.{goal_tree, level_tree};
ghost use Rattle.sp_formulas.specs.Moves.{IsBelow, settle};

use crate::adding::{spend, spend_put};
use crate::moves::{settled, with_arguments};
use crate::spot::{Goal, Level};
use sp_core::Expr;
use sp_text::Memory;
use sp_values::Op;
use sqlite_items::Boxed;
use std::alloc::Global;

/// What is left of room after a level's nodes, which needn't be made for that.
fn spend_level(level: &Level<'_>, room: u32) -> Option<u32>
    ensures some { IfSome result (λ left. left + nodes (level_tree level.now) ≡ room) }
    ensures none { IfNone result (room < nodes (level_tree level.now)) }
{
    match level.args {
        None => spend(level.term, room),
        Some(args) => spend_put(args, level.term, room),
    }
}

/// What is left of room after a goal's nodes.
pub fn spend_goal(goal: &Goal<'_>, room: u32) -> Option<u32>
    ensures some { IfSome result (λ left. left + nodes (goal_tree goal.now) ≡ room) }
    ensures none { IfNone result (room < nodes (goal_tree goal.now)) }
{
    if room == 0 {
        return None;
    }
    let left = room - 1;
    match goal {
        Goal::Below(a, b) => {
            let left = spend_level(a, left)?;
            spend_level(b, left)
        }
        Goal::Equal(a, b) => {
            let left = spend(*a, left)?;
            spend(*b, left)
        }
    }
}

fn level_expr(alloc: Global, level: &Level<'_>) -> Result<Expr, Memory>
    ensures { IfOk result (λ e. tree e ≡ level_tree level.now) }
{
    match level.args {
        None => Ok(level.term.copy(alloc)?),
        Some(args) => Ok(with_arguments(alloc, args, level.term)?),
    }
}

fn whole(alloc: Global, goal: &Goal<'_>) -> Result<Expr, Memory>
    ensures { IfOk result (λ e. tree e ≡ goal_tree goal.now) }
{
    match goal {
        Goal::Below(a, b) => Ok(Expr::Two(
            Op::LevelLe,
            Boxed::new(alloc, level_expr(alloc, a)?)?,
            Boxed::new(alloc, level_expr(alloc, b)?)?,
        )),
        Goal::Equal(a, b) => Ok(Expr::Two(
            Op::Same,
            Boxed::new(alloc, a.copy(alloc)?)?,
            Boxed::new(alloc, b.copy(alloc)?)?,
        )),
    }
}

/// The goal in the numbering of a formula with n variables.
///
/// # Errors
/// `Memory` where it can't be made.
pub fn goal_expr(alloc: Global, n: u32, goal: &Goal<'_>) -> Result<Expr, Memory>
    requires room { n ≤ 2 ^ 31 }
    requires low { IsBelow (2 ^ 31) (goal_tree goal.now) }
    ensures { IfOk result (λ e. tree e ≡ settle n (goal_tree goal.now)) }
{
    let whole = whole(alloc, goal)?;
    settled(alloc, n, &whole)
}
