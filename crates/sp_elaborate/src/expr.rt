//! Expressions of modules.

ghost use Rattle.std.specs.Prelude.{ℕ, ◌+◌, ◌<◌, length};
ghost use Rattle.std.specs.List.{All};
ghost use Rattle.sp_text.specs.Violations.{Judges};
ghost use Rattle.sp_plain.specs.Text.{text};
ghost use Rattle.sp_judge.specs.Broken.{typed_broken};
ghost use Rattle.sp_judge.specs.Translation.{IsElaborated, binders};
ghost use Rattle.sp_definitions.specs.Definitions.{HasRoom};
ghost use Rattle.sp_order.specs.Orders.{AreEnds, HasLevels, KeepsLattice};
ghost use Rattle.sp_elaborate.specs.Views.{view};

use sp_core::Expr;
use sp_definitions::definition_cores;
use sp_judge::Scope;
use sp_order::lattice_of;
use sp_scopes::{Local, Scopes};
use sp_text::TextFault;
use sp_tree::ExprTree;
use sp_values::Ty;
use std::alloc::Global;

// The same where these levels are the least and the greatest.
fn elaborate_between(
    alloc: Global,
    scopes: &Scopes,
    module: u16,
    ends: (u16, u16),
    locals: &[Local],
    expected: Option<Ty>,
    e: &ExprTree,
) -> Result<(Expr, Ty), TextFault>
    requires definitions { All HasRoom scopes.now.definitions }
    requires room { length locals.now + binders (text e.now) < 4294967288 }
    ensures { Judges (typed_broken (view scopes.now «module» ends.0 ends.1) locals.now expected (text e.now))
        (IsElaborated (view scopes.now «module» ends.0 ends.1) locals.now expected (text e.now)) result }
{
    let (bottom, top) = ends;
    let cores = definition_cores(alloc, scopes, bottom, top)?;
    let scope = Scope {
        names: scopes,
        module_number: module,
        cores: &cores,
        bottom,
        top,
    };
    sp_judge::elaborate_expr(alloc, &scope, locals, expected, e)
}

/// The translation of an expression with its type, which is the expected one, else its own, where it breaks no rule and no limit. It stands
/// outside effects in this module; the number after the last module's is that of the interface, which sees all.
///
/// # Errors
/// The first rule or limit that it breaks; `Memory` where it can't be stored.
#[tactic(auto, using(crate::proofs::Views::at_ends))]
pub fn elaborate_expr(
    alloc: Global,
    scopes: &Scopes,
    module: u16,
    locals: &[Local],
    expected: Option<Ty>,
    e: &ExprTree,
) -> Result<(Expr, Ty), TextFault>
    requires levels { HasLevels scopes.now }
    requires order { KeepsLattice scopes.now }
    requires definitions { All HasRoom scopes.now.definitions }
    requires room { length locals.now + binders (text e.now) < 4294967288 }
    ensures { (bottom top : ℕ) → AreEnds scopes.now bottom top
        → Judges (typed_broken (view scopes.now «module» bottom top) locals.now expected (text e.now))
        (IsElaborated (view scopes.now «module» bottom top) locals.now expected (text e.now)) result }
{
    match lattice_of(alloc, scopes) {
        Ok(lattice) => {
            let ends = (lattice.bottom(), lattice.top());
            elaborate_between(alloc, scopes, module, ends, locals, expected, e)
        }
        Err(_) => Err(TextFault::Memory),
    }
}
