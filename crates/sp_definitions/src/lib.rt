//! The expressions of definitions, each with those before it expanded.
#![tactic(auto)]

ghost use Rattle.std.specs.Prelude.{◌≡◌, ◌≤◌, [], IfOk};
ghost use Rattle.std.specs.List.{All};
ghost use Rattle.sp_text.specs.declared.limits.TheConstants.{MOST_QUANTIFIERS};
ghost use Rattle.sp_core.specs.Measures.{quantifiers};
ghost use Rattle.sp_core.specs.Tree.{Tree, tree};
ghost use Rattle.sp_expand.specs.Parts.{IsPart};
ghost use Rattle.sp_judge.specs.Translation.{AreFine};
ghost use Rattle.sp_definitions.specs.Definitions as spec;
ghost use Rattle.sp_definitions.specs.Definitions.{AreCores, HasRoom};

mod room;

pub use room::{has_room, have_room};
use sp_core::Expr;
use sp_expand::Part;
use sp_judge::{Scope, translate};
use sp_scopes::{Definition, Scopes};
use sp_text::Memory;
use sp_values::Value;
use std::alloc::Global;

// The expression of a part within the limits, else `?`.
#[tactic(auto, using(crate::proofs::Cores::kept_some, crate::proofs::Cores::kept_none))]
fn kept(part: Part) -> Expr
    ensures { (t : Tree) → IsPart t part → tree result ≡ spec.kept t }
{
    match part.core {
        Some(core) => core.into_inner(),
        None => Expr::Const(Value::Unknown),
    }
}

fn definition_core(
    alloc: Global,
    names: &Scopes,
    bottom: u16,
    top: u16,
    before: &[Expr],
    definition: &Definition,
) -> Result<Expr, Memory>
    requires fine { AreFine before.now }
    requires room { HasRoom definition.now }
    ensures { IfOk result (λ e. tree e ≡ spec.definition_core names.now bottom top before.now definition.now) }
{
    let scope = Scope {
        names,
        module_number: definition.module_number,
        cores: before,
        bottom,
        top,
    };
    let formals = definition.head.formals.items();
    Ok(kept(translate(alloc, &scope, formals, &definition.text)?))
}

/// The expressions of all definitions, by number: each is its text over its formals, with the definitions before it expanded. One that
/// exceeds a limit, and so is refused where it is judged, is `?`.
///
/// # Errors
/// `Memory` where they can't be stored.
#[tactic(auto, using(crate::proofs::Cores::cores_next, crate::proofs::Cores::fine_next, crate::proofs::Cores::room_at))]
pub fn definition_cores(
    alloc: Global,
    names: &Scopes,
    bottom: u16,
    top: u16,
) -> Result<Vec<Expr>, Memory>
    requires { All HasRoom names.now.definitions }
    ensures cores { IfOk result (λ all. AreCores names.now bottom top [] names.now.definitions all.items) }
    ensures fine { IfOk result (λ all. AreFine all.items) }
{
    let mut all = Vec::new(alloc);
    for definition in names.definitions() {
        let core = definition_core(alloc, names, bottom, top, &all, definition)?;
        all.push(core)?;
    }
    Ok(all)
}
