//! The word for a level of a specification.

ghost use Rattle.std.specs.Prelude.{◌≡◌, ◌<◌, IfOk};
ghost use Rattle.sp_frame.specs.Steps.{Does};
ghost use Rattle.sp_compare_command.specs.Compare.{SpecLevelJudged};

use sp_core::Spec;
use sp_frame::Stop;
use sp_sorts::judge_level;
use sp_text::{Memory, Name};
use std::alloc::Global;

/// The level that the word is.
///
/// # Errors
/// `Refused` where it is none, and `Memory`.
pub fn level_of(alloc: Global, spec: &Spec, word: &str) -> Result<u16, Stop>
    ensures does { Does (SpecLevelJudged spec.now word.now) result }
    ensures level { IfOk result (λ l. l < spec.now.lattice.count) }
{
    let names = level_names(alloc, spec)?;
    level_among(alloc, spec, &names, word)
}

// The level that the word is, of the specification's levels with their names.
fn level_among(alloc: Global, spec: &Spec, names: &[Name], word: &str) -> Result<u16, Stop>
    requires { names.now ≡ spec.now.level_names }
    ensures does { Does (SpecLevelJudged spec.now word.now) result }
    ensures level { IfOk result (λ l. l < spec.now.lattice.count) }
{
    let lattice = spec.lattice();
    judge_level(alloc, names, lattice.bottom(), lattice.top(), word)
}

// The names of the levels.
fn level_names(alloc: Global, spec: &Spec) -> Result<Vec<Name>, Memory>
    ensures { IfOk result (λ names. names.items ≡ spec.now.level_names) }
{
    let lattice = spec.lattice();
    let mut names = Vec::new(alloc);
    for level in 0..lattice.count() {
        let name = Name::new(alloc, spec.level_name(level).bytes())?;
        names.push(name)?;
    }
    Ok(names)
}
