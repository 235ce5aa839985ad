//! What the modules of an interface break, each in its file.

ghost use Rattle.std.specs.Prelude.{◌≡◌, [], IfOk, OnOk};
ghost use Rattle.sp_text.specs.Violations.{first, first_in_files};
ghost use Rattle.sp_judge.specs.Translation.{AreFine};
ghost use Rattle.sp_elaborate.specs.Views.{cores_from};
ghost use Rattle.sp_functions.specs.Judged.{all_flags as spec_flags};
ghost use Rattle.sp_specification.specs.Bodies as spec;
ghost use Rattle.sp_bodies.specs.Seen.{IsWhole};

use crate::assertions::judge_assertions;
use crate::functions::judge_functions;
use sp_core::Expr;
use sp_definitions::have_room;
use sp_functions::{all_flags, judge_definitions};
use sp_judge::Scope;
use sp_naming::{after, counted};
use sp_scopes::Scopes;
use sp_text::{FileViolation, Memory, Violation, earlier, earlier_in_files, in_file};
use sp_tree::Module;
use std::alloc::Global;

// What a module breaks, whose first assertion has this number; the depths of its functions are appended.
fn judge_module(
    alloc: Global,
    scope: &Scope,
    flags: &[bool],
    number: u16,
    depths: &mut Vec<u8>,
    m: &Module,
) -> Result<Option<Violation>, Memory>
    requires flags { flags.now ≡ spec_flags scope.now.names.functions }
    requires fine { AreFine scope.now.cores }
    ensures found { IfOk result (λ r. r ≡ first (spec.module_broken scope.now number depths.old.items m.now)) }
    ensures depths { OnOk result (depths.new.items ≡ spec.depths_after scope.now depths.old.items m.now.functions) }
{
    let assertions = judge_assertions(alloc, scope, flags, number, m.assertions.items())?;
    let functions = judge_functions(alloc, scope, flags, depths, m.functions.items())?;
    Ok(earlier(assertions, functions))
}

// What modules break, of which the scope is that of the first.
fn judge_modules(
    alloc: Global,
    scope: &Scope,
    flags: &[bool],
    number: u16,
    depths: &mut Vec<u8>,
    modules: &[Module],
) -> Result<Option<FileViolation>, Memory>
    requires whole { IsWhole scope.now }
    requires flags { flags.now ≡ spec_flags scope.now.names.functions }
    requires fine { AreFine scope.now.cores }
    ensures { IfOk result (λ r. r ≡ first_in_files (spec.modules_broken scope.now.names scope.now.bottom scope.now.top scope.now.number number depths.old.items modules.now)) }
{
    if let [m, modules @ ..] = modules {
        let here = judge_module(alloc, scope, flags, number, depths, m)?;
        let next = Scope {
            names: scope.names,
            module_number: after(scope.module_number),
            cores: scope.cores,
            bottom: scope.bottom,
            top: scope.top,
        };
        let number = counted(number, m.assertions.items().len());
        let others = judge_modules(alloc, &next, flags, number, depths, modules)?;
        let here = in_file(counted(1, scope.module_number as usize), here);
        return Ok(earlier_in_files(here, others));
    }
    Ok(None)
}

// What definitions and modules break, where the scope is that of the first module.
#[tactic(auto, using(crate::proofs::Seen::whole_count))]
fn judge_all(
    alloc: Global,
    scope: &Scope,
    modules: &[Module],
) -> Result<Option<FileViolation>, Memory>
    requires whole { IsWhole scope.now }
    requires first { scope.now.number ≡ 0 }
    requires fine { AreFine scope.now.cores }
    ensures { IfOk result (λ r. r ≡ first_in_files (spec.bodies_broken scope.now.names scope.now.bottom scope.now.top modules.now)) }
{
    if !have_room(scope.names) {
        return Err(Memory);
    }
    let definitions = judge_definitions(alloc, scope)?;
    let flags = all_flags(alloc, scope.names.functions())?;
    let mut depths = Vec::new(alloc);
    let others = judge_modules(alloc, scope, &flags, 0, &mut depths, modules)?;
    Ok(earlier_in_files(definitions, others))
}

/// The first of what the definitions, assertions and functions of an interface break, each in its module's file, where `cores` are the
/// expressions of all definitions, and these levels the least and the greatest.
///
/// # Errors
/// `Memory` where what is around can't be stored.
pub fn judge_bodies(
    alloc: Global,
    scopes: &Scopes,
    bottom: u16,
    top: u16,
    cores: &[Expr],
    modules: &[Module],
) -> Result<Option<FileViolation>, Memory>
    requires cores { cores.now ≡ cores_from scopes.now bottom top [] scopes.now.definitions }
    requires fine { AreFine cores.now }
    ensures { IfOk result (λ r. r ≡ first_in_files (spec.bodies_broken scopes.now bottom top modules.now)) }
{
    let scope = Scope {
        names: scopes,
        module_number: 0,
        cores,
        bottom,
        top,
    };
    judge_all(alloc, &scope, modules)
}
