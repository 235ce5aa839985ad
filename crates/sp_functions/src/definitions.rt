//! The definitions of an interface.

ghost use Rattle.std.specs.Prelude.{◌≡◌, ◌≤◌, IfOk, length};
ghost use Rattle.std.specs.List.{All};
ghost use Rattle.sp_text.specs.Violations.{first, first_in_files};
ghost use Rattle.sp_judge.specs.Names as spec_names;
ghost use Rattle.sp_judge.specs.Translation.{AreFine};
ghost use Rattle.sp_definitions.specs.Definitions.{HasRoom};
ghost use Rattle.sp_functions.specs.DefinitionTexts as spec;
ghost use Rattle.sp_functions.specs.DefinitionTexts.{definition_broken};

use crate::judging::judge_alone;
use sp_judge::Scope;
use sp_naming::counted;
use sp_scopes::{Definition, Sort};
use sp_text::{FileViolation, Memory, Violation, earlier_in_files, in_file};
use sp_values::Ty;
use std::alloc::Global;

fn type_of(sort: Sort) -> Option<Ty>
    ensures { result ≡ spec_names.sort_type sort }
{
    match sort {
        Sort::Plain(ty) => Some(ty),
        Sort::Primitive(ty) => Some(ty),
        Sort::Derived(ty) => Some(ty),
        Sort::Operation => None,
        Sort::Both(_) => None,
    }
}

#[tactic(auto, using(crate::proofs::Defining::fine_front))]
fn judge_definition(
    alloc: Global,
    scope: &Scope,
    k: usize,
    definition: &Definition,
) -> Result<Option<Violation>, Memory>
    requires number { k ≤ length scope.now.cores }
    requires fine { AreFine scope.now.cores }
    requires room { HasRoom definition.now }
    ensures { IfOk result (λ r. r ≡ first (definition_broken scope.now k definition.now)) }
{
    let inner = Scope {
        names: scope.names,
        module_number: definition.module_number,
        cores: &scope.cores[..k],
        bottom: scope.bottom,
        top: scope.top,
    };
    let formals = definition.head.formals.items();
    let asked = type_of(definition.head.sort);
    judge_alone(alloc, &inner, formals, asked, &definition.text)
}

#[tactic(auto, using(crate::proofs::Defining::room_at))]
fn judge_each(
    alloc: Global,
    scope: &Scope,
    definitions: &[Definition],
) -> Result<Option<FileViolation>, Memory>
    requires cores { length scope.now.cores ≡ length definitions.now }
    requires fine { AreFine scope.now.cores }
    requires room { All HasRoom definitions.now }
    ensures { IfOk result (λ r. r ≡ first_in_files (spec.definitions_broken scope.now 0 definitions.now)) }
{
    let mut found = None;
    let mut k = 0;
    for definition in definitions {
        let here = judge_definition(alloc, scope, k, definition)?;
        found = earlier_in_files(
            found,
            in_file(counted(1, definition.module_number as usize), here),
        );
        k += 1;
    }
    Ok(found)
}

/// The first of what the definitions of an interface break, each in its module's file, where the scope has the expressions of all.
///
/// # Errors
/// `Memory` where what is around can't be stored.
pub fn judge_definitions(alloc: Global, scope: &Scope) -> Result<Option<FileViolation>, Memory>
    requires cores { length scope.now.cores ≡ length scope.now.names.definitions }
    requires fine { AreFine scope.now.cores }
    requires room { All HasRoom scope.now.names.definitions }
    ensures { IfOk result (λ r. r ≡ first_in_files (spec.definitions_broken scope.now 0 scope.now.names.definitions)) }
{
    judge_each(alloc, scope, scope.names.definitions())
}
