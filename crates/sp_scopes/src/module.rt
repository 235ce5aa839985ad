//! What modules break by their names and headers.

ghost use Rattle.std.specs.Prelude.{◌≡◌, IfOk, option_copied};
ghost use Rattle.std.specs.List.{flat_map};
ghost use Rattle.sp_text.specs.Violations.{first, first_in_files};
ghost use Rattle.sp_scopes.specs.Headers as headers;
ghost use Rattle.sp_scopes.specs.Headers.{see_of};
ghost use Rattle.sp_scopes.specs.Modules as spec_modules;

use crate::headers::header_broken;
use sp_naming::{
    Declaration, Declared, Entity, Names, after, can_be_taken, counted, file_of, taken,
};
use sp_text::{
    FileViolation, MOST_DEFINITIONS, MOST_FUNCTIONS, MOST_LEVELS, MOST_MEMBERS, MOST_PARAMETERS,
    MOST_TYPES, Memory, Quantity, Rule, Sequence, Span, Violation, breaks, earlier,
    earlier_in_files, exceeds, in_file,
};
use sp_tree::{ExprTree, FunDecl, Header, Ident, Module};
use sqlite_items::at;
use std::alloc::Global;

// The module's own name, where MODULES has this one for it.
fn own_name(given: Option<&Ident>, own: &Ident) -> Option<Violation>
    ensures { result ≡ first (spec_modules.own_name (option_copied given.entry) own.now) }
{
    match given {
        None => None,
        Some(given) => {
            if given.name == own.name {
                None
            } else {
                breaks(own.span, Rule::WrongName)
            }
        }
    }
}

fn external_rule(file: u16, span: Span, found: Option<&Declaration>) -> Option<Violation>
    ensures { result ≡ first (spec_modules.external_rule file span (option_copied found.entry)) }
{
    match found {
        None => breaks(span, Rule::UnknownName),
        Some(d) => {
            if d.file != file {
                return breaks(span, Rule::UnknownName);
            }
            if can_be_taken(d.entity) {
                return None;
            }
            breaks(span, Rule::WrongKind)
        }
    }
}

fn names_rule(declared: &Declared, file: u16, names: &[Ident]) -> Option<Violation>
    ensures { result ≡ first (flat_map (spec_modules.name_rule declared.now file) names.now) }
{
    let mut found = None;
    for x in names {
        found = earlier(
            found,
            external_rule(file, x.span, declared.named(x.name.bytes())),
        );
    }
    found
}

fn row_broken(
    declared: &Declared,
    modules: &[Ident],
    row: &(Ident, Sequence<Ident>),
) -> Option<Violation>
    ensures { result ≡ first (spec_modules.row_broken declared.now modules.now row.now) }
{
    match file_of(modules, &row.0.name) {
        None => breaks(row.0.span, Rule::UnknownName),
        Some(file) => names_rule(declared, file, row.1.items()),
    }
}

fn externals_broken(
    declared: &Declared,
    modules: &[Ident],
    externals: &[(Ident, Sequence<Ident>)],
) -> Option<Violation>
    ensures { result ≡ first (flat_map (spec_modules.row_broken declared.now modules.now) externals.now) }
{
    let mut found = None;
    for row in externals {
        found = earlier(found, row_broken(declared, modules, row));
    }
    found
}

fn parameters_broken(
    alloc: Global,
    declared: &Declared,
    k: u16,
    names: &Names,
    parameters: &[Header],
) -> Result<Option<Violation>, Memory>
    ensures { IfOk result (λ found. found ≡ first (flat_map (headers.header_broken (see_of declared.now k names.now)) parameters.now)) }
{
    let mut found = None;
    for head in parameters {
        found = earlier(found, header_broken(alloc, declared, k, names, head)?);
    }
    Ok(found)
}

fn definitions_broken(
    alloc: Global,
    declared: &Declared,
    k: u16,
    names: &Names,
    definitions: &[(Header, ExprTree)],
) -> Result<Option<Violation>, Memory>
    ensures { IfOk result (λ found. found ≡ first (flat_map (spec_modules.definition_broken (see_of declared.now k names.now)) definitions.now)) }
{
    let mut found = None;
    for definition in definitions {
        found = earlier(
            found,
            header_broken(alloc, declared, k, names, &definition.0)?,
        );
    }
    Ok(found)
}

fn functions_broken(
    alloc: Global,
    declared: &Declared,
    k: u16,
    names: &Names,
    functions: &[FunDecl],
) -> Result<Option<Violation>, Memory>
    ensures { IfOk result (λ found. found ≡ first (flat_map (spec_modules.function_broken (see_of declared.now k names.now)) functions.now)) }
{
    let mut found = None;
    for function in functions {
        found = earlier(
            found,
            header_broken(alloc, declared, k, names, &function.head)?,
        );
    }
    Ok(found)
}

fn headers_broken(
    alloc: Global,
    declared: &Declared,
    k: u16,
    names: &Names,
    text: &Module,
) -> Result<Option<Violation>, Memory>
    ensures { IfOk result (λ found. found ≡ first (spec_modules.headers_broken (see_of declared.now k names.now) text.now)) }
{
    let parameters = parameters_broken(alloc, declared, k, names, text.parameters.items())?;
    let definitions = definitions_broken(alloc, declared, k, names, text.definitions.items())?;
    let functions = functions_broken(alloc, declared, k, names, text.functions.items())?;
    Ok(earlier(parameters, earlier(definitions, functions)))
}

fn module_broken(
    alloc: Global,
    declared: &Declared,
    modules: &[Ident],
    k: u16,
    text: &Module,
) -> Result<Option<Violation>, Memory>
    ensures { IfOk result (λ found. found ≡ first (spec_modules.module_broken declared.now modules.now k text.now)) }
{
    let own = own_name(at(modules, k as usize), &text.name);
    let externals = externals_broken(declared, modules, text.externals.items());
    let names = taken(alloc, declared, modules, text.externals.items())?;
    let headers = headers_broken(alloc, declared, k, &names, text)?;
    Ok(earlier(own, earlier(externals, headers)))
}

// A limit that the declaration is the first to exceed.
fn over(span: Span, entity: Entity) -> Option<Violation>
    ensures { result ≡ first (spec_modules.over span entity) }
{
    match entity {
        Entity::Declared(k) => exceeds_at(k, MOST_TYPES, span, Quantity::Types),
        Entity::Member(_, k) => exceeds_at(k, MOST_MEMBERS, span, Quantity::Members),
        Entity::Param(k) => exceeds_at(k, MOST_PARAMETERS, span, Quantity::Parameters),
        Entity::Definition(k) => exceeds_at(k, MOST_DEFINITIONS, span, Quantity::Definitions),
        Entity::Function(k) => exceeds_at(k, MOST_FUNCTIONS, span, Quantity::Functions),
        Entity::Level(k) => exceeds_at(k, MOST_LEVELS, span, Quantity::Levels),
    }
}

fn exceeds_at(number: u16, most: u32, span: Span, quantity: Quantity) -> Option<Violation>
    ensures { result ≡ first (spec_modules.exceeds_at number most span quantity) }
{
    if number as u32 == most {
        exceeds(span, quantity)
    } else {
        None
    }
}

/// The first limit that declarations exceed.
pub fn limits_broken(all: &[Declaration]) -> Option<FileViolation>
    ensures { result ≡ first_in_files (spec_modules.limits_broken all.now) }
{
    let mut found = None;
    for d in all {
        found = earlier_in_files(found, in_file(d.file, over(d.span, d.entity)));
    }
    found
}

/// The first of what the modules break, each in its own file.
pub fn modules_broken(
    alloc: Global,
    declared: &Declared,
    names: &[Ident],
    modules: &[Module],
) -> Result<Option<FileViolation>, Memory>
    ensures { IfOk result (λ found. found ≡ first_in_files (spec_modules.modules_broken declared.now names.now modules.now)) }
{
    let mut found = None;
    let mut number = 0;
    for text in modules {
        let here = module_broken(alloc, declared, names, number, text)?;
        found = earlier_in_files(found, in_file(counted(1, number as usize), here));
        number = after(number);
    }
    Ok(found)
}
