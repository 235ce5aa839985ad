//! What headers break.

ghost use Rattle.std.specs.Prelude.{◌≡◌, IfOk, option_copied};
ghost use Rattle.std.specs.List.{flat_map};
ghost use Rattle.sp_text.specs.Violations.{first};
ghost use Rattle.sp_naming.specs.Names.{named};
ghost use Rattle.sp_naming.specs.Visibility.{seen as spec_seen};
ghost use Rattle.sp_scopes.specs.Headers as spec_headers;
ghost use Rattle.sp_scopes.specs.Headers.{formal_type, names_of, see_of};

use sp_naming::{Declaration, Declared, Entity, Names, first_repeated, seen};
use sp_text::{
    MOST_ARGUMENTS, Memory, Name, Quantity, Rule, Span, Violation, breaks, earlier, exceeds,
};
use sp_tree::{FormalTree, Header, Ident, TypeTree};
use sqlite_items::at;
use std::alloc::Global;

fn is_type(entity: Entity) -> bool
    ensures { result ≡ spec_headers.is_type entity }
{
    matches!(entity, Entity::Declared(_))
}

fn asked_type(span: Span, found: Option<&Declaration>) -> Option<Violation>
    ensures { result ≡ first (spec_headers.asked spec_headers.is_type span (option_copied found.entry)) }
{
    match found {
        None => breaks(span, Rule::UnknownName),
        Some(d) => {
            if is_type(d.entity) {
                None
            } else {
                breaks(span, Rule::WrongKind)
            }
        }
    }
}

fn type_rule(declared: &Declared, k: u16, names: &Names, ty: &TypeTree) -> Option<Violation>
    ensures { result ≡ first (spec_headers.type_rule (see_of declared.now k names.now) ty.now) }
{
    match ty {
        TypeTree::Boolean(_) => None,
        TypeTree::Integer(_) => None,
        TypeTree::Level(_) => None,
        TypeTree::Named(x) => asked_type(x.span, seen(declared, k, names, x.name.bytes())),
    }
}

fn types_rule(
    declared: &Declared,
    k: u16,
    names: &Names,
    formals: &[FormalTree],
) -> Option<Violation>
    ensures { result ≡ first (flat_map (formal_type (see_of declared.now k names.now)) formals.now) }
{
    let mut found = None;
    for formal in formals {
        found = earlier(found, type_rule(declared, k, names, &formal.ty));
    }
    found
}

/// The first of the names over the greatest number.
pub fn past(most: usize, quantity: Quantity, names: &[Ident]) -> Option<Violation>
    ensures { result ≡ first (spec_headers.past most quantity names.now) }
{
    match at(names, most) {
        None => None,
        Some(x) => exceeds(x.span, quantity),
    }
}

// The names of formals.
fn idents(alloc: Global, formals: &[FormalTree]) -> Result<Vec<Ident>, Memory>
    ensures { IfOk result (λ names. names.items ≡ names_of formals.now) }
{
    let mut names = Vec::new(alloc);
    for formal in formals {
        names.push(Ident {
            name: Name::new(alloc, formal.name.name.bytes())?,
            span: formal.name.span,
        })?;
    }
    Ok(names)
}

fn formals_broken(
    alloc: Global,
    declared: &Declared,
    k: u16,
    names: &Names,
    formals: &[FormalTree],
) -> Result<Option<Violation>, Memory>
    ensures { IfOk result (λ found. found ≡ first (spec_headers.formals_broken (see_of declared.now k names.now) formals.now)) }
{
    let types = types_rule(declared, k, names, formals);
    let own = idents(alloc, formals)?;
    let twice = first_repeated(alloc, &own)?;
    let many = past(MOST_ARGUMENTS as usize, Quantity::Arguments, &own);
    Ok(earlier(types, earlier(twice, many)))
}

fn result_broken(
    declared: &Declared,
    k: u16,
    names: &Names,
    ty: &Option<TypeTree>,
) -> Option<Violation>
    ensures { result ≡ first (spec_headers.result_broken (see_of declared.now k names.now) ty.now) }
{
    match ty {
        None => None,
        Some(ty) => type_rule(declared, k, names, ty),
    }
}

/// The first of what a header breaks, in module `k`, which takes these names.
pub fn header_broken(
    alloc: Global,
    declared: &Declared,
    k: u16,
    names: &Names,
    header: &Header,
) -> Result<Option<Violation>, Memory>
    ensures { IfOk result (λ found. found ≡ first (spec_headers.header_broken (see_of declared.now k names.now) header.now)) }
{
    let formals = formals_broken(alloc, declared, k, names, header.formals.items())?;
    Ok(earlier(formals, result_broken(declared, k, names, &header.ty)))
}
