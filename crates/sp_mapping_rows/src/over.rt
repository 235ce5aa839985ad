//! Upper types and formals over lower types.

ghost use Rattle.std.specs.Prelude.{◌≡◌, ◌++◌, IfOk, OnOk, map, slice_index_or};
ghost use Rattle.sp_functions.specs.Assertions.{formal_of};
ghost use Rattle.sp_mapping_rules.specs.Levels as levels_spec;
ghost use Rattle.sp_mapping_rules.specs.Rows as spec;

use sp_core::Formal;
use sp_scopes::Local;
use sp_text::{Memory, Name, Sequence};
use sp_tree::Ident;
use sp_values::{Ty, Value};
use sqlite_items::at;
use std::alloc::Global;

#[tactic(auto, using(crate::proofs::Lists::index_none, crate::proofs::Lists::index_some))]
fn number_at(types: &[u16], k: u16) -> u16
    ensures { result ≡ slice_index_or types.now k 0 }
{
    match at(types, k as usize) {
        None => 0,
        Some(number) => *number,
    }
}

/// The lower type that an upper one becomes.
pub fn type_over(types: &[u16], ty: Ty) -> Ty
    ensures { result ≡ levels_spec.type_over types.now ty }
{
    match ty {
        Ty::Boolean => Ty::Boolean,
        Ty::Integer => Ty::Integer,
        Ty::Level => Ty::Level,
        Ty::Member(k) => Ty::Member(number_at(types, k)),
    }
}

/// The lower value that an upper one becomes.
pub fn value_over(types: &[u16], value: Value) -> Value
    ensures { result ≡ levels_spec.value_over types.now value }
{
    match value {
        Value::Truth(b) => Value::Truth(b),
        Value::Int(n) => Value::Int(n),
        Value::Level(l) => Value::Level(l),
        Value::Member(k, m) => Value::Member(number_at(types, k), m),
        Value::Unknown => Value::Unknown,
    }
}

fn with_type(alloc: Global, types: &[u16], name: &Ident, formal: &Formal) -> Result<Local, Memory>
    ensures { IfOk result (λ l. l ≡ spec.with_type types.now name.now formal.now) }
{
    Ok(Local {
        name: Name::new(alloc, name.name.bytes())?,
        ty: type_over(types, formal.ty),
    })
}

fn push_types(
    alloc: Global,
    all: &mut Vec<Local>,
    types: &[u16],
    names: &[Ident],
    formals: &[Formal],
) -> Result<(), Memory>
    ensures { OnOk result (all.new.items ≡ all.old.items ++ spec.with_types types.now names.now formals.now) }
{
    if let [name, names @ ..] = names {
        if let [formal, formals @ ..] = formals {
            all.push(with_type(alloc, types, name, formal)?)?;
            return push_types(alloc, all, types, names, formals);
        }
    }
    Ok(())
}

/// The names with the types of the upper formals, as many as there are of both.
///
/// # Errors
/// `Memory` where they can't be stored.
pub fn with_types(
    alloc: Global,
    types: &[u16],
    names: &[Ident],
    formals: &[Formal],
) -> Result<Vec<Local>, Memory>
    ensures { IfOk result (λ all. all.items ≡ spec.with_types types.now names.now formals.now) }
{
    let mut all = Vec::new(alloc);
    push_types(alloc, &mut all, types, names, formals)?;
    Ok(all)
}

fn formal(alloc: Global, local: &Local) -> Result<Formal, Memory>
    ensures { IfOk result (λ f. f ≡ formal_of local.now) }
{
    Ok(Formal {
        name: Name::new(alloc, local.name.bytes())?,
        ty: local.ty,
    })
}

/// The formals of core for variables.
///
/// # Errors
/// `Memory` where they can't be stored.
pub fn formals(alloc: Global, locals: &[Local]) -> Result<Sequence<Formal>, Memory>
    ensures { IfOk result (λ all. all ≡ map formal_of locals.now) }
{
    let mut all = Vec::new(alloc);
    for local in locals {
        all.push(formal(alloc, local)?)?;
    }
    Ok(Sequence::new(all))
}
