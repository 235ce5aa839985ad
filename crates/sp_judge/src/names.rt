//! What a name stands for at a place.

ghost use Rattle.std.specs.Prelude.{◌≡◌, ◌+◌, ◌<◌, ◌≤◌, ◌++◌, ◌∷◌, [], length, IfOk, ◌^◌};
ghost use Rattle.sp_judge.specs.Names as spec_names;

use crate::scope::{Meaning, Scope};
use sp_naming::Entity;
use sp_scopes::Local;
use sp_text::{Memory, Name};
use sp_tree::{FormalTree, TypeTree};
use sp_values::Ty;
use std::alloc::Global;

fn find_from(scope: &Scope, from: u32, locals: &[Local], name: &Name) -> Meaning
    requires { from + length locals.now < 2 ^ 32 }
    ensures { result ≡ spec_names.meaning_from scope.now from locals.now name.now }
{
    if let [first, rest @ ..] = locals {
        if first.name == *name {
            return Meaning::Variable(from, first.ty);
        }
        return find_from(scope, from + 1, rest, name);
    }
    scope.find_shared(name)
}

/// What a name stands for where these variables are around.
pub fn find(scope: &Scope, locals: &[Local], name: &Name) -> Meaning
    requires { length locals.now < 2 ^ 32 }
    ensures { result ≡ spec_names.meaning scope.now locals.now name.now }
{
    find_from(scope, 0, locals, name)
}

pub(crate) fn has_local(locals: &[Local], name: &Name) -> bool
    ensures { result ≡ spec_names.is_local locals.now name.now }
{
    if let [first, rest @ ..] = locals {
        if first.name == *name {
            return true;
        }
        return has_local(rest, name);
    }
    false
}

fn declared_type(meaning: Meaning) -> Ty
    ensures { result ≡ spec_names.declared_type meaning }
{
    match meaning {
        Meaning::Shared(Entity::Declared(t)) => Ty::Member(t),
        _ => Ty::Boolean,
    }
}

/// The type that is written.
pub fn type_named(scope: &Scope, ty: &TypeTree) -> Ty
    ensures { result ≡ spec_names.type_of scope.now ty.now }
{
    match ty {
        TypeTree::Boolean(_) => Ty::Boolean,
        TypeTree::Integer(_) => Ty::Integer,
        TypeTree::Level(_) => Ty::Level,
        TypeTree::Named(x) => declared_type(scope.find_shared(&x.name)),
    }
}

/// The variables and one more.
pub fn extend(
    alloc: Global,
    scope: &Scope,
    locals: &[Local],
    formal: &FormalTree,
) -> Result<Vec<Local>, Memory>
    ensures { IfOk result (λ all. all.items ≡ spec_names.with_formal scope.now locals.now formal.now) }
{
    let mut all = copies(alloc, locals)?;
    all.push(Local {
        name: Name::new(alloc, formal.name.name.bytes())?,
        ty: type_named(scope, &formal.ty),
    })?;
    Ok(all)
}

fn copies(alloc: Global, locals: &[Local]) -> Result<Vec<Local>, Memory>
    ensures { IfOk result (λ all. all.items ≡ locals.now) }
{
    let mut all = Vec::new(alloc);
    for local in locals {
        all.push(Local {
            name: Name::new(alloc, local.name.bytes())?,
            ty: local.ty,
        })?;
    }
    Ok(all)
}
