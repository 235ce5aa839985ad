//! The declared types and the parameters of a specification.

ghost use Rattle.std.specs.Prelude.{◌≡◌, IfOk, map};
ghost use Rattle.sp_specification.specs.Functions as spec_functions;
ghost use Rattle.sp_specification.specs.Meaning.{param_of, type_info};

use crate::lists::{copies, formals};
use sp_core::{Param, TypeInfo};
use sp_scopes::{DeclaredType, Head, Sort};
use sp_text::{Memory, Name, Sequence};
use sp_values::Ty;
use std::alloc::Global;

fn members(alloc: Global, names: &Option<Sequence<Name>>) -> Result<Option<Sequence<Name>>, Memory>
    ensures { IfOk result (λ all. all ≡ names.now) }
{
    match names {
        None => Ok(None),
        Some(names) => Ok(Some(copies(alloc, names.items())?)),
    }
}

fn make_type(alloc: Global, declared: &DeclaredType) -> Result<TypeInfo, Memory>
    ensures { IfOk result (λ t. t ≡ type_info declared.now) }
{
    Ok(TypeInfo {
        name: Name::new(alloc, declared.name.bytes())?,
        members: members(alloc, &declared.members)?,
    })
}

/// The declared types.
///
/// # Errors
/// `Memory` where they can't be stored.
pub fn make_types(alloc: Global, types: &[DeclaredType]) -> Result<Vec<TypeInfo>, Memory>
    ensures { IfOk result (λ all. all.items ≡ map type_info types.now) }
{
    let mut all = Vec::new(alloc);
    for declared in types {
        all.push(make_type(alloc, declared)?)?;
    }
    Ok(all)
}

fn head_type(sort: Sort) -> Ty
    ensures { result ≡ spec_functions.head_type sort }
{
    match sort {
        Sort::Plain(ty) => ty,
        Sort::Primitive(ty) => ty,
        Sort::Derived(ty) => ty,
        Sort::Operation => Ty::Boolean,
        Sort::Both(ty) => ty,
    }
}

fn make_param(alloc: Global, head: &Head) -> Result<Param, Memory>
    ensures { IfOk result (λ p. p ≡ param_of head.now) }
{
    Ok(Param {
        name: Name::new(alloc, head.name.bytes())?,
        formals: formals(alloc, head.formals.items())?,
        ty: head_type(head.sort),
    })
}

/// The parameters with these heads.
///
/// # Errors
/// `Memory` where they can't be stored.
pub fn make_params(alloc: Global, heads: &[Head]) -> Result<Vec<Param>, Memory>
    ensures { IfOk result (λ all. all.items ≡ map param_of heads.now) }
{
    let mut all = Vec::new(alloc);
    for head in heads {
        all.push(make_param(alloc, head)?)?;
    }
    Ok(all)
}
