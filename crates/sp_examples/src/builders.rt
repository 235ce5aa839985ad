//! Parts of worked specifications, for tests alone.

ghost use Rattle.std.specs.Prelude.{◌≡◌, [], ◌∷◌, IfOk};
ghost use Rattle.sp_values.specs.declared.value.Ty.TheVariants as ty;
ghost use Rattle.sp_lattice.specs.Order.{IsLatticeOrder};
ghost use Rattle.sp_examples.specs.Common.{IsLowHigh, designator, function, look_at};

use sp_core::{Expr, Formal, Function, Kind, Param, TypeInfo};
use sp_lattice::{Lattice, LatticeDecl};
use sp_text::{Memory, Name, Sequence};
use sp_values::Ty;
use sqlite_items::Items;
use std::alloc::Global;

/// Two levels, of which the first is below the second.
///
/// # Errors
/// `Memory` where there is no room for it; so of each builder.
pub fn low_high(alloc: Global) -> Result<Lattice, Memory>
    ensures order { IfOk result IsLowHigh }
    ensures lattice { IfOk result IsLatticeOrder }
{
    let below = Sequence::new(vec![in alloc; (0, 1)]?);
    Lattice::declare(alloc, &LatticeDecl { count: 2, below }).map_err(|_| Memory)
}

/// A list of two names.
pub fn two_names(alloc: Global, first: &[u8], second: &[u8]) -> Result<Vec<Name>, Memory>
    ensures { IfOk result (λ names. names.items ≡ first.now ∷ second.now ∷ []) }
{
    let mut names = Vec::new(alloc);
    names.push(Name::new(alloc, first)?)?;
    names.push(Name::new(alloc, second)?)?;
    Ok(names)
}

/// A formal.
pub fn formal(alloc: Global, name: &[u8], ty: Ty) -> Result<Formal, Memory>
    ensures { IfOk result (λ f. f ≡ record { name = name.now; ty = ty }) }
{
    Ok(Formal {
        name: Name::new(alloc, name)?,
        ty,
    })
}

/// A list of one formal.
pub fn one_formal(alloc: Global, name: &[u8], ty: Ty) -> Result<Sequence<Formal>, Memory>
    ensures { IfOk result (λ formals. formals ≡ record { name = name.now; ty = ty } ∷ []) }
{
    let mut formals = Vec::new(alloc);
    formals.push(formal(alloc, name, ty)?)?;
    Ok(Sequence::new(formals))
}

/// A designator type.
pub fn designator(alloc: Global, name: &[u8]) -> Result<TypeInfo, Memory>
    ensures { IfOk result (λ info. info ≡ designator name.now) }
{
    Ok(TypeInfo {
        name: Name::new(alloc, name)?,
        members: None,
    })
}

/// A parameter that gives levels.
pub fn level_param(alloc: Global, name: &[u8], formals: Sequence<Formal>) -> Result<Param, Memory>
    ensures { IfOk result (λ param. param ≡ record { name = name.now; formals = formals; ty = ty.Level }) }
{
    Ok(Param {
        name: Name::new(alloc, name)?,
        formals,
        ty: Ty::Level,
    })
}

/// A visible function without exceptions.
pub fn function(
    alloc: Global,
    name: &[u8],
    formals: Sequence<Formal>,
    kind: Kind,
    level: Expr,
) -> Result<Function, Memory>
    ensures { IfOk result (λ f. f ≡ function name.now formals kind level) }
{
    Ok(Function {
        name: Name::new(alloc, name)?,
        visible: true,
        formals,
        exceptions: Sequence::new(Vec::new(alloc)),
        kind,
        level,
    })
}

/// A function's value at no arguments.
pub fn look_at(alloc: Global, g: u16) -> Expr
    ensures { result ≡ look_at g }
{
    Expr::Look(g, Items::new(alloc))
}
