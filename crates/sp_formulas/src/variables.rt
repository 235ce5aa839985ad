//! The variables of a formula.

ghost use Rattle.std.specs.Prelude.{◌≡◌, ◌++◌, ◌∷◌, [], ◌+◌, ◌<◌, ◌≤◌, ◌^◌, pos, length, IfOk, OnOk};
ghost use Rattle.std.specs.Fmt.{decimal};
ghost use Rattle.sp_core.specs.Machine.{types_of};
ghost use Rattle.sp_formulas.specs.Formulas.{bound_from};

use sp_core::Formal;
use sp_text::{Memory, Name, Sequence, push_number};
use sp_values::Ty;
use std::alloc::Global;

/// The types of formals, and behind them these.
///
/// # Errors
/// `Memory` where they can't be stored.
pub fn types_over(alloc: Global, formals: &[Formal], bound: &[Ty]) -> Result<Vec<Ty>, Memory>
    ensures { IfOk result (λ v. v.items ≡ types_of formals.now ++ bound.now) }
{
    let mut all = Vec::new(alloc);
    for formal in formals {
        all.push(formal.ty)?;
    }
    all.extend_from_slice(bound)?;
    Ok(all)
}

fn push_formals(alloc: Global, formals: &[Formal], out: &mut Vec<Formal>) -> Result<(), Memory>
    ensures { OnOk result (out.new.items ≡ out.old.items ++ formals.now) }
{
    for formal in formals {
        out.push(Formal {
            name: Name::new(alloc, formal.name.bytes())?,
            ty: formal.ty,
        })?;
    }
    Ok(())
}

/// Bound variable number k, which is called `#k`.
fn bound_formal(alloc: Global, k: usize, ty: Ty) -> Result<Formal, Memory>
    requires { k < 2 ^ 31 }
    ensures { IfOk result (λ f. f ≡ record { name = 35 ∷ decimal k; ty = ty }) }
{
    let mut name = Vec::new(alloc);
    name.push(b'#')?;
    push_number(alloc, &mut name, k as i64)?;
    Ok(Formal {
        name: Name::new(alloc, &name)?,
        ty,
    })
}

fn push_bound(alloc: Global, from: usize, bound: &[Ty], out: &mut Vec<Formal>) -> Result<(), Memory>
    requires { from + length bound.now < 2 ^ 31 }
    ensures { OnOk result (out.new.items ≡ out.old.items ++ bound_from from bound.now) }
{
    for k in 0..bound.len() {
        let formal = bound_formal(alloc, from + k, bound[k])?;
        out.push(formal)?;
    }
    Ok(())
}

/// The formals, and behind them variables of these types.
///
/// # Errors
/// `Memory` where they can't be stored.
pub fn variables(
    alloc: Global,
    formals: &[Formal],
    bound: &[Ty],
) -> Result<Sequence<Formal>, Memory>
    requires { length formals.now + length bound.now < 2 ^ 31 }
    ensures { IfOk result (λ v. v ≡ formals.now ++ bound_from (length formals.now) bound.now) }
{
    let mut all = Vec::new(alloc);
    push_formals(alloc, formals, &mut all)?;
    push_bound(alloc, formals.len(), bound, &mut all)?;
    Ok(Sequence::new(all))
}
