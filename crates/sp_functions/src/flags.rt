//! Which V-functions may not be read at a place.

ghost use Rattle.std.specs.Prelude.{◌≡◌, ◌&&◌, IfOk, not, nat_lt};
ghost use Rattle.sp_functions.specs.Judged as spec;

use sp_scopes::{Head, Sort};
use sp_text::Memory;
use std::alloc::Global;

/// All of them.
///
/// # Errors
/// `Memory` where the flags can't be stored.
pub fn all_flags(alloc: Global, heads: &[Head]) -> Result<Vec<bool>, Memory>
    ensures { IfOk result (λ all. all.items ≡ spec.all_flags heads.now) }
{
    Ok(vec![in alloc; true; heads.len()]?)
}

fn is_derived(sort: Sort) -> bool
    ensures { result ≡ spec.is_derived sort }
{
    match sort {
        Sort::Derived(_) => true,
        Sort::Plain(_) => false,
        Sort::Primitive(_) => false,
        Sort::Operation => false,
        Sort::Both(_) => false,
    }
}

// Whether it is a derived function from number `g` on; its own is `k`.
fn is_later(g: u16, k: usize, head: &Head) -> bool
    ensures { result ≡ (spec.is_derived head.now.sort && not (nat_lt k g)) }
{
    is_derived(head.sort) && k >= g as usize
}

/// The derived functions from number `g` on.
///
/// # Errors
/// `Memory` where the flags can't be stored.
#[tactic(auto, using(crate::proofs::Made::later_next))]
pub fn later_flags(alloc: Global, g: u16, heads: &[Head]) -> Result<Vec<bool>, Memory>
    ensures { IfOk result (λ all. all.items ≡ spec.later_flags g 0 heads.now) }
{
    let mut all = Vec::new(alloc);
    let mut k = 0;
    for head in heads {
        all.push(is_later(g, k, head))?;
        k += 1;
    }
    Ok(all)
}
