ghost use Rattle.std.specs.Prelude.{◌≡◌, [], IfOk};

use sp_core::Spec;
use sp_examples::{low_high, two_names};
use sp_sequent::Formula;
use sp_text::{Memory, Name};
use sp_unwinding::accept;
use std::alloc::Global;
use std::test::Fail;

/// A specification over two levels that does nothing, and so has no flow formulas.
fn silent(alloc: Global) -> Result<Spec, Memory>
    ensures { IfOk result (λ spec. spec.functions ≡ []) }
{
    let name = Name::new(alloc, b"silent")?;
    let lattice = low_high(alloc)?;
    let levels = two_names(alloc, b"LOW", b"HIGH")?;
    let types = Vec::new(alloc);
    let params = Vec::new(alloc);
    let assertions = Vec::new(alloc);
    let functions = Vec::new(alloc);
    Ok(Spec::assemble(name, lattice, levels, types, params, assertions, functions))
}

#[test]
fn what_does_nothing_is_accepted(rt: HostRuntime) -> Result<(), Fail> {
    let spec = silent(rt.alloc())?;
    let none: Vec<Formula> = Vec::new(rt.alloc());
    let accepted = accept(spec, &none);
    assert_eq!(rt; accepted.spec().name().bytes(), b"silent".as_slice());
    Ok(())
}
