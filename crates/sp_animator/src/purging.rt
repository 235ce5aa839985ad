ghost use Rattle.std.specs.Prelude.{◌≡◌, ◌<◌, ◌++◌, ◌∷◌, [], IfOk, OnOk, if◌then◌else◌};
ghost use Rattle.std.specs.List.{All};
ghost use Rattle.sp_core.specs.Instances.{IsInstanceOf, filling_of, machine_of};
ghost use Rattle.sp_core.specs.Machine.{IsInvocation};
ghost use Rattle.sp_core.specs.Security as security;
ghost use Rattle.sp_core.specs.Security.{is_seen};

use sp_core::{Instance, Spec};
use sp_eval::level;
use sp_text::Memory;
use sp_values::{Args, Invocation};
use std::alloc::Global;

/// Whether the level of the invocation is at or below this one.
pub fn is_at_or_below(spec: &Spec, inst: &Instance, bound: u16, i: &Invocation) -> bool
    requires instance { IsInstanceOf spec.now inst.now }
    requires invocation { IsInvocation (machine_of spec.now (filling_of inst.now)) i.now }
    requires level { bound < spec.now.lattice.count }
    ensures { result ≡ is_seen (machine_of spec.now (filling_of inst.now)) bound i.now }
{
    spec.lattice().le(level(spec, inst, i), bound)
}

// Appends the invocation where its level is at or below this one.
fn keep(
    spec: &Spec,
    inst: &Instance,
    bound: u16,
    i: &Invocation,
    kept: &mut Vec<Invocation>,
) -> Result<(), Memory>
    requires instance { IsInstanceOf spec.now inst.now }
    requires invocation { IsInvocation (machine_of spec.now (filling_of inst.now)) i.now }
    requires level { bound < spec.now.lattice.count }
    ensures { OnOk result (kept.new.items ≡ kept.old.items ++ (if is_seen (machine_of spec.now (filling_of inst.now)) bound i.now then i.now ∷ [] else [])) }
{
    if is_at_or_below(spec, inst, bound, i) {
        let args = Args::new(i.args.values());
        kept.push(Invocation { fun: i.fun, args })?;
    }
    Ok(())
}

/// The invocations whose level is at or below this one, in order.
///
/// # Errors
/// `Memory` where they can't be listed.
pub fn purge(
    alloc: Global,
    spec: &Spec,
    inst: &Instance,
    bound: u16,
    list: &[Invocation],
) -> Result<Vec<Invocation>, Memory>
    requires instance { IsInstanceOf spec.now inst.now }
    requires invocations { All (IsInvocation (machine_of spec.now (filling_of inst.now))) list.now }
    requires level { bound < spec.now.lattice.count }
    ensures { IfOk result (λ kept. kept.items ≡ security.purge (machine_of spec.now (filling_of inst.now)) bound list.now) }
{
    let mut kept = Vec::new(alloc);
    for i in list {
        keep(spec, inst, bound, i, &mut kept)?;
    }
    Ok(kept)
}
