//! Copies of functions and of their parts, equal to what they copy.

ghost use Rattle.std.specs.Prelude.{◌≡◌, IfOk};

use crate::expr::{Expr, copy_all};
use crate::function::{Effect, Formal, Function, Kind};
use sp_text::{Memory, Name, Sequence};
use sqlite_items::Items;
use std::alloc::Global;

impl Effect {
    #[cycle(effects)]
    fn copy(&self, alloc: Global) -> Result<Effect, Memory>
        ensures { IfOk result (λ e. e ≡ self.now) }
    {
        Ok(match self {
            Effect::Change(g, args, value) => {
                Effect::Change(*g, copy_all(alloc, args)?, value.copy(alloc)?)
            }
            Effect::Answer(value) => Effect::Answer(value.copy(alloc)?),
            Effect::If(c, a, b) => Effect::If(
                c.copy(alloc)?,
                copy_effects(alloc, a)?,
                copy_effects(alloc, b)?,
            ),
            Effect::Every(k, ty, effects) => Effect::Every(*k, *ty, copy_effects(alloc, effects)?),
        })
    }
}

#[cycle(effects)]
fn copy_effects(alloc: Global, effects: &Items<Effect>) -> Result<Items<Effect>, Memory>
    ensures { IfOk result (λ all. all ≡ effects.now) }
{
    let mut all = Items::new(alloc);
    for effect in effects.as_slice() {
        all.push(effect.copy(alloc)?)?;
    }
    Ok(all)
}

fn copy_kind(alloc: Global, kind: &Kind) -> Result<Kind, Memory>
    ensures { IfOk result (λ k. k ≡ kind.now) }
{
    Ok(match kind {
        Kind::Primitive(ty, initial) => Kind::Primitive(*ty, initial.copy(alloc)?),
        Kind::Derived(ty, derivation) => Kind::Derived(*ty, derivation.copy(alloc)?),
        Kind::Operation(effects) => Kind::Operation(copy_effects(alloc, effects)?),
        Kind::Both(ty, effects) => Kind::Both(*ty, copy_effects(alloc, effects)?),
    })
}

fn copy_formals(alloc: Global, formals: &Sequence<Formal>) -> Result<Sequence<Formal>, Memory>
    ensures { IfOk result (λ all. all ≡ formals.now) }
{
    let mut all = Vec::new(alloc);
    for formal in formals.items() {
        all.push(Formal {
            name: Name::new(alloc, formal.name.bytes())?,
            ty: formal.ty,
        })?;
    }
    Ok(Sequence::new(all))
}

fn copy_exceptions(
    alloc: Global,
    exceptions: &Sequence<(Name, Expr)>,
) -> Result<Sequence<(Name, Expr)>, Memory>
    ensures { IfOk result (λ all. all ≡ exceptions.now) }
{
    let mut all = Vec::new(alloc);
    for (name, condition) in exceptions.items() {
        all.push((Name::new(alloc, name.bytes())?, condition.copy(alloc)?))?;
    }
    Ok(Sequence::new(all))
}

impl Function {
    /// An equal function.
    ///
    /// # Errors
    /// `Memory` where it can't be copied.
    pub fn copy(&self, alloc: Global) -> Result<Function, Memory>
        ensures { IfOk result (λ f. f ≡ self.now) }
    {
        Ok(Function {
            name: Name::new(alloc, self.name.bytes())?,
            visible: self.visible,
            formals: copy_formals(alloc, &self.formals)?,
            exceptions: copy_exceptions(alloc, &self.exceptions)?,
            kind: copy_kind(alloc, &self.kind)?,
            level: self.level.copy(alloc)?,
        })
    }
}
