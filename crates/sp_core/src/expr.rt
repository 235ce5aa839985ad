ghost use Rattle.std.specs.Prelude.{◌≡◌, IfOk};

use sp_text::Memory;
use sp_values::{Op, Ty, Value};
use sqlite_items::{Boxed, Items};
use std::alloc::Global;

/// A typed expression. `Var(k)` is the k-th value of the environment, which holds the arguments and then the bound
/// variables from the outermost.
#[derive(Debug, Drop)]
pub enum Expr {
    Const(Value),
    Var(u32),
    Not(Boxed<Expr>),
    Two(Op, Boxed<Expr>, Boxed<Expr>),
    /// The second part where the first is TRUE, else the third.
    If(Boxed<Expr>, Boxed<Expr>, Boxed<Expr>),
    /// A parameter, by its number, at arguments.
    Param(u16, Items<Expr>),
    /// A V-function, by its number, at arguments.
    Look(u16, Items<Expr>),
    /// Whether the part is TRUE for each proper value of the type, put as the k-th after the first k values.
    Every(u32, Ty, Boxed<Expr>),
    /// The new value of a primitive V-function at arguments. It stands in the arguments and the value of a change and in
    /// the value of a result alone.
    New(u16, Items<Expr>),
}

impl Expr {
    /// An equal expression.
    ///
    /// # Errors
    /// `Memory` where it can't be copied.
    #[cycle(copy)]
    pub fn copy(&self, alloc: Global) -> Result<Expr, Memory>
        ensures { IfOk result (λ e. e ≡ self.now) }
    {
        Ok(match self {
            Expr::Const(value) => Expr::Const(*value),
            Expr::Var(at) => Expr::Var(*at),
            Expr::Not(a) => Expr::Not(copy_boxed(alloc, a)?),
            Expr::Two(op, a, b) => Expr::Two(*op, copy_boxed(alloc, a)?, copy_boxed(alloc, b)?),
            Expr::If(c, a, b) => Expr::If(
                copy_boxed(alloc, c)?,
                copy_boxed(alloc, a)?,
                copy_boxed(alloc, b)?,
            ),
            Expr::Param(p, parts) => Expr::Param(*p, copy_all(alloc, parts)?),
            Expr::Look(g, parts) => Expr::Look(*g, copy_all(alloc, parts)?),
            Expr::Every(k, ty, a) => Expr::Every(*k, *ty, copy_boxed(alloc, a)?),
            Expr::New(g, parts) => Expr::New(*g, copy_all(alloc, parts)?),
        })
    }
}

#[cycle(copy)]
fn copy_boxed(alloc: Global, e: &Boxed<Expr>) -> Result<Boxed<Expr>, Memory>
    ensures { IfOk result (λ b. b ≡ e.now) }
{
    Ok(Boxed::new(alloc, e.get().copy(alloc)?)?)
}

#[cycle(copy)]
pub(crate) fn copy_all(alloc: Global, parts: &Items<Expr>) -> Result<Items<Expr>, Memory>
    ensures { IfOk result (λ all. all ≡ parts.now) }
{
    let mut all = Items::new(alloc);
    for part in parts.as_slice() {
        all.push(part.copy(alloc)?)?;
    }
    Ok(all)
}
