ghost use Rattle.std.specs.Prelude.{◌≡◌, IfOk};

use sp_text::{Memory, Name, Span};
use std::alloc::Global;

/// A name and its place.
#[derive(Debug, Drop, PartialEq, Eq)]
pub struct Ident {
    pub name: Name,
    pub span: Span,
}

/// A type as it is written.
#[derive(Debug, Drop, PartialEq, Eq)]
pub enum TypeTree {
    Boolean(Span),
    Integer(Span),
    Level(Span),
    Named(Ident),
}

/// A formal argument or a bound variable, with its type.
#[derive(Debug, Drop, PartialEq, Eq)]
pub struct FormalTree {
    pub ty: TypeTree,
    pub name: Ident,
}

impl Ident {
    /// The same name at the same place.
    ///
    /// # Errors
    /// `Memory` where it can't be copied.
    pub fn copy(&self, alloc: Global) -> Result<Ident, Memory>
        ensures { IfOk result (λ x. x ≡ self.now) }
    {
        Ok(Ident {
            name: Name::new(alloc, self.name.bytes())?,
            span: self.span,
        })
    }
}

impl TypeTree {
    /// The same type at the same place.
    ///
    /// # Errors
    /// `Memory` where it can't be copied.
    pub fn copy(&self, alloc: Global) -> Result<TypeTree, Memory>
        ensures { IfOk result (λ t. t ≡ self.now) }
    {
        Ok(match self {
            TypeTree::Boolean(span) => TypeTree::Boolean(*span),
            TypeTree::Integer(span) => TypeTree::Integer(*span),
            TypeTree::Level(span) => TypeTree::Level(*span),
            TypeTree::Named(x) => TypeTree::Named(x.copy(alloc)?),
        })
    }
}

impl FormalTree {
    /// The same formal at the same place.
    ///
    /// # Errors
    /// `Memory` where it can't be copied.
    pub fn copy(&self, alloc: Global) -> Result<FormalTree, Memory>
        ensures { IfOk result (λ f. f ≡ self.now) }
    {
        Ok(FormalTree {
            ty: self.ty.copy(alloc)?,
            name: self.name.copy(alloc)?,
        })
    }
}
