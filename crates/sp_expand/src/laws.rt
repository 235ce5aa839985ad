//! Laws of the definitions, each on a function that does nothing.

ghost use Rattle.sp_expand.specs.Laws.{PutSizeLaw, PutTypeLaw, PutValueLaw, SizeLaw};

/// Arguments in the place of the variables of a well-typed expression, each of its variable's type, make a well-typed one.
pub fn put_type_law()
    ensures { PutTypeLaw }
{}

/// An expression with arguments has the value that the expression has at the arguments' values.
pub fn put_value_law()
    ensures { PutValueLaw }
{}

/// A size is the height, the nodes and the quantifiers of the expression, each up to one over its limit.
pub fn size_law()
    ensures { SizeLaw }
{}

/// The size of an expression with arguments is told from the arguments' sizes.
pub fn put_size_law()
    ensures { PutSizeLaw }
{}
