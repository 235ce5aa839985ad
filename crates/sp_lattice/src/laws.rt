//! Laws of the definitions, as calls that do nothing.

ghost use Rattle.std.specs.Prelude.{◌≡◌, ◌*◌, ◌^◌, ◌<◌};
ghost use Rattle.sp_lattice.specs.Bounds.{IsLattice};
ghost use Rattle.sp_lattice.specs.Order.{OneOrder};
ghost use Rattle.sp_lattice.specs.Product.{IsProductBelow, level_number, position_of, set_of};

/// The product of a chain and categories is a lattice, so that no declaration of a product is refused for its order.
pub fn product_is_lattice(chain: u32, categories: u32)
    ensures { IsLattice (chain * 2 ^ categories) (IsProductBelow categories) }
{}

/// A level's number tells its position in the chain and its set of categories.
pub fn product_numbers(categories: u32, position: u32, set: u32)
    requires { set < 2 ^ categories }
    ensures position { position_of categories (level_number categories position set) ≡ position }
    ensures set { set_of categories (level_number categories position set) ≡ set }
{}

/// Two orders with the same relation on the levels are one.
pub fn one_order()
    ensures { OneOrder }
{}
