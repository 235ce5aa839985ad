//! An index from names to their first places in a list.

ghost use Rattle.std.specs.Prelude.{◌≡◌, [], ◌∷◌, ◌++◌, ℕ, List, length, IfOk};
ghost use Rattle.sp_naming.specs.Names.{at_name, is_among, IsIndex};

use indexmap::IndexMap;
use sp_text::Memory;
use std::alloc::Global;

/// The names of a list, each with its first place.
pub type Index = IndexMap<Vec<u8>, usize>;

/// Adds the name that stands next in the list, and tells whether an earlier one is the same.
pub fn note(alloc: Global, index: &mut Index, name: &[u8], place: usize) -> Result<bool, Memory>
    ensures { (before : List (List ℕ)) → IsIndex before (at_name index.old) → place ≡ length before
        → IfOk result (λ known. (known ≡ is_among before name.now) × IsIndex (before ++ name.now ∷ []) (at_name index.new)) }
{
    if index.contains_key(name) {
        return Ok(true);
    }
    let key = name.to_vec(alloc)?;
    match index.insert(key, place) {
        Ok(_) => Ok(false),
        Err(_) => Err(Memory),
    }
}
