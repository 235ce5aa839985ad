//! What stands under a name in an instance or a script.

ghost use Rattle.std.specs.Prelude.{◌≡◌, ◌++◌, [], IfOk, map, option_copied, slice_get};
ghost use Rattle.sp_text.specs.Violations.{first};
ghost use Rattle.sp_naming.specs.Names.{repeated_names};
ghost use Rattle.sp_instance.specs.Heads as headed;
ghost use Rattle.sp_instance.specs.Heads.{item_named, kind_broken, kinds_broken, names_in};

use crate::names::NameList;
use sp_naming::first_repeated;
use sp_text::{Memory, Name, Quantity, Rule, Sequence, Violation, breaks, earlier, exceeds};
use sp_tree::{Ident, TableTree};
use sqlite_items::at;
use std::alloc::Global;

/// What stands under a name in a text.
pub trait Headed {
    ghost use Rattle.sp_tree.specs.declared.names.Ident.{Ident as IdentValue};

    ghost head_of: { Self → IdentValue };

    /// The name that it stands under.
    fn head(&self) -> &Ident
        ensures { result.now ≡ head_of self.now };
}

impl Headed for (Ident, Sequence<Ident>) {
    ghost use Rattle.sp_instance.specs.Populations.{population_head};

    ghost head_of = { population_head };

    fn head(&self) -> &Ident {
        &self.0
    }
}

impl Headed for TableTree {
    ghost use Rattle.sp_instance.specs.Tables.{table_head};

    ghost head_of = { table_head };

    fn head(&self) -> &Ident {
        &self.name
    }
}

/// The names that the items stand under.
///
/// # Errors
/// `Memory` where they can't be copied.
pub fn heads<T: Headed>(alloc: Global, items: &[T]) -> Result<Vec<Ident>, Memory>
    ensures { IfOk result (λ made. made.items ≡ map T.head_of items.now) }
{
    let mut made = Vec::new(alloc);
    for item in items {
        made.push(item.head().copy(alloc)?)?;
    }
    Ok(made)
}

/// The first item that stands under the name, by an index of all their names.
pub fn find<'a, T: Headed>(names: &NameList, items: &'a [T], name: &Name) -> Option<&'a T>
    requires { names.now ≡ names_in (map T.head_of items.now) }
    ensures { option_copied result ≡ item_named T.head_of items.now name.now }
{
    match names.place(name.bytes()) {
        None => None,
        Some(place) => at(items, place),
    }
}

/// What a name breaks that isn't of the kind that is asked.
pub fn unfit(all: &NameList, x: &Ident) -> Option<Violation>
    ensures { result ≡ first (headed.unfit all.now x.now) }
{
    if all.contains(x.name.bytes()) {
        breaks(x.span, Rule::WrongKind)
    } else {
        breaks(x.span, Rule::UnknownName)
    }
}

fn kind(asked: &NameList, all: &NameList, x: &Ident) -> Option<Violation>
    ensures { result ≡ first (kind_broken asked.now all.now x.now) }
{
    if asked.contains(x.name.bytes()) {
        None
    } else {
        unfit(all, x)
    }
}

fn kinds(asked: &NameList, all: &NameList, xs: &[Ident]) -> Option<Violation>
    ensures { result ≡ first (kinds_broken asked.now all.now xs.now) }
{
    let mut found = None;
    for x in xs {
        found = earlier(found, kind(asked, all, x));
    }
    found
}

/// The first of what names break that items stand under.
///
/// # Errors
/// `Memory` where their index can't be stored.
pub fn judge_heads(
    alloc: Global,
    asked: &NameList,
    all: &NameList,
    xs: &[Ident],
) -> Result<Option<Violation>, Memory>
    ensures { IfOk result (λ found. found ≡ first (headed.heads_broken asked.now all.now xs.now)) }
{
    let repeated = first_repeated(alloc, xs)?;
    Ok(earlier(kinds(asked, all, xs), repeated))
}

/// The limit that a name exceeds, where it is there.
pub fn over(quantity: Quantity, x: Option<&Ident>) -> Option<Violation>
    ensures { result ≡ first (headed.over quantity (option_copied x.entry)) }
{
    match x {
        None => None,
        Some(x) => exceeds(x.span, quantity),
    }
}
