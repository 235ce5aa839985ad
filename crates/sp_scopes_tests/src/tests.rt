use crate::trees::{
    Item, idents, interface, judged, levels, limit, modules, numbered, ordered, product, rule,
};
use sp_naming::Entity;
use sp_scopes::{Head, LevelOrder, Scopes, Sort};
use sp_text::{Memory, Quantity, Rule, SpecFault};
use sp_tree::{InterfaceTree, LatticeTree, Module};
use sp_values::Ty;
use std::alloc::Global;
use std::process::Abort;
use std::test::Fail;

/// What names and headers break, where memory suffices.
type Broken = Result<Option<SpecFault>, Memory>;

// One place for the assertion, which costs the proof of a test much.
fn shows(rt: &impl Abort, found: Broken, want: Option<SpecFault>) {
    assert_eq!(rt; found, Ok(want));
}

fn low(alloc: Global) -> Result<LatticeTree, Memory> {
    Ok(levels(idents(alloc, &[b"LOW", b"HIGH"], 90)?))
}

/// What `m` declares: the type `color` with two members, the parameter `p`, the definition `d` and the function `g`.
const FIRST: [Item; 4] = [
    Item::Enumeration(b"color", &[b"red", b"green"], 30),
    Item::Parameter(b"p", 40),
    Item::Definition(b"d", 50),
    Item::Value(b"g", 60),
];

fn two(alloc: Global) -> Result<InterfaceTree, Memory> {
    interface(alloc, idents(alloc, &[b"m", b"n"], 60)?, low(alloc)?)
}

// The module `m` as above, and another one behind it.
fn two_modules(alloc: Global, name: &[u8], items: &[Item]) -> Result<Vec<Module>, Memory> {
    modules(alloc, &[(b"m", &FIRST), (name, items)])
}

// What one module `m` under the levels LOW and HIGH breaks.
fn alone(alloc: Global, items: &[Item]) -> Broken {
    let modules = modules(alloc, &[(b"m", items)])?;
    let i = interface(alloc, idents(alloc, &[b"m"], 60)?, low(alloc)?)?;
    Ok(judged(alloc, i, modules))
}

// What a module `n` breaks that stands behind `m`.
fn second(alloc: Global, items: &[Item]) -> Broken {
    let modules = two_modules(alloc, b"n", items)?;
    Ok(judged(alloc, two(alloc)?, modules))
}

// What an interface without modules breaks whose levels these are.
fn bare(alloc: Global, lattice: LatticeTree) -> Broken {
    let i = interface(alloc, Vec::new(alloc), lattice)?;
    Ok(judged(alloc, i, Vec::new(alloc)))
}

#[test]
fn an_unknown_type_of_a_value(rt: HostRuntime) {
    let found = alone(rt.alloc(), &[Item::TypedValue(b"a", b"COLOR", 24)]);
    shows(&rt, found, rule(1, 31, Rule::UnknownName));
}

#[test]
fn a_formal_of_a_type_that_is_not_taken(rt: HostRuntime) {
    let found = second(rt.alloc(), &[Item::OperationOn(b"f", b"color", 40)]);
    shows(&rt, found, rule(2, 41, Rule::UnknownName));
}

/// As above, and a function.
const WITH_FORMAL: [Item; 5] = [
    Item::Enumeration(b"color", &[b"red", b"green"], 30),
    Item::Parameter(b"p", 40),
    Item::Definition(b"d", 50),
    Item::Value(b"g", 60),
    Item::OperationOn(b"f", b"p", 70),
];

#[test]
fn a_formal_whose_type_is_a_parameter(rt: HostRuntime) {
    let found = alone(rt.alloc(), &WITH_FORMAL);
    shows(&rt, found, rule(1, 71, Rule::WrongKind));
}

#[test]
fn a_name_declared_in_two_modules_stands_twice_in_the_later(rt: HostRuntime) {
    let found = second(rt.alloc(), &[Item::Type(b"red", 25)]);
    shows(&rt, found, rule(2, 25, Rule::TwiceDeclared));
}

/// Rows of EXTERNALREFS in the second module that break nothing.
const TAKEN: [Item; 3] = [
    Item::Take(b"m", &[b"color"], 20),
    Item::Take(b"m", &[b"p"], 20),
    Item::Take(b"m", &[b"g"], 20),
];

/// Others, with the place and the rule that each breaks.
const NOT_TAKEN: [(Item, u32, Rule); 6] = [
    (Item::Take(b"m", &[b"d"], 20), 21, Rule::WrongKind),
    (Item::Take(b"m", &[b"red"], 20), 21, Rule::WrongKind),
    (Item::Take(b"m", &[b"LOW"], 20), 21, Rule::UnknownName),
    (Item::Take(b"m", &[b"zz"], 20), 21, Rule::UnknownName),
    (Item::Take(b"n", &[b"p"], 20), 21, Rule::UnknownName),
    (Item::Take(b"color", &[b"p"], 20), 20, Rule::UnknownName),
];

#[test]
fn what_externalrefs_may_name(rt: HostRuntime) {
    for item in &TAKEN {
        shows(&rt, second(rt.alloc(), &[*item]), None);
    }
    for (item, start, broken) in &NOT_TAKEN {
        shows(&rt, second(rt.alloc(), &[*item]), rule(2, *start, *broken));
    }
}

const TAKEN_TWICE: [Item; 3] = [
    Item::Parameter(b"q", 40),
    Item::Take(b"m", &[b"p", b"p"], 20),
    Item::Take(b"n", &[b"q"], 30),
];

#[test]
fn names_taken_twice_or_from_the_module_itself_break_nothing(rt: HostRuntime) {
    shows(&rt, second(rt.alloc(), &TAKEN_TWICE), None);
}

// What the product of these names breaks.
fn of_product(alloc: Global, chain: &[&[u8]], categories: &[&[u8]]) -> Broken {
    let chain = idents(alloc, chain, 81)?;
    let categories = idents(alloc, categories, 90)?;
    bare(alloc, product(chain, categories))
}

#[test]
fn equal_names_in_products(rt: HostRuntime) {
    let repeated = of_product(rt.alloc(), &[b"a"], &[b"b", b"b"]);
    shows(&rt, repeated, rule(0, 81, Rule::TwiceDeclared));
    let joined = of_product(rt.alloc(), &[b"a", b"a_b"], &[b"b"]);
    shows(&rt, joined, rule(0, 82, Rule::TwiceDeclared));
}

// What so many levels break.
fn with_levels(alloc: Global, count: u16) -> Broken {
    bare(alloc, levels(numbered(alloc, count, b'x', 100)?))
}

#[test]
fn limits_on_levels(rt: HostRuntime) {
    shows(&rt, with_levels(rt.alloc(), 256), None);
    let over = limit(0, 356, Quantity::Levels);
    shows(&rt, with_levels(rt.alloc(), 257), over);
}

// What the product of 2 levels and 8 categories breaks.
fn too_many(alloc: Global) -> Broken {
    let chain = numbered(alloc, 2, b'x', 100)?;
    let categories = numbered(alloc, 8, b'y', 200)?;
    bare(alloc, product(chain, categories))
}

#[test]
fn a_product_of_too_many_levels(rt: HostRuntime) {
    let over = limit(0, 207, Quantity::Levels);
    shows(&rt, too_many(rt.alloc()), over);
}

// What an interface of so many modules breaks, whose texts aren't given.
fn with_modules(alloc: Global, count: u16) -> Broken {
    let names = numbered(alloc, count, b'x', 20)?;
    let i = interface(alloc, names, low(alloc)?)?;
    Ok(judged(alloc, i, Vec::new(alloc)))
}

#[test]
fn limits_on_modules(rt: HostRuntime) {
    shows(&rt, with_modules(rt.alloc(), 32), None);
    let over = limit(0, 52, Quantity::Modules);
    shows(&rt, with_modules(rt.alloc(), 33), over);
}

#[test]
fn limits_on_arguments(rt: HostRuntime) {
    let full = alone(rt.alloc(), &[Item::OperationOf(b"f", 8, 40)]);
    shows(&rt, full, None);
    let more = alone(rt.alloc(), &[Item::OperationOf(b"f", 9, 40)]);
    shows(&rt, more, limit(1, 108, Quantity::Arguments));
}

#[test]
fn a_level_named_like_a_function(rt: HostRuntime) {
    let found = alone(rt.alloc(), &[Item::Value(b"LOW", 24)]);
    shows(&rt, found, rule(1, 24, Rule::TwiceDeclared));
}

fn chain_to(alloc: Global, name: &[u8]) -> Result<LatticeTree, Memory> {
    let names = idents(alloc, &[b"LOW", b"HIGH"], 90)?;
    ordered(alloc, names, idents(alloc, &[b"LOW", name], 95)?)
}

// What an interface breaks whose ORDER lists the name.
fn ordering(alloc: Global, name: &[u8]) -> Broken {
    let modules = two_modules(alloc, b"n", &[])?;
    let names = idents(alloc, &[b"m", b"n"], 60)?;
    let i = interface(alloc, names, chain_to(alloc, name)?)?;
    Ok(judged(alloc, i, modules))
}

#[test]
fn names_in_order(rt: HostRuntime) {
    shows(&rt, ordering(rt.alloc(), b"HIGH"), None);
    let unknown = rule(0, 96, Rule::UnknownName);
    shows(&rt, ordering(rt.alloc(), b"zz"), unknown);
    let wrong = rule(0, 96, Rule::WrongKind);
    shows(&rt, ordering(rt.alloc(), b"color"), wrong);
}

fn late_chain(alloc: Global) -> Result<LatticeTree, Memory> {
    let names = idents(alloc, &[b"LOW"], 990)?;
    ordered(alloc, names, idents(alloc, &[b"zz"], 995)?)
}

// What an interface breaks with an unknown name in ORDER, late in its text, whose second module has a wrong name.
fn two_faults(alloc: Global) -> Broken {
    let modules = two_modules(alloc, b"other", &[])?;
    let names = idents(alloc, &[b"m", b"n"], 60)?;
    let i = interface(alloc, names, late_chain(alloc)?)?;
    Ok(judged(alloc, i, modules))
}

// What an interface breaks whose second module has a wrong name.
fn misnamed(alloc: Global) -> Broken {
    let modules = two_modules(alloc, b"other", &[])?;
    Ok(judged(alloc, two(alloc)?, modules))
}

#[test]
fn the_first_by_file_then_place(rt: HostRuntime) {
    let unknown = rule(0, 995, Rule::UnknownName);
    shows(&rt, two_faults(rt.alloc()), unknown);
    shows(&rt, misnamed(rt.alloc()), rule(2, 7, Rule::WrongName));
}

// What the names of these trees stand for.
fn known(alloc: Global, i: InterfaceTree, modules: Vec<Module>) -> Result<Scopes, Fail> {
    Ok(Scopes::declare(alloc, &i, &modules)?)
}

/// A module, a name, and what it stands for there.
type Row = (u16, &'static [u8], Option<Entity>);

// Whether each row is so.
fn finds(scopes: &Scopes, rows: &[Row]) -> bool {
    for (file, name, entity) in rows {
        if scopes.find(*file, name) != *entity {
            return false;
        }
    }
    true
}

const OF_PRODUCT: [Row; 6] = [
    (0, b"l", Some(Entity::Level(0))),
    (0, b"l_a", Some(Entity::Level(1))),
    (0, b"l_b", Some(Entity::Level(2))),
    (0, b"l_a_b", Some(Entity::Level(3))),
    (0, b"h_a_b", Some(Entity::Level(7))),
    (0, b"l_b_a", None),
];

fn product_scopes(alloc: Global) -> Result<Scopes, Fail> {
    let chain = idents(alloc, &[b"l", b"h"], 81)?;
    let categories = idents(alloc, &[b"a", b"b"], 90)?;
    let i = interface(alloc, Vec::new(alloc), product(chain, categories))?;
    known(alloc, i, Vec::new(alloc))
}

#[test]
fn names_of_products(rt: HostRuntime) -> Result<(), Fail> {
    let scopes = product_scopes(rt.alloc())?;
    assert!(rt; finds(&scopes, &OF_PRODUCT));
    assert!(rt; matches!(scopes.order(), LevelOrder::Product(2, 2)));
    Ok(())
}

// What the names stand for where a module `n` stands behind `m`.
fn second_scopes(alloc: Global, items: &[Item]) -> Result<Scopes, Fail> {
    let modules = two_modules(alloc, b"n", items)?;
    known(alloc, two(alloc)?, modules)
}

const SEEN: [Row; 10] = [
    (1, b"color", Some(Entity::Declared(0))),
    (1, b"green", Some(Entity::Member(0, 1))),
    (1, b"LOW", Some(Entity::Level(0))),
    (1, b"q", Some(Entity::Param(1))),
    (1, b"p", None),
    (1, b"d", None),
    (0, b"d", Some(Entity::Definition(0))),
    (0, b"q", None),
    (2, b"q", Some(Entity::Param(1))),
    (2, b"zz", None),
];

const SEEING: [Item; 2] = [Item::Take(b"m", &[b"color"], 20), Item::Parameter(b"q", 40)];

#[test]
fn what_a_module_sees(rt: HostRuntime) -> Result<(), Fail> {
    let scopes = second_scopes(rt.alloc(), &SEEING)?;
    assert!(rt; finds(&scopes, &SEEN) && scopes.modules() == 2);
    Ok(())
}

fn sort_at(heads: &[Head], k: usize) -> Option<Sort> {
    match heads.get(k) {
        None => None,
        Some(head) => Some(head.sort),
    }
}

// Whether there are one type, an INTEGER parameter, an INTEGER V-function and an O-function.
fn heads_are_lent(scopes: &Scopes) -> bool {
    scopes.types().len() == 1
        && sort_at(scopes.parameters(), 0) == Some(Sort::Plain(Ty::Integer))
        && sort_at(scopes.functions(), 0) == Some(Sort::Primitive(Ty::Integer))
        && sort_at(scopes.functions(), 1) == Some(Sort::Operation)
        && sort_at(scopes.functions(), 2) == None
}

#[test]
fn heads_are_lent_by_number(rt: HostRuntime) -> Result<(), Fail> {
    let scopes = second_scopes(rt.alloc(), &[Item::Operation(b"f", 40)])?;
    assert!(rt; heads_are_lent(&scopes));
    Ok(())
}

fn ordered_scopes(alloc: Global) -> Result<Scopes, Fail> {
    let names = idents(alloc, &[b"LOW", b"MID", b"HIGH"], 90)?;
    let chain = idents(alloc, &[b"LOW", b"HIGH", b"MID"], 95)?;
    let i = interface(alloc, Vec::new(alloc), ordered(alloc, names, chain)?)?;
    known(alloc, i, Vec::new(alloc))
}

// Whether the order is the one of these pairs.
fn has_pairs(order: &LevelOrder, wanted: &[(u16, u16)]) -> bool {
    match order {
        LevelOrder::Pairs(pairs) => pairs.items() == wanted,
        LevelOrder::Product(..) => false,
    }
}

#[test]
fn levels_are_lent_with_their_order(rt: HostRuntime) -> Result<(), Fail> {
    let scopes = ordered_scopes(rt.alloc())?;
    assert!(rt; scopes.levels().len() == 3);
    assert!(rt; has_pairs(scopes.order(), &[(0, 2), (2, 1)]));
    Ok(())
}
