//! Interfaces, hierarchies and mappings: their trees, their faults and their limits.

use crate::texts::{Off, Sort, exceeds, is, show_off, shows, span, tokens};
use crate::worked::{DOWN, FILES_INTERFACE, PRODUCT_INTERFACE, SYSTEM};
use sp_interface::{parse_hierarchy, parse_interface, parse_mapping};
use sp_text::{Quantity, TextFault};
use sp_tree::{Equation, HierarchyTree, Ident, InterfaceTree, LatticeTree, MappingTree};
use std::alloc::Global;
use std::test::Fail;

fn read_interface(alloc: Global, text: &[u8]) -> Result<InterfaceTree, TextFault> {
    let tokens = tokens(alloc, text)?;
    parse_interface(alloc, tokens.as_slice(), text.len() as u32)
}

fn read_hierarchy(alloc: Global, text: &[u8]) -> Result<HierarchyTree, TextFault> {
    let tokens = tokens(alloc, text)?;
    parse_hierarchy(alloc, tokens.as_slice(), text.len() as u32)
}

fn read_mapping(alloc: Global, text: &[u8]) -> Result<MappingTree, TextFault> {
    let tokens = tokens(alloc, text)?;
    parse_mapping(alloc, tokens.as_slice(), text.len() as u32)
}

// Whether `FILES_INTERFACE` is read so.
fn has_names(tree: &InterfaceTree) -> bool {
    is(&tree.name, b"files")
        && tree.name.span == span(10, 15)
        && tree.modules.items().len() == 1
        && is(&tree.sample, b"small")
}

fn has_levels(lattice: &LatticeTree) -> bool {
    let LatticeTree::Order(keyword, levels, orders) = lattice else {
        return false;
    };
    let [order] = orders.items() else {
        return false;
    };
    *keyword == span(31, 38) && levels.items().len() == 2 && is_low_to_high(order.items())
}

fn is_low_to_high(order: &[Ident]) -> bool {
    let [low, high] = order else {
        return false;
    };
    is(low, b"LOW") && is(high, b"HIGH")
}

fn has_equations(levels: &[Equation]) -> bool {
    let [data, read, write] = levels else {
        return false;
    };
    data.formals.items().len() == 1 && is(&read.name, b"read") && write.formals.items().len() == 3
}

#[test]
fn an_interface_has_its_parts(rt: HostRuntime) -> Result<(), Fail> {
    let tree = read_interface(rt.alloc(), FILES_INTERFACE)?;
    assert!(rt; has_names(&tree));
    assert!(rt; has_levels(&tree.lattice) && has_equations(tree.levels.items()));
    Ok(())
}

// Whether `PRODUCT_INTERFACE` has these levels.
fn has_product(lattice: &LatticeTree) -> bool {
    let LatticeTree::Product(keyword, chain, categories) = lattice else {
        return false;
    };
    *keyword == span(33, 38) && chain.items().len() == 4 && categories.items().len() == 3
}

#[test]
fn a_product_has_its_chain_and_categories(rt: HostRuntime) -> Result<(), Fail> {
    let tree = read_interface(rt.alloc(), PRODUCT_INTERFACE)?;
    assert!(rt; has_product(&tree.lattice));
    Ok(())
}

// Whether `SYSTEM` is read so.
fn has_rows(tree: &HierarchyTree) -> bool {
    let [(upper, lower, mapping)] = tree.rows.items() else {
        return false;
    };
    is(upper, b"files") && is(lower, b"store") && is(mapping, b"down")
}

#[test]
fn a_hierarchy_has_its_parts(rt: HostRuntime) -> Result<(), Fail> {
    let tree = read_hierarchy(rt.alloc(), SYSTEM)?;
    assert!(rt; has_rows(&tree));
    Ok(())
}

// Whether `DOWN` is read so.
fn has_sections(tree: &MappingTree) -> bool {
    is(&tree.upper, b"files")
        && is(&tree.lower, b"store")
        && tree.types.items().len() == 2
        && tree.parameters.items().len() == 2
        && tree.functions.items().len() == 1
}

#[test]
fn a_mapping_has_its_parts(rt: HostRuntime) -> Result<(), Fail> {
    let tree = read_mapping(rt.alloc(), DOWN)?;
    assert!(rt; has_sections(&tree));
    Ok(())
}

const INTERFACES_OFF: [Off; 5] = [
    (
        b"INTERFACE i MODULES m; LATTICE l; ORDER l; SAMPLE s; END_INTERFACE",
        41,
        42,
    ),
    (
        b"INTERFACE i MODULES m; CATEGORIES a; CHAIN l; SAMPLE s; END_INTERFACE",
        23,
        33,
    ),
    (
        b"INTERFACE i MODULES m; CHAIN l; CATEGORIES a; ORDER a < b; SAMPLE s; END_INTERFACE",
        46,
        51,
    ),
    (
        b"INTERFACE i MODULES m; LATTICE l; LEVEL f IS l; SAMPLE s; END_INTERFACE",
        42,
        44,
    ),
    (
        b"INTERFACE i MODULES m; LATTICE l; SAMPLE s; END_INTERFACE END_INTERFACE",
        58,
        71,
    ),
];

#[test]
fn the_first_token_off_in_an_interface(rt: HostRuntime) {
    show_off(&rt, rt.alloc(), Sort::Interface, &INTERFACES_OFF);
}

const HIERARCHIES_OFF: [Off; 2] = [
    (b"HIERARCHY h a OVER b; END_HIERARCHY", 20, 21),
    (b"HIERARCHY h a OVER b BY m END_HIERARCHY", 26, 39),
];

const MAPPINGS_OFF: [Off; 2] = [
    (
        b"MAPPING m FROM a TO b PARAMETERS p() IS x; TYPES t IS u; END_MAPPING",
        43,
        48,
    ),
    (b"MAPPING m TO b FROM a END_MAPPING", 10, 12),
];

#[test]
fn the_first_token_off_in_hierarchies_and_mappings(rt: HostRuntime) {
    show_off(&rt, rt.alloc(), Sort::Hierarchy, &HIERARCHIES_OFF);
    show_off(&rt, rt.alloc(), Sort::Mapping, &MAPPINGS_OFF);
}

#[test]
fn a_level_has_a_greatest_height(rt: HostRuntime) {
    let full = b"INTERFACE i MODULES m; LATTICE l; LEVEL f() IS \
        (((((((((((((((((((((((((((((((((((((((((((((((((((((((((((((((x)))))))))))))))))))))))))))))))))))))))))))))))))))))))))))))))\
        ; SAMPLE s; END_INTERFACE";
    shows(&rt, rt.alloc(), Sort::Interface, full, None);
    let more = b"INTERFACE i MODULES m; LATTICE l; LEVEL f() IS \
        ((((((((((((((((((((((((((((((((((((((((((((((((((((((((((((((((x))))))))))))))))))))))))))))))))))))))))))))))))))))))))))))))))\
        ; SAMPLE s; END_INTERFACE";
    shows(
        &rt,
        rt.alloc(),
        Sort::Interface,
        more,
        exceeds(Quantity::Height, 110, 111),
    );
}

#[test]
fn modules_are_counted_as_often_as_they_are_named(rt: HostRuntime) {
    let full =
        b"INTERFACE i MODULES m, m, m, m, m, m, m, m, m, m, m, m, m, m, m, m, m, m, m, m, m, m, \
        m, m, m, m, m, m, m, m, m, m; LATTICE l; SAMPLE s; END_INTERFACE";
    shows(&rt, rt.alloc(), Sort::Interface, full, None);
    let more =
        b"INTERFACE i MODULES m, m, m, m, m, m, m, m, m, m, m, m, m, m, m, m, m, m, m, m, m, m, \
        m, m, m, m, m, m, m, m, m, m, m; LATTICE l; SAMPLE s; END_INTERFACE";
    shows(
        &rt,
        rt.alloc(),
        Sort::Interface,
        more,
        exceeds(Quantity::Modules, 116, 117),
    );
}

#[test]
fn interfaces_are_counted_once_each(rt: HostRuntime) {
    let full =
        b"HIERARCHY h a OVER b BY m; c OVER d BY m; e OVER f BY m; g OVER h BY m; i OVER j BY \
        m; k OVER l BY m; m OVER n BY m; o OVER p BY m; a OVER p BY m; END_HIERARCHY";
    shows(&rt, rt.alloc(), Sort::Hierarchy, full, None);
    let more =
        b"HIERARCHY h a OVER b BY m; c OVER d BY m; e OVER f BY m; g OVER h BY m; i OVER j BY \
        m; k OVER l BY m; m OVER n BY m; o OVER p BY m; a OVER q BY m; q OVER r BY m; \
        END_HIERARCHY";
    shows(
        &rt,
        rt.alloc(),
        Sort::Hierarchy,
        more,
        exceeds(Quantity::Interfaces, 139, 140),
    );
}
