//! Instances and scripts: their trees and their faults.

use crate::texts::{Off, Sort, is, reads_whole_alone, show_off, show_read, span, tokens};
use sp_instance_text::{parse_instance, parse_script};
use sp_text::TextFault;
use sp_tree::{InstanceTree, ScriptTree, ValueNode, ValueTree};
use std::alloc::Global;
use std::test::Fail;

const SMALL: &[u8] = b"INSTANCE small
POPULATION user = {alice, bob}; POPULATION file = {memo, plan};
PARAMETER clr: (alice) = HIGH; OTHERWISE LOW;
PARAMETER cls: (plan) = HIGH; OTHERWISE LOW;
END_INSTANCE";

const LEAK: &[u8] = b"write(alice, memo, 7); read(bob, memo);";

const CALLS: &[u8] = b"set(5, -7, ?); data(); f(TRUE, a, BOTTOM);";

fn read_instance(alloc: Global, text: &[u8]) -> Result<InstanceTree, TextFault> {
    let tokens = tokens(alloc, text)?;
    parse_instance(alloc, tokens.as_slice(), text.len() as u32)
}

fn read_script(alloc: Global, text: &[u8]) -> Result<ScriptTree, TextFault> {
    let tokens = tokens(alloc, text)?;
    parse_script(alloc, tokens.as_slice(), text.len() as u32)
}

// Whether `SMALL` is read so.
fn has_parts(tree: &InstanceTree) -> bool {
    let [user, file] = tree.populations.items() else {
        return false;
    };
    is(&tree.name, b"small") && is(&user.0, b"user") && file.1.items().len() == 2
}

fn has_tables(tree: &InstanceTree) -> bool {
    let [clearance, class] = tree.tables.items() else {
        return false;
    };
    clearance.rows.items().len() == 1
        && is(&class.name, b"cls")
        && class.other.span == span(165, 168)
}

#[test]
fn an_instance_has_its_parts(rt: HostRuntime) -> Result<(), Fail> {
    let tree = read_instance(rt.alloc(), SMALL)?;
    assert!(rt; has_parts(&tree) && has_tables(&tree));
    Ok(())
}

// Whether `CALLS` are read so.
fn has_calls(tree: &ScriptTree) -> bool {
    let [set, data, f] = tree.calls.items() else {
        return false;
    };
    is(&set.0, b"set")
        && has_values(set.1.items())
        && data.1.items().len() == 0
        && f.1.items().len() == 3
}

fn has_values(values: &[ValueTree]) -> bool {
    let [five, seven, unknown] = values else {
        return false;
    };
    five.node == ValueNode::Int(5)
        && seven.node == ValueNode::Int(-7)
        && unknown.node == ValueNode::Unknown
        && seven.span == span(7, 9)
}

#[test]
fn a_script_has_its_calls(rt: HostRuntime) -> Result<(), Fail> {
    let tree = read_script(rt.alloc(), CALLS)?;
    assert!(rt; has_calls(&tree));
    Ok(())
}

#[test]
fn worked_instances_and_scripts_read_and_no_shorter_text(rt: HostRuntime) {
    assert!(rt; reads_whole_alone(rt.alloc(), Sort::Instance, SMALL));
    show_read(&rt, rt.alloc(), Sort::Script, &[LEAK, b""]);
}

const INSTANCES_OFF: [Off; 3] = [
    (b"INSTANCE i PARAMETER p: () = 1; END_INSTANCE", 32, 44),
    (
        b"INSTANCE i PARAMETER p: OTHERWISE 1; POPULATION t = {}; END_INSTANCE",
        37,
        47,
    ),
    (
        b"INSTANCE i PARAMETER p: OTHERWISE -a; END_INSTANCE",
        35,
        36,
    ),
];

#[test]
fn the_first_token_off_in_an_instance(rt: HostRuntime) {
    show_off(&rt, rt.alloc(), Sort::Instance, &INSTANCES_OFF);
}

const SCRIPTS_OFF: [Off; 4] = [
    (b"f(1,);", 4, 5),
    (b"f(1 2);", 4, 5),
    (b"f()", 3, 3),
    (b"f(); 3", 5, 6),
];

#[test]
fn the_first_token_off_in_a_script(rt: HostRuntime) {
    show_off(&rt, rt.alloc(), Sort::Script, &SCRIPTS_OFF);
}
