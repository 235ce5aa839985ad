//! Worked texts of two machines, one of which implements the other.

use crate::texts::{Sort, reads_whole_alone, show_read};

pub const FILES: &[u8] = b"MODULE files
TYPES user: DESIGNATOR; file: DESIGNATOR;
PARAMETERS LEVEL clr(user u); LEVEL cls(file f);
FUNCTIONS
VFUN data(file f) -> INTEGER; HIDDEN; INITIALLY 0;
OVFUN read(user u; file f) -> INTEGER r;
  EXCEPTIONS no_read: NOT cls(f) <= clr(u);
  EFFECTS r = data(f);
OFUN write(user u; file f; INTEGER x);
  EXCEPTIONS no_write: NOT clr(u) <= cls(f);
  EFFECTS 'data(f) = x;
END_MODULE";

const LEAKY: &[u8] = b"MODULE leaky
TYPES user: DESIGNATOR; file: DESIGNATOR;
PARAMETERS LEVEL clr(user u); LEVEL cls(file f);
FUNCTIONS
VFUN data(file f) -> INTEGER; HIDDEN; INITIALLY 0;
OVFUN read(user u; file f) -> INTEGER r;
  EXCEPTIONS no_read: NOT cls(f) <= clr(u);
  EFFECTS r = data(f);
OFUN write(user u; file f; INTEGER x);
  EFFECTS 'data(f) = x;
END_MODULE";

const STORE: &[u8] = b"MODULE store
TYPES user: DESIGNATOR; seg: DESIGNATOR;
PARAMETERS LEVEL clr(user u); LEVEL scls(seg s);
FUNCTIONS
VFUN cell(seg s; INTEGER i) -> INTEGER; HIDDEN; INITIALLY 0;
OFUN put(user u; seg s; INTEGER i; INTEGER x);
  EXCEPTIONS no_write: NOT clr(u) <= scls(s);
  EFFECTS 'cell(s, i) = x;
END_MODULE";

pub const FILES_INTERFACE: &[u8] = b"INTERFACE files
MODULES files;
LATTICE LOW, HIGH; ORDER LOW < HIGH;
LEVEL data(f) IS cls(f);
LEVEL read(u, f) IS clr(u);
LEVEL write(u, f, x) IS clr(u);
SAMPLE small;
END_INTERFACE";

const LEAKY_INTERFACE: &[u8] = b"INTERFACE leaky
MODULES leaky;
LATTICE LOW, HIGH; ORDER LOW < HIGH;
LEVEL data(f) IS cls(f);
LEVEL read(u, f) IS clr(u);
LEVEL write(u, f, x) IS clr(u);
SAMPLE small;
END_INTERFACE";

const STORE_INTERFACE: &[u8] = b"INTERFACE store MODULES store; LATTICE LOW, HIGH; ORDER LOW < HIGH;
LEVEL cell(s, i) IS scls(s); LEVEL put(u, s, i, x) IS clr(u); SAMPLE st; END_INTERFACE";

/// An interface over a product of levels.
pub const PRODUCT_INTERFACE: &[u8] = b"INTERFACE sample MODULES sample;
CHAIN l0 < l1 < l2 < l3; CATEGORIES a, b, c;
LEVEL data(f) IS cls(f); LEVEL all() IS TOP; SAMPLE sample; END_INTERFACE";

pub const SYSTEM: &[u8] = b"HIERARCHY sys files OVER store BY down; END_HIERARCHY";

pub const DOWN: &[u8] = b"MAPPING down FROM files TO store TYPES user IS user; file IS seg;
PARAMETERS clr(u) IS clr(u); cls(f) IS scls(f); FUNCTIONS data(f) IS cell(f, 0); END_MAPPING";

#[test]
fn worked_modules_read_and_no_shorter_text(rt: HostRuntime) {
    for text in &[FILES, LEAKY, STORE] {
        assert!(rt; reads_whole_alone(rt.alloc(), Sort::Module, text));
    }
}

#[test]
fn worked_interfaces_read_and_no_shorter_text(rt: HostRuntime) {
    for text in &[
        FILES_INTERFACE,
        LEAKY_INTERFACE,
        STORE_INTERFACE,
        PRODUCT_INTERFACE,
    ] {
        assert!(rt; reads_whole_alone(rt.alloc(), Sort::Interface, text));
    }
}

#[test]
fn worked_hierarchies_and_mappings_read_and_no_shorter_text(rt: HostRuntime) {
    assert!(rt; reads_whole_alone(rt.alloc(), Sort::Hierarchy, SYSTEM));
    assert!(rt; reads_whole_alone(rt.alloc(), Sort::Mapping, DOWN));
}

/// Interfaces without a section that may be absent.
const SHORT_INTERFACES: [&[u8]; 2] = [
    b"INTERFACE i MODULES m; LATTICE l; SAMPLE s; END_INTERFACE",
    b"INTERFACE i MODULES m; CHAIN l; SAMPLE s; END_INTERFACE",
];

#[test]
fn sections_that_may_be_absent(rt: HostRuntime) {
    let bare: &[u8] = b"MAPPING m FROM a TO b END_MAPPING";
    show_read(&rt, rt.alloc(), Sort::Mapping, &[bare]);
    let empty: &[u8] = b"HIERARCHY h END_HIERARCHY";
    show_read(&rt, rt.alloc(), Sort::Hierarchy, &[empty]);
    show_read(&rt, rt.alloc(), Sort::Interface, &SHORT_INTERFACES);
}
