//! Worked mappings that break nothing.

use crate::texts::{LOWER, System, made};
use sp_core::{Expr, MapRow, Mapping};
use sp_text::{SpecFault, TextFault};
use sp_values::{Ty, Value};
use std::alloc::Global;
use std::process::Abort;

/// A machine with files, of users with clearances.
pub const FILES: System<'static> = System {
    interface: b"INTERFACE files MODULES files; LATTICE LOW, HIGH; ORDER LOW < HIGH;
LEVEL data(f) IS cls(f); LEVEL read(u, f) IS clr(u); LEVEL write(u, f, x) IS clr(u);
SAMPLE small; END_INTERFACE",
    module: b"MODULE files
TYPES user: DESIGNATOR; file: DESIGNATOR;
PARAMETERS LEVEL clr(user u); LEVEL cls(file f);
FUNCTIONS
VFUN data(file f) -> INTEGER; HIDDEN; INITIALLY 0;
OVFUN read(user u; file f) -> INTEGER r; EXCEPTIONS no_read: NOT cls(f) <= clr(u);
EFFECTS r = data(f);
OFUN write(user u; file f; INTEGER x); EXCEPTIONS no_write: NOT clr(u) <= cls(f);
EFFECTS 'data(f) = x;
END_MODULE",
};

/// A machine with segments of numbered cells, whose types stand in the other order.
pub const STORE: System<'static> = System {
    interface: b"INTERFACE store MODULES store; LATTICE LOW, HIGH; ORDER LOW < HIGH;
LEVEL cell(s, i) IS scls(s); LEVEL put(u, s, i, x) IS clr(u); SAMPLE st; END_INTERFACE",
    module: b"MODULE store
TYPES seg: DESIGNATOR; user: DESIGNATOR;
PARAMETERS LEVEL clr(user u); LEVEL scls(seg s);
FUNCTIONS
VFUN cell(seg s; INTEGER i) -> INTEGER; HIDDEN; INITIALLY 0;
OFUN put(user u; seg s; INTEGER i; INTEGER x); EXCEPTIONS no_write: NOT clr(u) <= scls(s);
EFFECTS 'cell(s, i) = x;
END_MODULE",
};

/// A file is the first cell of a segment.
pub const DOWN: &[u8] = b"MAPPING down FROM files TO store
TYPES user IS user; file IS seg;
PARAMETERS clr(u) IS clr(u); cls(f) IS scls(f);
FUNCTIONS data(f) IS cell(f, 0);
END_MAPPING";

// The class of the segment.
fn is_class(level: &Expr) -> bool {
    match level {
        Expr::Param(1, args) => matches!(args.as_slice(), [Expr::Var(0)]),
        _ => false,
    }
}

fn is_first_cell(value: &Expr) -> bool {
    match value {
        Expr::Look(0, args) => {
            matches!(args.as_slice(), [Expr::Var(0), Expr::Const(Value::Int(0))])
        }
        _ => false,
    }
}

// The formal is a segment.
fn is_data(row: &MapRow) -> bool {
    let formals = match row.formals.items() {
        [formal] => formal.name.bytes() == b"f".as_slice() && formal.ty == Ty::Member(0),
        _ => false,
    };
    let named = row.upper == 0 && row.name.bytes() == b"data".as_slice();
    named && formals && is_first_cell(&row.value) && is_class(&row.level)
}

fn is_down(mapping: &Mapping) -> bool {
    let row = match mapping.functions.items() {
        [row] => is_data(row),
        _ => false,
    };
    mapping.name.bytes() == b"down".as_slice()
        && mapping.types.items() == [1u16, 0].as_slice()
        && row
}

// Whether the mapping is as wanted, or what its text breaks.
type Told = Result<Result<bool, TextFault>, SpecFault>;

fn holds(rt: &impl Abort, found: Told) {
    assert_eq!(rt; found, Ok(Ok(true)));
}

fn told_down(alloc: Global) -> Told {
    match made(alloc, &FILES, &STORE, DOWN) {
        Ok(Ok(mapping)) => Ok(Ok(is_down(&mapping))),
        Ok(Err(fault)) => Ok(Err(fault)),
        Err(fault) => Err(fault),
    }
}

#[test]
fn a_file_is_the_first_cell_of_a_segment(rt: HostRuntime) {
    holds(&rt, told_down(rt.alloc()));
}

const TWO: System<'static> = System {
    interface: b"INTERFACE u MODULES u; LATTICE LOW, HIGH; ORDER LOW < HIGH; LEVEL one() IS LOW;
LEVEL two() IS LOW; SAMPLE s; END_INTERFACE",
    module: b"MODULE u TYPES t: DESIGNATOR; c: {red, blue}; FUNCTIONS
VFUN one() -> INTEGER; INITIALLY 0; VFUN two() -> c; INITIALLY red; END_MODULE",
};

fn are_rows(rows: &[MapRow]) -> bool {
    match rows {
        [first, second] => first.upper == 1 && second.upper == 0,
        _ => false,
    }
}

fn is_two(mapping: &Mapping) -> bool {
    mapping.types.items() == [0u16, 1].as_slice() && are_rows(mapping.functions.items())
}

fn told_two(alloc: Global) -> Told {
    let text = b"MAPPING m FROM u TO l TYPES c IS e; t IS d; FUNCTIONS two() IS b; one() IS 1;
END_MAPPING";
    match made(alloc, &TWO, &LOWER, text) {
        Ok(Ok(mapping)) => Ok(Ok(is_two(&mapping))),
        Ok(Err(fault)) => Ok(Err(fault)),
        Err(fault) => Err(fault),
    }
}

#[test]
fn types_stand_in_the_upper_order_and_rows_in_that_of_the_text(rt: HostRuntime) {
    holds(&rt, told_two(rt.alloc()));
}
