//! Worked texts that break nothing.

use crate::texts::{Counts, below, shows};
use sp_text::SpecFault;

/// A machine with files, of users with clearances.
pub const FILES: &[u8] = b"MODULE files
TYPES user: DESIGNATOR; file: DESIGNATOR;
PARAMETERS LEVEL clr(user u); LEVEL cls(file f);
FUNCTIONS
VFUN data(file f) -> INTEGER; HIDDEN; INITIALLY 0;
OVFUN read(user u; file f) -> INTEGER r;
  EXCEPTIONS no_read: NOT cls(f) <= clr(u);
  EFFECTS r = data(f);
OFUN write(user u; file f; INTEGER x);
  EXCEPTIONS no_write: NOT clr(u) <= cls(f);
  EFFECTS 'data(f) = x;
END_MODULE";

const FILES_INTERFACE: &[u8] = b"INTERFACE files
MODULES files;
LATTICE LOW, HIGH; ORDER LOW < HIGH;
LEVEL data(f) IS cls(f);
LEVEL read(u, f) IS clr(u);
LEVEL write(u, f, x) IS clr(u);
SAMPLE small;
END_INTERFACE";

const LEAKY: &[u8] = b"MODULE leaky
TYPES user: DESIGNATOR; file: DESIGNATOR;
PARAMETERS LEVEL clr(user u); LEVEL cls(file f);
FUNCTIONS
VFUN data(file f) -> INTEGER; HIDDEN; INITIALLY 0;
OVFUN read(user u; file f) -> INTEGER r;
  EXCEPTIONS no_read: NOT cls(f) <= clr(u);
  EFFECTS r = data(f);
OFUN write(user u; file f; INTEGER x);
  EFFECTS 'data(f) = x;
END_MODULE";

const LEAKY_INTERFACE: &[u8] = b"INTERFACE leaky
MODULES leaky;
LATTICE LOW, HIGH; ORDER LOW < HIGH;
LEVEL data(f) IS cls(f);
LEVEL read(u, f) IS clr(u);
LEVEL write(u, f, x) IS clr(u);
SAMPLE small;
END_INTERFACE";

// Stacks, of which a push reads the new height in its target.
const STACKS: &[u8] = b"MODULE m TYPES stk: DESIGNATOR; FUNCTIONS
VFUN ptr(stk s) -> INTEGER; HIDDEN; INITIALLY 0;
VFUN stack(stk s; INTEGER i) -> INTEGER; HIDDEN; INITIALLY ?;
OFUN push(stk s; INTEGER v); EFFECTS 'ptr(s) = ptr(s) + 1; 'stack(s, 'ptr(s)) = v;
OVFUN pop(stk s) -> INTEGER r; EXCEPTIONS empty: ptr(s) = 0;
  EFFECTS r = stack(s, ptr(s)); 'ptr(s) = ptr(s) - 1;
END_MODULE";

const STACKS_INTERFACE: &[u8] = b"INTERFACE m MODULES m; LATTICE LOW;
LEVEL ptr(s) IS LOW; LEVEL stack(s, i) IS LOW; LEVEL push(s, v) IS LOW; LEVEL pop(s) IS LOW;
SAMPLE s; END_INTERFACE";

fn specified(types: usize, parameters: usize, functions: usize) -> Result<Counts, SpecFault> {
    Ok(Counts {
        types,
        parameters,
        assertions: 0,
        functions,
    })
}

#[test]
fn files_with_and_without_the_exception_of_write(rt: HostRuntime) {
    let alloc = rt.alloc();
    shows(
        &rt,
        below(alloc, FILES_INTERFACE, FILES),
        specified(2, 2, 3),
    );
    shows(
        &rt,
        below(alloc, LEAKY_INTERFACE, LEAKY),
        specified(2, 2, 3),
    );
}

#[test]
fn new_values_in_targets(rt: HostRuntime) {
    let alloc = rt.alloc();
    shows(
        &rt,
        below(alloc, STACKS_INTERFACE, STACKS),
        specified(1, 0, 4),
    );
}
