//! A formula with terms of each form, to test each rule.

use crate::builder::{Builder, Term, Unbuilt};
use sp_pool::Head;
use sp_values::{Op, Value};
use std::alloc::Global;

// The numbers of the terms, in the order in which they are put in below.
pub const TRUE: u16 = 0;

pub const FALSE: u16 = 1;

pub const X: u16 = 2;

pub const Y: u16 = 3;

pub const Z: u16 = 4;

pub const X_LUB_Y: u16 = 5;

pub const X_GLB_Y: u16 = 6;

pub const BOTTOM: u16 = 7;

pub const LEVEL_1: u16 = 8;

pub const LEVEL_2: u16 = 9;

pub const TOP: u16 = 10;

pub const X_IS_Y: u16 = 11;

pub const X_LE_Y: u16 = 12;

pub const Y_LE_X: u16 = 13;

pub const Y_LE_Z: u16 = 14;

pub const X_LE_Z: u16 = 15;

pub const Z_LE_X: u16 = 16;

pub const Z_LE_Y: u16 = 17;

pub const A: u16 = 18;

pub const B: u16 = 19;

pub const C: u16 = 20;

pub const NOT_A: u16 = 21;

pub const A_AND_B: u16 = 22;

pub const A_OR_B: u16 = 23;

pub const X_OR_ELSE_Y: u16 = 24;

pub const X_OR_ELSE_X: u16 = 25;

pub const U: u16 = 26;

pub const V: u16 = 27;

pub const W: u16 = 28;

pub const U_IS_V: u16 = 29;

pub const V_IS_W: u16 = 30;

pub const U_IS_W: u16 = 31;

pub const F_OF_U: u16 = 32;

pub const F_OF_V: u16 = 33;

pub const TWO: u16 = 34;

pub const THREE: u16 = 35;

pub const U_IS_TWO: u16 = 36;

pub const U_PLUS_3: u16 = 37;

pub const FIVE: u16 = 38;

pub const U_LESS_3: u16 = 39;

pub const MINUS_ONE: u16 = 40;

pub const U_TIMES_3: u16 = 41;

pub const SIX: u16 = 42;

pub const GREATEST: u16 = 43;

pub const V_IS_GREATEST: u16 = 44;

pub const V_TIMES_3: u16 = 45;

pub const UNKNOWN: u16 = 46;

/// The LEVEL variables x, y and z, the bounds of x and y, and the constants of the levels.
const LEVELS: [Term; 9] = [
    (Head::Var(0), &[], true),
    (Head::Var(1), &[], true),
    (Head::Var(2), &[], true),
    (Head::Two(Op::Lub), &[X, Y], true),
    (Head::Two(Op::Glb), &[X, Y], true),
    (Head::Const(Value::Level(0)), &[], true),
    (Head::Const(Value::Level(1)), &[], true),
    (Head::Const(Value::Level(2)), &[], true),
    (Head::Const(Value::Level(3)), &[], true),
];

/// Comparisons of x, y and z.
const COMPARISONS: [Term; 7] = [
    (Head::Two(Op::Same), &[X, Y], false),
    (Head::Two(Op::LevelLe), &[X, Y], false),
    (Head::Two(Op::LevelLe), &[Y, X], false),
    (Head::Two(Op::LevelLe), &[Y, Z], false),
    (Head::Two(Op::LevelLe), &[X, Z], false),
    (Head::Two(Op::LevelLe), &[Z, X], false),
    (Head::Two(Op::LevelLe), &[Z, Y], false),
];

/// The BOOLEAN variables a, b and c, and what is made of a and b.
const TRUTHS: [Term; 8] = [
    (Head::Var(3), &[], false),
    (Head::Var(4), &[], false),
    (Head::Var(5), &[], false),
    (Head::Not, &[A], false),
    (Head::Two(Op::And), &[A, B], false),
    (Head::Two(Op::Or), &[A, B], false),
    (Head::If, &[A, X, Y], true),
    (Head::If, &[A, X, X], true),
];

/// The INTEGER variables u, v and w, their equalities, and a function at u and at v.
const INTEGERS: [Term; 8] = [
    (Head::Var(6), &[], false),
    (Head::Var(7), &[], false),
    (Head::Var(8), &[], false),
    (Head::Two(Op::Same), &[U, V], false),
    (Head::Two(Op::Same), &[V, W], false),
    (Head::Two(Op::Same), &[U, W], false),
    (Head::Look(0), &[U], false),
    (Head::Look(0), &[V], false),
];

/// Calculations with u, and their values where u is 2.
const SUMS: [Term; 9] = [
    (Head::Const(Value::Int(2)), &[], false),
    (Head::Const(Value::Int(3)), &[], false),
    (Head::Two(Op::Same), &[U, TWO], false),
    (Head::Two(Op::Add), &[U, THREE], false),
    (Head::Const(Value::Int(5)), &[], false),
    (Head::Two(Op::Sub), &[U, THREE], false),
    (Head::Const(Value::Int(-1)), &[], false),
    (Head::Two(Op::Mul), &[U, THREE], false),
    (Head::Const(Value::Int(6)), &[], false),
];

/// A product out of range, and its value `?`.
const VALUES: [Term; 5] = [
    (Head::Const(Value::Int(i64::MAX)), &[], false),
    (Head::Two(Op::Same), &[V, GREATEST], false),
    (Head::Two(Op::Mul), &[V, THREE], false),
    (Head::Const(Value::Unknown), &[], false),
    (Head::Two(Op::Mul), &[GREATEST, THREE], false),
];

// The terms are put into a borrowed builder, so that no step that fails has to let go of it.
fn put_all(builder: &mut Builder) -> Result<(), Unbuilt> {
    builder.put(&LEVELS)?;
    builder.put(&COMPARISONS)?;
    builder.put(&TRUTHS)?;
    builder.put(&INTEGERS)?;
    builder.put(&SUMS)?;
    builder.put(&VALUES)
}

/// One formula with terms of each form: the terms of the constants above, from 2 on.
///
/// # Errors
/// As those of `Builder`.
pub fn each_form(alloc: Global) -> Result<Builder, Unbuilt> {
    let mut builder = Builder::new(alloc)?;
    put_all(&mut builder)?;
    Ok(builder)
}
