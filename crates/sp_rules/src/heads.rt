//! Tests of a term's head.

ghost use Rattle.std.specs.Prelude.{◌≡◌, ◌==◌, ◌||◌, ◌&&◌, true};
ghost use Rattle.sp_values.specs.Identity.{same_value};
ghost use Rattle.sp_rules.specs.Terms.{same_head, are_alike, has_op, is_two, is_not, is_if, are_below, is_constant_of, is_integer, gives, computes};
ghost use Rattle.sp_rules.specs.Clash.{are_apart, are_denied};

use sp_lattice::Lattice;
use sp_pool::{Head, Node};
use sp_values::{Op, Value, add, mul, sub};

fn are_same_heads(a: &Head, b: &Head) -> bool
    ensures { result ≡ same_head a.now b.now }
{
    a == b
}

fn are_same_values(a: &Value, b: &Value) -> bool
    ensures { result ≡ same_value a.now b.now }
{
    a == b
}

/// Whether two terms have one head and as many arguments.
pub fn alike(a: &Node, b: &Node) -> bool
    ensures { result ≡ are_alike a.now b.now }
{
    are_same_heads(&a.head, &b.head) && a.count == b.count
}

fn has_operator(op: Op, head: &Head) -> bool
    ensures { result ≡ has_op op head.now }
{
    match head {
        Head::Two(other) => op == *other,
        _ => false,
    }
}

/// Whether a term is of this operator on two arguments.
pub fn is_of(op: Op, node: &Node) -> bool
    ensures { result ≡ is_two op node.now }
{
    has_operator(op, &node.head) && node.count == 2
}

/// Whether a term is NOT of an argument.
pub fn is_negation(node: &Node) -> bool
    ensures { result ≡ is_not node.now }
{
    matches!(&node.head, Head::Not) && node.count == 1
}

/// Whether a term is IF of three arguments.
pub fn is_choice(node: &Node) -> bool
    ensures { result ≡ is_if node.now }
{
    matches!(&node.head, Head::If) && node.count == 3
}

/// Whether both are level constants, the first of which is below the second or the same.
pub fn order_of(lattice: &Lattice, a: &Head, b: &Head) -> bool
    ensures { result ≡ are_below lattice.now a.now b.now }
{
    match (a, b) {
        (Head::Const(Value::Level(x)), Head::Const(Value::Level(y))) => {
            if *x >= lattice.count() {
                return false;
            }
            if *y >= lattice.count() {
                return false;
            }
            lattice.le(*x, *y)
        }
        _ => false,
    }
}

/// Whether both are constants, and different ones.
pub fn apart(a: &Head, b: &Head) -> bool
    ensures { result ≡ are_apart a.now b.now }
{
    match (a, b) {
        (Head::Const(a), Head::Const(b)) => !are_same_values(a, b),
        _ => false,
    }
}

/// Whether both are level constants, whose order the lattice denies.
pub fn denied(lattice: &Lattice, a: &Head, b: &Head) -> bool
    ensures { result ≡ are_denied lattice.now a.now b.now }
{
    match (a, b) {
        (Head::Const(Value::Level(_)), Head::Const(Value::Level(_))) => !order_of(lattice, a, b),
        _ => false,
    }
}

/// Whether it is the constant of level x.
pub fn is_level_constant(x: u16, head: &Head) -> bool
    ensures { result ≡ is_constant_of x head.now }
{
    match head {
        Head::Const(Value::Level(y)) => x == *y,
        _ => false,
    }
}

fn is_integer_value(value: &Value) -> bool
    ensures { result ≡ is_integer value.now }
{
    matches!(value, Value::Int(_) | Value::Unknown)
}

fn operator_gives(head: &Head, a: Value, b: Value, v: Value) -> bool
    requires a { is_integer a ≡ true }
    requires b { is_integer b ≡ true }
    ensures { result ≡ gives head.now a b v }
{
    match head {
        Head::Two(Op::Add) => are_same_values(&add(a, b), &v),
        Head::Two(Op::Sub) => are_same_values(&sub(a, b), &v),
        Head::Two(Op::Mul) => are_same_values(&mul(a, b), &v),
        _ => false,
    }
}

/// Whether the constants b and c give the constant d by the operator of head a.
pub fn has_value(a: &Head, b: &Head, c: &Head, d: &Head) -> bool
    ensures { result ≡ computes a.now b.now c.now d.now }
{
    match (b, c, d) {
        (Head::Const(u), Head::Const(v), Head::Const(w)) => {
            is_integer_value(u)
                && is_integer_value(v)
                && is_integer_value(w)
                && operator_gives(a, *u, *v, *w)
        }
        _ => false,
    }
}
