ghost use Rattle.std.specs.Prelude.{◌≡◌};
ghost use Rattle.sp_values.specs.Arithmetic.{IsInteger, at_most, difference, known, less_than, product, sum};

use crate::value::Value;

// The number as a value, or `?` where there is none.
fn value_of(number: Option<i64>) -> Value
    ensures { result ≡ known number }
{
    match number {
        Some(number) => Value::Int(number),
        None => Value::Unknown,
    }
}

/// The sum of two integers, which is `?` where one of them is `?` or the sum leaves 64 bits.
pub fn add(a: Value, b: Value) -> Value
    requires left { IsInteger a }
    requires right { IsInteger b }
    ensures { result ≡ sum a b }
{
    match (a, b) {
        (Value::Int(a), Value::Int(b)) => value_of(a.checked_add(b)),
        _ => Value::Unknown,
    }
}

/// The difference of two integers, which is `?` where one of them is `?` or the difference leaves 64 bits.
pub fn sub(a: Value, b: Value) -> Value
    requires left { IsInteger a }
    requires right { IsInteger b }
    ensures { result ≡ difference a b }
{
    match (a, b) {
        (Value::Int(a), Value::Int(b)) => value_of(a.checked_sub(b)),
        _ => Value::Unknown,
    }
}

/// The product of two integers, which is `?` where one of them is `?` or the product leaves 64 bits.
pub fn mul(a: Value, b: Value) -> Value
    requires left { IsInteger a }
    requires right { IsInteger b }
    ensures { result ≡ product a b }
{
    match (a, b) {
        (Value::Int(a), Value::Int(b)) => value_of(a.checked_mul(b)),
        _ => Value::Unknown,
    }
}

/// Whether both are numbers and the first is at most the second.
pub fn int_le(a: Value, b: Value) -> bool
    requires left { IsInteger a }
    requires right { IsInteger b }
    ensures { result ≡ at_most a b }
{
    match (a, b) {
        (Value::Int(a), Value::Int(b)) => a <= b,
        _ => false,
    }
}

/// Whether both are numbers and the first is less than the second.
pub fn int_lt(a: Value, b: Value) -> bool
    requires left { IsInteger a }
    requires right { IsInteger b }
    ensures { result ≡ less_than a b }
{
    match (a, b) {
        (Value::Int(a), Value::Int(b)) => a < b,
        _ => false,
    }
}
