use sp_values::{Args, Value, add, int_le, int_lt, mul, sub};

const GREATEST: Value = Value::Int(i64::MAX);

const LEAST: Value = Value::Int(i64::MIN);

#[test]
fn numbers_out_of_range_are_unknown(rt: HostRuntime) {
    assert_eq!(rt; add(GREATEST, Value::Int(1)), Value::Unknown);
    assert_eq!(rt; sub(LEAST, Value::Int(1)), Value::Unknown);
    assert_eq!(rt; mul(LEAST, Value::Int(-1)), Value::Unknown);
    assert_eq!(rt; add(GREATEST, LEAST), Value::Int(-1));
    assert_eq!(rt; mul(Value::Int(-3), Value::Int(5)), Value::Int(-15));
}

#[test]
fn a_comparison_with_unknown_is_false(rt: HostRuntime) {
    assert!(rt; !int_le(add(GREATEST, Value::Int(1)), Value::Int(0)));
    assert!(rt; !int_lt(Value::Int(0), Value::Unknown));
    assert!(rt; int_le(Value::Int(2), Value::Int(2)));
    assert!(rt; !int_lt(Value::Int(2), Value::Int(2)));
}

#[test]
fn unknown_is_identical_to_itself(rt: HostRuntime) {
    assert!(rt; Args::new(&[Value::Unknown]) == Args::new(&[Value::Unknown]));
    assert!(rt; Args::new(&[Value::Member(1, 0)]) != Args::new(&[Value::Member(0, 0)]));
}
