ghost use Rattle.sp_core.specs.Instances.{InstanceParts, IsInstanceOf};
ghost use Rattle.sp_core.specs.Parts.{Parts};
ghost use Rattle.sp_examples.specs.Common.{AreOverLowHigh};
ghost use Rattle.sp_examples.specs.Counting.{counting};
ghost use Rattle.sp_report.specs.Answers.{IsAnswerIn, IsValueIn};

use crate::counting::counting;
use sp_core::{Answer, Instance, Spec};
use sp_report::{print_answer, print_value};
use sp_values::Value;
use std::alloc::Global;
use std::test::Fail;

// The instance: there are no declared types and no parameters.
fn instance(alloc: Global, spec: &Spec) -> Instance
    requires { AreOverLowHigh counting spec.now }
    ensures { IsInstanceOf spec.now result }
{
    Instance::assemble(spec, Vec::new(alloc), Vec::new(alloc))
}

// Whether a value is printed so.
fn is_value_printed(alloc: Global, value: Value, text: &[u8]) -> Result<bool, Fail>
    requires { (p : Parts) (i : InstanceParts) → IsValueIn p i value }
{
    let spec = counting(alloc)?;
    let instance = instance(alloc, &spec);
    let mut out = Vec::new(alloc);
    print_value(alloc, &spec, &instance, value, &mut out)?;
    Ok(out.as_slice() == text)
}

// Whether an answer of the first function is printed so.
fn is_answer_printed(alloc: Global, answer: Answer, text: &[u8]) -> Result<bool, Fail>
    requires { (p : Parts) (i : InstanceParts) → IsAnswerIn p i answer }
{
    let spec = counting(alloc)?;
    let instance = instance(alloc, &spec);
    let mut out = Vec::new(alloc);
    print_answer(alloc, &spec, &instance, 0, &answer, &mut out)?;
    Ok(out.as_slice() == text)
}

#[test]
fn values_are_printed(rt: HostRuntime) -> Result<(), Fail> {
    assert!(rt; is_value_printed(rt.alloc(), Value::Truth(false), b"FALSE")?);
    assert!(rt; is_value_printed(rt.alloc(), Value::Unknown, b"?")?);
    Ok(())
}

#[test]
fn answers_are_printed(rt: HostRuntime) -> Result<(), Fail> {
    assert!(rt; is_answer_printed(rt.alloc(), Answer::Done, b"DONE")?);
    assert!(rt; is_answer_printed(rt.alloc(), Answer::Value(Value::Unknown), b"VALUE ?")?);
    Ok(())
}
