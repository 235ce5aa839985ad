use sp_cert::CertFault;
use sp_report::print_cert_fault;
use sp_rules::{Fact, Lack};
use std::alloc::Global;
use std::test::Fail;

// Whether the fault is printed so.
fn is_printed(alloc: Global, fault: CertFault, text: &[u8]) -> Result<bool, Fail> {
    let mut out = Vec::new(alloc);
    print_cert_fault(alloc, &fault, &mut out)?;
    Ok(out.as_slice() == text)
}

#[test]
fn a_bad_step_is_told_with_what_it_lacks(rt: HostRuntime) -> Result<(), Fail> {
    let a = rt.alloc();
    let number = CertFault::BadStep(1, Lack::Number);
    assert!(rt; is_printed(a, number, b"step 1 lacks number")?);
    let form = CertFault::BadStep(12, Lack::Form);
    assert!(rt; is_printed(a, form, b"step 12 lacks form")?);
    let equal = CertFault::BadStep(18446744073709551615, Lack::Fact(Fact::Eq(12, 1)));
    assert!(rt; is_printed(a, equal, b"step 18446744073709551615 lacks EQ 12 1")?);
    let below = CertFault::BadStep(2, Lack::Fact(Fact::Le(0, 4294967295)));
    assert!(rt; is_printed(a, below, b"step 2 lacks LE 0 4294967295")?);
    Ok(())
}

#[test]
fn a_node_is_told_with_what_is_wrong_there(rt: HostRuntime) -> Result<(), Fail> {
    let a = rt.alloc();
    assert!(rt; is_printed(a, CertFault::NotAnAtom(1), b"node 1 NotAnAtom")?);
    assert!(rt; is_printed(a, CertFault::TooDeep(22), b"node 22 TooDeep")?);
    assert!(rt; is_printed(a, CertFault::NoClash(4), b"node 4 NoClash")?);
    Ok(())
}
