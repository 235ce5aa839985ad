use sp_ordered::order_names;
use sp_text::{Malformed, Memory, Name, Rule, Sequence, Span, SpecFault, TextFault};
use sp_tree::{Ident, InterfaceTree, LatticeTree};
use std::alloc::Global;
use std::test::Fail;

fn place(start: u32) -> Span {
    Span { start, end: start }
}

fn ident(alloc: Global, name: &[u8], start: u32) -> Result<Ident, Memory> {
    Ok(Ident {
        name: Name::new(alloc, name)?,
        span: place(start),
    })
}

fn two(alloc: Global, low: &[u8], high: &[u8], start: u32) -> Result<Sequence<Ident>, Memory> {
    let mut names = Vec::new(alloc);
    names.push(ident(alloc, low, start)?)?;
    names.push(ident(alloc, high, start)?)?;
    Ok(Sequence::new(names))
}

// An interface of two levels L and H, whose keyword stands at 10.
fn interface(
    alloc: Global,
    modules: Sequence<Ident>,
    chains: Vec<Sequence<Ident>>,
) -> Result<InterfaceTree, Memory> {
    let levels = two(alloc, b"L", b"H", 20)?;
    Ok(InterfaceTree {
        name: ident(alloc, b"i", 1)?,
        modules,
        lattice: LatticeTree::Order(place(10), levels, Sequence::new(chains)),
        levels: Sequence::new(Vec::new(alloc)),
        sample: ident(alloc, b"s", 50)?,
    })
}

fn cycle(alloc: Global) -> Result<Vec<Sequence<Ident>>, Memory> {
    let mut chains = Vec::new(alloc);
    chains.push(two(alloc, b"L", b"H", 30)?)?;
    chains.push(two(alloc, b"H", b"L", 40)?)?;
    Ok(chains)
}

fn refused(alloc: Global, interface: &InterfaceTree) -> Option<SpecFault> {
    order_names(alloc, interface, &[]).err()
}

fn broken(start: u32, rule: Rule) -> Option<SpecFault> {
    let span = place(start);
    let fault = TextFault::Malformed(Malformed { span, rule });
    Some(SpecFault { file: 0, fault })
}

#[test]
fn names_come_with_the_lattice_of_the_levels(rt: HostRuntime) -> Result<(), Fail> {
    let alloc = rt.alloc();
    let mut chains = Vec::new(alloc);
    chains.push(two(alloc, b"L", b"H", 30)?)?;
    let i = interface(alloc, Sequence::new(Vec::new(alloc)), chains)?;
    match order_names(alloc, &i, &[]) {
        Ok(ordered) => assert_eq!(rt; (ordered.lattice.bottom(), ordered.lattice.top()), (0, 1)),
        Err(_) => assert!(rt; false),
    }
    Ok(())
}

#[test]
fn a_cycle_stands_at_the_keyword(rt: HostRuntime) -> Result<(), Fail> {
    let alloc = rt.alloc();
    let i = interface(alloc, two(alloc, b"m", b"m", 15)?, cycle(alloc)?)?;
    assert_eq!(rt; refused(alloc, &i), broken(10, Rule::Cycle(0, 1)));
    Ok(())
}

#[test]
fn a_name_that_stands_twice_before_it_is_told_first(rt: HostRuntime) -> Result<(), Fail> {
    let alloc = rt.alloc();
    let i = interface(alloc, two(alloc, b"m", b"m", 5)?, cycle(alloc)?)?;
    assert_eq!(rt; refused(alloc, &i), broken(5, Rule::TwiceDeclared));
    Ok(())
}
