ghost use Rattle.sp_lattice.specs.Closure.{AreLevels};

use sp_lattice::{Lattice, LatticeDecl, LatticeFault};
use sp_text::Sequence;
use std::alloc::Global;
use std::test::Fail;

fn fault(alloc: Global, count: u32, below: Vec<(u32, u32)>) -> Option<LatticeFault>
    requires { AreLevels count below.items }
{
    let below = Sequence::new(below);
    Lattice::declare(alloc, &LatticeDecl { count, below }).err()
}

#[test]
fn two_levels_side_by_side_have_bounds(rt: HostRuntime) -> Result<(), Fail> {
    let below = Sequence::new(vec![in rt.alloc(); (0, 1), (1, 3), (0, 2), (2, 3)]?);
    let lattice = Lattice::declare(rt.alloc(), &LatticeDecl { count: 4, below })?.copy(rt.alloc())?;
    assert_eq!(rt; lattice.count(), 4);
    assert_eq!(rt; (lattice.bottom(), lattice.top()), (0, 3));
    assert_eq!(rt; (lattice.lub(1, 2), lattice.glb(1, 2)), (3, 0));
    assert!(rt; lattice.le(0, 3) && !lattice.le(1, 2) && !lattice.le(2, 1));
    Ok(())
}

#[test]
fn the_first_fault_is_answered(rt: HostRuntime) -> Result<(), Fail> {
    let alloc = rt.alloc();
    assert_eq!(rt; fault(alloc, 0, Vec::new(alloc)), Some(LatticeFault::Empty));
    assert_eq!(rt;
        fault(alloc, 257, Vec::new(alloc)),
        Some(LatticeFault::TooManyLevels(257))
    );
    let crossed = vec![in alloc; (0, 2), (0, 3), (1, 2), (1, 3)]?;
    assert_eq!(rt; fault(alloc, 4, crossed), Some(LatticeFault::NoLub(0, 1)));
    let cycle = vec![in alloc; (3, 1), (1, 2), (2, 1)]?;
    assert_eq!(rt; fault(alloc, 4, cycle), Some(LatticeFault::Cycle(1, 2)));
    let two_least = vec![in alloc; (0, 1), (2, 1)]?;
    assert_eq!(rt; fault(alloc, 3, two_least), Some(LatticeFault::NoGlb(0, 2)));
    Ok(())
}

#[test]
fn four_levels_with_three_categories_are_32(rt: HostRuntime) -> Result<(), Fail> {
    let lattice = Lattice::declare(rt.alloc(), &LatticeDecl::product(rt.alloc(), 4, 3)?)?;
    assert_eq!(rt; lattice.count(), 32);
    assert_eq!(rt; lattice.top(), 31);
    assert_eq!(rt; lattice.lub(0b01_001, 0b10_100), 0b10_101);
    assert!(rt; lattice.le(0b01_001, 0b10_011) && !lattice.le(0b01_001, 0b10_010));
    let many = LatticeDecl::product(rt.alloc(), 3, 31).err();
    assert_eq!(rt; many, Some(LatticeFault::TooManyLevels(u32::MAX)));
    Ok(())
}
