use sp_pool::{Full, Head, Mark, Node, PlainPool, Pool, Region, RegionFull, TermId};
use sp_values::{Op, Value};
use std::test::Fail;

fn leaf(head: Head) -> Node {
    Node {
        head,
        count: 0,
        args: [TermId(0); 8],
    }
}

fn intern(pool: &mut Pool, head: Head) -> Result<TermId, Full> {
    let node = Node {
        head,
        count: 0,
        args: [TermId(0); 8],
    };
    pool.intern(node)
}

fn intern_plain(pool: &mut PlainPool, head: Head) -> Result<TermId, Full> {
    let node = Node {
        head,
        count: 0,
        args: [TermId(0); 8],
    };
    pool.intern(node)
}

#[test]
fn a_full_pool_gives_up_its_last_terms(rt: HostRuntime) -> Result<(), Fail> {
    let mut pool = Pool::new(rt.alloc())?;
    for k in 0..510 {
        assert_eq!(rt; intern(&mut pool, Head::Var(k)), Ok(TermId(k + 2)));
    }
    assert_eq!(rt; intern(&mut pool, Head::Var(510)), Err(Full));
    assert_eq!(rt; intern(&mut pool, Head::Var(7)), Ok(TermId(9)));
    assert!(rt; pool.len() == 512);
    pool.release(Mark(300));
    assert_eq!(rt; pool.find(&leaf(Head::Var(298))), None);
    assert_eq!(rt; pool.find(&leaf(Head::Var(297))), Some(TermId(299)));
    assert_eq!(rt; intern(&mut pool, Head::Var(510)), Ok(TermId(300)));
    Ok(())
}

/// Whether both pools answer the same of a head without arguments.
fn answer_alike(pool: &mut Pool, plain: &mut PlainPool, head: Head) -> bool {
    let found = pool.find(&leaf(head)) == plain.find(&leaf(head));
    intern(pool, head) == intern_plain(plain, head) && found
}

/// Heads of several forms, some of which come again and again.
fn head_of(k: u16) -> Head {
    match k % 5 {
        0 => Head::Const(Value::Int(i64::from(k) - 1024)),
        1 => Head::Const(Value::Int(i64::MIN + i64::from(k % 10))),
        2 => Head::Const(Value::Member(k, k / 2)),
        3 => Head::Look(k % 7 * 1024 + k % 512),
        _ => Head::Two(Op::Glb),
    }
}

#[test]
fn both_pools_answer_alike(rt: HostRuntime) -> Result<(), Fail> {
    let mut pool = Pool::new(rt.alloc())?;
    let mut plain = PlainPool::new(rt.alloc())?;
    for k in 0..900 {
        assert!(rt;
            answer_alike(&mut pool, &mut plain, head_of(k % 450)),
            "at {k}"
        );
        if k % 300 == 299 {
            assert!(rt; pool.len() >= 100 && plain.len() >= 100);
            pool.release(Mark(100));
            plain.release(Mark(100));
        }
    }
    Ok(())
}

#[test]
fn a_term_is_read_back(rt: HostRuntime) -> Result<(), Fail> {
    let mut pool = Pool::new(rt.alloc())?;
    let term = intern(&mut pool, Head::Two(Op::LevelLe))
        .ok()
        .ok_or("full")?;
    assert_eq!(rt; term, TermId(2));
    assert_eq!(rt; pool.mark(), Mark(3));
    assert!(rt; pool.len() == 3);
    assert_eq!(rt; pool.node(TermId(0)), leaf(Head::Const(Value::Truth(true))));
    assert_eq!(rt; pool.node(TermId(2)), leaf(Head::Two(Op::LevelLe)));
    Ok(())
}

#[test]
fn a_region_keeps_its_first_records(rt: HostRuntime) -> Result<(), Fail> {
    let mut region = Region::new(rt.alloc(), 4, 8)?;
    assert_eq!(rt; region.place(&[1, 2, 3]), Ok(0));
    assert_eq!(rt; region.place(&[4, 5]), Err(RegionFull));
    assert_eq!(rt; region.place(&[4]), Ok(1));
    assert!(rt; region.count() == 2);
    region.release(1);
    assert_eq!(rt; region.place(&[9]), Ok(1));
    assert!(rt; region.count() == 2);
    assert_eq!(rt; region.record(0), [1, 2, 3].as_slice());
    Ok(())
}
