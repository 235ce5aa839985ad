use sp_bits::BitTable;
use std::test::Fail;

#[test]
fn a_pair_is_put_in_once_and_taken_out(rt: HostRuntime) -> Result<(), Fail> {
    let mut table = BitTable::new(rt.alloc(), 3)?;
    assert!(rt; !table.get(2, 1));
    assert!(rt; table.set(2, 1));
    assert!(rt; !table.set(2, 1));
    assert!(rt; table.get(2, 1));
    table.clear(2, 1);
    for i in 0..3 {
        for j in 0..3 {
            assert!(rt; !table.get(i, j));
        }
    }
    Ok(())
}

/// Puts a pair in, if its numbers are below the count.
fn put(table: &mut BitTable, i: u16, j: u16) -> bool {
    if i < table.count() && j < table.count() {
        table.set(i, j)
    } else {
        false
    }
}

fn is_row_within(table: &BitTable, p: u16, i: u16) -> bool {
    p < table.count() && i < table.count() && table.is_row_within(p, i)
}

#[test]
fn rows_of_many_words_are_compared(rt: HostRuntime) -> Result<(), Fail> {
    let mut table = BitTable::new(rt.alloc(), 512)?;
    assert!(rt; put(&mut table, 3, 511) && put(&mut table, 3, 64) && put(&mut table, 7, 64));
    assert!(rt; is_row_within(&table, 7, 3) && !is_row_within(&table, 3, 7));
    assert_eq!(rt; (table.word(3, 7), table.word(3, 1)), (1 << 63, 1));
    assert!(rt; table.contains(3, 511) && !table.contains(3, 512));
    Ok(())
}
