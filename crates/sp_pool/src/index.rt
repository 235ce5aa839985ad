//! The index of a region's records by the hash of their words: a ring of slots, probed from the hash on.

ghost use Rattle.std.specs.Prelude.{◌≡◌, ◌+◌, ◌<◌, ◌≤◌, ◌↔◌, [], IfOk, IsTrue, Some, length, take};
ghost use Rattle.sp_pool.specs.Index.{IsIndex, IsLookup, hash, number_in};

use crate::region::Region;
use sp_text::Memory;
use std::alloc::Global;

/// How many slots an index has, twice as many as a pool has nodes.
pub const SLOTS: usize = 1024;

/// What looking for words tells: the number of the record that has them, or the vacant slot where one is to stand.
#[derive(Clone, Copy)]
pub enum Lookup {
    Occupied(u16),
    Vacant(usize),
}

/// The index of no records.
pub fn empty(alloc: Global) -> Result<Vec<Option<u16>>, Memory>
    ensures { IfOk result (λ slots. IsIndex [] slots.items) }
{
    Ok(vec![in alloc; None; SLOTS]?)
}

/// The hash of words: the slot that the first probe looks at.
fn hash(words: &[u32]) -> usize
    ensures hash { result ≡ hash words.now }
    ensures within { result < 1024 }
{
    let mut hash: u64 = 0;
    for word in words {
        hash = (hash * 33 + u64::from(*word)) % 1024;
    }
    hash as usize
}

fn is_same(words: &[u32], others: &[u32]) -> bool
    ensures { IsTrue result ↔ (words.now ≡ others.now) }
{
    words == others
}

/// Looks for a record of these words.
pub fn look_up(slots: &[Option<u16>], region: &Region, words: &[u32]) -> Lookup
    requires index { IsIndex region.now.records slots.now }
    requires few { length region.now.records ≤ 512 }
    ensures { IsLookup region.now.records slots.now words.now result }
{
    let hash = hash(words);
    for step in 0..SLOTS {
        let slot = (hash + step) % SLOTS;
        let Some(number) = slots[slot] else {
            return Lookup::Vacant(slot);
        };
        if is_same(region.record(number as u32), words) {
            return Lookup::Occupied(number);
        }
    }
    unreachable!()
}

/// The slot of the last of the first records.
fn slot_of(slots: &[Option<u16>], region: &Region, number: u16) -> usize
    requires held { number < length region.now.records }
    requires index { IsIndex (take (number + 1) region.now.records) slots.now }
    ensures { number_in slots.now result ≡ Some number }
{
    let hash = hash(region.record(number as u32));
    for step in 0..SLOTS {
        let slot = (hash + step) % SLOTS;
        if slots[slot] == Some(number) {
            return slot;
        }
    }
    unreachable!()
}

/// Vacates the slots of the records from the mark on, the last one first.
pub fn release(slots: &mut [Option<u16>], region: &Region, mark: u16)
    requires index { IsIndex region.now.records slots.old }
    requires few { length region.now.records ≤ 512 }
    requires held { mark ≤ length region.now.records }
    ensures { IsIndex (take mark region.now.records) slots.new }
{
    for number in (mark..region.count() as u16).rev() {
        let slot = slot_of(slots, region, number);
        slots[slot] = None;
    }
}
