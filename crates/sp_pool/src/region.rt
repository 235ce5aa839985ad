ghost use Rattle.std.specs.Prelude.{◌≡◌, ◌+◌, ◌<◌, ◌≤◌, ◌++◌, ◌∷◌, [], length, take, Some, IsTrue, ◌↔◌, IfOk, OnOk, OnErr, slice_get};
ghost use Rattle.sp_pool.specs.Records.{AreBounds, HasRoom, record_at};

use sp_text::Memory;
use std::alloc::Global;
use std::marker::Model;

/// A region hasn't room for a record's words, or for one more record.
#[derive(Clone, Copy, Debug, PartialEq, Eq)]
pub struct RegionFull;

/// One block of words, from which records are placed one behind the other and given up from the end.
#[derive(Drop)]
pub struct Region {
    words: Vec<u32>,
    /// Where each record begins, and the end of the last.
    bounds: Vec<u32>,
    most_words: u32,
    most_records: u32,
}

impl Model for Region {
    ghost use Rattle.std.specs.Prelude.{vec_capacity};
    ghost use Rattle.sp_pool.specs.Records.{Records, records_between, IsRegion};

    ghost Value = { Records };

    ghost view = { λ a. record {
      records = records_between a.words.items a.bounds.items;
      most_words = a.most_words;
      most_records = a.most_records;
    } };

    ghost invariant = { λ a. IsRegion a.words.items a.bounds.items a.most_words a.most_records (vec_capacity a.words) (vec_capacity a.bounds) };
}

/// The words between a bound and the next.
fn record_in<'a>(words: &'a [u32], bounds: &[u32], k: usize) -> &'a [u32]
    requires bounds { AreBounds words.now bounds.now }
    requires held { k + 1 < length bounds.now }
    ensures { result.now ≡ record_at words.now bounds.now k }
{
    &words[bounds[k] as usize..bounds[k + 1] as usize]
}

impl Region {
    /// A region without records. It takes all its room.
    ///
    /// # Errors
    /// `Memory` where the room is refused.
    pub fn new(alloc: Global, words: u32, records: u32) -> Result<Region, Memory>
        ensures { IfOk result (λ region. region ≡ record { records = []; most_words = words; most_records = records }) }
    {
        let mut bounds = Vec::with_capacity(alloc, records as usize + 1)?;
        bounds.push(0)?;
        Ok(Region {
            words: Vec::with_capacity(alloc, words as usize)?,
            bounds,
            most_words: words,
            most_records: records,
        })
    }

    /// Places a record of these words as the last one, and answers its number, which is the count before.
    ///
    /// # Errors
    /// `RegionFull` exactly where there is no room; the region is then as before.
    pub fn place(&mut self, words: &[u32]) -> Result<u32, RegionFull>
        ensures number { IfOk result (λ k. k ≡ length self.old.records) }
        ensures placed { OnOk result (self.new ≡ record self.old { records = self.old.records ++ words.now ∷ [] }) }
        ensures room { OnOk result (HasRoom self.old (length words.now)) }
        ensures full { OnErr result (¬ HasRoom self.old (length words.now)) }
        ensures err { OnErr result (self.new ≡ self.old) }
    {
        if !self.has_room(words.len()) {
            return Err(RegionFull);
        }
        let number = self.count();
        if self.words.extend_from_slice(words).is_err() {
            unreachable!();
        }
        if self.bounds.push(self.words.len() as u32).is_err() {
            unreachable!();
        }
        Ok(number)
    }

    /// Whether a record of this many words has room.
    fn has_room(&self, count: usize) -> bool
        ensures { IsTrue result ↔ HasRoom self.now count }
    {
        count <= self.most_words as usize - self.words.len() && self.count() < self.most_records
    }

    /// The words of a record.
    pub fn record(&self, k: u32) -> &[u32]
        requires { k < length self.now.records }
        ensures { slice_get self.now.records k ≡ Some result.now }
    {
        record_in(&self.words, &self.bounds, k as usize)
    }

    /// How many records there are.
    pub fn count(&self) -> u32
        ensures { result ≡ length self.now.records }
    {
        (self.bounds.len() - 1) as u32
    }

    /// Keeps the first records and no other.
    pub fn release(&mut self, k: u32)
        requires { k ≤ length self.old.records }
        ensures { self.new ≡ record self.old { records = take k self.old.records } }
    {
        self.bounds.truncate(k as usize + 1);
        self.words.truncate(self.bounds[k as usize] as usize);
    }
}
