//! A leg's write set: at most eight writes in rising order of their keys, one for a key.
ghost use Rattle.std.specs.Prelude.{◌≡◌, ◌≤◌, [], length, OnOk, OnErr};
ghost use Rattle.std.specs.Result.{result_and, result_map_both};
ghost use Rattle.store.specs.Meaning.{written_to};
ghost use Rattle.engine_model.specs.WriteSets.{place_by_order, with_write, united};
ghost use Rattle.engine_parts.specs.WriteSets.{writes_of, fit_or_refused};

use crate::list::BoundedList;
use snapshot::{Refusal, WRITE_KEYS, Write, find};

/// The writes. `write` alone puts one in, where its key belongs.
#[derive(Clone, Copy)]
pub struct WriteSet {
    writes: BoundedList<Write, WRITE_KEYS>,
}

impl WriteSet {
    /// A set without writes.
    pub fn new() -> WriteSet
        ensures { writes_of result ≡ [] }
    {
        WriteSet {
            writes: BoundedList::new(),
        }
    }

    /// The writes, from the first to the last.
    pub fn as_slice(&self) -> &[Write]
        ensures value { result.now ≡ writes_of self.now }
        ensures fits { length result.now ≤ 8 }
    {
        self.writes.as_slice()
    }

    /// The value that was written to the key, if one was.
    #[tactic(auto, using(crate::proofs::WriteSetLemmas::value_found))]
    pub fn value_of(&self, key: u8) -> Option<u32>
        ensures { result ≡ written_to key (writes_of self.now) }
    {
        self.writes.with_key(key).map(|held| held.value)
    }

    // The place of the first write to a higher key, or past the last where there is none.
    fn place_by_order(&self, key: u8) -> usize
        ensures { result ≡ place_by_order key (writes_of self.now) }
    {
        let writes = self.as_slice();
        writes
            .iter()
            .position(|held| key < held.key)
            .unwrap_or(writes.len())
    }

    /// Makes a write, which takes the place of the first one to its key, or where there is none goes before the first write to
    /// a higher key. Refused where the set would pass eight keys.
    pub fn write(&mut self, write: Write) -> Result<(), Refusal>
        ensures answer { result ≡ result_and (fit_or_refused (with_write write (writes_of self.old))) (Ok tt) }
        ensures after { OnOk result (writes_of self.new ≡ with_write write (writes_of self.old)) }
        ensures unchanged { OnErr result (self.new ≡ self.old) }
    {
        match find(self.as_slice(), write.key) {
            Some(place) => self.writes.put(place, write),
            None => {
                let place = self.place_by_order(write.key);
                if !self.writes.insert(place, write) {
                    return Err(Refusal::WriteSetFull);
                }
            }
        }
        Ok(())
    }

    /// This set and a later one united: a key in both has the later one's value. Refused where that would pass eight keys.
    pub fn join(&self, later: &WriteSet) -> Result<WriteSet, Refusal>
        ensures { result_map_both writes_of (λ e. e) result ≡ fit_or_refused (united (writes_of self.now) (writes_of later.now)) }
    {
        let mut both = *self;
        for write in later.as_slice() {
            both.write(*write)?;
        }
        Ok(both)
    }
}
