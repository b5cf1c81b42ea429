//! A worker's cache: at most eight entries, one for a key, in the order of their use.
ghost use Rattle.std.specs.Prelude.{◌≡◌, ℕ, [], ◌∷◌, ◌++◌, remove};
ghost use Rattle.engine_model.specs.Caches as model;
ghost use Rattle.engine_parts.specs.Caches.{cache_of, caches_of};

use crate::list::BoundedList;
use engine_model::{CacheEntry, Notice};
use snapshot::{CACHE_KEYS, Interval, Reading, WORKERS, find};
use std::marker::Model;

/// How many caches there are: one for a worker.
pub const CACHES: usize = WORKERS as usize;

// How many keys can be told apart.
const ALL_KEYS: usize = 256;

/// The entries, the one used longest ago first, and how many there are of each key, so that a key without an entry is not looked
/// for.
#[derive(Drop)]
pub struct Cache {
    entries: BoundedList<CacheEntry, CACHE_KEYS>,
    counts: [u8; ALL_KEYS],
}

impl Model for Cache {
    ghost use Rattle.engine_parts.specs.Lists.{elements_of};
    ghost use Rattle.engine_parts.specs.Caches.{CacheFields, CountsEntries};

    ghost Value = { CacheFields };

    ghost view = { λ c. record { entries = c.entries; counts = c.counts } };

    ghost invariant = { λ c. CountsEntries c.counts (elements_of c.entries) };
}

impl Cache {
    /// A cache without entries.
    pub fn new() -> Cache
        ensures { cache_of result ≡ [] }
    {
        Cache {
            entries: BoundedList::new(),
            counts: [0; ALL_KEYS],
        }
    }

    /// Has the worker an entry of this key?
    pub fn holds(&self, key: u8) -> bool
        ensures { result ≡ model.holds key (cache_of self.now) }
    {
        self.counts[usize::from(key)] > 0
    }

    /// The entry of a key, if there is one.
    pub fn look_up(&self, key: u8) -> Option<CacheEntry>
        ensures { result ≡ model.look_up key (cache_of self.now) }
    {
        if !self.holds(key) {
            return None;
        }
        self.entries.with_key(key)
    }

    /// The entry that answers a read of the key on a leg with this interval: the key's entry, if it meets the interval.
    pub fn answering(&self, interval: Interval, key: u8) -> Option<CacheEntry>
        ensures { result ≡ model.answering interval key (cache_of self.now) }
    {
        let entry = self.look_up(key)?;
        if interval.meets(entry.reading) {
            Some(entry)
        } else {
            None
        }
    }

    /// An entry becomes the latest used, in the place of its key's; a ninth takes that of the entry used longest ago.
    pub fn use_latest(&mut self, entry: CacheEntry)
        ensures { cache_of self.new ≡ model.used_latest entry (cache_of self.old) }
    {
        self.take_out(entry.key);
        self.add_latest(entry);
    }

    /// After the store answered for a key at this time: the answer becomes the latest used entry, unless the key's entry is
    /// later than that time.
    pub fn keep_answer(&mut self, time: u64, answer: CacheEntry)
        ensures { cache_of self.new ≡ model.with_answer time answer (cache_of self.old) }
    {
        let later = self
            .look_up(answer.key)
            .is_some_and(|entry| entry.reading.timestamp > time);
        if !later {
            self.use_latest(answer);
        }
    }

    /// After a notice: the key's entry takes a later reading, or the larger promise of an equal one, and keeps its place in
    /// the order of use. Without an entry of the key there is no effect.
    #[tactic(auto, using(crate::proofs::CacheLemmas::no_entry_unchanged))]
    pub fn take_notice(&mut self, notice: Notice)
        ensures { cache_of self.new ≡ model.with_notice notice (cache_of self.old) }
    {
        let Some(place) = find(self.entries.as_slice(), notice.key) else {
            return;
        };
        if let Some(CacheEntry { key, reading }) = self.entries.get(place) {
            let reading = noticed(notice.reading, reading);
            self.entries.put(place, CacheEntry { key, reading });
        }
    }

    // Takes out the entry of a key.
    fn take_out(&mut self, key: u8)
        ensures { cache_of self.new ≡ model.without key (cache_of self.old) }
    {
        if !self.holds(key) {
            return;
        }
        if let Some(place) = find(self.entries.as_slice(), key) {
            self.entries.remove(place);
            self.counts[usize::from(key)] -= 1;
        }
    }

    // Adds an entry at the end, and where there are more than eight the first gives way.
    fn add_latest(&mut self, entry: CacheEntry)
        ensures { cache_of self.new ≡ model.last_eight (cache_of self.old ++ entry ∷ []) }
    {
        if self.entries.is_full() {
            self.drop_first();
        }
        let _ = self.entries.push(entry);
        self.counts[usize::from(entry.key)] += 1;
    }

    // Drops the entry that was used longest ago, if there is one.
    fn drop_first(&mut self)
        ensures { cache_of self.new ≡ remove (cache_of self.old) 0 }
    {
        if let Some(first) = self.entries.get(0) {
            self.entries.remove(0);
            self.counts[usize::from(first.key)] -= 1;
        }
    }
}

/// The caches of all workers, without entries.
pub fn empty_caches() -> [Cache; CACHES]
    ensures { (w : ℕ) → caches_of result w ≡ [] }
{
    [
        Cache::new(),
        Cache::new(),
        Cache::new(),
        Cache::new(),
        Cache::new(),
        Cache::new(),
        Cache::new(),
        Cache::new(),
    ]
}

// What a notice makes of a reading.
fn noticed(new: Reading, held: Reading) -> Reading
    ensures { result ≡ model.noticed new held }
{
    if held.timestamp < new.timestamp {
        new
    } else if held.timestamp == new.timestamp {
        Reading {
            promise: held.promise.max(new.promise),
            ..held
        }
    } else {
        held
    }
}
