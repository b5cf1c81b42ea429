//! The store of records: a list of records in any memory, with how many there are of each key, and the last timestamp.
ghost use Rattle.std.specs.Prelude.{◌≡◌, ◌+◌, ◌-◌, ◌<◌, ◌≤◌, true, length, take, Ok, IfOk};
ghost use Rattle.std.specs.Result.{result_and};
ghost use Rattle.std.proofs.Common.{lit≤};
ghost use Rattle.snapshot.specs.Limits.{is_key};
ghost use Rattle.store.specs.Meaning.{new_store, newest_at, pruned_at, versions_kept, with_writes, written_to};
ghost use Rattle.records.specs.Layouts.{Loan, HoldsVersions, are_sound, capacity_for, loan_of, memory_meaning, record_depth, room_for};
ghost use Rattle.records.specs.PerKeys.{number_for, total_of};
ghost use Rattle.records.specs.Records.{drop_firsts, if_fits};
ghost use Rattle.records.specs.Counts.{CountsOf, excess_for};

use crate::adding::{append, begin};
use crate::dropping::{count_versions, drop_runs, excess_versions, total_excess};
use crate::looking::{count_up_to, newest_at};
use crate::memory::RecordMemory;
use records::PerKey;
use snapshot::{Fault, Layer, Reading, Refusal, Write};
use store::{Reads, Store, Update, check_commit, check_query};

/// In fit memory the first `kept` records are those of the store, sound and in order, with nothing after them. Other memory is
/// left alone, and none is kept in it.
#[derive(Drop)]
pub struct RecordStore<M: RecordMemory> {
    pub(crate) memory: M,
    kept: usize,
    last: u64,
    counts: PerKey,
    ghost within: { kept ≤ room_for (M.fit memory) (length (M.records memory)) },
    ghost tidy: { M.fit memory ≡ true → M.tidy memory kept ≡ true },
    ghost sound: { are_sound (M.fit memory) (take kept (M.records memory)) last ≡ true },
    ghost counted: { CountsOf counts (take kept (M.records memory)) },
}

impl<M: RecordMemory> RecordStore<M> {
    /// A new store in this memory. Unfit memory is left alone, and the store in it takes no commit.
    pub fn new(memory: M) -> RecordStore<M>
        ensures meaning { memory_meaning M.fit M.records result.memory result.kept result.last ≡ new_store (capacity_for (M.fit memory) (length (M.records memory))) }
        ensures loan { loan_of M.name M.records M.fit M.held result.memory ≡ loan_of M.name M.records M.fit M.held memory }
    {
        let mut memory = memory;
        let (kept, counts) = begin(&mut memory);
        RecordStore {
            memory,
            kept,
            last: 0,
            counts,
        }
    }

    // How many records there is room for.
    fn room(&self) -> usize
        ensures { result ≡ room_for (M.fit self.now.memory) (length (M.records self.now.memory)) }
    {
        if self.memory.is_fit() {
            self.memory.len()
        } else {
            0
        }
    }

    // The newest version of a key that is not later than the time. Over unfit memory every key has its first version.
    fn newest(&self, key: u8, time: u64) -> Option<Reading>
        ensures { is_key key ≡ true → result ≡ newest_at time self.now.last ((memory_meaning M.fit M.records self.now.memory self.now.kept self.now.last).kept key) }
    {
        if self.memory.is_fit() {
            newest_at(&self.memory, self.kept, key, time, self.last)
        } else {
            Some(Reading {
                value: 0,
                timestamp: 0,
                promise: self.last,
            })
        }
    }

    // How many versions the keys of an update drop together so that none has more than the depth once it is written. Refused
    // where even then there is no room for it.
    fn excess(&self, update: Update) -> Result<usize, Fault>
        requires { self.now.last < update.timestamp }
        ensures answer { result_and result (Ok tt) ≡ if_fits (versions_kept (with_writes record_depth update.entry.timestamp update.entry.writes.now (memory_meaning M.fit M.records self.now.memory self.now.kept self.now.last))) (memory_meaning M.fit M.records self.now.memory self.now.kept self.now.last).capacity }
        ensures excess { IfOk result (λ e. e ≡ total_of (λ k. excess_for record_depth (written_to k update.entry.writes.now) (number_for self.now.counts k))) }
        ensures room { IfOk result (λ e. length update.entry.writes.now + (self.now.kept - e) ≤ room_for (M.fit self.now.memory) (length (M.records self.now.memory))) }
    {
        let excess = total_excess(&self.counts, update, Self::DEPTH as u16);
        if self.room() - (self.kept - excess) < update.writes.len() {
            return Err(Fault::unnamed(Refusal::CapacityExceeded, Layer::Store));
        }
        Ok(excess)
    }

    // Drops of each key its oldest records, so many as are named for it, `total` together.
    fn drop_oldest(&mut self, numbers: PerKey, total: usize)
        requires fit { M.fit self.old.memory ≡ true }
        requires total { total ≡ total_of (number_for numbers) }
        ensures left { take self.new.kept (M.records self.new.memory) ≡ drop_firsts (number_for numbers) (take self.old.kept (M.records self.old.memory)) }
        ensures size { length (M.records self.new.memory) ≡ length (M.records self.old.memory) }
        ensures last { self.new.last ≡ self.old.last }
        ensures same { (M.name self.new.memory ≡ M.name self.old.memory) × (M.fit self.new.memory ≡ M.fit self.old.memory) }
    {
        let left = drop_runs(&mut self.memory, self.kept, numbers, total);
        self.memory.clear(left, self.kept);
        self.counts.subtract(&numbers);
        self.kept = left;
    }

    // Drops of each written key what is too much, so that none has more than the depth once it is written: `excess` versions
    // together. Where that is none, nothing moves.
    fn make_room(&mut self, writes: &[Write], excess: usize)
        requires fit { M.fit self.old.memory ≡ true }
        requires excess { excess ≡ total_of (λ k. excess_for record_depth (written_to k writes.now) (number_for self.old.counts k)) }
        ensures left { take self.new.kept (M.records self.new.memory) ≡ drop_firsts (λ k. excess_for record_depth (written_to k writes.now) (number_for self.old.counts k)) (take self.old.kept (M.records self.old.memory)) }
        ensures number { self.new.kept + excess ≡ self.old.kept }
        ensures size { length (M.records self.new.memory) ≡ length (M.records self.old.memory) }
        ensures last { self.new.last ≡ self.old.last }
        ensures same { (M.name self.new.memory ≡ M.name self.old.memory) × (M.fit self.new.memory ≡ M.fit self.old.memory) }
    {
        if excess > 0 {
            let numbers = excess_versions(&self.counts, writes, Self::DEPTH as u16);
            self.drop_oldest(numbers, excess);
        }
    }

    // Writes an update for which there is room once the written keys have dropped `excess` versions together.
    fn write(&mut self, update: Update, excess: usize)
        requires later { self.old.last < update.timestamp }
        requires excess { excess ≡ total_of (λ k. excess_for record_depth (written_to k update.writes.now) (number_for self.old.counts k)) }
        requires room { length update.writes.now + (self.old.kept - excess) ≤ room_for (M.fit self.old.memory) (length (M.records self.old.memory)) }
        ensures after { memory_meaning M.fit M.records self.new.memory self.new.kept self.new.last ≡ with_writes record_depth update.entry.timestamp update.entry.writes.now (memory_meaning M.fit M.records self.old.memory self.old.kept self.old.last) }
        ensures loan { loan_of M.name M.records M.fit M.held self.new.memory ≡ loan_of M.name M.records M.fit M.held self.old.memory }
    {
        self.make_room(update.writes, excess);
        append(&mut self.memory, self.kept, &mut self.counts, update);
        self.kept += update.writes.len();
        self.last = update.timestamp;
    }

    // Drops of each key what is outdated at this time; where nothing is, nothing moves.
    fn prune_at(&mut self, time: u64)
        requires fit { M.fit self.old.memory ≡ true }
        ensures after { memory_meaning M.fit M.records self.new.memory self.new.kept self.new.last ≡ pruned_at time (memory_meaning M.fit M.records self.old.memory self.old.kept self.old.last) }
        ensures loan { loan_of M.name M.records M.fit M.held self.new.memory ≡ loan_of M.name M.records M.fit M.held self.old.memory }
    {
        let end = count_up_to(&self.memory, self.kept, time);
        let outdated = count_versions(&self.memory, end).all_but_one();
        let total = outdated.total();
        if total > 0 {
            self.drop_oldest(outdated, total);
        }
    }
}

impl<M: RecordMemory> Reads for RecordStore<M> {
    ghost meaning = { λ s. memory_meaning M.fit M.records s.memory s.kept s.last };

    ghost use Rattle.records.proofs.Capacities.{least};

    // all of fit memory, else 64
    ghost least_capacity = { λ s. least (M.fit s.memory) (length (M.records s.memory)) (λ fit. (M.bounds s.memory fit).0) };

    fn last(&self) -> u64 {
        self.last
    }

    fn version(&self, key: u8, time: u64) -> Result<Reading, Fault> {
        check_query(key, time)?;
        let gone = Fault::at_key(Refusal::VersionGone, Layer::Store, key);
        self.newest(key, time).ok_or(gone)
    }
}

impl<M: RecordMemory> Store for RecordStore<M> {
    ghost DEPTH = { record_depth };

    ghost not_none = { lit≤ tt };

    const DEPTH: usize = 16;

    ghost Memory = { M.Held };

    ghost memory = { λ s. M.held s.memory };

    ghost Loan = { Loan M.Held };

    ghost loan = { λ s. loan_of M.name M.records M.fit M.held s.memory };

    ghost Holds = { λ l m h. HoldsVersions M.Lies l m h };

    ghost use Rattle.std.proofs.Common.{arith};
    ghost use Rattle.records.proofs.Holding.{holds_versions};
    ghost use Rattle.records.proofs.Capacities.{room_le};

    ghost holds = { λ s. holds_versions M.name M.records M.fit M.held M.Lies s.memory s.kept s.last s.sound (λ fit. M.lies s.memory s.kept (Prim.omega (arith, s.within, room_le (M.fit s.memory) (length (M.records s.memory)))) (s.tidy fit)) };

    fn commit(&mut self, clock: u64, writes: &[Write]) -> Result<u64, Fault> {
        let update = check_commit(clock, writes, self.last)?;
        let excess = self.excess(update)?;
        self.write(update, excess);
        Ok(update.timestamp)
    }

    fn prune(&mut self, horizon: u64) {
        if self.memory.is_fit() {
            self.prune_at(horizon.min(self.last));
        }
    }
}
