//! Adding records after the last, and the records of a new store.
ghost use Rattle.std.specs.Prelude.{◌≡◌, ◌+◌, ◌≤◌, ◌<◌, [], ◌∷◌, ◌++◌, true, length, map, take};
ghost use Rattle.snapshot.specs.Limits.{key_count, most_records};
ghost use Rattle.store.specs.Meaning.{new_store};
ghost use Rattle.records.specs.Layouts.{are_sound, capacity_for, loan_of, memory_meaning, room_for};
ghost use Rattle.records.specs.Records.{first_records, written};
ghost use Rattle.records.specs.Counts.{CountsOf};

use crate::memory::RecordMemory;
use records::{PerKey, Record};
use snapshot::KEYS;
use store::Update;

// Adds a record after the first `kept`, and counts it.
#[tactic(auto, using(std::proofs::lemmas::List::take_more_set, crate::proofs::Added::added_counts, records::proofs::Counting::counted_le))]
fn push<M: RecordMemory>(memory: &mut M, kept: usize, counts: &mut PerKey, new: Record)
    requires room { kept < length (M.records memory.old) }
    requires small { length (M.records memory.old) ≤ most_records }
    requires counted { CountsOf counts.old (take kept (M.records memory.old)) }
    ensures added { take (kept + 1) (M.records memory.new) ≡ take kept (M.records memory.old) ++ new ∷ [] }
    ensures counted { CountsOf counts.new (take (kept + 1) (M.records memory.new)) }
    ensures size { length (M.records memory.new) ≡ length (M.records memory.old) }
    ensures tidy { M.tidy memory.old kept ≡ true → M.tidy memory.new (kept + 1) ≡ true }
    ensures same { (M.name memory.new ≡ M.name memory.old) × (M.fit memory.new ≡ M.fit memory.old) }
{
    memory.put(kept, new);
    counts.set(new.key, counts.get(new.key) + 1);
}

// Adds a record for each write of the update, and counts them.
pub(crate) fn append<M: RecordMemory>(
    memory: &mut M,
    kept: usize,
    counts: &mut PerKey,
    update: Update,
)
    requires room { kept + length update.writes.now ≤ length (M.records memory.old) }
    requires small { length (M.records memory.old) ≤ most_records }
    requires counted { CountsOf counts.old (take kept (M.records memory.old)) }
    ensures added { take (kept + length update.entry.writes.now) (M.records memory.new) ≡ take kept (M.records memory.old) ++ map (written update.entry.timestamp) update.entry.writes.now }
    ensures counted { CountsOf counts.new (take (kept + length update.entry.writes.now) (M.records memory.new)) }
    ensures size { length (M.records memory.new) ≡ length (M.records memory.old) }
    ensures tidy { M.tidy memory.old kept ≡ true → M.tidy memory.new (kept + length update.entry.writes.now) ≡ true }
    ensures same { (M.name memory.new ≡ M.name memory.old) × (M.fit memory.new ≡ M.fit memory.old) }
{
    let mut end = kept;
    for write in update.writes {
        let new = Record {
            key: write.key,
            timestamp: update.timestamp,
            value: write.value,
        };
        push(memory, end, counts, new);
        end += 1;
    }
}

// Leaves the records of a new store, and nothing else; answers how many there are of each key.
#[tactic(auto, using(records::proofs::Layouts::first_none, records::proofs::Layouts::first_more, crate::proofs::Added::none_counted))]
fn start<M: RecordMemory>(memory: &mut M) -> PerKey
    requires room { key_count ≤ length (M.records memory.old) }
    requires small { length (M.records memory.old) ≤ most_records }
    ensures added { take key_count (M.records memory.new) ≡ first_records key_count }
    ensures counted { CountsOf result (take key_count (M.records memory.new)) }
    ensures size { length (M.records memory.new) ≡ length (M.records memory.old) }
    ensures tidy { M.tidy memory.new key_count ≡ true }
    ensures same { (M.name memory.new ≡ M.name memory.old) × (M.fit memory.new ≡ M.fit memory.old) }
{
    memory.erase();
    let mut counts = PerKey::none();
    let mut kept = 0;
    for key in 0..KEYS {
        let new = Record {
            key,
            timestamp: 0,
            value: 0,
        };
        push(memory, kept, &mut counts, new);
        kept += 1;
    }
    counts
}

// Begins a store in this memory, and leaves unfit memory alone. Answers how many records it then lists, and how many of each
// key.
#[tactic(auto, using(crate::proofs::Commits::first_are_sound, crate::proofs::Commits::first_meaning, crate::proofs::Added::none_counted))]
pub(crate) fn begin<M: RecordMemory>(memory: &mut M) -> (usize, PerKey)
    ensures within { result.0 ≤ room_for (M.fit memory.new) (length (M.records memory.new)) }
    ensures tidy { M.fit memory.new ≡ true → M.tidy memory.new result.0 ≡ true }
    ensures sound { are_sound (M.fit memory.new) (take result.0 (M.records memory.new)) 0 ≡ true }
    ensures counted { CountsOf result.1 (take result.0 (M.records memory.new)) }
    ensures meaning { memory_meaning M.fit M.records memory.new result.0 0 ≡ new_store (capacity_for (M.fit memory.old) (length (M.records memory.old))) }
    ensures loan { loan_of M.name M.records M.fit M.held memory.new ≡ loan_of M.name M.records M.fit M.held memory.old }
{
    if !memory.is_fit() {
        return (0, PerKey::none());
    }
    let counts = start(memory);
    (usize::from(KEYS), counts)
}
