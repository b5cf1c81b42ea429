//! What a commit or a prune drops, by numbers for each key, and the moving of what stays.
ghost use Rattle.std.specs.Prelude.{◌≡◌, ℕ, ◌-◌, ◌≤◌, ◌<◌, true, length, take, slice_index_or};
ghost use Rattle.snapshot.specs.Limits.{most_records};
ghost use Rattle.store.specs.Meaning.{written_to};
ghost use Rattle.records.specs.PerKeys.{number_for, total_of};
ghost use Rattle.records.specs.Records.{drop_firsts, no_record};
ghost use Rattle.records.specs.Counts.{CountsOf, excess_for};

use crate::memory::RecordMemory;
use records::PerKey;
use snapshot::Write;
use store::Update;

// How many of `count` versions of a key go so that with one more there are no more than the depth.
fn excess_of(count: u16, depth: u16) -> u16
    ensures { result ≡ count - (depth - 1) }
{
    count.saturating_sub(depth.saturating_sub(1))
}

// How many versions the written keys drop together, so that none has more than the depth once they are written.
pub(crate) fn total_excess(counts: &PerKey, update: Update, depth: u16) -> usize
    requires few { (k : ℕ) → number_for counts.now k ≤ most_records }
    ensures { result ≡ total_of (λ k. excess_for depth (written_to k update.entry.writes.now) (number_for counts.now k)) }
{
    let mut total = 0;
    for write in update.writes {
        total += usize::from(excess_of(counts.get(write.key), depth));
    }
    total
}

// How many of its oldest versions each written key drops.
pub(crate) fn excess_versions(counts: &PerKey, writes: &[Write], depth: u16) -> PerKey
    ensures { (k : ℕ) → number_for result k ≡ excess_for depth (written_to k writes.now) (number_for counts.now k) }
{
    let mut excess = PerKey::none();
    for write in writes {
        excess.set(write.key, excess_of(counts.get(write.key), depth));
    }
    excess
}

// How many versions the first `end` records have of each key.
pub(crate) fn count_versions<M: RecordMemory>(memory: &M, end: usize) -> PerKey
    requires within { end ≤ length (M.records memory.now) }
    requires small { end ≤ most_records }
    ensures { CountsOf result (take end (M.records memory.now)) }
{
    let mut counts = PerKey::none();
    for place in 0..end {
        let key = memory.at(place).key;
        counts.set(key, counts.get(key) + 1);
    }
    counts
}

// The first place from here on whose record's key has a number, before the end; the end if there is none, as where the numbers
// are none at all.
fn next_to_drop<M: RecordMemory>(
    memory: &M,
    start: usize,
    end: usize,
    numbers: &PerKey,
    total: usize,
) -> usize
    requires order { start ≤ end }
    requires within { end ≤ length (M.records memory.now) }
    requires total { total ≡ total_of (number_for numbers.now) }
    ensures after { start ≤ result }
    ensures within { result ≤ end }
    ensures others { (i : ℕ) → start ≤ i → i < result → number_for numbers.now (slice_index_or (M.records memory.now) i no_record).key ≡ 0 }
    ensures this { result < end → 0 < number_for numbers.now (slice_index_or (M.records memory.now) result no_record).key }
{
    if total == 0 {
        return end;
    }
    for place in start..end {
        if numbers.get(memory.at(place).key) > 0 {
            return place;
        }
    }
    end
}

// Drops of each key its oldest records among the first `kept`, so many as are named for it, `total` together; the runs between
// them move down whole, and what comes before the first of them stays. Answers how many are left.
pub(crate) fn drop_runs<M: RecordMemory>(
    memory: &mut M,
    kept: usize,
    mut numbers: PerKey,
    mut total: usize,
) -> usize
    requires within { kept ≤ length (M.records memory.old) }
    requires total { total ≡ total_of (number_for numbers) }
    ensures left { result ≤ kept }
    ensures dropped { take result (M.records memory.new) ≡ drop_firsts (number_for numbers) (take kept (M.records memory.old)) }
    ensures size { length (M.records memory.new) ≡ length (M.records memory.old) }
    ensures tidy { M.tidy memory.old kept ≡ true → M.tidy memory.new kept ≡ true }
    ensures same { (M.name memory.new ≡ M.name memory.old) × (M.fit memory.new ≡ M.fit memory.old) }
{
    let mut left = 0;
    let mut from = 0;
    while from < kept {
        let named = next_to_drop(memory, from, kept, &numbers, total);
        if left < from {
            memory.move_down(from, named, left);
        }
        left += named - from;
        from = named;
        if from < kept {
            let _ = numbers.take_one(memory.at(from).key);
            total -= 1;
            from += 1;
        }
    }
    left
}
