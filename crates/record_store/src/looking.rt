//! Looking for a version in records by order of time.
ghost use Rattle.std.specs.Prelude.{◌≡◌, ℕ, ◌-◌, ◌≤◌, ◌<◌, true, None, filter, length, take, drop, slice_index_or};
ghost use Rattle.std.specs.List.{last_or};
ghost use Rattle.store.specs.Meaning.{end_before, newest_at};
ghost use Rattle.records.specs.Layouts.{in_order};
ghost use Rattle.records.specs.Records.{has_key, no_record, of_key};

use crate::memory::RecordMemory;
use records::Record;
use snapshot::Reading;

// The newest version of the key that is not later than the time, among the first `kept` records. If no later one is of the key,
// it is current up to `last`.
pub(crate) fn newest_at<M: RecordMemory>(
    memory: &M,
    kept: usize,
    key: u8,
    time: u64,
    last: u64,
) -> Option<Reading>
    requires within { kept ≤ length (M.records memory.now) }
    requires order { in_order (take kept (M.records memory.now)) ≡ true }
    ensures { result ≡ newest_at time last (of_key key (take kept (M.records memory.now))) }
{
    let end = count_up_to(memory, kept, time);
    let found = last_of_key(memory, end, key)?;
    Some(Reading {
        value: found.value,
        timestamp: found.timestamp,
        promise: promise_after(memory, end, kept, key, last),
    })
}

// How many of the first `kept` records are not later than the time: looked for from the newest end in steps that double, and
// then by halves.
pub(crate) fn count_up_to<M: RecordMemory>(memory: &M, kept: usize, time: u64) -> usize
    requires within { kept ≤ length (M.records memory.now) }
    requires order { in_order (take kept (M.records memory.now)) ≡ true }
    ensures within { result ≤ kept }
    ensures before { (i : ℕ) → i < result → (slice_index_or (M.records memory.now) i no_record).timestamp ≤ time }
    ensures after { (i : ℕ) → result ≤ i → i < kept → time < (slice_index_or (M.records memory.now) i no_record).timestamp }
{
    let mut high = kept;
    let mut step = 1;
    while step <= high && time < memory.at(high - step).timestamp {
        high -= step;
        step = step.saturating_mul(2);
    }
    let mut low = high.saturating_sub(step);
    while low < high {
        let middle = low + (high - low) / 2;
        if memory.at(middle).timestamp <= time {
            low = middle + 1;
        } else {
            high = middle;
        }
    }
    low
}

// Up to when a version of the key is current that is older than the records from `start` up to `kept`: until the first of
// them that is of the key, else `last`.
fn promise_after<M: RecordMemory>(memory: &M, start: usize, kept: usize, key: u8, last: u64) -> u64
    requires order { start ≤ kept }
    requires within { kept ≤ length (M.records memory.now) }
    ensures { result ≡ end_before (of_key key (drop start (take kept (M.records memory.now)))) last }
{
    for place in start..kept {
        let record = memory.at(place);
        if record.key == key {
            return record.timestamp.saturating_sub(1);
        }
    }
    last
}

// How many records are looked at in one turn.
const AT_ONCE: usize = 8;

// Is none of the last eight of the first `end` records of the key? The compiler writes out the eight tests.
fn none_of_last<M: RecordMemory>(memory: &M, end: usize, key: u8) -> bool
    requires enough { 8 ≤ end }
    requires within { end ≤ length (M.records memory.now) }
    ensures { result ≡ true → filter (has_key key) (take (end - 8) (M.records memory.now)) ≡ filter (has_key key) (take end (M.records memory.now)) }
{
    for back in 0..AT_ONCE {
        if memory.at(end - 1 - back).key == key {
            return false;
        }
    }
    true
}

// The first `end` records without some of the last, none of which is of the key.
fn without_others<M: RecordMemory>(memory: &M, end: usize, key: u8) -> usize
    requires { end ≤ length (M.records memory.now) }
    ensures within { result ≤ end }
    ensures same { filter (has_key key) (take result (M.records memory.now)) ≡ filter (has_key key) (take end (M.records memory.now)) }
{
    let mut left = end;
    while left >= AT_ONCE && none_of_last(memory, left, key) {
        left -= AT_ONCE;
    }
    left
}

// The last of the first `end` records that is of the key.
fn last_of_key<M: RecordMemory>(memory: &M, end: usize, key: u8) -> Option<Record>
    requires { end ≤ length (M.records memory.now) }
    ensures { result ≡ last_or None (filter (has_key key) (take end (M.records memory.now))) }
{
    let left = without_others(memory, end, key);
    for place in (0..left).rev() {
        let record = memory.at(place);
        if record.key == key {
            return Some(record);
        }
    }
    None
}
