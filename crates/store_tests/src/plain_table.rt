//! Tables against a plain list of records: after each of many calls the answer and the whole memory are compared with what the
//! rules make of the list, and after each prune every version that the table can be asked for.
use crate::chance::Chance;
use snapshot::{
    Fault, KEYS, LEAST_RECORDS, Layer, MOST_RECORDS, NO_WRITE, OPEN_END, Reading, Refusal,
    WRITE_KEYS, Write,
};
use std::alloc::{AllocError, Global};
use std::process::Abort;
use std::test::Fail;
use store::{Reads, StoreAnswer, StoreCall, perform};
use table_store::{NO_RECORD, Record, Table, run_in};

// What stands in memory before a table is made in it.
const USED: Record = Record {
    key: 9,
    timestamp: 9,
    value: 9,
};

// The most versions of a key.
const DEPTH: usize = 16;

// The kept records by timestamp, then key, the most that there may be, and the last timestamp.
#[derive(Drop)]
struct PlainTable {
    records: Vec<Record>,
    capacity: usize,
    last: u64,
}

impl PlainTable {
    // A new one. Where a table cannot have so many records, it has 64 and takes no commit.
    fn new(heap: Global, size: usize) -> Result<PlainTable, AllocError> {
        let records = (0..KEYS)
            .map(|key| Record { key, ..NO_RECORD })
            .collect(heap)?;
        Ok(PlainTable {
            records,
            capacity: if is_fit(size) { size } else { LEAST_RECORDS },
            last: 0,
        })
    }

    // Performs the call by the rules.
    fn perform(&mut self, call: StoreCall) -> Result<StoreAnswer, AllocError> {
        match call {
            StoreCall::Last => Ok(StoreAnswer::Last(self.last)),
            StoreCall::Version { key, time } => Ok(StoreAnswer::Version(self.version(key, time))),
            StoreCall::Commit { clock, writes } => {
                Ok(StoreAnswer::Commit(self.commit(clock, writes)?))
            }
            StoreCall::Prune { horizon } => {
                self.prune(horizon)?;
                Ok(StoreAnswer::Prune)
            }
        }
    }

    // The newest version that is not later than the time, promised up to the next one.
    fn version(&self, key: u8, time: u64) -> Result<Reading, Fault> {
        if key >= KEYS || time > OPEN_END {
            return Err(Fault::at_key(Refusal::OutOfRange, Layer::Store, key));
        }
        let mut found = Err(Fault::at_key(Refusal::VersionGone, Layer::Store, key));
        for record in &self.records {
            if record.key == key {
                if record.timestamp > time {
                    return found.map(|reading| Reading {
                        promise: record.timestamp - 1,
                        ..reading
                    });
                }
                found = Ok(Reading {
                    value: record.value,
                    timestamp: record.timestamp,
                    promise: self.last,
                });
            }
        }
        found
    }

    // A key that would pass the depth drops its oldest version, and the writes come last.
    fn commit(&mut self, clock: u64, writes: &[Write]) -> Result<Result<u64, Fault>, AllocError> {
        let rising = writes
            .iter()
            .zip(writes.iter().skip(1))
            .all(|(first, second)| first.key < second.key);
        let in_range = writes.iter().all(|write| write.key < KEYS);
        if writes.is_empty() || writes.len() > WRITE_KEYS || !rising || !in_range {
            return Ok(refused(Refusal::UnfitWrites));
        }
        if clock >= OPEN_END {
            return Ok(refused(Refusal::ClockTooHigh));
        }
        let timestamp = clock.max(self.last.saturating_add(1));
        if timestamp >= OPEN_END {
            return Ok(refused(Refusal::NoTimeLeft));
        }
        let mut records = self.records.clone()?;
        for write in writes {
            if versions(&records, write.key) >= DEPTH {
                let oldest = records
                    .iter()
                    .find(|record| record.key == write.key)
                    .copied();
                records.retain(|record| Some(*record) != oldest);
            }
        }
        for write in writes {
            records.push(Record {
                key: write.key,
                timestamp,
                value: write.value,
            })?;
        }
        if records.len() > self.capacity {
            return Ok(refused(Refusal::CapacityExceeded));
        }
        self.records = records;
        self.last = timestamp;
        Ok(Ok(timestamp))
    }

    // Drops each record that has a newer one of its key above neither the horizon nor last.
    fn prune(&mut self, horizon: u64) -> Result<(), AllocError> {
        let before = self.records.clone()?;
        let end = horizon.min(self.last);
        self.records.retain(|record| {
            !before.iter().any(|newer| {
                newer.key == record.key
                    && newer.timestamp > record.timestamp
                    && newer.timestamp <= end
            })
        });
        Ok(())
    }

    // The records and zeros after them, in memory of so many records.
    fn laid(&self, size: usize) -> Result<Vec<Record>, AllocError> {
        let mut laid = self.records.clone()?;
        laid.resize(size, NO_RECORD)?;
        Ok(laid)
    }
}

fn is_fit(size: usize) -> bool {
    LEAST_RECORDS <= size && size <= MOST_RECORDS
}

fn versions(records: &[Record], key: u8) -> usize {
    records.iter().filter(|record| record.key == key).count()
}

fn refused(refusal: Refusal) -> Result<u64, Fault> {
    Err(Fault::unnamed(refusal, Layer::Store))
}

// Both answer alike for each key at each time up to the first after the last, and at the open end.
fn show_alike(rt: &impl Abort, table: &Table, plain: &PlainTable, size: usize) {
    for key in 0..KEYS {
        for time in 0..=plain.last.saturating_add(1) {
            assert_eq!(rt;
                table.version(key, time),
                plain.version(key, time),
                "{size} records: key {key} at {time}"
            );
        }
        assert_eq!(rt; table.version(key, OPEN_END), plain.version(key, OPEN_END));
    }
}

// A new table in memory of so many records answers each call as the plain one, and the memory holds the same after each call;
// and so it is where one call performs them all.
fn follows(
    rt: &(impl Abort + AllocGlobal),
    memory: &mut [Record],
    calls: &[StoreCall],
) -> Result<(), Fail> {
    let size = memory.len();
    let before = memory.to_vec(rt.alloc())?;
    let mut plain = PlainTable::new(rt.alloc(), size)?;
    let mut answers = Vec::new(rt.alloc());
    let mut held = before.clone()?;
    let mut table = Table::new(&mut *memory);
    for (number, call) in calls.iter().enumerate() {
        let answer = perform(&mut table, *call);
        assert_eq!(rt;
            answer,
            plain.perform(*call)?,
            "{size} records: call {number}"
        );
        if is_fit(size) {
            held = plain.laid(size)?;
        }
        assert_eq!(rt;
            table.records(),
            held.as_slice(),
            "{size} records: call {number}"
        );
        answers.push(answer)?;
        if matches!(call, StoreCall::Prune { .. }) {
            show_alike(rt, &table, &plain, size);
        }
    }
    show_alike(rt, &table, &plain, size);
    assert_eq!(rt; &*memory, held.as_slice(), "{size} records");
    let mut memory = before;
    let mut given = Vec::new(rt.alloc());
    run_in(&mut memory, calls, &mut given)?;
    assert_eq!(rt; given.as_slice(), answers.as_slice(), "{size} records");
    assert_eq!(rt; memory.as_slice(), held.as_slice(), "{size} records");
    Ok(())
}

// Every eighth key from the remainder of the number on, so that eight commits in a row write each key once.
fn every_eighth_key(number: u32) -> [Write; WRITE_KEYS] {
    let mut writes = [NO_WRITE; WRITE_KEYS];
    let keys = (0..KEYS).filter(|key| u32::from(*key) % 8 == number % 8);
    for (write, key) in writes.iter_mut().zip(keys) {
        *write = Write { key, value: number };
    }
    writes
}

// Commits of these writes, with prunes that drop nothing, some and all but the newest versions. The hundred and twentieth commit
// fills a table of 1,024 records, each key of which then has sixteen versions, and in the next ones keys drop their oldest.
fn even_calls<'a>(
    heap: Global,
    batches: &'a [[Write; WRITE_KEYS]],
) -> Result<Vec<StoreCall<'a>>, AllocError> {
    let mut calls = Vec::new(heap);
    for (number, writes) in (0u64..).zip(batches) {
        // every other clock reading is behind the last timestamp
        let clock = if number % 2 == 0 {
            number.saturating_mul(3)
        } else {
            0
        };
        calls.push(StoreCall::Commit { clock, writes })?;
        match number {
            0 => calls.push(StoreCall::Prune { horizon: 0 })?,
            119 => calls.push(StoreCall::Prune { horizon: 0 })?,
            130 => calls.push(StoreCall::Prune { horizon: 200 })?,
            140 => calls.push(StoreCall::Prune { horizon: u64::MAX })?,
            _ => {}
        }
    }
    Ok(calls)
}

#[test]
fn tables_hold_what_a_plain_list_has_where_all_keys_are_written_alike(
    rt: HostRuntime,
) -> Result<(), Fail> {
    let batches: Vec<[Write; WRITE_KEYS]> = (0..150).map(every_eighth_key).collect(rt.alloc())?;
    let calls = even_calls(rt.alloc(), &batches)?;
    follows(&rt, &mut [USED; 63], &calls)?;
    follows(&rt, &mut [USED; 64], &calls)?;
    follows(&rt, &mut [USED; 65], &calls)?;
    follows(&rt, &mut [USED; 1023], &calls)?;
    follows(&rt, &mut [USED; 1024], &calls)?;
    follows(&rt, &mut [USED; 1025], &calls)
}

// Pseudo-random calls with these writes, near the last timestamp of a table of so many records.
fn chance_calls<'a>(
    heap: Global,
    chance: &mut Chance,
    size: usize,
    batches: &'a [Vec<Write>],
) -> Result<Vec<StoreCall<'a>>, AllocError> {
    let mut plain = PlainTable::new(heap, size)?;
    let mut calls = Vec::new(heap);
    for writes in batches {
        let call = chance.call(plain.last, writes, 50, false);
        plain.perform(call)?;
        calls.push(call)?;
    }
    Ok(calls)
}

// A table in this memory follows the plain one in so many pseudo-random calls.
fn follows_chance(
    rt: &(impl Abort + AllocGlobal),
    memory: &mut [Record],
    count: u32,
) -> Result<(), Fail> {
    let mut chance = Chance::new(u64::from(count));
    let mut batches = Vec::new(rt.alloc());
    for _ in 0..count {
        batches.push(chance.writes(rt.alloc())?)?;
    }
    let calls = chance_calls(rt.alloc(), &mut chance, memory.len(), &batches)?;
    follows(rt, memory, &calls)
}

#[test]
fn tables_hold_what_a_plain_list_has_after_pseudo_random_calls(
    rt: HostRuntime,
) -> Result<(), Fail> {
    follows_chance(&rt, &mut [USED; 63], 50)?;
    follows_chance(&rt, &mut [USED; 64], 101)?;
    follows_chance(&rt, &mut [USED; 65], 202)?;
    follows_chance(&rt, &mut [USED; 150], 503)?;
    follows_chance(&rt, &mut [USED; 1023], 604)?;
    follows_chance(&rt, &mut [USED; 1024], 605)?;
    follows_chance(&rt, &mut [USED; 1025], 56)
}
