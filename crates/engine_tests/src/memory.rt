//! Memory: an engine's size, and the records of a table after an engine's prune, after runs that own or borrow the table, and of
//! memory that is no table's.
use crate::builders::Seen::{Done, Leg, Notices, Refused, Value};
use crate::builders::{
    answers, begin, commit, prune, put, read, seen_of, store_refuses, write, wrote,
};
use crate::lent_memory::run_in;
use engine::{Answer, Engine, run, run_over};
use engine_model::Call::{self, Count};
use newest_store::Newest;
use snapshot::Refusal::CapacityExceeded;
use snapshot::{EngineFault, KEYS};
use std::alloc::{AllocError, Global};
use std::process::Abort;
use std::test::Fail;
use store::{Reads, Store};
use table_store::{NO_RECORD, Record, Table};

// What stands in memory before a table is made in it.
const USED: Record = Record {
    key: 9,
    timestamp: 9,
    value: 9,
};

// It has 18,360 bytes: 3,032 for each of four places, 520 for each of eight caches, 1,040 for the notices, and 1,032 for the
// store.
#[test]
fn engine_over_the_newest_store_has_at_most_24_kib(rt: HostRuntime) {
    assert!(rt; size_of::<Engine<Newest>>() <= 24 * 1024);
}

// A commit by the store itself, at this time.
fn sets<S: Store>(rt: &impl Abort, store: &mut S, clock: u64, key: u8, value: u32) {
    assert_eq!(rt; store.commit(clock, &[put(key, value)]).ok(), Some(clock));
}

fn record(key: u8, timestamp: u64, value: u32) -> Record {
    Record {
        key,
        timestamp,
        value,
    }
}

#[test]
fn prune_drops_older_versions_from_a_tables_memory_and_open_writes_are_not_in_it(rt: HostRuntime) {
    let versions = [
        record(1, 0, 0),
        record(2, 0, 0),
        record(1, 10, 11),
        record(1, 30, 13),
        record(2, 45, 22),
    ];
    // the horizon, and which of the versions are then kept
    let cases = [
        (0, [true, true, true, true, true]),
        (9, [true, true, true, true, true]),
        (10, [false, true, true, true, true]),
        (30, [false, true, false, true, true]),
        (45, [false, false, false, true, true]),
        (u64::MAX, [false, false, false, true, true]),
    ];
    for (horizon, kept) in cases {
        let mut memory = [NO_RECORD; 72];
        let mut table = Table::new(&mut memory);
        sets(&rt, &mut table, 10, 1, 11);
        sets(&rt, &mut table, 30, 1, 13);
        sets(&rt, &mut table, 45, 2, 22);
        answers(
            &rt,
            &mut Engine::new(table),
            &[
                (begin(0, 0), Leg(0)),
                (read(0, 0, 1), Value(13)),
                (write(0, 0, 4, 99), Done),
                (prune(horizon), Done),
                (read(0, 0, 4), Value(99)),
            ],
        );
        for (version, is_kept) in versions.into_iter().zip(kept) {
            assert_eq!(rt;
                memory.contains(&version),
                is_kept,
                "horizon {horizon}: {version:?}"
            );
        }
        assert!(rt; memory.iter().all(|record| record.value != 99));
    }
}

// What memory of so many records holds: the records of a new store but for those of the dropped keys, then these, then zeros.
fn laid(
    heap: Global,
    size: usize,
    dropped: &[u8],
    added: &[Record],
) -> Result<Vec<Record>, AllocError> {
    let mut records: Vec<Record> = (0..KEYS)
        .filter(|key| !dropped.contains(key))
        .map(|key| record(key, 0, 0))
        .collect(heap)?;
    records.extend_from_slice(added)?;
    records.resize(size, NO_RECORD)?;
    Ok(records)
}

// Key 5 gets versions at times 10 and 20 and key 6 one at 20, key 7 is written by a chain that stays open, and a prune drops the
// first version of key 5.
fn calls() -> [Call; 10] {
    [
        begin(0, 1),
        write(0, 0, 5, 50),
        commit(0, 0, 10),
        begin(0, 1),
        write(0, 0, 5, 51),
        write(0, 0, 6, 60),
        commit(0, 0, 20),
        begin(2, 3),
        write(2, 0, 7, 70),
        prune(15),
    ]
}

// What the calls leave in memory of 72 records.
fn left(heap: Global) -> Result<Vec<Record>, AllocError> {
    laid(
        heap,
        72,
        &[5],
        &[record(5, 10, 50), record(5, 20, 51), record(6, 20, 60)],
    )
}

#[test]
fn memory_lent_for_a_run_holds_what_the_calls_left(rt: HostRuntime) -> Result<(), Fail> {
    let mut list = Vec::new(rt.alloc());
    let mut memory = [USED; 72];
    run_in(&mut memory, &calls(), &mut list)?;
    assert_eq!(rt; &memory[..], left(rt.alloc())?.as_slice());
    assert_eq!(rt; list.len(), 10);
    run_in(&mut memory, &[], &mut list)?;
    assert_eq!(rt; &memory[..], laid(rt.alloc(), 72, &[], &[])?.as_slice());
    Ok(())
}

#[test]
fn engine_that_owns_a_table_shows_it(rt: HostRuntime) -> Result<(), Fail> {
    let mut list = Vec::new(rt.alloc());
    let mut memory = [USED; 72];
    let expected = left(rt.alloc())?;
    {
        let (mut engine, done) = run(Table::new(&mut memory), &calls(), &mut list);
        done?;
        assert_eq!(rt; engine.store().last(), 20);
        assert_eq!(rt; engine.store().records(), expected.as_slice());
        let read = engine.store().version(5, 19);
        assert_eq!(rt;
            read.map(|reading| (reading.value, reading.promise)),
            Ok((50, 19))
        );
        answers(&rt, &mut engine, &[(commit(2, 0, 30), wrote(30, 1))]);
        assert_eq!(rt; engine.store().last(), 30);
        assert_eq!(rt;
            engine.store().records().get(66).copied(),
            Some(record(7, 30, 70))
        );
    }
    assert_eq!(rt; memory[66], record(7, 30, 70));
    assert_eq!(rt; memory[67], NO_RECORD);
    Ok(())
}

#[test]
fn runs_that_borrow_a_table_begin_with_what_earlier_ones_left_in_it(
    rt: HostRuntime,
) -> Result<(), Fail> {
    let mut list = Vec::new(rt.alloc());
    let mut memory = [USED; 72];
    let expected = left(rt.alloc())?;
    let mut table = Table::new(&mut memory);
    run_over(&mut table, &calls(), &mut list)?;
    assert_eq!(rt; table.last(), 20);
    assert_eq!(rt; table.records(), expected.as_slice());
    list.clear();
    // a new engine has neither the open chain nor the notices
    let more = [begin(2, 1), read(2, 0, 5), read(2, 0, 7), Count];
    run_over(&mut table, &more, &mut list)?;
    assert_eq!(rt; table.records(), expected.as_slice());
    let expected_answers = [Leg(0), Value(51), Value(0), Notices(0, 0)];
    for (answer, seen) in list.iter().zip(expected_answers) {
        assert_eq!(rt; seen_of(answer), seen);
    }
    assert_eq!(rt; list.len(), 4);
    assert_eq!(rt; &memory[..], expected.as_slice());
    Ok(())
}

// A run over this memory refuses the commits for want of room, and leaves the memory alone, however the table is lent.
fn is_left_alone(rt: &(impl Abort + AllocGlobal), memory: &mut [Record]) -> Result<(), Fail> {
    let before = memory.to_vec(rt.alloc())?;
    let size = memory.len();
    let refused = Refused(store_refuses(CapacityExceeded, 0, 0));
    let mut list: Vec<Result<Answer, EngineFault>> = Vec::new(rt.alloc());
    run_in(memory, &calls(), &mut list)?;
    assert_eq!(rt; &*memory, before.as_slice(), "{size} records");
    run_over(&mut Table::new(memory), &calls(), &mut list)?;
    assert_eq!(rt; &*memory, before.as_slice(), "{size} records");
    let (engine, done) = run(Table::new(memory), &calls(), &mut list);
    done?;
    assert_eq!(rt;
        engine.store().records(),
        before.as_slice(),
        "{size} records"
    );
    assert_eq!(rt; engine.store().last(), 0, "{size} records");
    assert_eq!(rt;
        list.iter()
            .filter(|answer| seen_of(answer) == refused)
            .count(),
        6
    );
    Ok(())
}

#[test]
fn memory_that_no_table_fits_is_left_alone(rt: HostRuntime) -> Result<(), Fail> {
    is_left_alone(&rt, &mut [])?;
    is_left_alone(&rt, &mut [USED; 63])?;
    is_left_alone(&rt, &mut [USED; 1025])
}
