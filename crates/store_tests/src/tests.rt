//! Tests of both stores: their answers to lists of calls, every refusal with its number and what its fault names, the order
//! of checks, depth, capacity and prunes, and a table's memory record by record.
use newest_store::Newest;
use snapshot::{Fault, KEYS, Layer, OPEN_END, Write};
use std::alloc::{AllocError, Global};
use std::fmt::Display;
use std::process::Abort;
use std::test::Fail;
use store::{Reads, Store, StoreAnswer, StoreCall, run};
use table_store::{NO_RECORD, Record, Table};

// The last timestamp that a store can issue.
const LAST_TIME: u64 = 281_474_976_710_655;

// What stands in memory before a table is made in it.
const USED: Record = Record {
    key: 9,
    timestamp: 9,
    value: 9,
};

// An answer: the last timestamp; a version's value, timestamp and promise; a commit's timestamp; a prune's end; or a
// refusal's number and the key that its fault names.
#[derive(Clone, Copy, PartialEq, Eq, Debug)]
enum Seen {
    Last(u64),
    Version(u32, u64, u64),
    Commit(u64),
    Prune,
    Refused(u8, u8),
}

// A fault of a store names neither a place nor a leg.
fn seen_fault(rt: &impl Abort, fault: Fault) -> Result<Seen, Fail> {
    assert_eq!(rt; fault.layer, Layer::Store);
    assert_eq!(rt; [fault.place, fault.leg], [255, 255]);
    Ok(Seen::Refused(fault.refusal.number(), fault.key))
}

fn seen_answer(rt: &impl Abort, answer: StoreAnswer) -> Result<Seen, Fail> {
    match answer {
        StoreAnswer::Last(last) => Ok(Seen::Last(last)),
        StoreAnswer::Version(Ok(reading)) => Ok(Seen::Version(
            reading.value,
            reading.timestamp,
            reading.promise,
        )),
        StoreAnswer::Commit(Ok(timestamp)) => Ok(Seen::Commit(timestamp)),
        StoreAnswer::Prune => Ok(Seen::Prune),
        StoreAnswer::Version(Err(fault)) => seen_fault(rt, fault),
        StoreAnswer::Commit(Err(fault)) => seen_fault(rt, fault),
    }
}

// Writes by key and value.
macro_rules! writes {
    ($($key:literal = $value:literal),*) => { &[$(Write { key: $key, value: $value }),*] };
}

fn version(key: u8, time: u64) -> StoreCall<'static> {
    StoreCall::Version { key, time }
}

fn commit(clock: u64, writes: &'static [Write]) -> StoreCall<'static> {
    StoreCall::Commit { clock, writes }
}

fn prune(horizon: u64) -> StoreCall<'static> {
    StoreCall::Prune { horizon }
}

fn record(key: u8, timestamp: u64, value: u32) -> Record {
    Record {
        key,
        timestamp,
        value,
    }
}

// The store answers each call so, in this order.
fn answers<S: Store>(
    rt: &(impl Abort + AllocGlobal),
    store: &mut S,
    steps: &[(StoreCall, Seen)],
) -> Result<(), Fail> {
    answers_named(rt, "the store", store, steps)
}

// The same; where an answer is another, the message begins with the name.
fn answers_named<N: Display + Drop, S: Store>(
    rt: &(impl Abort + AllocGlobal),
    name: N,
    store: &mut S,
    steps: &[(StoreCall, Seen)],
) -> Result<(), Fail> {
    let calls: Vec<StoreCall> = steps.iter().map(|(call, _)| *call).collect(rt.alloc())?;
    let mut given = Vec::new(rt.alloc());
    run(store, calls.as_slice(), &mut given)?;
    assert_eq!(rt; given.len(), steps.len());
    for (number, (answer, (_, expected))) in given.iter().zip(steps).enumerate() {
        assert_eq!(rt; seen_answer(rt, *answer)?, *expected, "{name} {number}");
    }
    Ok(())
}

// A new table of 200 records and a new newest store both answer each call so.
fn both_answer(rt: &(impl Abort + AllocGlobal), steps: &[(StoreCall, Seen)]) -> Result<(), Fail> {
    let mut memory = [USED; 200];
    answers_named(rt, "table", &mut Table::new(&mut memory), steps)?;
    answers_named(rt, "newest", &mut Newest::new(), steps)
}

// Gives key 1 versions at 10 and 30 after its first, and key 2 one at 45, which is then last.
fn fill<S: Store>(rt: &(impl Abort + AllocGlobal), store: &mut S) -> Result<(), Fail> {
    answers(
        rt,
        store,
        &[
            (commit(10, writes![1 = 11]), Seen::Commit(10)),
            (commit(30, writes![1 = 13]), Seen::Commit(30)),
            (commit(45, writes![2 = 22]), Seen::Commit(45)),
        ],
    )
}

// Writes key 7 at each time from 1 to this one, with the time as its value.
fn rewrite<S: Store>(rt: &impl Abort, store: &mut S, end: u32) {
    for value in 1..=end {
        let clock = u64::from(value);
        assert_eq!(rt;
            store.commit(clock, &[Write { key: 7, value }]).ok(),
            Some(clock)
        );
    }
}

// The records of a new store but for those of these keys.
fn first_records(heap: Global, dropped: &[u8]) -> Result<Vec<Record>, AllocError> {
    (0..KEYS)
        .filter(|key| !dropped.contains(key))
        .map(|key| record(key, 0, 0))
        .collect(heap)
}

// The table's memory holds the first records but for those of the dropped keys, then these, then zeros.
fn holds(
    rt: &(impl Abort + AllocGlobal),
    table: &Table,
    dropped: &[u8],
    added: &[Record],
) -> Result<(), Fail> {
    let mut expected = first_records(rt.alloc(), dropped)?;
    expected.extend_from_slice(added)?;
    let memory = table.records();
    assert!(rt; expected.len() <= memory.len());
    let (front, rest) = memory.split_at(expected.len());
    assert_eq!(rt; front, expected.as_slice());
    assert!(rt; rest.iter().all(|record| *record == NO_RECORD));
    Ok(())
}

// Both stores.

#[test]
fn both_stores_answer_alike_where_depth_and_capacity_do_not_matter(
    rt: HostRuntime,
) -> Result<(), Fail> {
    both_answer(
        &rt,
        &[
            (StoreCall::Last, Seen::Last(0)),
            (version(5, 0), Seen::Version(0, 0, 0)),
            (commit(10, writes![3 = 30]), Seen::Commit(10)),
            (StoreCall::Last, Seen::Last(10)),
            (version(3, 10), Seen::Version(30, 10, 10)),
            (version(3, OPEN_END), Seen::Version(30, 10, 10)),
            (version(4, 9), Seen::Version(0, 0, 10)),
            (
                commit(12, writes![3 = 31, 4 = 4_294_967_295]),
                Seen::Commit(12),
            ),
            (version(3, 12), Seen::Version(31, 12, 12)),
            (version(4, 13), Seen::Version(4_294_967_295, 12, 12)),
            (version(63, 0), Seen::Version(0, 0, 12)),
            (prune(12), Seen::Prune),
            (StoreCall::Last, Seen::Last(12)),
            (version(3, 12), Seen::Version(31, 12, 12)),
            (version(3, 11), Seen::Refused(15, 3)),
            (version(4, 0), Seen::Refused(15, 4)),
            (version(63, 0), Seen::Version(0, 0, 12)),
        ],
    )
}

#[test]
fn table_keeps_older_versions_and_newest_store_does_not(rt: HostRuntime) -> Result<(), Fail> {
    let mut memory = [USED; 72];
    let mut table = Table::new(&mut memory);
    let mut newest = Newest::new();
    fill(&rt, &mut table)?;
    fill(&rt, &mut newest)?;
    let alike = [
        (StoreCall::Last, Seen::Last(45)),
        (version(1, 30), Seen::Version(13, 30, 45)),
        (version(2, 45), Seen::Version(22, 45, 45)),
        (version(3, 1), Seen::Version(0, 0, 45)),
    ];
    answers(&rt, &mut table, &alike)?;
    answers(&rt, &mut newest, &alike)?;
    answers(
        &rt,
        &mut table,
        &[
            (version(1, 29), Seen::Version(11, 10, 29)),
            (version(2, 44), Seen::Version(0, 0, 44)),
        ],
    )?;
    answers(
        &rt,
        &mut newest,
        &[
            (version(1, 29), Seen::Refused(15, 1)),
            (version(2, 44), Seen::Refused(15, 2)),
        ],
    )
}

#[test]
fn least_table_has_no_room_for_a_commit_and_newest_store_always_has(
    rt: HostRuntime,
) -> Result<(), Fail> {
    let mut memory = [USED; 64];
    answers(
        &rt,
        &mut Table::new(&mut memory),
        &[
            (commit(1, writes![7 = 1]), Seen::Refused(14, 255)),
            (prune(1), Seen::Prune),
            (commit(1, writes![7 = 1]), Seen::Refused(14, 255)),
            (version(7, 1), Seen::Version(0, 0, 0)),
        ],
    )?;
    let mut newest = Newest::new();
    rewrite(&rt, &mut newest, 40);
    answers(
        &rt,
        &mut newest,
        &[
            (version(7, 40), Seen::Version(40, 40, 40)),
            (version(7, 39), Seen::Refused(15, 7)),
        ],
    )
}

#[test]
fn depth_is_16_in_a_table_and_1_in_the_newest_store(rt: HostRuntime) {
    assert_eq!(rt;
        [<Table<'_> as Store>::DEPTH, <Newest as Store>::DEPTH],
        [16, 1]
    );
}

#[test]
fn run_adds_to_the_answers_that_are_there(rt: HostRuntime) -> Result<(), Fail> {
    let mut newest = Newest::new();
    let mut given = Vec::new(rt.alloc());
    run(&mut newest, &[commit(3, writes![0 = 1])], &mut given)?;
    run(&mut newest, &[], &mut given)?;
    run(&mut newest, &[StoreCall::Last, prune(1)], &mut given)?;
    assert_eq!(rt;
        given.as_slice(),
        &[
            StoreAnswer::Commit(Ok(3)),
            StoreAnswer::Last(3),
            StoreAnswer::Prune,
        ][..]
    );
    Ok(())
}

// Refusals, and the order of checks.

#[test]
fn questions_out_of_range_are_refused(rt: HostRuntime) -> Result<(), Fail> {
    both_answer(
        &rt,
        &[
            (version(63, OPEN_END), Seen::Version(0, 0, 0)),
            (version(64, 0), Seen::Refused(1, 64)),
            (version(255, 0), Seen::Refused(1, 255)),
            (version(0, OPEN_END + 1), Seen::Refused(1, 0)),
            (version(63, u64::MAX), Seen::Refused(1, 63)),
            (version(64, OPEN_END + 1), Seen::Refused(1, 64)),
        ],
    )
}

#[test]
fn unfit_writes_are_refused(rt: HostRuntime) -> Result<(), Fail> {
    both_answer(
        &rt,
        &[
            (commit(1, writes![]), Seen::Refused(11, 255)),
            (
                commit(
                    1,
                    writes![
                        0 = 1,
                        1 = 1,
                        2 = 1,
                        3 = 1,
                        4 = 1,
                        5 = 1,
                        6 = 1,
                        7 = 1,
                        8 = 1
                    ],
                ),
                Seen::Refused(11, 255),
            ),
            (commit(1, writes![5 = 1, 5 = 1]), Seen::Refused(11, 255)),
            (commit(1, writes![0 = 1, 0 = 2]), Seen::Refused(11, 255)),
            (commit(1, writes![6 = 1, 5 = 1]), Seen::Refused(11, 255)),
            (
                commit(1, writes![1 = 1, 9 = 1, 8 = 1]),
                Seen::Refused(11, 255),
            ),
            (commit(1, writes![64 = 1]), Seen::Refused(11, 255)),
            (commit(1, writes![0 = 1, 255 = 1]), Seen::Refused(11, 255)),
            (StoreCall::Last, Seen::Last(0)),
            (version(5, 1), Seen::Version(0, 0, 0)),
            (
                commit(
                    1,
                    writes![0 = 1, 1 = 1, 2 = 1, 3 = 1, 4 = 1, 5 = 1, 6 = 1, 63 = 2],
                ),
                Seen::Commit(1),
            ),
            (version(63, 1), Seen::Version(2, 1, 1)),
        ],
    )
}

#[test]
fn clock_beyond_the_last_timestamp_is_refused(rt: HostRuntime) -> Result<(), Fail> {
    both_answer(
        &rt,
        &[
            (commit(OPEN_END, writes![5 = 1]), Seen::Refused(12, 255)),
            (commit(u64::MAX, writes![5 = 1]), Seen::Refused(12, 255)),
            (StoreCall::Last, Seen::Last(0)),
            (version(5, OPEN_END), Seen::Version(0, 0, 0)),
        ],
    )
}

#[test]
fn no_commit_follows_the_last_timestamp(rt: HostRuntime) -> Result<(), Fail> {
    both_answer(
        &rt,
        &[
            (
                commit(LAST_TIME - 1, writes![5 = 1]),
                Seen::Commit(LAST_TIME - 1),
            ),
            (commit(LAST_TIME, writes![5 = 2]), Seen::Commit(LAST_TIME)),
            (commit(LAST_TIME, writes![5 = 3]), Seen::Refused(13, 255)),
            (commit(0, writes![6 = 3]), Seen::Refused(13, 255)),
            (StoreCall::Last, Seen::Last(LAST_TIME)),
            (version(5, OPEN_END), Seen::Version(2, LAST_TIME, LAST_TIME)),
            (version(6, OPEN_END), Seen::Version(0, 0, LAST_TIME)),
        ],
    )
}

#[test]
fn unfit_writes_are_refused_before_a_high_clock_and_that_before_want_of_time(
    rt: HostRuntime,
) -> Result<(), Fail> {
    both_answer(
        &rt,
        &[
            (commit(OPEN_END, writes![]), Seen::Refused(11, 255)),
            (commit(LAST_TIME, writes![5 = 2]), Seen::Commit(LAST_TIME)),
            (commit(0, writes![64 = 1]), Seen::Refused(11, 255)),
            (commit(OPEN_END, writes![5 = 3]), Seen::Refused(12, 255)),
        ],
    )
}

#[test]
fn want_of_room_is_refused_last(rt: HostRuntime) -> Result<(), Fail> {
    let mut memory = [USED; 65];
    let mut table = Table::new(&mut memory);
    answers(
        &rt,
        &mut table,
        &[
            (
                commit(LAST_TIME - 1, writes![5 = 1]),
                Seen::Commit(LAST_TIME - 1),
            ),
            (commit(0, writes![5 = 2]), Seen::Refused(14, 255)),
            (commit(0, writes![5 = 2, 5 = 2]), Seen::Refused(11, 255)),
            (commit(OPEN_END, writes![5 = 2]), Seen::Refused(12, 255)),
            (prune(LAST_TIME), Seen::Prune),
            (commit(0, writes![5 = 2]), Seen::Commit(LAST_TIME)),
            (commit(0, writes![5 = 3]), Seen::Refused(13, 255)),
        ],
    )
}

#[test]
fn question_out_of_range_is_refused_before_a_version_is_looked_for(
    rt: HostRuntime,
) -> Result<(), Fail> {
    both_answer(
        &rt,
        &[
            (commit(10, writes![63 = 1]), Seen::Commit(10)),
            (prune(10), Seen::Prune),
            (version(63, 9), Seen::Refused(15, 63)),
            (version(64, 9), Seen::Refused(1, 64)),
        ],
    )
}

// Timestamps and versions.

#[test]
fn timestamp_is_the_clock_or_the_next_after_last(rt: HostRuntime) -> Result<(), Fail> {
    both_answer(
        &rt,
        &[
            (commit(0, writes![5 = 1]), Seen::Commit(1)),
            (commit(99, writes![5 = 2]), Seen::Commit(99)),
            (commit(100, writes![5 = 3]), Seen::Commit(100)),
            (commit(5, writes![5 = 4]), Seen::Commit(101)),
            (commit(101, writes![5 = 5]), Seen::Commit(102)),
            (version(5, 102), Seen::Version(5, 102, 102)),
        ],
    )
}

#[test]
fn version_is_the_newest_one_and_is_promised_up_to_the_next(rt: HostRuntime) -> Result<(), Fail> {
    let mut memory = [USED; 72];
    let mut table = Table::new(&mut memory);
    fill(&rt, &mut table)?;
    answers(
        &rt,
        &mut table,
        &[
            (version(1, 0), Seen::Version(0, 0, 9)),
            (version(1, 9), Seen::Version(0, 0, 9)),
            (version(1, 10), Seen::Version(11, 10, 29)),
            (version(1, 29), Seen::Version(11, 10, 29)),
            (version(1, 30), Seen::Version(13, 30, 45)),
            (version(1, OPEN_END), Seen::Version(13, 30, 45)),
            (version(2, 44), Seen::Version(0, 0, 44)),
            (version(0, 30), Seen::Version(0, 0, 45)),
        ],
    )
}

// Depth and capacity.

#[test]
fn seventeenth_version_drops_the_first(rt: HostRuntime) -> Result<(), Fail> {
    let mut memory = [USED; 200];
    let mut table = Table::new(&mut memory);
    rewrite(&rt, &mut table, 15);
    answers(
        &rt,
        &mut table,
        &[
            (version(7, 0), Seen::Version(0, 0, 0)),
            (version(7, 1), Seen::Version(1, 1, 1)),
            (version(7, 15), Seen::Version(15, 15, 15)),
            (commit(16, writes![7 = 16]), Seen::Commit(16)),
            (version(7, 0), Seen::Refused(15, 7)),
            (version(7, 1), Seen::Version(1, 1, 1)),
            (version(7, 16), Seen::Version(16, 16, 16)),
            (version(6, 0), Seen::Version(0, 0, 16)),
            (commit(17, writes![7 = 17]), Seen::Commit(17)),
            (version(7, 1), Seen::Refused(15, 7)),
            (version(7, 2), Seen::Version(2, 2, 2)),
        ],
    )?;
    let kept: Vec<Record> = (2..=17)
        .map(|value| record(7, u64::from(value), value))
        .collect(rt.alloc())?;
    holds(&rt, &table, &[7], kept.as_slice())
}

#[test]
fn commit_may_just_fit_and_one_beyond_the_capacity_changes_nothing(
    rt: HostRuntime,
) -> Result<(), Fail> {
    let mut memory = [USED; 72];
    let mut table = Table::new(&mut memory);
    answers(
        &rt,
        &mut table,
        &[(
            commit(
                10,
                writes![0 = 1, 1 = 1, 2 = 1, 3 = 1, 4 = 1, 5 = 1, 6 = 1, 7 = 8],
            ),
            Seen::Commit(10),
        )],
    )?;
    let before = table.records().to_vec(rt.alloc())?;
    let answered = [
        (StoreCall::Last, Seen::Last(10)),
        (version(0, 9), Seen::Version(0, 0, 9)),
        (version(7, 20), Seen::Version(8, 10, 10)),
        (version(8, 20), Seen::Version(0, 0, 10)),
    ];
    answers(&rt, &mut table, &answered)?;
    answers(
        &rt,
        &mut table,
        &[
            (commit(20, writes![8 = 2]), Seen::Refused(14, 255)),
            (commit(20, writes![7 = 2]), Seen::Refused(14, 255)),
            (
                commit(
                    20,
                    writes![0 = 2, 1 = 2, 2 = 2, 3 = 2, 4 = 2, 5 = 2, 6 = 2, 7 = 2],
                ),
                Seen::Refused(14, 255),
            ),
        ],
    )?;
    assert_eq!(rt; table.records(), before.as_slice());
    answers(&rt, &mut table, &answered)?;
    answers(
        &rt,
        &mut table,
        &[
            (prune(10), Seen::Prune),
            (commit(20, writes![8 = 2]), Seen::Commit(20)),
        ],
    )
}

#[test]
fn commit_of_one_too_many_is_refused_whole(rt: HostRuntime) -> Result<(), Fail> {
    let mut memory = [USED; 65];
    let mut table = Table::new(&mut memory);
    answers(
        &rt,
        &mut table,
        &[
            (commit(10, writes![0 = 1, 1 = 1]), Seen::Refused(14, 255)),
            (version(0, 10), Seen::Version(0, 0, 0)),
        ],
    )?;
    holds(&rt, &table, &[], &[])?;
    answers(
        &rt,
        &mut table,
        &[(commit(10, writes![1 = 1]), Seen::Commit(10))],
    )?;
    holds(&rt, &table, &[], &[record(1, 10, 1)])
}

#[test]
fn full_table_takes_a_commit_that_drops_as_many_as_it_adds(rt: HostRuntime) -> Result<(), Fail> {
    let mut memory = [USED; 79];
    let mut table = Table::new(&mut memory);
    rewrite(&rt, &mut table, 15);
    answers(
        &rt,
        &mut table,
        &[
            (commit(16, writes![8 = 1]), Seen::Refused(14, 255)),
            (commit(16, writes![7 = 1, 8 = 1]), Seen::Refused(14, 255)),
            (commit(16, writes![7 = 16]), Seen::Commit(16)),
            (version(7, 0), Seen::Refused(15, 7)),
            (version(7, 16), Seen::Version(16, 16, 16)),
            (commit(17, writes![8 = 1]), Seen::Refused(14, 255)),
        ],
    )
}

// Prunes.

#[test]
fn prune_drops_what_is_older_than_the_version_at_the_horizon(rt: HostRuntime) -> Result<(), Fail> {
    let first = Seen::Version(0, 0, 9);
    let second = Seen::Version(11, 10, 29);
    let gone = Seen::Refused(15, 1);
    let other = Seen::Version(0, 0, 44);
    let other_gone = Seen::Refused(15, 2);
    // horizon, key 1 at time 9, key 1 at time 29, key 2 at time 44
    let cases: [(u64, Seen, Seen, Seen); 11] = [
        (0, first, second, other),
        (9, first, second, other),
        (10, gone, second, other),
        (11, gone, second, other),
        (29, gone, second, other),
        (30, gone, gone, other),
        (44, gone, gone, other),
        (45, gone, gone, other_gone),
        (46, gone, gone, other_gone),
        (OPEN_END, gone, gone, other_gone),
        (u64::MAX, gone, gone, other_gone),
    ];
    for (horizon, at_nine, at_twenty_nine, of_other) in cases {
        let mut memory = [USED; 72];
        let mut table = Table::new(&mut memory);
        fill(&rt, &mut table)?;
        answers_named(
            &rt,
            horizon,
            &mut table,
            &[
                (prune(horizon), Seen::Prune),
                (version(1, 9), at_nine),
                (version(1, 29), at_twenty_nine),
                (version(2, 44), of_other),
                (version(1, 30), Seen::Version(13, 30, 45)),
                (version(2, 45), Seen::Version(22, 45, 45)),
                (version(3, 0), Seen::Version(0, 0, 45)),
                (StoreCall::Last, Seen::Last(45)),
            ],
        )?;
    }
    Ok(())
}

#[test]
fn prune_above_last_reaches_no_later_version(rt: HostRuntime) -> Result<(), Fail> {
    let mut memory = [USED; 72];
    let mut table = Table::new(&mut memory);
    fill(&rt, &mut table)?;
    answers(
        &rt,
        &mut table,
        &[
            (prune(u64::MAX), Seen::Prune),
            (commit(50, writes![1 = 15]), Seen::Commit(50)),
            (version(1, 49), Seen::Version(13, 30, 49)),
            (version(1, 50), Seen::Version(15, 50, 50)),
        ],
    )
}

#[test]
fn prune_leaves_the_newest_store_as_it_is(rt: HostRuntime) -> Result<(), Fail> {
    let mut newest = Newest::new();
    fill(&rt, &mut newest)?;
    for horizon in [0, 29, 45, u64::MAX] {
        answers_named(
            &rt,
            horizon,
            &mut newest,
            &[
                (prune(horizon), Seen::Prune),
                (StoreCall::Last, Seen::Last(45)),
                (version(1, 29), Seen::Refused(15, 1)),
                (version(1, 30), Seen::Version(13, 30, 45)),
                (version(3, 0), Seen::Version(0, 0, 45)),
            ],
        )?;
    }
    Ok(())
}

// A table's memory.

#[test]
fn new_table_holds_each_key_once_and_then_zeros(rt: HostRuntime) -> Result<(), Fail> {
    let mut least = [USED; 64];
    holds(&rt, &Table::new(&mut least), &[], &[])?;
    let mut more = [USED; 72];
    holds(&rt, &Table::new(&mut more), &[], &[])?;
    let mut most = [USED; 1024];
    holds(&rt, &Table::new(&mut most), &[], &[])
}

#[test]
fn records_stand_by_timestamp_and_key_and_close_up_in_a_prune(rt: HostRuntime) -> Result<(), Fail> {
    let mut memory = [USED; 72];
    let mut table = Table::new(&mut memory);
    answers(
        &rt,
        &mut table,
        &[
            (commit(10, writes![3 = 30, 5 = 50]), Seen::Commit(10)),
            (commit(20, writes![0 = 1, 3 = 31, 63 = 9]), Seen::Commit(20)),
        ],
    )?;
    let committed = [
        record(3, 10, 30),
        record(5, 10, 50),
        record(0, 20, 1),
        record(3, 20, 31),
        record(63, 20, 9),
    ];
    holds(&rt, &table, &[], &committed)?;
    answers(&rt, &mut table, &[(prune(9), Seen::Prune)])?;
    holds(&rt, &table, &[], &committed)?;
    answers(&rt, &mut table, &[(prune(19), Seen::Prune)])?;
    holds(&rt, &table, &[3, 5], &committed)?;
    answers(
        &rt,
        &mut table,
        &[
            (prune(20), Seen::Prune),
            (commit(0, writes![5 = 51]), Seen::Commit(21)),
        ],
    )?;
    holds(
        &rt,
        &table,
        &[0, 3, 5, 63],
        &[
            record(5, 10, 50),
            record(0, 20, 1),
            record(3, 20, 31),
            record(63, 20, 9),
            record(5, 21, 51),
        ],
    )
}

#[test]
fn records_stay_in_the_memory_after_the_table(rt: HostRuntime) -> Result<(), Fail> {
    let mut memory = [USED; 72];
    answers(
        &rt,
        &mut Table::new(&mut memory),
        &[(commit(10, writes![3 = 30]), Seen::Commit(10))],
    )?;
    assert_eq!(rt;
        [memory[0], memory[63], memory[64], memory[65], memory[71]],
        [
            NO_RECORD,
            record(63, 0, 0),
            record(3, 10, 30),
            NO_RECORD,
            NO_RECORD,
        ]
    );
    Ok(())
}

#[test]
fn memory_of_64_to_1_024_records_is_fit(rt: HostRuntime) {
    assert!(rt; Table::check(&[USED; 64]).is_ok());
    assert!(rt; Table::check(&[USED; 65]).is_ok());
    assert!(rt; Table::check(&[USED; 1024]).is_ok());
}

// The memory is refused, and a table in it leaves it alone, answers as a new store and takes no commit.
fn is_unfit(
    rt: &(impl Abort + AllocGlobal),
    name: &str,
    memory: &mut [Record],
) -> Result<(), Fail> {
    let before = memory.to_vec(rt.alloc())?;
    let Err(fault) = Table::check(memory) else {
        return Err(Fail::new(format_args!("{name}: taken as fit")));
    };
    assert_eq!(rt; seen_fault(rt, fault)?, Seen::Refused(17, 255), "{name}");
    let mut table = Table::new(memory);
    assert_eq!(rt; table.records(), before.as_slice(), "{name}");
    answers_named(
        rt,
        name,
        &mut table,
        &[
            (StoreCall::Last, Seen::Last(0)),
            (version(0, 0), Seen::Version(0, 0, 0)),
            (version(9, 9), Seen::Version(0, 0, 0)),
            (version(63, OPEN_END), Seen::Version(0, 0, 0)),
            (version(64, 0), Seen::Refused(1, 64)),
            (commit(10, writes![9 = 1]), Seen::Refused(14, 255)),
            (commit(10, writes![]), Seen::Refused(11, 255)),
            (commit(OPEN_END, writes![9 = 1]), Seen::Refused(12, 255)),
            (prune(u64::MAX), Seen::Prune),
            (commit(10, writes![9 = 1]), Seen::Refused(14, 255)),
            (StoreCall::Last, Seen::Last(0)),
            (version(9, 10), Seen::Version(0, 0, 0)),
        ],
    )?;
    assert_eq!(rt; table.records(), before.as_slice(), "{name}");
    Ok(())
}

#[test]
fn memory_of_another_size_is_unfit(rt: HostRuntime) -> Result<(), Fail> {
    is_unfit(&rt, "no records", &mut [])?;
    is_unfit(&rt, "63 records", &mut [USED; 63])?;
    is_unfit(&rt, "1,025 records", &mut [USED; 1025])
}
