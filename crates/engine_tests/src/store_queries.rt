//! Which calls an engine makes of its store: for a read the version at the high end of the leg's interval, or none where a
//! worker's cache answers; for a commit the store's commit, or none without writes and where the chain refuses.
use crate::builders::Seen::{self, Done, Leg, Legs, Refused, Value};
use crate::builders::{
    LAST_TIME, abandon, answers, begin, commit, commit_into, committed, fork, hand, join, prune,
    put, read, refused, refused_leg, store_refuses, write, wrote,
};
use crate::watched_store::{NONE, Queries, Watched, one_commit, one_prune, version};
use engine::Engine;
use engine_model::Call;
use newest_store::Newest;
use snapshot::Refusal::{
    AnotherLegOpen, ClockTooHigh, NoTimeLeft, NotOpen, OutOfRange, ReadingsFull, TooShort,
};
use snapshot::{KEYS, OPEN_END, Write};
use std::ops::Range;
use std::process::Abort;
use store::Store;

// An engine over a newest store that gave key 0 the value 100 at time 1, key 1 the value 101 at time 2, and so on for all
// 64 keys.
fn over_filled(rt: &impl Abort) -> Engine<Watched> {
    let mut store = Newest::new();
    for key in 0..KEYS {
        let write = Write {
            key,
            value: 100 + u32::from(key),
        };
        let clock = u64::from(key) + 1;
        assert_eq!(rt; store.commit(clock, &[write]).ok(), Some(clock));
    }
    Engine::new(Watched::new(store))
}

// An engine over a new store.
fn over_new() -> Engine<Watched> {
    Engine::new(Watched::new(Newest::new()))
}

// The engine answers each call so, and makes exactly these calls of the store for it.
fn queries_of(rt: &impl Abort, engine: &mut Engine<Watched>, steps: &[(Call, Seen, Queries)]) {
    for (number, (call, answer, expected)) in steps.iter().enumerate() {
        let _ = engine.store().queries();
        answers(rt, engine, &[(*call, *answer)]);
        assert_eq!(rt; engine.store().queries(), *expected, "call {number}");
    }
}

// The leg reads each of these keys, and finds what the filled store has.
fn reads_filled(
    rt: &impl Abort,
    engine: &mut Engine<Watched>,
    place: u8,
    leg: u8,
    keys: Range<u8>,
) {
    for key in keys {
        let value = Value(100 + u32::from(key));
        answers(rt, engine, &[(read(place, leg, key), value)]);
    }
}

// Reads.

#[test]
fn read_queries_the_store_at_the_high_end_of_the_legs_interval(rt: HostRuntime) {
    queries_of(
        &rt,
        &mut over_filled(&rt),
        &[
            (begin(0, 0), Leg(0), NONE),
            (read(0, 0, 5), Value(105), version(5, OPEN_END)),
            (read(0, 0, 6), Value(106), version(6, 64)),
            (hand(0, 0, 1), Leg(1), NONE),
            (read(0, 1, 7), Value(107), version(7, 64)),
            (fork(0, 1, 2, 3), Legs(2, 3), NONE),
            (read(0, 3, 8), Value(108), version(8, 64)),
            // the interval of a leg of another chain is its own
            (begin(1, 4), Leg(0), NONE),
            (fork(1, 0, 5, 6), Legs(1, 2), NONE),
            (read(1, 1, 9), Value(109), version(9, OPEN_END)),
            (read(1, 2, 9), Value(109), version(9, OPEN_END)),
            (join(1, 1, 2, 7), Leg(3), NONE),
            (read(1, 3, 9), Value(109), version(9, 64)),
        ],
    );
}

#[test]
fn read_of_what_the_leg_wrote_or_read_and_a_refused_one_do_not_query_the_store(rt: HostRuntime) {
    let mut engine = over_filled(&rt);
    queries_of(
        &rt,
        &mut engine,
        &[
            (read(0, 0, 5), refused(NotOpen, 0, 0, 5), NONE),
            (begin(0, 0), Leg(0), NONE),
            (write(0, 0, 40, 7), Done, NONE),
            (read(0, 0, 40), Value(7), NONE),
            (read(0, 0, 64), refused(OutOfRange, 0, 0, 64), NONE),
            (read(0, 1, 5), refused(NotOpen, 0, 1, 5), NONE),
        ],
    );
    reads_filled(&rt, &mut engine, 0, 0, 0..32);
    queries_of(
        &rt,
        &mut engine,
        &[
            (read(0, 0, 0), Value(100), NONE),
            (read(0, 0, 32), refused(ReadingsFull, 0, 0, 32), NONE),
        ],
    );
}

#[test]
fn what_a_worker_read_is_in_its_cache_alone_for_later_legs_and_chains(rt: HostRuntime) {
    queries_of(
        &rt,
        &mut over_filled(&rt),
        &[
            (begin(0, 3), Leg(0), NONE),
            (read(0, 0, 5), Value(105), version(5, OPEN_END)),
            (hand(0, 0, 3), Leg(1), NONE),
            (read(0, 1, 5), Value(105), NONE),
            (hand(0, 1, 4), Leg(2), NONE),
            (read(0, 2, 5), Value(105), version(5, 64)),
            (abandon(0), Done, NONE),
            (prune(u64::MAX), Done, one_prune(u64::MAX)),
            (begin(1, 3), Leg(0), NONE),
            (read(1, 0, 5), Value(105), NONE),
            (begin(2, 4), Leg(0), NONE),
            (read(2, 0, 5), Value(105), NONE),
            // a cache's answer narrows as a store's does
            (read(2, 0, 6), Value(106), version(6, 64)),
            (begin(3, 7), Leg(0), NONE),
            (read(3, 0, 5), Value(105), version(5, OPEN_END)),
        ],
    );
}

#[test]
fn legs_run_at_the_workers_that_were_named(rt: HostRuntime) {
    queries_of(
        &rt,
        &mut over_filled(&rt),
        &[
            // worker 1 alone gets key 5, worker 2 alone key 6
            (begin(0, 1), Leg(0), NONE),
            (read(0, 0, 5), Value(105), version(5, OPEN_END)),
            (begin(1, 2), Leg(0), NONE),
            (read(1, 0, 6), Value(106), version(6, OPEN_END)),
            (begin(2, 0), Leg(0), NONE),
            (fork(2, 0, 1, 2), Legs(1, 2), NONE),
            (read(2, 1, 5), Value(105), NONE),
            (read(2, 2, 6), Value(106), NONE),
            (begin(3, 0), Leg(0), NONE),
            (fork(3, 0, 2, 1), Legs(1, 2), NONE),
            (read(3, 1, 6), Value(106), NONE),
            (read(3, 2, 5), Value(105), NONE),
            (join(3, 1, 2, 1), Leg(3), NONE),
            (read(3, 3, 5), Value(105), NONE),
            (read(3, 3, 6), Value(106), version(6, 64)),
            (join(2, 2, 1, 2), Leg(3), NONE),
            (read(2, 3, 6), Value(106), NONE),
            (read(2, 3, 5), Value(105), version(5, 64)),
        ],
    );
}

#[test]
fn ninth_key_of_a_worker_takes_the_place_of_the_one_used_longest_ago(rt: HostRuntime) {
    let mut engine = over_filled(&rt);
    answers(&rt, &mut engine, &[(begin(0, 0), Leg(0))]);
    reads_filled(&rt, &mut engine, 0, 0, 0..8);
    queries_of(
        &rt,
        &mut engine,
        &[
            // key 0 is used again from the cache, and 1 is now the oldest
            (begin(1, 0), Leg(0), NONE),
            (read(1, 0, 0), Value(100), NONE),
            (read(1, 0, 8), Value(108), version(8, 64)),
            (begin(2, 0), Leg(0), NONE),
            (read(2, 0, 0), Value(100), NONE),
            (read(2, 0, 1), Value(101), version(1, 64)),
            // that took the place of 2
            (begin(3, 0), Leg(0), NONE),
            (read(3, 0, 3), Value(103), NONE),
            (read(3, 0, 2), Value(102), version(2, 64)),
            (read(3, 0, 4), Value(104), version(4, 64)),
        ],
    );
}

#[test]
fn what_the_leg_wrote_or_read_itself_is_not_a_use_of_the_workers_entry(rt: HostRuntime) {
    let mut engine = over_filled(&rt);
    answers(&rt, &mut engine, &[(begin(0, 0), Leg(0))]);
    reads_filled(&rt, &mut engine, 0, 0, 0..8);
    queries_of(
        &rt,
        &mut engine,
        &[
            (read(0, 0, 0), Value(100), NONE),
            (write(0, 0, 1, 7), Done, NONE),
            (read(0, 0, 1), Value(7), NONE),
            // 0, 1 and 2 are still the oldest, and give way in this order
            (begin(1, 0), Leg(0), NONE),
            (read(1, 0, 8), Value(108), version(8, OPEN_END)),
            (read(1, 0, 0), Value(100), version(0, 64)),
            (read(1, 0, 1), Value(101), version(1, 64)),
            (read(1, 0, 3), Value(103), NONE),
        ],
    );
}

// Commits.

#[test]
fn commit_with_writes_queries_the_store_once_with_its_clock_reading_and_its_writes(
    rt: HostRuntime,
) {
    let mut engine = over_new();
    answers(
        &rt,
        &mut engine,
        &[
            (begin(0, 0), Leg(0)),
            (read(0, 0, 7), Value(0)),
            (write(0, 0, 6, 60), Done),
            (write(0, 0, 5, 50), Done),
        ],
    );
    let expected = one_commit(33, &[put(5, 50), put(6, 60)]);
    queries_of(
        &rt,
        &mut engine,
        &[(commit(0, 0, 33), committed(0, 0, 33, 1, 2), expected)],
    );
    // the clock reading goes to the store as it is, and the store answers a later time
    answers(
        &rt,
        &mut engine,
        &[(begin(0, 0), Leg(0)), (write(0, 0, 5, 51), Done)],
    );
    let expected = one_commit(2, &[put(5, 51)]);
    queries_of(
        &rt,
        &mut engine,
        &[(commit(0, 0, 2), wrote(34, 1), expected)],
    );
}

#[test]
fn commit_without_writes_does_not_query_the_store_whatever_the_clock_reading(rt: HostRuntime) {
    let mut engine = over_new();
    for clock in [0, 1, LAST_TIME, OPEN_END, u64::MAX] {
        answers(
            &rt,
            &mut engine,
            &[(begin(0, 0), Leg(0)), (read(0, 0, 5), Value(0))],
        );
        let call = commit_into(0, 0, clock, 1, 0);
        queries_of(&rt, &mut engine, &[(call, committed(0, 0, 0, 1, 0), NONE)]);
    }
}

#[test]
fn commit_that_the_chain_refuses_does_not_query_the_store(rt: HostRuntime) {
    let mut engine = over_new();
    answers(
        &rt,
        &mut engine,
        &[
            (begin(0, 0), Leg(0)),
            (read(0, 0, 7), Value(0)),
            (write(0, 0, 5, 50), Done),
            (fork(0, 0, 1, 2), Legs(1, 2)),
        ],
    );
    for (call, refusal) in [
        (commit(4, 1, 9), refused_leg(OutOfRange, 4, 1)),
        (commit(0, 16, 9), refused_leg(OutOfRange, 0, 16)),
        (commit(1, 1, 9), refused_leg(NotOpen, 1, 1)),
        (commit(0, 0, 9), refused_leg(NotOpen, 0, 0)),
        (commit(0, 1, 9), refused_leg(AnotherLegOpen, 0, 1)),
    ] {
        queries_of(&rt, &mut engine, &[(call, refusal, NONE)]);
    }
    answers(&rt, &mut engine, &[(join(0, 1, 2, 3), Leg(3))]);
    for call in [commit_into(0, 3, 9, 0, 8), commit_into(0, 3, 9, 32, 0)] {
        queries_of(
            &rt,
            &mut engine,
            &[(call, refused_leg(TooShort, 0, 3), NONE)],
        );
    }
}

#[test]
fn commit_that_the_store_refuses_queries_it_once(rt: HostRuntime) {
    let mut engine = over_new();
    answers(
        &rt,
        &mut engine,
        &[(begin(0, 0), Leg(0)), (write(0, 0, 5, 50), Done)],
    );
    let writes = [put(5, 50)];
    let too_high = Refused(store_refuses(ClockTooHigh, 0, 0));
    let expected = one_commit(u64::MAX, &writes);
    queries_of(
        &rt,
        &mut engine,
        &[(commit(0, 0, u64::MAX), too_high, expected)],
    );
    let expected = one_commit(LAST_TIME, &writes);
    queries_of(
        &rt,
        &mut engine,
        &[(commit(0, 0, LAST_TIME), wrote(LAST_TIME, 1), expected)],
    );
    answers(
        &rt,
        &mut engine,
        &[(begin(0, 0), Leg(0)), (write(0, 0, 5, 50), Done)],
    );
    let no_time = Refused(store_refuses(NoTimeLeft, 0, 0));
    let expected = one_commit(1, &writes);
    queries_of(&rt, &mut engine, &[(commit(0, 0, 1), no_time, expected)]);
}
