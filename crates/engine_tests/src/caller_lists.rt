//! The two lists that a commit fills: exactly long enough, one short, longer than needed, and after a refusal.
use crate::builders::Seen::{Done, Leg, Legs, Notices, Value};
use crate::builders::{
    answers, begin, commit_into, committed, fork, read, refused_leg, refused_place, store_refuses,
    write,
};
use engine::Engine;
use engine_model::Call::Count;
use newest_store::Newest;
use snapshot::Refusal::{AnotherLegOpen, ClockTooHigh, NotOpen, PlaceOccupied, TooShort};
use snapshot::{
    AccountHead, ChainReading, EngineFault, Fault, Interval, Layer, OPEN_END, Reading, Refusal,
    Write,
};
use std::process::Abort;

// What stands in the lists before.
const OLD_READING: ChainReading = ChainReading {
    worker: 201,
    key: 202,
    reading: Reading {
        value: 203,
        timestamp: 204,
        promise: 205,
    },
};

const OLD_WRITE: Write = Write {
    key: 206,
    value: 207,
};

// The account of the chain below.
const HEAD: AccountHead = AccountHead {
    interval: Interval { low: 0, high: 0 },
    timestamp: 3,
    readings: 2,
    writes: 3,
};

const FIRST_READING: ChainReading = ChainReading {
    worker: 6,
    key: 7,
    reading: Reading {
        value: 0,
        timestamp: 0,
        promise: 0,
    },
};

const SECOND_READING: ChainReading = ChainReading {
    key: 9,
    ..FIRST_READING
};

const FIRST_WRITE: Write = Write { key: 4, value: 40 };

const SECOND_WRITE: Write = Write { key: 5, value: 50 };

const THIRD_WRITE: Write = Write { key: 8, value: 80 };

// An engine with a chain at place 2 that has made two readings and three writes on its leg 0, at worker 6.
fn ready_to_commit(rt: &impl Abort) -> Engine<Newest> {
    let mut engine = Engine::new(Newest::new());
    answers(
        rt,
        &mut engine,
        &[
            (begin(2, 6), Leg(0)),
            (read(2, 0, 7), Value(0)),
            (read(2, 0, 9), Value(0)),
            (write(2, 0, 5, 50), Done),
            (write(2, 0, 8, 80), Done),
            (write(2, 0, 4, 40), Done),
        ],
    );
    engine
}

// The refusal of a commit at place 2 by the chain.
fn refused_at_2(refusal: Refusal, leg: u8) -> EngineFault {
    EngineFault {
        fault: Fault {
            refusal,
            layer: Layer::Chain,
            place: 2,
            leg,
            key: 255,
        },
        of_store: None,
    }
}

// The chain at place 2 is as it was, and nothing was committed: the same commit is accepted with its whole account.
fn still_commits(rt: &impl Abort, engine: &mut Engine<Newest>) {
    answers(
        rt,
        engine,
        &[
            (Count, Notices(0, 0)),
            (begin(2, 0), refused_place(PlaceOccupied, 2)),
        ],
    );
    let mut readings = [OLD_READING; 2];
    let mut writes = [OLD_WRITE; 3];
    assert_eq!(rt;
        engine.commit(2, 0, 3, &mut readings, &mut writes),
        Ok(HEAD)
    );
    assert_eq!(rt; readings, [FIRST_READING, SECOND_READING]);
    assert_eq!(rt; writes, [FIRST_WRITE, SECOND_WRITE, THIRD_WRITE]);
    answers(rt, engine, &[(begin(2, 0), Leg(0))]);
}

#[test]
fn lists_that_are_exactly_long_enough_are_filled(rt: HostRuntime) {
    let mut engine = ready_to_commit(&rt);
    still_commits(&rt, &mut engine);
}

#[test]
fn commit_is_refused_where_the_readings_have_one_entry_too_few(rt: HostRuntime) {
    let mut engine = ready_to_commit(&rt);
    let mut readings = [OLD_READING; 1];
    let mut writes = [OLD_WRITE; 3];
    assert_eq!(rt;
        engine.commit(2, 0, 3, &mut readings, &mut writes),
        Err(refused_at_2(TooShort, 0))
    );
    assert_eq!(rt; readings, [OLD_READING]);
    assert_eq!(rt; writes, [OLD_WRITE; 3]);
    still_commits(&rt, &mut engine);
}

#[test]
fn commit_is_refused_where_the_writes_have_one_entry_too_few(rt: HostRuntime) {
    let mut engine = ready_to_commit(&rt);
    let mut readings = [OLD_READING; 2];
    let mut writes = [OLD_WRITE; 2];
    assert_eq!(rt;
        engine.commit(2, 0, 3, &mut readings, &mut writes),
        Err(refused_at_2(TooShort, 0))
    );
    assert_eq!(rt; readings, [OLD_READING; 2]);
    assert_eq!(rt; writes, [OLD_WRITE; 2]);
    still_commits(&rt, &mut engine);
}

#[test]
fn commit_is_refused_where_one_list_is_empty_and_the_other_long(rt: HostRuntime) {
    let mut engine = ready_to_commit(&rt);
    let mut readings = [OLD_READING; 33];
    let mut writes = [OLD_WRITE; 9];
    assert_eq!(rt;
        engine.commit(2, 0, 3, &mut [], &mut writes),
        Err(refused_at_2(TooShort, 0))
    );
    assert_eq!(rt;
        engine.commit(2, 0, 3, &mut readings, &mut []),
        Err(refused_at_2(TooShort, 0))
    );
    assert_eq!(rt; readings, [OLD_READING; 33]);
    assert_eq!(rt; writes, [OLD_WRITE; 9]);
    still_commits(&rt, &mut engine);
}

#[test]
fn rest_of_longer_lists_stays_as_it_was(rt: HostRuntime) {
    let mut engine = ready_to_commit(&rt);
    let mut readings = [OLD_READING; 5];
    let mut writes = [OLD_WRITE; 4];
    assert_eq!(rt;
        engine.commit(2, 0, 3, &mut readings, &mut writes),
        Ok(HEAD)
    );
    assert_eq!(rt;
        readings,
        [
            FIRST_READING,
            SECOND_READING,
            OLD_READING,
            OLD_READING,
            OLD_READING,
        ]
    );
    assert_eq!(rt; writes, [FIRST_WRITE, SECOND_WRITE, THIRD_WRITE, OLD_WRITE]);
}

#[test]
fn rest_of_lists_beyond_every_account_stays_as_it_was(rt: HostRuntime) {
    let mut engine = ready_to_commit(&rt);
    let mut readings = [OLD_READING; 40];
    let mut writes = [OLD_WRITE; 12];
    assert_eq!(rt;
        engine.commit(2, 0, 3, &mut readings, &mut writes),
        Ok(HEAD)
    );
    let (filled, rest) = readings.split_at(2);
    assert_eq!(rt; filled, &[FIRST_READING, SECOND_READING][..]);
    assert_eq!(rt; rest, &[OLD_READING; 38][..]);
    let (filled, rest) = writes.split_at(3);
    assert_eq!(rt; filled, &[FIRST_WRITE, SECOND_WRITE, THIRD_WRITE][..]);
    assert_eq!(rt; rest, &[OLD_WRITE; 9][..]);
}

#[test]
fn empty_lists_do_for_a_chain_without_readings_and_writes(rt: HostRuntime) {
    let mut engine = Engine::new(Newest::new());
    answers(&rt, &mut engine, &[(begin(0, 0), Leg(0))]);
    let head = AccountHead {
        interval: Interval {
            low: 0,
            high: OPEN_END,
        },
        timestamp: 0,
        readings: 0,
        writes: 0,
    };
    assert_eq!(rt; engine.commit(0, 0, 3, &mut [], &mut []), Ok(head));
}

#[test]
fn lists_stay_as_they_were_where_another_check_or_the_store_refuses(rt: HostRuntime) {
    let mut engine = ready_to_commit(&rt);
    let mut readings = [OLD_READING; 3];
    let mut writes = [OLD_WRITE; 4];
    assert_eq!(rt;
        engine.commit(2, 0, OPEN_END, &mut readings, &mut writes),
        Err(store_refuses(ClockTooHigh, 2, 0))
    );
    answers(&rt, &mut engine, &[(fork(2, 0, 1, 2), Legs(1, 2))]);
    assert_eq!(rt;
        engine.commit(2, 0, 3, &mut readings, &mut writes),
        Err(refused_at_2(NotOpen, 0))
    );
    assert_eq!(rt;
        engine.commit(2, 1, 3, &mut readings, &mut writes),
        Err(refused_at_2(AnotherLegOpen, 1))
    );
    assert_eq!(rt; readings, [OLD_READING; 3]);
    assert_eq!(rt; writes, [OLD_WRITE; 4]);
}

#[test]
fn rooms_are_numbers_of_any_size(rt: HostRuntime) {
    let mut engine = ready_to_commit(&rt);
    answers(
        &rt,
        &mut engine,
        &[
            (
                commit_into(2, 0, 3, usize::MAX, 2),
                refused_leg(TooShort, 2, 0),
            ),
            (
                commit_into(2, 0, 3, 1, usize::MAX),
                refused_leg(TooShort, 2, 0),
            ),
            (
                commit_into(2, 0, 3, usize::MAX, usize::MAX),
                committed(0, 0, 3, 2, 3),
            ),
        ],
    );
}
