//! Whole faults: the store's own is inside the engine's where the store refused, and there is none inside where another
//! layer did.
use crate::builders::Seen::{self, Done, Leg, Legs, Refused, Value};
use crate::builders::{
    LAST_TIME, answers, begin, commit, commit_into, committed, fork, gone, hand, join, read,
    refused, refused_leg, refused_place, store_refuses, write, wrote,
};
use engine::Engine;
use engine_model::Call::{Deliver, Discard};
use newest_store::Newest;
use snapshot::Refusal::{
    AnotherLegOpen, CapacityExceeded, ClockTooHigh, IntervalsApart, NoSuchNotice, NoTimeLeft,
    NotOpen, OutOfRange, PlaceOccupied, ReadingsFull, SameLeg, TooManyLegs, TooShort, WriteSetFull,
};
use snapshot::{EngineFault, Fault, Layer, NOT_NAMED, OPEN_END};
use std::process::Abort;
use store::Store;
use table_store::{NO_RECORD, Table};

// The refusal of a notice that does not wait: its fault names nothing.
fn no_such_notice() -> Seen {
    Refused(EngineFault {
        fault: Fault {
            refusal: NoSuchNotice,
            layer: Layer::Notices,
            place: NOT_NAMED,
            leg: NOT_NAMED,
            key: NOT_NAMED,
        },
        of_store: None,
    })
}

#[test]
fn fault_of_a_refused_commit_has_the_stores_own_inside(rt: HostRuntime) {
    let too_high = Refused(store_refuses(ClockTooHigh, 2, 1));
    let no_time = Refused(store_refuses(NoTimeLeft, 2, 1));
    answers(
        &rt,
        &mut Engine::new(Newest::new()),
        &[
            (begin(2, 1), Leg(0)),
            (write(2, 0, 5, 50), Done),
            (hand(2, 0, 1), Leg(1)),
            (commit(2, 1, OPEN_END), too_high),
            (commit(2, 1, u64::MAX), too_high),
            (begin(0, 1), Leg(0)),
            (write(0, 0, 5, 50), Done),
            (commit(0, 0, LAST_TIME), wrote(LAST_TIME, 1)),
            (commit(2, 1, 0), no_time),
            (commit(2, 1, LAST_TIME), no_time),
        ],
    );
    let mut memory = [NO_RECORD; 64];
    answers(
        &rt,
        &mut Engine::new(Table::new(&mut memory)),
        &[
            (begin(3, 0), Leg(0)),
            (write(3, 0, 5, 50), Done),
            (
                commit(3, 0, 7),
                Refused(store_refuses(CapacityExceeded, 3, 0)),
            ),
        ],
    );
}

#[test]
fn fault_of_a_refused_read_has_the_stores_own_inside(rt: HostRuntime) {
    answers(
        &rt,
        &mut Engine::new(Newest::new()),
        &[
            (begin(0, 1), Leg(0)),
            (read(0, 0, 6), Value(0)),
            (begin(3, 0), Leg(0)),
            (write(3, 0, 5, 50), Done),
            (commit(3, 0, 10), wrote(10, 1)),
            (read(0, 0, 5), gone(0, 0, 5)),
            (hand(0, 0, 2), Leg(1)),
            (read(0, 1, 5), gone(0, 1, 5)),
        ],
    );
}

#[test]
fn fault_of_another_layer_has_no_fault_of_the_store_inside(rt: HostRuntime) {
    let mut engine = Engine::new(Newest::new());
    answers(
        &rt,
        &mut engine,
        &[
            (begin(4, 0), refused_place(OutOfRange, 4)),
            (read(0, 0, 64), refused(OutOfRange, 0, 0, 64)),
            (commit(0, 16, u64::MAX), refused_leg(OutOfRange, 0, 16)),
            (begin(0, 0), Leg(0)),
            (begin(0, 0), refused_place(PlaceOccupied, 0)),
            (write(0, 1, 5, 1), refused(NotOpen, 0, 1, 5)),
            (join(0, 0, 0, 0), refused_leg(SameLeg, 0, 0)),
            (fork(0, 0, 1, 2), Legs(1, 2)),
            (commit(0, 1, u64::MAX), refused_leg(AnotherLegOpen, 0, 1)),
            (read(0, 1, 6), Value(0)),
            (begin(3, 0), Leg(0)),
            (write(3, 0, 5, 50), Done),
            (
                commit_into(3, 0, u64::MAX, 32, 0),
                refused_leg(TooShort, 3, 0),
            ),
            (commit(3, 0, 1), wrote(1, 1)),
            (read(0, 2, 5), Value(50)),
            (join(0, 1, 2, 3), refused_leg(IntervalsApart, 0, 1)),
            (Deliver { position: 0 }, no_such_notice()),
            (Discard { position: 31 }, no_such_notice()),
            (begin(1, 0), Leg(0)),
        ],
    );
    fills_readings_and_writes(&rt, &mut engine);
    for leg in 0..15 {
        answers(&rt, &mut engine, &[(hand(1, leg, 0), Leg(leg + 1))]);
    }
    answers(
        &rt,
        &mut engine,
        &[
            (read(1, 15, 63), refused(ReadingsFull, 1, 15, 63)),
            (write(1, 15, 63, 1), refused(WriteSetFull, 1, 15, 63)),
            (hand(1, 15, 0), refused_leg(TooManyLegs, 1, 15)),
            (commit(1, 15, 2), committed(1, 1, 2, 32, 8)),
        ],
    );
}

// Leg 0 of the chain at place 1 makes 32 readings, of which that of key 5 is of time 1, and eight writes.
fn fills_readings_and_writes<S: Store>(rt: &impl Abort, engine: &mut Engine<S>) {
    for key in 0..32 {
        let value = if key == 5 { 50 } else { 0 };
        answers(rt, engine, &[(read(1, 0, key), Value(value))]);
    }
    for key in 40..48 {
        answers(rt, engine, &[(write(1, 0, key, 7), Done)]);
    }
}
