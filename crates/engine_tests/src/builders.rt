//! An engine's calls in short, with their numbers in the order of the engine's parameters, and the answers that a test expects
//! of them.
use engine::{Answer, Engine};
use engine_model::Call;
use snapshot::{
    AccountHead, CHAIN_READINGS, ChainReading, EngineFault, Fault, Interval, Layer, NOT_NAMED,
    OPEN_END, Reading, Refusal, WRITE_KEYS, Write,
};
use std::process::Abort;
use store::Store;

// The last time that a commit can have.
pub(crate) const LAST_TIME: u64 = OPEN_END - 1;

pub(crate) fn begin(place: u8, worker: u8) -> Call {
    Call::Begin { place, worker }
}

pub(crate) fn hand(place: u8, leg: u8, worker: u8) -> Call {
    Call::Hand { place, leg, worker }
}

pub(crate) fn fork(place: u8, leg: u8, first_worker: u8, second_worker: u8) -> Call {
    Call::Fork {
        place,
        leg,
        first_worker,
        second_worker,
    }
}

pub(crate) fn join(place: u8, first_leg: u8, second_leg: u8, worker: u8) -> Call {
    Call::Join {
        place,
        first_leg,
        second_leg,
        worker,
    }
}

pub(crate) fn read(place: u8, leg: u8, key: u8) -> Call {
    Call::Read { place, leg, key }
}

pub(crate) fn write(place: u8, leg: u8, key: u8, value: u32) -> Call {
    Call::Write {
        place,
        leg,
        key,
        value,
    }
}

// A commit into lists with room for every account.
pub(crate) fn commit(place: u8, leg: u8, clock: u64) -> Call {
    commit_into(place, leg, clock, CHAIN_READINGS, WRITE_KEYS)
}

// A commit into lists with room for so many readings and writes.
pub(crate) fn commit_into(
    place: u8,
    leg: u8,
    clock: u64,
    readings_room: usize,
    writes_room: usize,
) -> Call {
    Call::Commit {
        place,
        leg,
        clock,
        readings_room,
        writes_room,
    }
}

pub(crate) fn abandon(place: u8) -> Call {
    Call::Abandon { place }
}

pub(crate) fn prune(horizon: u64) -> Call {
    Call::Prune { horizon }
}

// An answer that can be compared: of an account its five numbers.
#[derive(Clone, Copy, PartialEq, Eq, Debug)]
pub(crate) enum Seen {
    Leg(u8),
    Legs(u8, u8),
    Value(u32),
    Notices(usize, u64),
    Committed(AccountHead),
    Done,
    Refused(EngineFault),
}

// What is seen of an answer.
pub(crate) fn seen_of(answer: &Result<Answer, EngineFault>) -> Seen {
    match answer {
        Ok(Answer::Leg(leg)) => Seen::Leg(*leg),
        Ok(Answer::Legs(first, second)) => Seen::Legs(*first, *second),
        Ok(Answer::Value(value)) => Seen::Value(*value),
        Ok(Answer::Count(waiting, lost)) => Seen::Notices(*waiting, *lost),
        Ok(Answer::Account(committed)) => Seen::Committed(committed.head()),
        Ok(Answer::Done) => Seen::Done,
        Err(fault) => Seen::Refused(*fault),
    }
}

// The answer of a commit: low and high of the account's interval, its timestamp, and how many readings and writes it has.
pub(crate) fn committed(
    low: u64,
    high: u64,
    timestamp: u64,
    readings: usize,
    writes: usize,
) -> Seen {
    Seen::Committed(AccountHead {
        interval: Interval { low, high },
        timestamp,
        readings,
        writes,
    })
}

// The answer of a commit by a chain that has read nothing, with this timestamp and so many writes.
pub(crate) fn wrote(timestamp: u64, writes: usize) -> Seen {
    committed(0, OPEN_END, timestamp, 0, writes)
}

// A refusal of the chain's, with the place, leg and key that its fault has.
pub(crate) fn refused(refusal: Refusal, place: u8, leg: u8, key: u8) -> Seen {
    Seen::Refused(EngineFault {
        fault: Fault {
            refusal,
            layer: Layer::Chain,
            place,
            leg,
            key,
        },
        of_store: None,
    })
}

// The same for a call that names no key.
pub(crate) fn refused_leg(refusal: Refusal, place: u8, leg: u8) -> Seen {
    refused(refusal, place, leg, NOT_NAMED)
}

// The same for a call that names neither leg nor key.
pub(crate) fn refused_place(refusal: Refusal, place: u8) -> Seen {
    refused(refusal, place, NOT_NAMED, NOT_NAMED)
}

// A fault of the engine's for a refusal of the store's, with the key of the engine's call and of the store's own fault.
fn by_store(refusal: Refusal, place: u8, leg: u8, key: u8) -> EngineFault {
    EngineFault {
        fault: Fault {
            refusal,
            layer: Layer::Store,
            place,
            leg,
            key,
        },
        of_store: Some(Fault {
            refusal,
            layer: Layer::Store,
            place: NOT_NAMED,
            leg: NOT_NAMED,
            key,
        }),
    }
}

// The store has dropped the version that a read asks for.
pub(crate) fn gone(place: u8, leg: u8, key: u8) -> Seen {
    Seen::Refused(by_store(Refusal::VersionGone, place, leg, key))
}

// The fault of a commit that the store refuses; neither the commit nor the store's fault names a key.
pub(crate) fn store_refuses(refusal: Refusal, place: u8, leg: u8) -> EngineFault {
    by_store(refusal, place, leg, NOT_NAMED)
}

// The engine answers each call so, in this order.
pub(crate) fn answers<S: Store>(rt: &impl Abort, engine: &mut Engine<S>, steps: &[(Call, Seen)]) {
    for (number, (call, expected)) in steps.iter().enumerate() {
        assert_eq!(rt; seen_of(&engine.perform(*call)), *expected, "call {number}");
    }
}

// A reading on a worker, of a key: value, timestamp and promise.
pub(crate) fn made(worker: u8, key: u8, value: u32, timestamp: u64, promise: u64) -> ChainReading {
    ChainReading {
        worker,
        key,
        reading: Reading {
            value,
            timestamp,
            promise,
        },
    }
}

pub(crate) fn put(key: u8, value: u32) -> Write {
    Write { key, value }
}
