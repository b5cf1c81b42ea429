//! Lists of calls run on new engines over both stores: their answers in order, behind what the list of answers already held,
//! and the engine that comes back.
use crate::builders::Seen::{self, Done, Leg, Notices, Refused, Value};
use crate::builders::{
    abandon, answers, begin, commit, committed, gone, hand, prune, read, refused_place, seen_of,
    store_refuses, write, wrote,
};
use engine::{Answer, run};
use engine_model::Call::{self, Count};
use newest_store::Newest;
use snapshot::EngineFault;
use snapshot::Refusal::{CapacityExceeded, NotOpen};
use std::process::Abort;
use std::test::Fail;
use table_store::{NO_RECORD, Table};

// Key 5 gets a version at time 10, while a chain at place 0 knows key 6 up to time 0 alone and then reads key 5. A chain at
// place 2 would give key 5 a version at time 20.
const CALLS: usize = 14;

fn calls() -> [Call; CALLS] {
    [
        begin(0, 1),
        read(0, 0, 6),
        begin(1, 2),
        write(1, 0, 5, 50),
        commit(1, 0, 10),
        read(0, 0, 5),
        commit(0, 0, 0),
        begin(2, 3),
        read(2, 0, 5),
        write(2, 0, 5, 51),
        commit(2, 0, 20),
        abandon(2),
        prune(u64::MAX),
        Count,
    ]
}

// A table of 65 records has kept the version at time 0, and has no room for one at time 20.
fn over_table() -> [Seen; CALLS] {
    [
        Leg(0),
        Value(0),
        Leg(0),
        Done,
        wrote(10, 1),
        Value(0),
        committed(0, 0, 0, 2, 0),
        Leg(0),
        Value(50),
        Done,
        Refused(store_refuses(CapacityExceeded, 2, 0)),
        Done,
        Done,
        Notices(0, 0),
    ]
}

// The newest store has dropped the version at time 0, and takes the one at time 20, of which worker 3 gets a notice.
fn over_newest() -> [Seen; CALLS] {
    [
        Leg(0),
        Value(0),
        Leg(0),
        Done,
        wrote(10, 1),
        gone(0, 0, 5),
        committed(0, 0, 0, 1, 0),
        Leg(0),
        Value(50),
        Done,
        committed(10, 10, 20, 1, 1),
        refused_place(NotOpen, 2),
        Done,
        Notices(1, 0),
    ]
}

// The list has exactly these answers.
fn lists(rt: &impl Abort, list: &[Result<Answer, EngineFault>], expected: &[Seen]) {
    assert_eq!(rt; list.len(), expected.len());
    for (number, (answer, seen)) in list.iter().zip(expected).enumerate() {
        assert_eq!(rt; seen_of(answer), *seen, "answer {number}");
    }
}

#[test]
fn answers_are_added_behind_those_of_an_earlier_run_and_each_engine_is_new(
    rt: HostRuntime,
) -> Result<(), Fail> {
    let mut list = Vec::new(rt.alloc());
    let (_, done) = run(Newest::new(), &calls(), &mut list);
    done?;
    let mut memory = [NO_RECORD; 65];
    let (_, done) = run(Table::new(&mut memory), &calls(), &mut list);
    done?;
    assert_eq!(rt; list.len(), 2 * CALLS);
    let (first, second) = list.split_at(CALLS);
    lists(&rt, first, &over_newest());
    lists(&rt, second, &over_table());
    Ok(())
}

#[test]
fn engine_comes_back_as_the_calls_have_left_it(rt: HostRuntime) -> Result<(), Fail> {
    let mut list = Vec::new(rt.alloc());
    let made = [
        begin(0, 1),
        read(0, 0, 5),
        write(0, 0, 5, 50),
        commit(0, 0, 10),
        begin(2, 4),
        write(2, 0, 6, 60),
    ];
    let (mut engine, done) = run(Newest::new(), &made, &mut list);
    done?;
    answers(
        &rt,
        &mut engine,
        &[
            (Count, Notices(1, 0)),
            (begin(0, 1), Leg(0)),
            (read(0, 0, 5), Value(0)),
            (read(2, 0, 6), Value(60)),
            (hand(2, 0, 0), Leg(1)),
            (commit(2, 1, 0), wrote(11, 1)),
        ],
    );
    Ok(())
}

#[test]
fn run_without_calls_adds_nothing_and_gives_a_new_engine(rt: HostRuntime) -> Result<(), Fail> {
    let mut list = Vec::new(rt.alloc());
    let (mut engine, done) = run(Newest::new(), &[], &mut list);
    done?;
    assert_eq!(rt; list.len(), 0);
    answers(
        &rt,
        &mut engine,
        &[
            (Count, Notices(0, 0)),
            (abandon(0), refused_place(NotOpen, 0)),
            (begin(0, 0), Leg(0)),
            (write(0, 0, 5, 50), Done),
            (commit(0, 0, 0), wrote(1, 1)),
        ],
    );
    Ok(())
}
