//! Accounts of commits written to a book one after another, and read back.
use crate::builders::Seen::{Done, Leg, Legs, Value};
use crate::builders::{answers, begin, fork, join, made, put, read, write};
use book::{Account, AccountAt, read_account};
use engine::Engine;
use newest_store::Newest;
use snapshot::Refusal::AccountCut;
use snapshot::{
    AccountHead, BookFault, CHAIN_READINGS, ChainReading, Interval, NO_READING, NO_WRITE, OPEN_END,
    WRITE_KEYS, Write,
};
use std::process::Abort;
use store::Store;

// At place 0 a chain reads key 7 at worker 3, then key 9 at worker 1 and writes key 7 at worker 2, and is joined as leg 3.
fn begin_dock<S: Store>(rt: &impl Abort, engine: &mut Engine<S>) {
    answers(
        rt,
        engine,
        &[
            (begin(0, 3), Leg(0)),
            (read(0, 0, 7), Value(0)),
            (fork(0, 0, 1, 2), Legs(1, 2)),
            (read(0, 1, 9), Value(0)),
            (write(0, 2, 7, 5), Done),
            (join(0, 1, 2, 3), Leg(3)),
        ],
    );
}

// The chain commits, and its account is written to the book from this place on; answers how many bytes it has.
fn commits_into<S: Store>(
    engine: &mut Engine<S>,
    call: (u8, u8, u64),
    book: &mut [u8],
    start: usize,
) -> Option<usize> {
    let (place, leg, clock) = call;
    let mut readings = [NO_READING; CHAIN_READINGS];
    let mut writes = [NO_WRITE; WRITE_KEYS];
    let head = engine
        .commit(place, leg, clock, &mut readings, &mut writes)
        .ok()?;
    let account = Account {
        interval: head.interval,
        timestamp: head.timestamp,
        readings: readings.get(..head.readings)?,
        writes: writes.get(..head.writes)?,
    };
    account.write(book.get_mut(start..)?).ok()
}

// From this place of the book to that one is an account with this interval, this timestamp, these readings and writes.
fn has_account(
    rt: &impl Abort,
    book: &[u8],
    place: (usize, usize),
    interval: (u64, u64),
    timestamp: u64,
    readings: &[ChainReading],
    writes: &[Write],
) {
    let (start, end) = place;
    let (low, high) = interval;
    let head = AccountHead {
        interval: Interval { low, high },
        timestamp,
        readings: readings.len(),
        writes: writes.len(),
    };
    let mut readings_found = [NO_READING; CHAIN_READINGS];
    let mut writes_found = [NO_WRITE; WRITE_KEYS];
    assert_eq!(rt;
        read_account(book, start, &mut readings_found, &mut writes_found),
        Ok(AccountAt { head, end })
    );
    assert_eq!(rt; readings_found.get(..readings.len()), Some(readings));
    assert_eq!(rt; writes_found.get(..writes.len()), Some(writes));
}

// A book of three accounts: of an empty chain, of the one that `begin_dock` begins, and of one that only reads.
fn three_accounts(rt: &impl Abort, book: &mut [u8]) {
    let mut engine = Engine::new(Newest::new());
    answers(rt, &mut engine, &[(begin(1, 0), Leg(0))]);
    assert_eq!(rt; commits_into(&mut engine, (1, 0, 7), book, 0), Some(29));
    begin_dock(rt, &mut engine);
    assert_eq!(rt; commits_into(&mut engine, (0, 3, 100), book, 29), Some(78));
    answers(
        rt,
        &mut engine,
        &[(begin(2, 1), Leg(0)), (read(2, 0, 7), Value(5))],
    );
    assert_eq!(rt; commits_into(&mut engine, (2, 0, 0), book, 107), Some(51));
}

#[test]
fn accounts_written_one_after_another_are_read_back(rt: HostRuntime) {
    let mut memory = [255; 160];
    let book = &mut memory[..];
    three_accounts(&rt, book);
    assert_eq!(rt; book.get(158..), Some(&[255, 255][..]));
    has_account(&rt, book, (0, 29), (0, OPEN_END), 0, &[], &[]);
    let dock = [made(3, 7, 0, 0, 0), made(1, 9, 0, 0, 0)];
    has_account(&rt, book, (29, 107), (0, 0), 100, &dock, &[put(7, 5)]);
    let last = [made(1, 7, 5, 100, 100)];
    has_account(&rt, book, (107, 158), (100, 100), 0, &last, &[]);
    assert_eq!(rt;
        read_account(book, 158, &mut [], &mut []),
        Err(BookFault::new(AccountCut, 158))
    );
}

#[test]
fn longest_account_has_773_bytes_and_is_read_back(rt: HostRuntime) {
    let mut engine = Engine::new(Newest::new());
    answers(&rt, &mut engine, &[(begin(0, 7), Leg(0))]);
    let mut readings = [NO_READING; CHAIN_READINGS];
    for (key, reading) in (0..32).zip(readings.iter_mut()) {
        answers(&rt, &mut engine, &[(read(0, 0, key), Value(0))]);
        *reading = made(7, key, 0, 0, 0);
    }
    let mut writes = [NO_WRITE; WRITE_KEYS];
    for (key, entry) in (56..64).zip(writes.iter_mut()) {
        answers(&rt, &mut engine, &[(write(0, 0, key, u32::MAX), Done)]);
        *entry = put(key, u32::MAX);
    }
    let mut memory = [0; 773];
    let book = &mut memory[..];
    assert_eq!(rt; commits_into(&mut engine, (0, 0, 1), book, 0), Some(773));
    has_account(&rt, book, (0, 773), (0, 0), 1, &readings, &writes);
}
