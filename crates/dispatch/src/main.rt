//! A break-in at the loading dock of a warehouse, played by calls of the engine from a program, and the book of its accounts.
#![tactic(auto)]

mod accounts;
mod chains;
mod site;

use accounts::commit_to_book;
use book::{Listing, read_book};
use chains::{look, note, order, report, retry};
use engine::Engine;
use site::{FRONT, HORIZON, KEYHOLDER, PLACE, RECORDS, SET_RECORD, ZONE, name};
use snapshot::{EngineFault, Interval, KEYS, Refusal, Write};
use store::Store;
use table_store::{NO_RECORD, Table};

fn main(rt: HostRuntime) -> anyhow::Result<()> {
    let mut memory = [NO_RECORD; RECORDS];
    let mut engine = Engine::new(Table::new(&mut memory));
    let mut book = Vec::new(rt.alloc());

    println!(rt; "10: the alarm is set, and keyholder 3 is on duty")?;
    let leg = note(&mut engine, &[(SET_RECORD, 1), (KEYHOLDER, 3)])?;
    finish(&rt, &mut engine, &mut book, leg, 10)?;

    println!(rt; "20: the sensor sees somebody at door 5")?;
    let leg = note(&mut engine, &[(ZONE, 5)])?;
    finish(&rt, &mut engine, &mut book, leg, 20)?;

    println!(rt; "20: somebody looks at the zone and the set record")?;
    let leg = look(&mut engine)?;
    finish(&rt, &mut engine, &mut book, leg, 20)?;

    println!(rt; "30: the sensor sees somebody at door 6, and keyholder 4 takes over")?;
    let leg = note(&mut engine, &[(ZONE, 6), (KEYHOLDER, 4)])?;
    finish(&rt, &mut engine, &mut book, leg, 30)?;

    // The notice of door 6 waits, so worker 1 still has door 5 in its cache, known to be so at 20; keyholder 4 came at 30. The
    // first attempt is refused (6). When the second commits, the table is full with 69 versions (14).
    println!(rt; "35: the guard is sent")?;
    let leg = retry(&rt, &mut engine, order)?;
    finish(&rt, &mut engine, &mut book, leg, 35)?;

    // Worker 2 has the set record in its cache, known to be so up to 20, and the zone of that time was pruned (15).
    println!(rt; "40: the report is written")?;
    let leg = retry(&rt, &mut engine, report)?;
    finish(&rt, &mut engine, &mut book, leg, 40)?;

    println!(rt; "45: somebody looks at everything")?;
    survey(&rt, &mut engine, &mut book, 45)?;

    println!(rt; "the book: low, high, timestamp, readings and writes of each account")?;
    let mut heads = Vec::new(rt.alloc());
    let ending = read_book(book.as_slice(), &mut heads)?;
    let heads = heads.as_slice();
    print!(rt; "{}", Listing { heads, ending })?;
    Ok(())
}

// Commits the chain by a leg at a clock reading, into the book, and prints what its account says.
fn finish<S: Store>(
    rt: &impl Print,
    engine: &mut Engine<S>,
    book: &mut Vec<u8>,
    leg: u8,
    clock: u64,
) -> anyhow::Result<()> {
    let committed = commit_to_book(rt, engine, book, leg, clock, HORIZON)?;
    let account = committed.account();
    let read = account.readings.len();
    if read > 0 {
        let Interval { low, high } = account.interval;
        println!(rt; "  {read} values were so at every time from {low} to {high}")?;
    }
    for Write { key, value } in account.writes {
        let (what, from) = (name(*key), account.timestamp);
        println!(rt; "  {what} is {value} from {from} on")?;
    }
    Ok(())
}

// Looks at every key. Where the chain can take no more readings (8), it commits with those that it has, and a new one goes on.
fn survey<S: Store>(
    rt: &impl Print,
    engine: &mut Engine<S>,
    book: &mut Vec<u8>,
    clock: u64,
) -> anyhow::Result<()> {
    let mut leg = engine.begin(PLACE, FRONT)?;
    for key in 0..KEYS {
        match engine.read(PLACE, leg, key) {
            Ok(_) => {}
            Err(EngineFault { fault, .. }) if fault.refusal == Refusal::ReadingsFull => {
                println!(rt; "  refused 8: committed, and a new chain goes on")?;
                finish(rt, engine, book, leg, clock)?;
                leg = engine.begin(PLACE, FRONT)?;
                engine.read(PLACE, leg, key)?;
            }
            Err(fault) => return Err(fault.into()),
        }
    }
    finish(rt, engine, book, leg, clock)
}
