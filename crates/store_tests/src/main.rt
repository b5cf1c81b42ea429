//! Runs pseudo-random calls on tables of four sizes and on the newest store. It prints a line for each answer, and after
//! every hundred calls on a table a number drawn from all its records. The lines in `stdout` were computed by another
//! implementation of the rules. The tests of both stores stand in `tests`.
#![tactic(auto)]

mod chance;
#[cfg(test)]
mod plain_table;
#[cfg(test)]
mod tests;

use chance::Chance;
use newest_store::Newest;
use snapshot::{Fault, Reading};
use std::fmt;
use store::{Reads, Store, StoreAnswer, perform};
use table_store::{NO_RECORD, Record, Table};

// One run on a new store: so many hundreds of calls, of which one in `prunes` is a prune.
#[derive(Clone, Copy)]
struct Plan {
    seed: u64,
    hundreds: u8,
    prunes: u64,
}

// An answer as its line shows it: the call's letter, and what it answered.
#[derive(Clone, Copy)]
struct Answered(StoreAnswer);

impl fmt::Display for Answered {
    fn fmt<W: fmt::Write>(&self, f: &mut fmt::Formatter<W>) -> fmt::Result {
        match self.0 {
            StoreAnswer::Last(last) => write!(f, "l {last}"),
            StoreAnswer::Version(
                Ok(
                    Reading {
                        value,
                        timestamp,
                        promise,
                    },
                ),
            ) => write!(f, "v {value} {timestamp} {promise}"),
            StoreAnswer::Version(Err(fault)) => write!(f, "v {}", Refused(fault)),
            StoreAnswer::Commit(Ok(timestamp)) => write!(f, "c {timestamp}"),
            StoreAnswer::Commit(Err(fault)) => write!(f, "c {}", Refused(fault)),
            StoreAnswer::Prune => f.write_str("p"),
        }
    }
}

// A fault as a line shows it: the refusal's number, and the key that the fault names.
#[derive(Clone, Copy)]
struct Refused(Fault);

impl fmt::Display for Refused {
    fn fmt<W: fmt::Write>(&self, f: &mut fmt::Formatter<W>) -> fmt::Result {
        write!(f, "refused {} {}", self.0.refusal.number(), self.0.key)
    }
}

// Performs the plan's next hundred calls, and prints their answers. In the last hundred the clock stands near the last
// timestamp that there is.
fn call_hundred<S: Store>(
    rt: &HostRuntime,
    store: &mut S,
    chance: &mut Chance,
    plan: Plan,
    hundred: u8,
) -> anyhow::Result<()> {
    let at_end = hundred == plan.hundreds;
    let mut text = String::new(rt.alloc());
    for _ in 0..100 {
        let last = store.last();
        let writes = chance.writes(rt.alloc())?;
        let call = chance.call(last, writes.as_slice(), plan.prunes, at_end);
        writeln!(text, "{}", Answered(perform(store, call)))?;
    }
    print!(rt; "{text}")?;
    Ok(())
}

// Performs the plan's calls on the store, and runs `after_hundred` after every hundred of them.
fn run_plan<S: Store, F: FnMut(&S) -> anyhow::Result<()>>(
    rt: &HostRuntime,
    store: &mut S,
    plan: Plan,
    mut after_hundred: F,
) -> anyhow::Result<()>
    requires { F.IsAlwaysCallable after_hundred }
{
    let mut chance = Chance::new(plan.seed);
    for hundred in 1..=plan.hundreds {
        call_hundred(rt, store, &mut chance, plan, hundred)?;
        after_hundred(store)?;
    }
    Ok(())
}

// A number in which every record counts, by its place.
fn sum_of(records: &[Record]) -> u64 {
    let mut sum = 0u64;
    for (record, weight) in records.iter().zip(1u64..) {
        let number = (u64::from(record.key) * 31)
            .wrapping_add(record.timestamp.wrapping_mul(7))
            .wrapping_add(u64::from(record.value));
        sum = sum.wrapping_add(number.wrapping_mul(weight));
    }
    sum % 4_294_967_296
}

fn run_table(rt: &HostRuntime, memory: &mut [Record], plan: Plan) -> anyhow::Result<()> {
    let size = memory.len();
    println!(rt; "table {size}")?;
    run_plan(rt, &mut Table::new(memory), plan, |table| {
        let sum = sum_of(table.records());
        println!(rt; "records {sum}")?;
        Ok(())
    })
}

fn run_newest(rt: &HostRuntime, plan: Plan) -> anyhow::Result<()> {
    println!(rt; "newest")?;
    run_plan(rt, &mut Newest::new(), plan, |_| Ok(()))
}

fn main(rt: HostRuntime) -> anyhow::Result<()> {
    run_table(
        &rt,
        &mut [NO_RECORD; 64],
        Plan {
            seed: 64,
            hundreds: 2,
            prunes: 10,
        },
    )?;
    run_table(
        &rt,
        &mut [NO_RECORD; 72],
        Plan {
            seed: 72,
            hundreds: 15,
            prunes: 12,
        },
    )?;
    run_table(
        &rt,
        &mut [NO_RECORD; 200],
        Plan {
            seed: 200,
            hundreds: 25,
            prunes: 100,
        },
    )?;
    run_table(
        &rt,
        &mut [NO_RECORD; 1024],
        Plan {
            seed: 1024,
            hundreds: 30,
            prunes: 300,
        },
    )?;
    run_newest(
        &rt,
        Plan {
            seed: 1,
            hundreds: 10,
            prunes: 20,
        },
    )
}
