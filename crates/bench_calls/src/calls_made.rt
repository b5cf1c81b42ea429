//! Lists of calls on a new engine, each made by the engine's method of its name.

use engine::Engine;
use newest_store::Newest;
use snapshot::{
    AccountHead, CHAIN_READINGS, ChainReading, EngineFault, MOST_RECORDS, NO_READING, NO_WRITE,
    WRITE_KEYS, Write,
};
use store::Store;
use table_store::{NO_RECORD, Table};

/// A call by its kind's number, with its numbers: `other` is a second leg or a first worker, `last` a worker or a key, `number`
/// a clock reading, a position or a horizon.
#[repr(C)]
#[derive(Clone, Copy)]
pub struct NumberedCall {
    /// Which call, from 0 in the order of the engine's methods.
    pub kind: u8,
    /// The place that it names.
    pub place: u8,
    /// The leg that it names; of a join the first.
    pub leg: u8,
    /// A second leg or a first worker.
    pub other: u8,
    /// A worker or a key.
    pub last: u8,
    /// The value of a write.
    pub value: u32,
    /// A clock reading, a position or a horizon.
    pub number: u64,
}

// The lists of a commit's caller, which are as long as any account needs.
#[derive(Drop)]
struct Lists {
    readings: [ChainReading; CHAIN_READINGS],
    writes: [Write; WRITE_KEYS],
}

// Makes the calls on a new engine over a table of so many records, at most 1,024.
#[unsafe(no_mangle)]
pub extern "C" fn bench_calls_on_table(records: usize, calls: &[NumberedCall]) -> u64 {
    let mut memory = [NO_RECORD; MOST_RECORDS];
    let mut engine = Engine::new(Table::new(&mut memory[..records.min(MOST_RECORDS)]));
    make_all(&mut engine, calls)
}

// Makes the calls on a new engine over a newest store.
#[unsafe(no_mangle)]
pub extern "C" fn bench_calls_on_newest(calls: &[NumberedCall]) -> u64 {
    let mut engine = Engine::new(Newest::new());
    make_all(&mut engine, calls)
}

fn make_all<S: Store>(engine: &mut Engine<S>, calls: &[NumberedCall]) -> u64 {
    let mut lists = Lists {
        readings: [NO_READING; CHAIN_READINGS],
        writes: [NO_WRITE; WRITE_KEYS],
    };
    let mut sum: u64 = 0;
    for call in calls {
        let answered = make(engine, *call, &mut lists);
        sum = sum.wrapping_add(answered.unwrap_or_else(|fault| number_of(fault)));
    }
    sum
}

// Makes the call, and sums the numbers of its answer.
fn make<S: Store>(
    engine: &mut Engine<S>,
    call: NumberedCall,
    lists: &mut Lists,
) -> Result<u64, EngineFault> {
    let NumberedCall {
        kind,
        place,
        leg,
        other,
        last,
        value,
        number,
    } = call;
    match kind {
        0 => engine.begin(place, last).map(u64::from),
        1 => engine.hand(place, leg, last).map(u64::from),
        2 => {
            let (first, second) = engine.fork(place, leg, other, last)?;
            Ok(u64::from(first) + u64::from(second))
        }
        3 => engine.join(place, leg, other, last).map(u64::from),
        4 => engine.read(place, leg, last).map(u64::from),
        5 => engine.write(place, leg, last, value).map(|()| 0),
        6 => {
            let head = engine.commit(place, leg, number, &mut lists.readings, &mut lists.writes)?;
            Ok(sum_of_account(head, &lists.readings, &lists.writes))
        }
        7 => engine.abandon(place).map(|()| 0),
        8 => engine.deliver(number).map(|()| 0),
        9 => engine.discard(number).map(|()| 0),
        10 => {
            let (waiting, lost) = engine.count();
            Ok((waiting as u64).wrapping_add(lost))
        }
        _ => {
            engine.prune(number);
            Ok(0)
        }
    }
}

// The number of the refusal.
fn number_of(fault: EngineFault) -> u64 {
    u64::from(fault.fault.refusal.number())
}

// The sum of the account's numbers: its head's, and those of the starts of the two lists.
pub(crate) fn sum_of_account(
    head: AccountHead,
    readings: &[ChainReading],
    writes: &[Write],
) -> u64 {
    let mut sum = head.interval.low.wrapping_add(head.interval.high);
    sum = sum.wrapping_add(head.timestamp);
    sum = sum.wrapping_add(head.readings as u64);
    sum = sum.wrapping_add(head.writes as u64);
    for made in readings.iter().take(head.readings) {
        sum = sum.wrapping_add(sum_of_reading(*made));
    }
    for write in writes.iter().take(head.writes) {
        sum = sum.wrapping_add(u64::from(write.key));
        sum = sum.wrapping_add(u64::from(write.value));
    }
    sum
}

fn sum_of_reading(made: ChainReading) -> u64 {
    let mut sum = u64::from(made.worker).wrapping_add(u64::from(made.key));
    sum = sum.wrapping_add(u64::from(made.reading.value));
    sum = sum.wrapping_add(made.reading.timestamp);
    sum.wrapping_add(made.reading.promise)
}
