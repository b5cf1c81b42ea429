//! Chains of calls on the engine. Each answers the leg by which it is to commit.
ghost use Rattle.std.specs.Prelude.{◌≡◌, ◌+◌, ◌%◌, ◌||◌, ◌==◌};
ghost use Rattle.snapshot.specs.Refusals.{refusal_number};

use crate::site::{
    ATTEMPTS, FRONT, KEYHOLDER, KEYHOLDER_WORKER, ORDER, PLACE, REPORT, SET_RECORD, SET_WORKER,
    ZONE, ZONE_WORKER,
};
use anyhow::bail;
use engine::Engine;
use snapshot::{EngineFault, Refusal, WORKERS};
use store::Store;

/// Writes what a sensor or the staff tell: keys of 0 to 63 with their values. Answers the leg that is to commit.
/// Refused: 7 there are more than 8 keys. Where a call is refused, the chain stays open at `PLACE`.
pub fn note<S: Store>(engine: &mut Engine<S>, writes: &[(u8, u32)]) -> Result<u8, EngineFault> {
    let leg = engine.begin(PLACE, FRONT)?;
    for (key, value) in writes {
        engine.write(PLACE, leg, *key, *value)?;
    }
    Ok(leg)
}

/// Looks at the zone on one worker, and then at the set record on another. Answers the leg that is to commit.
/// Refused: 15 the store has dropped the version. Where a call is refused, the chain stays open at `PLACE`.
pub fn look<S: Store>(engine: &mut Engine<S>) -> Result<u8, EngineFault> {
    let first = engine.begin(PLACE, ZONE_WORKER)?;
    engine.read(PLACE, first, ZONE)?;
    let second = engine.hand(PLACE, first, SET_WORKER)?;
    engine.read(PLACE, second, SET_RECORD)?;
    Ok(second)
}

/// Sends the guard to the door at which somebody is: one worker looks at the zone, another at who the keyholder is, and the
/// order is written where both were true at one time. The number of the attempt chooses the workers. Answers the leg that is to
/// commit. Refused: 6 the two were never true at one time, 15 the store has dropped the version. Where a call is refused, the
/// chain stays open at `PLACE`.
pub fn order<S: Store>(engine: &mut Engine<S>, attempt: u8) -> Result<u8, EngineFault> {
    let zone_worker = on_attempt(ZONE_WORKER, attempt);
    let keyholder_worker = on_attempt(KEYHOLDER_WORKER, attempt);
    let leg = engine.begin(PLACE, FRONT)?;
    let (first, second) = engine.fork(PLACE, leg, zone_worker, keyholder_worker)?;
    let door = engine.read(PLACE, first, ZONE)?;
    engine.read(PLACE, second, KEYHOLDER)?;
    let joined = engine.join(PLACE, first, second, FRONT)?;
    engine.write(PLACE, joined, ORDER, door)?;
    Ok(joined)
}

/// Reports the door at which somebody was seen while the alarm was set; 0 where it was not. The number of the attempt chooses the
/// worker. Answers the leg that is to commit. Refused: 15 the store has dropped the version. Where a call is refused, the chain
/// stays open at `PLACE`.
pub fn report<S: Store>(engine: &mut Engine<S>, attempt: u8) -> Result<u8, EngineFault> {
    let leg = engine.begin(PLACE, on_attempt(SET_WORKER, attempt))?;
    let set = engine.read(PLACE, leg, SET_RECORD)?;
    let door = engine.read(PLACE, leg, ZONE)?;
    engine.write(PLACE, leg, REPORT, if set == 1 { door } else { 0 })?;
    Ok(leg)
}

// The worker at an attempt. Each attempt takes others, since a cache whose entry no notice renews answers the same again.
fn on_attempt(worker: u8, attempt: u8) -> u8
    ensures { result ≡ (worker + attempt) % 8 }
{
    worker.wrapping_add(attempt) % WORKERS
}

// Makes the calls of a chain, which is told the number of the attempt, from 0. Where what it has read was never true at one
// time (6), or a version is gone (15), the chain is abandoned, the waiting notices are delivered, and the chain is begun again,
// with at most `ATTEMPTS` attempts in all. At any other refusal, and at any at the last attempt, the chain is abandoned, and the
// refusal is answered.
pub(crate) fn retry<S: Store, F: Fn(&mut Engine<S>, u8) -> Result<u8, EngineFault>>(
    rt: &impl Print,
    engine: &mut Engine<S>,
    chain: F,
) -> anyhow::Result<u8>
    requires { F.IsAlwaysCallable chain }
{
    for attempt in 0..ATTEMPTS {
        match chain(engine, attempt) {
            Ok(leg) => return Ok(leg),
            Err(fault) if may_pass(fault.fault.refusal) && attempt + 1 < ATTEMPTS => {
                engine.abandon(PLACE)?;
                println!(rt; "  refused {}: begun again", fault.fault.refusal.number())?;
                deliver_all(engine)?;
            }
            Err(fault) => {
                engine.abandon(PLACE)?;
                return Err(fault.into());
            }
        }
    }
    bail!("no attempt was made")
}

// Can the same chain be accepted later, or on other workers?
fn may_pass(refusal: Refusal) -> bool
    ensures { result ≡ (refusal_number refusal == 6 || refusal_number refusal == 15) }
{
    matches!(refusal, Refusal::IntervalsApart | Refusal::VersionGone)
}

// Shows each waiting notice to its worker's cache, and removes it.
fn deliver_all<S: Store>(engine: &mut Engine<S>) -> Result<(), EngineFault> {
    let (waiting, _) = engine.count();
    for _ in 0..waiting {
        engine.deliver(0)?;
        engine.discard(0)?;
    }
    Ok(())
}
