//! A chain: its legs by their numbers, and its readings in order.
ghost use Rattle.std.specs.Option.{option_map, option_copied};
ghost use Rattle.std.specs.Result.{result_map_both};
ghost use Rattle.std.specs.Prelude.{◌≡◌, ◌<◌, ◌≤◌, length, map, Ok, OnOk, OnErr, OnSome, nat_lt};
ghost use Rattle.snapshot.specs.Limits.{chain_readings, leg_count};
ghost use Rattle.engine_model.specs.Engines as model;
ghost use Rattle.engine_parts.specs.Caches.{cache_of, caches_of};
ghost use Rattle.engine_parts.specs.KeysRead.{readings_of};
ghost use Rattle.engine.specs.ChainCalls.{after_hand, after_fork, after_join, after_write, further_reading, after_read};
ghost use Rattle.engine.specs.Chains.{chain_of};
ghost use Rattle.engine.specs.Commits.{committing_leg, answer_and_lists};
ghost use Rattle.engine_model.specs.Steps.{account_for, only_open};
ghost use Rattle.snapshot.specs.Overwriting.{overwritten};
ghost use Rattle.engine.specs.Legs.{open_leg_of, lent_leg, open_in, leg_after};
ghost use Rattle.engine.specs.Workers.{worker_number};
ghost use Rattle.engine.specs.declared.leg.LegCall.TheVariants as call;

use crate::leg::{Leg, LegCall, OpenLeg};
use crate::named::Named;
use crate::worker::Worker;
use engine_model::{CacheEntry, LegReading};
use engine_parts::{CACHES, Cache, Readings, WriteSet};
use snapshot::{
    AccountHead, CHAIN_READINGS, ChainReading, EngineFault, Fault, Interval, LEGS, Reading,
    Refusal, Write,
};
use store::Reads;

// How many legs a chain can have.
const ALL_LEGS: usize = LEGS as usize;

// How many readings and how many writes there is room for in the lists of a commit's caller.
#[derive(Clone, Copy)]
pub(crate) struct Room {
    pub(crate) readings: usize,
    pub(crate) writes: usize,
}

// The legs, how many have been opened, and the readings of all of them. A leg from the number of opened ones on is unused,
// whatever stands there.
#[derive(Drop)]
pub(crate) struct Chain {
    legs: [Leg; ALL_LEGS],
    opened: u8,
    readings: Readings,
}

impl Chain {
    // What stands where no chain has been opened yet.
    pub(crate) fn blank() -> Chain {
        Chain {
            legs: [Leg::blank(); ALL_LEGS],
            opened: 0,
            readings: Readings::new(),
        }
    }

    // Makes this a chain whose leg 0 has just been opened at a worker. Legs that have not been opened are never looked at, and so
    // stay as they are.
    pub(crate) fn restart(&mut self, worker: Worker)
        ensures { chain_of self.new ≡ model.new_chain (worker_number worker) }
    {
        self.opened = 0;
        self.readings.clear();
        self.open(OpenLeg {
            worker,
            interval: Interval::ALL_TIMES,
            writes: WriteSet::new(),
        });
    }

    // Ends a leg and opens the next at a worker, with the same interval and write set.
    pub(crate) fn hand(&mut self, named: Named, worker: Worker) -> Result<u8, EngineFault>
        ensures made { (result, chain_of self.new) ≡ after_hand named (worker_number worker) (chain_of self.old) }
        ensures unchanged { OnErr result (self.new ≡ self.old) }
    {
        let Some(open) = self.open_leg(named.leg) else {
            return Err(named.refused(Refusal::NotOpen));
        };
        let next = OpenLeg { worker, ..*open };
        if self.opened >= LEGS {
            return Err(named.refused(Refusal::TooManyLegs));
        }
        let _ = self.change(named.leg, LegCall::End);
        Ok(self.open(next))
    }

    // Ends a leg and opens two with its interval and write set, the first at the worker that is named first.
    pub(crate) fn fork(
        &mut self,
        named: Named,
        first: Worker,
        second: Worker,
    ) -> Result<(u8, u8), EngineFault>
        ensures made { (result, chain_of self.new) ≡ after_fork named (worker_number first) (worker_number second) (chain_of self.old) }
        ensures unchanged { OnErr result (self.new ≡ self.old) }
    {
        let Some(open) = self.open_leg(named.leg) else {
            return Err(named.refused(Refusal::NotOpen));
        };
        let one = OpenLeg {
            worker: first,
            ..*open
        };
        let other = OpenLeg {
            worker: second,
            ..one
        };
        if self.opened >= LEGS - 1 {
            return Err(named.refused(Refusal::TooManyLegs));
        }
        let _ = self.change(named.leg, LegCall::End);
        let first_leg = self.open(one);
        let second_leg = self.open(other);
        Ok((first_leg, second_leg))
    }

    // Ends two legs and opens one at a worker, with the times of both and the writes of both; a key in both takes the value
    // of the second.
    pub(crate) fn join(
        &mut self,
        named: Named,
        second: u8,
        worker: Worker,
    ) -> Result<u8, EngineFault>
        ensures made { (result, chain_of self.new) ≡ after_join named second (worker_number worker) (chain_of self.old) }
        ensures unchanged { OnErr result (self.new ≡ self.old) }
    {
        let Some(open) = self.open_leg(named.leg) else {
            return Err(named.refused(Refusal::NotOpen));
        };
        let Some(other) = self.open_leg(second) else {
            return Err(named.refused(Refusal::NotOpen));
        };
        if named.leg == second {
            return Err(named.refused(Refusal::SameLeg));
        }
        if self.opened >= LEGS {
            return Err(named.refused(Refusal::TooManyLegs));
        }
        let both = open
            .join(other, worker)
            .map_err(|refusal| named.refused(refusal))?;
        let _ = self.change(named.leg, LegCall::End);
        let _ = self.change(second, LegCall::End);
        Ok(self.open(both))
    }

    // Sets a key's value in a leg's write set.
    pub(crate) fn write(&mut self, named: Named, value: u32) -> Result<(), EngineFault>
        ensures made { (result, chain_of self.new) ≡ after_write named value (chain_of self.old) }
        ensures unchanged { OnErr result (self.new ≡ self.old) }
    {
        let Some(_) = self.open_leg(named.leg) else {
            return Err(named.refused(Refusal::NotOpen));
        };
        let write = Write {
            key: named.key,
            value,
        };
        self.change(named.leg, LegCall::Write { write })
            .map_err(|refusal| named.refused(refusal))
    }

    // Answers a key's value from the leg's write set, or else from a reading that the leg has made, or else from the cache
    // of its worker or from the store. Such an answer narrows the leg's interval and joins the chain's readings.
    pub(crate) fn read<S: Reads>(
        &mut self,
        named: Named,
        caches: &mut [Cache; CACHES],
        store: &S,
    ) -> Result<u32, EngineFault>
        ensures made { (result, (chain_of self.new, caches_of caches.new)) ≡ after_read named (S.Reads.meaning store.now) (chain_of self.old, caches_of caches.old) }
        ensures unchanged { OnErr result (self.new ≡ self.old) }
        ensures caches_unchanged { OnErr result (caches.new ≡ caches.old) }
    {
        let Named { leg, key, .. } = named;
        let Some(open) = self.open_leg(leg) else {
            return Err(named.refused(Refusal::NotOpen));
        };
        if let Some(value) = open.writes.value_of(key) {
            return Ok(value);
        }
        if let Some(own) = self.readings.own(leg, key) {
            return Ok(own.made.reading.value);
        }
        if !self.has_room() {
            return Err(named.refused(Refusal::ReadingsFull));
        }
        let OpenLeg {
            worker,
            interval,
            ..
        } = *open;
        let worker = worker.number();
        match look_further(&mut caches[worker as usize], store, interval, key) {
            Ok(reading) => {
                let made = ChainReading {
                    worker,
                    key,
                    reading,
                };
                self.note(LegReading { leg, made });
                Ok(reading.value)
            }
            Err(fault) => Err(named.refused_by_store(fault)),
        }
    }

    // The leg that commits: the only one that is open, where there is room for the chain's readings and for the leg's writes.
    // Refused, in this order: 3 that leg is not open, 9 another leg is open, 10 there is too little room.
    pub(crate) fn committing_leg(&self, named: Named, room: Room) -> Result<&OpenLeg, EngineFault>
        ensures value { result_map_both lent_leg (λ f. f) result ≡ committing_leg named room.readings room.writes (chain_of self.now) }
        ensures few { OnOk result (length (chain_of self.now).readings ≤ chain_readings) }
    {
        let Some(open) = self.open_leg(named.leg) else {
            return Err(named.refused(Refusal::NotOpen));
        };
        if !self.is_only_open(named.leg) {
            return Err(named.refused(Refusal::AnotherLegOpen));
        }
        if room.readings < self.readings.len() || room.writes < open.writes.as_slice().len() {
            return Err(named.refused(Refusal::TooShort));
        }
        Ok(open)
    }

    // Is no leg but this one open?
    fn is_only_open(&self, leg: u8) -> bool
        ensures { result ≡ only_open leg (chain_of self.now).legs leg_count }
    {
        let mut only = true;
        for number in 0..self.opened.min(LEGS) {
            only = (number == leg || self.open_leg(number).is_none()) && only;
        }
        only
    }

    // The account of a commit by this leg at this timestamp: fills the starts of two lists with the chain's readings and the
    // leg's writes, and answers the five numbers.
    pub(crate) fn account(
        &self,
        leg: &OpenLeg,
        timestamp: u64,
        readings: &mut [ChainReading],
        writes: &mut [Write],
    ) -> AccountHead
        requires readings_fit { length (chain_of self.now).readings ≤ length readings.old }
        requires writes_fit { length (open_leg_of leg.now).writes ≤ length writes.old }
        ensures { (Ok result, (readings.new, writes.new)) ≡ answer_and_lists readings.old writes.old (Ok (account_for (chain_of self.now) (open_leg_of leg.now) timestamp)) }
    {
        let written = leg.writes.as_slice();
        writes[..written.len()].copy_from_slice(written);
        AccountHead {
            interval: leg.interval,
            timestamp,
            readings: self.fill(readings),
            writes: written.len(),
        }
    }

    // Fills the start of a list with the chain's readings, and answers how many there are.
    fn fill(&self, list: &mut [ChainReading]) -> usize
        requires { length (chain_of self.now).readings ≤ length list.old }
        ensures number { result ≡ length (chain_of self.now).readings }
        ensures filled { list.new ≡ overwritten (map (λ r. r.made) (chain_of self.now).readings) list.old }
    {
        let readings = self.readings.as_slice();
        for (position, held) in readings.iter().enumerate() {
            list[position] = held.made;
        }
        readings.len()
    }

    // Is there room for one more reading?
    fn has_room(&self) -> bool
        ensures { result ≡ nat_lt (length (chain_of self.now).readings) chain_readings }
    {
        self.readings.len() < CHAIN_READINGS
    }

    // Narrows the leg that made a reading, and adds the reading to those of the chain.
    fn note(&mut self, reading: LegReading)
        requires within { (reading.leg < 16) × (reading.leg < self.old.opened) }
        requires room { length (readings_of self.old.readings) < 32 }
        ensures { chain_of self.new ≡ model.add_reading reading (model.with_leg reading.leg (leg_after (call.Narrow reading.made.reading) ((chain_of self.old).legs reading.leg)).1 (chain_of self.old)) }
    {
        let LegReading { leg, made } = reading;
        let _ = self.change(
            leg,
            LegCall::Narrow {
                reading: made.reading,
            },
        );
        self.add_reading(reading);
    }

    // The leg of this number, if it is open.
    fn open_leg(&self, leg: u8) -> Option<&OpenLeg>
        ensures value { option_map open_leg_of (option_copied result) ≡ open_in ((chain_of self.now).legs leg) }
        ensures within { OnSome result ((leg < 16) × (leg < self.now.opened)) }
    {
        if leg < self.opened {
            self.legs.get(leg as usize)?.as_open()
        } else {
            None
        }
    }

    // Changes a leg as the call says, or refuses as the leg does. A leg that has been found open is refused neither its end
    // nor a narrower interval, so that a caller may drop that answer.
    #[inline(always)]
    fn change(&mut self, leg: u8, call: LegCall) -> Result<(), Refusal>
        requires { (leg < 16) × (leg < self.old.opened) }
        ensures answer { result ≡ (leg_after call ((chain_of self.old).legs leg)).0 }
        ensures after { chain_of self.new ≡ model.with_leg leg (leg_after call ((chain_of self.old).legs leg)).1 (chain_of self.old) }
        ensures opened { self.new.opened ≡ self.old.opened }
        ensures unchanged { OnErr result (self.new ≡ self.old) }
    {
        self.legs[leg as usize].change(call)
    }

    // Opens the next leg, and answers its number.
    fn open(&mut self, leg: OpenLeg) -> u8
        requires { self.old.opened < 16 }
        ensures number { result ≡ self.old.opened }
        ensures after { chain_of self.new ≡ model.open_leg (open_leg_of leg) (chain_of self.old) }
    {
        let number = self.opened;
        self.legs[number as usize] = Leg::new(leg);
        self.opened = number + 1;
        number
    }

    // Adds a reading to those of the chain, if there is room.
    fn add_reading(&mut self, reading: LegReading)
        requires { length (readings_of self.old.readings) < 32 }
        ensures { chain_of self.new ≡ model.add_reading reading (chain_of self.old) }
    {
        let _ = self.readings.push(reading);
    }
}

// A reading of the key for a leg with this interval: from the cache, if its entry meets the interval, and else from the
// store at the interval's high end. Either becomes the latest used entry, as far as the cache takes it.
fn look_further<S: Reads>(
    cache: &mut Cache,
    store: &S,
    interval: Interval,
    key: u8,
) -> Result<Reading, Fault>
    ensures made { (result, cache_of cache.new) ≡ further_reading (S.Reads.meaning store.now) interval key (cache_of cache.old) }
    ensures unchanged { OnErr result (cache.new ≡ cache.old) }
{
    match cache.answering(interval, key) {
        Some(entry) => {
            cache.use_latest(entry);
            Ok(entry.reading)
        }
        None => {
            let reading = store.version(key, interval.high)?;
            cache.keep_answer(interval.high, CacheEntry { key, reading });
            Ok(reading)
        }
    }
}
