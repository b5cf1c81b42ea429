//! What an engine keeps besides its store. The calls are those of the engine: those that need a store are given one, and the
//! others do the same over every store.
ghost use Rattle.std.specs.Prelude.{◌≡◌, ◌≤◌, min, length, Ok, OnErr};
ghost use Rattle.snapshot.specs.Limits.{chain_readings, write_keys};
ghost use Rattle.snapshot.specs.Refusals.{not_named, own_fault, unnamed};
ghost use Rattle.engine.specs.Naming.{naming};
ghost use Rattle.snapshot.specs.declared.fault.Layer.TheVariants as layer;
ghost use Rattle.snapshot.specs.declared.fault.Refusal.TheVariants.{NoSuchNotice};
ghost use Rattle.engine_model.specs.Caches.{with_notice};
ghost use Rattle.engine_model.specs.Engines as model;
ghost use Rattle.engine_model.specs.Updates.{with_at};
ghost use Rattle.engine_model.specs.declared.calls.Call.TheVariants as call;
ghost use Rattle.store.specs.Meaning.{Meaning};
ghost use Rattle.engine_parts.specs.Caches.{caches_of};
ghost use Rattle.engine.specs.Commits.{given_to_store};
ghost use Rattle.engine_parts.specs.WaitingNotices.{notices_of};
ghost use Rattle.engine.specs.Engines.{engine_over, StepsOver, StepsOverAny, CommitFollows};

use crate::chain::Room;
use crate::named::Named;
use crate::place::{ALL_PLACES, Place, free_places};
use engine_model::Notice;
use engine_parts::{CACHES, Cache, Notices, empty_caches};
use snapshot::{
    AccountHead, ChainReading, EngineFault, Fault, Layer, Refusal, Write, is_leg, is_worker,
};
use store::{Reads, Store};

// The chain at each place, the cache of each worker, and the notices.
#[derive(Drop)]
pub(crate) struct State {
    places: [Place; ALL_PLACES],
    caches: [Cache; CACHES],
    notices: Notices,
}

impl State {
    // Without chains, entries and notices.
    pub(crate) fn new() -> State
        ensures { (m : Meaning) → engine_over m result ≡ model.new_engine m }
    {
        State {
            places: free_places(),
            caches: empty_caches(),
            notices: Notices::new(),
        }
    }

    #[inline(always)]
    pub(crate) fn begin(&mut self, place: u8, worker: u8) -> Result<u8, EngineFault>
        ensures step { StepsOverAny (call.Begin place worker) self.old result self.new }
        ensures unchanged { OnErr result (self.new ≡ self.old) }
    {
        let named = Named::place(place);
        named.check_place()?;
        let worker = named.worker(worker)?;
        let here = &mut self.places[place as usize];
        if here.is_taken {
            return Err(named.refused(Refusal::PlaceOccupied));
        }
        here.begin(worker);
        Ok(0)
    }

    pub(crate) fn hand(&mut self, place: u8, leg: u8, worker: u8) -> Result<u8, EngineFault>
        ensures step { StepsOverAny (call.Hand place leg worker) self.old result self.new }
        ensures unchanged { OnErr result (self.new ≡ self.old) }
    {
        let named = Named::leg(place, leg);
        named.check_leg()?;
        let worker = named.worker(worker)?;
        let Place {
            is_taken: true,
            chain,
        } = &mut self.places[place as usize]
        else {
            return Err(named.refused(Refusal::NotOpen));
        };
        chain.hand(named, worker)
    }

    pub(crate) fn fork(
        &mut self,
        place: u8,
        leg: u8,
        first_worker: u8,
        second_worker: u8,
    ) -> Result<(u8, u8), EngineFault>
        ensures step { StepsOverAny (call.Fork place leg first_worker second_worker) self.old result self.new }
        ensures unchanged { OnErr result (self.new ≡ self.old) }
    {
        let named = Named::leg(place, leg);
        named.check_leg()?;
        let first = named.worker(first_worker)?;
        let second = named.worker(second_worker)?;
        let Place {
            is_taken: true,
            chain,
        } = &mut self.places[place as usize]
        else {
            return Err(named.refused(Refusal::NotOpen));
        };
        chain.fork(named, first, second)
    }

    pub(crate) fn join(
        &mut self,
        place: u8,
        first_leg: u8,
        second_leg: u8,
        worker: u8,
    ) -> Result<u8, EngineFault>
        ensures step { StepsOverAny (call.Join place first_leg second_leg worker) self.old result self.new }
        ensures unchanged { OnErr result (self.new ≡ self.old) }
    {
        let named = Named::leg(place, first_leg);
        named.check_leg()?;
        named.check(is_leg(second_leg))?;
        let worker = named.worker(worker)?;
        let Place {
            is_taken: true,
            chain,
        } = &mut self.places[place as usize]
        else {
            return Err(named.refused(Refusal::NotOpen));
        };
        chain.join(named, second_leg, worker)
    }

    pub(crate) fn read<S: Reads>(
        &mut self,
        store: &S,
        place: u8,
        leg: u8,
        key: u8,
    ) -> Result<u32, EngineFault>
        ensures step { StepsOver (S.Reads.meaning store.now) (call.Read place leg key) self.old result self.new }
        ensures unchanged { OnErr result (self.new ≡ self.old) }
    {
        let named = Named { place, leg, key };
        named.check_key()?;
        let Place {
            is_taken: true,
            chain,
        } = &mut self.places[place as usize]
        else {
            return Err(named.refused(Refusal::NotOpen));
        };
        chain.read(named, &mut self.caches, store)
    }

    #[inline(always)]
    pub(crate) fn write(
        &mut self,
        place: u8,
        leg: u8,
        key: u8,
        value: u32,
    ) -> Result<(), EngineFault>
        ensures step { StepsOverAny (call.Write place leg key value) self.old result self.new }
        ensures unchanged { OnErr result (self.new ≡ self.old) }
    {
        let named = Named { place, leg, key };
        named.check_key()?;
        let Place {
            is_taken: true,
            chain,
        } = &mut self.places[place as usize]
        else {
            return Err(named.refused(Refusal::NotOpen));
        };
        chain.write(named, value)
    }

    // Commits into two lists, each of which counts as having as much room as `room` says. A list may be shorter than that if it
    // has 32 readings or 8 writes, the most that an account has.
    pub(crate) fn commit_into<S: Store>(
        &mut self,
        store: &mut S,
        named: Named,
        clock: u64,
        room: Room,
        readings: &mut [ChainReading],
        writes: &mut [Write],
    ) -> Result<AccountHead, EngineFault>
        requires no_key { named ≡ naming named.place named.leg not_named }
        requires readings_fit { min room.readings chain_readings ≤ length readings.old }
        requires writes_fit { min room.writes write_keys ≤ length writes.old }
        ensures step { CommitFollows S.Store.DEPTH named.place named.leg clock room.readings room.writes (engine_over (S.Reads.meaning store.old) self.old) (readings.old, writes.old) result (readings.new, writes.new) (engine_over (S.Reads.meaning store.new) self.new) }
        ensures loan { S.Store.loan store.new ≡ S.Store.loan store.old }
        ensures unchanged { OnErr result (self.new ≡ self.old) }
        ensures store_unchanged { OnErr result (store.new ≡ store.old) }
        ensures readings_unchanged { OnErr result (readings.new ≡ readings.old) }
        ensures writes_unchanged { OnErr result (writes.new ≡ writes.old) }
    {
        named.check_leg()?;
        let Place {
            is_taken: true,
            chain,
        } = &self.places[named.place as usize]
        else {
            return Err(named.refused(Refusal::NotOpen));
        };
        let leg = *chain.committing_leg(named, room)?;
        match give_to_store(
            store,
            &mut self.notices,
            &self.caches,
            clock,
            leg.writes.as_slice(),
        ) {
            Ok(timestamp) => {
                let here = &self.places[named.place as usize];
                let head = here.chain.account(&leg, timestamp, readings, writes);
                self.places[named.place as usize].free();
                Ok(head)
            }
            Err(fault) => Err(named.refused_by_store(fault)),
        }
    }

    #[inline(always)]
    pub(crate) fn abandon(&mut self, place: u8) -> Result<(), EngineFault>
        ensures step { StepsOverAny (call.Abandon place) self.old result self.new }
        ensures unchanged { OnErr result (self.new ≡ self.old) }
    {
        let named = Named::place(place);
        named.check_place()?;
        let here = &mut self.places[place as usize];
        if !here.is_taken {
            return Err(named.refused(Refusal::NotOpen));
        }
        here.free();
        Ok(())
    }

    #[tactic(auto, unfolding(engine_model::specs::Steps::or_else))]
    pub(crate) fn deliver(&mut self, position: u64) -> Result<(), EngineFault>
        ensures step { StepsOverAny (call.Deliver position) self.old result self.new }
        ensures unchanged { OnErr result (self.new ≡ self.old) }
    {
        let Some(notice) = self.notices.get(position) else {
            return Err(no_such_notice());
        };
        notify(&mut self.caches, notice);
        Ok(())
    }

    #[tactic(auto, unfolding(engine_model::specs::Steps::or_else))]
    pub(crate) fn discard(&mut self, position: u64) -> Result<(), EngineFault>
        ensures step { StepsOverAny (call.Discard position) self.old result self.new }
        ensures unchanged { OnErr result (self.new ≡ self.old) }
    {
        let Some(_) = self.notices.get(position) else {
            return Err(no_such_notice());
        };
        self.notices.discard(position);
        Ok(())
    }

    pub(crate) fn count(&self) -> (usize, u64)
        ensures step { StepsOverAny call.Count self.now (Ok result) self.now }
    {
        self.notices.count()
    }
}

// The store takes the writes of a commit, and their notices are raised; answers their timestamp. Without writes the store is
// not called, and the answer is 0.
fn give_to_store<S: Store>(
    store: &mut S,
    notices: &mut Notices,
    caches: &[Cache; CACHES],
    clock: u64,
    writes: &[Write],
) -> Result<u64, Fault>
    ensures made { (result, (S.Reads.meaning store.new, notices_of notices.new)) ≡ given_to_store S.Store.DEPTH clock writes.now (caches_of caches.now) (S.Reads.meaning store.old, notices_of notices.old) }
    ensures loan { S.Store.loan store.new ≡ S.Store.loan store.old }
    ensures store_unchanged { OnErr result (store.new ≡ store.old) }
    ensures notices_unchanged { OnErr result (notices.new ≡ notices.old) }
{
    if writes.is_empty() {
        return Ok(0);
    }
    let timestamp = store.commit(clock, writes)?;
    notices.raise_for(caches, timestamp, writes);
    Ok(timestamp)
}

// The cache of a notice's worker takes it. A notice of a worker that is not one of the eight reaches no cache.
#[tactic(auto, using(crate::proofs::CacheLemmas::notified_worker, crate::proofs::CacheLemmas::notified_nobody))]
fn notify(caches: &mut [Cache; CACHES], notice: Notice)
    ensures { caches_of caches.new ≡ with_at notice.worker (with_notice notice (caches_of caches.old notice.worker)) (caches_of caches.old) }
{
    if is_worker(notice.worker) {
        caches[notice.worker as usize].take_notice(notice);
    }
}

fn no_such_notice() -> EngineFault
    ensures { result ≡ own_fault (unnamed NoSuchNotice layer.Notices) }
{
    EngineFault::own(Fault::unnamed(Refusal::NoSuchNotice, Layer::Notices))
}
