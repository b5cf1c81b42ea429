//! The engine and its calls. A refused call answers its fault and leaves the engine as it was.
ghost use Rattle.std.specs.Prelude.{◌≡◌, [], length, Ok, IfOk, OnErr};
ghost use Rattle.snapshot.specs.Accounts.{account_of};
ghost use Rattle.engine_model.specs.Engines as model;
ghost use Rattle.engine_model.specs.Law.{LedTo};
ghost use Rattle.engine_model.specs.Replies.{Replies};
ghost use Rattle.engine_model.specs.Rules.{the_rules};
ghost use Rattle.engine_model.specs.declared.calls.Call.TheVariants as call;
ghost use Rattle.engine.specs.Commits.{account_in};
ghost use Rattle.engine.specs.EngineLaw.{AddsAccount, InEveryTrace, OverNewStore};
ghost use Rattle.engine.specs.Engines.{engine_of, IsStep, IsCommit};

use crate::chain::Room;
use crate::named::Named;
use crate::state::State;
use snapshot::{AccountHead, ChainReading, EngineFault, Write};
use store::Store;

/// What the engine keeps itself, and the store below.
#[derive(Drop)]
pub struct Engine<S> {
    pub(crate) state: State,
    pub(crate) store: S,
}

impl<S: Store> Engine<S> {
    /// An engine over a store, without chains, entries and notices. Over a new store, a trace begins here.
    pub fn new(store: S) -> Engine<S>
        ensures value { engine_of S.Reads.meaning result ≡ model.new_engine (S.Reads.meaning store) }
        ensures loan { S.Store.loan result.store ≡ S.Store.loan store }
        ensures begins { OverNewStore S.Store.DEPTH (S.Reads.meaning store) (λ new. LedTo the_rules new [] (engine_of S.Reads.meaning result)) }
    {
        Engine {
            state: State::new(),
            store,
        }
    }

    /// The store below.
    pub fn store(&self) -> &S
        ensures value { result.now ≡ self.now.store }
        ensures meaning { S.Reads.meaning result.now ≡ (engine_of S.Reads.meaning self.now).store }
    {
        &self.store
    }

    /// Opens a chain at a free place, with its leg 0 at a worker, and answers 0, that leg's number.
    /// Refused: 1 place or worker out of range, 2 the place is not free.
    pub fn begin(&mut self, place: u8, worker: u8) -> Result<u8, EngineFault>
        ensures step { IsStep S.Reads.meaning S.Store.DEPTH (call.Begin place worker) self.old result self.new }
        ensures reply { Replies (call.Begin place worker) result }
        ensures loan { S.Store.loan self.new.store ≡ S.Store.loan self.old.store }
        ensures unchanged { OnErr result (self.new ≡ self.old) }
    {
        self.state.begin(place, worker)
    }

    /// Ends a leg and opens the next at a worker, with the same interval and write set; answers the new leg's number.
    /// Refused: 1 place, leg or worker out of range, 3 that leg is not open, 5 sixteen legs have been opened.
    pub fn hand(&mut self, place: u8, leg: u8, worker: u8) -> Result<u8, EngineFault>
        ensures step { IsStep S.Reads.meaning S.Store.DEPTH (call.Hand place leg worker) self.old result self.new }
        ensures reply { Replies (call.Hand place leg worker) result }
        ensures loan { S.Store.loan self.new.store ≡ S.Store.loan self.old.store }
        ensures unchanged { OnErr result (self.new ≡ self.old) }
    {
        self.state.hand(place, leg, worker)
    }

    /// Ends a leg and opens two with its interval and write set; answers the two new numbers, the first worker's first.
    /// Refused: 1 place, leg or a worker out of range, 3 that leg is not open, 5 there is no room for two more legs.
    pub fn fork(
        &mut self,
        place: u8,
        leg: u8,
        first_worker: u8,
        second_worker: u8,
    ) -> Result<(u8, u8), EngineFault>
        ensures step { IsStep S.Reads.meaning S.Store.DEPTH (call.Fork place leg first_worker second_worker) self.old result self.new }
        ensures reply { Replies (call.Fork place leg first_worker second_worker) result }
        ensures loan { S.Store.loan self.new.store ≡ S.Store.loan self.old.store }
        ensures unchanged { OnErr result (self.new ≡ self.old) }
    {
        self.state.fork(place, leg, first_worker, second_worker)
    }

    /// Ends two legs and opens one at a worker, with the times of both and the writes of both, where a key in both takes
    /// the second leg's value; answers the new leg's number. Refused: 1 place, a leg or worker out of range, 3 one of the
    /// legs is not open, 4 they are one, 5 sixteen legs have been opened, 6 they have no time in common, 7 more than eight
    /// keys are written.
    pub fn join(
        &mut self,
        place: u8,
        first_leg: u8,
        second_leg: u8,
        worker: u8,
    ) -> Result<u8, EngineFault>
        ensures step { IsStep S.Reads.meaning S.Store.DEPTH (call.Join place first_leg second_leg worker) self.old result self.new }
        ensures reply { Replies (call.Join place first_leg second_leg worker) result }
        ensures loan { S.Store.loan self.new.store ≡ S.Store.loan self.old.store }
        ensures unchanged { OnErr result (self.new ≡ self.old) }
    {
        self.state.join(place, first_leg, second_leg, worker)
    }

    /// Answers a key's value: from the leg's write set, else from a reading of the leg, else from its worker's cache, else
    /// from the store. Refused: 1 place, leg or key out of range, 3 that leg is not open, 8 cache or store would be needed
    /// for a 33rd reading, 15 the store has dropped the version.
    pub fn read(&mut self, place: u8, leg: u8, key: u8) -> Result<u32, EngineFault>
        ensures step { IsStep S.Reads.meaning S.Store.DEPTH (call.Read place leg key) self.old result self.new }
        ensures reply { Replies (call.Read place leg key) result }
        ensures loan { S.Store.loan self.new.store ≡ S.Store.loan self.old.store }
        ensures unchanged { OnErr result (self.new ≡ self.old) }
    {
        self.state.read(&self.store, place, leg, key)
    }

    /// Sets a key's value in the leg's write set.
    /// Refused: 1 place, leg or key out of range, 3 that leg is not open, 7 the write set would pass eight keys.
    pub fn write(&mut self, place: u8, leg: u8, key: u8, value: u32) -> Result<(), EngineFault>
        ensures step { IsStep S.Reads.meaning S.Store.DEPTH (call.Write place leg key value) self.old result self.new }
        ensures reply { Replies (call.Write place leg key value) result }
        ensures loan { S.Store.loan self.new.store ≡ S.Store.loan self.old.store }
        ensures unchanged { OnErr result (self.new ≡ self.old) }
    {
        self.state.write(place, leg, key, value)
    }

    /// Commits a chain by its only open leg at a clock reading, 0 to 2^48 - 1: the store takes the leg's writes, their notices are
    /// raised, and the place is free again. Without writes the store is not called, and the clock reading is not looked at. Fills
    /// the starts of the two lists with the chain's readings in order and the writes, and leaves their rest; lists of 32 readings
    /// and 8 writes are always long enough. Answers the account's five numbers. In every trace that led to the engine, with the
    /// commit added, the account keeps its law, and so the book takes it. Refused: 1 place or leg out of range, 3 that leg is not
    /// open, 9 another leg is open, 10 a list is too short, and by the store 12 the clock reading is too high, 13 no time is left,
    /// 14 there is no room for more versions.
    pub fn commit(
        &mut self,
        place: u8,
        leg: u8,
        clock: u64,
        readings: &mut [ChainReading],
        writes: &mut [Write],
    ) -> Result<AccountHead, EngineFault>
        ensures step { IsCommit S.Reads.meaning S.Store.DEPTH place leg clock (length readings.old) (length writes.old) self.old (readings.old, writes.old) result (readings.new, writes.new) self.new }
        ensures reply { Replies (call.Commit place leg clock (length readings.old) (length writes.old)) (account_in result readings.new writes.new) }
        ensures law { IfOk result (λ head. InEveryTrace S.Store.DEPTH (engine_of S.Reads.meaning self.old) (λ store trace. AddsAccount store trace place leg clock (length readings.old) (length writes.old) (account_of head readings.new writes.new))) }
        ensures loan { S.Store.loan self.new.store ≡ S.Store.loan self.old.store }
        ensures unchanged { OnErr result (self.new ≡ self.old) }
        ensures readings_unchanged { OnErr result (readings.new ≡ readings.old) }
        ensures writes_unchanged { OnErr result (writes.new ≡ writes.old) }
    {
        let room = Room {
            readings: readings.len(),
            writes: writes.len(),
        };
        let named = Named::leg(place, leg);
        self.state
            .commit_into(&mut self.store, named, clock, room, readings, writes)
    }

    /// Frees a place: of its chain nothing is kept but what its reads put into caches. Refused: 1 place out of range, 3 no chain is open there.
    pub fn abandon(&mut self, place: u8) -> Result<(), EngineFault>
        ensures step { IsStep S.Reads.meaning S.Store.DEPTH (call.Abandon place) self.old result self.new }
        ensures reply { Replies (call.Abandon place) result }
        ensures loan { S.Store.loan self.new.store ≡ S.Store.loan self.old.store }
        ensures unchanged { OnErr result (self.new ≡ self.old) }
    {
        self.state.abandon(place)
    }

    /// Shows a waiting notice, by its position from 0, to its worker's cache, and leaves it waiting.
    /// Refused: 16 no notice waits at that position.
    pub fn deliver(&mut self, position: u64) -> Result<(), EngineFault>
        ensures step { IsStep S.Reads.meaning S.Store.DEPTH (call.Deliver position) self.old result self.new }
        ensures reply { Replies (call.Deliver position) result }
        ensures loan { S.Store.loan self.new.store ≡ S.Store.loan self.old.store }
        ensures unchanged { OnErr result (self.new ≡ self.old) }
    {
        self.state.deliver(position)
    }

    /// Removes a waiting notice, and later ones move up. Refused: 16 no notice waits at that position.
    pub fn discard(&mut self, position: u64) -> Result<(), EngineFault>
        ensures step { IsStep S.Reads.meaning S.Store.DEPTH (call.Discard position) self.old result self.new }
        ensures reply { Replies (call.Discard position) result }
        ensures loan { S.Store.loan self.new.store ≡ S.Store.loan self.old.store }
        ensures unchanged { OnErr result (self.new ≡ self.old) }
    {
        self.state.discard(position)
    }

    /// How many notices wait, 0 to 32, and how many were lost, where the count stays at 2^64 - 1. Never refused.
    pub fn count(&self) -> (usize, u64)
        ensures step { IsStep S.Reads.meaning S.Store.DEPTH call.Count self.now (Ok result) self.now }
        ensures reply { Replies call.Count (Ok result) }
    {
        self.state.count()
    }

    /// The store drops of each key the versions older than the newest one that is above neither the horizon, any number, nor the
    /// last timestamp. Never refused.
    pub fn prune(&mut self, horizon: u64)
        ensures step { IsStep S.Reads.meaning S.Store.DEPTH (call.Prune horizon) self.old (Ok tt) self.new }
        ensures reply { Replies (call.Prune horizon) (Ok tt) }
        ensures loan { S.Store.loan self.new.store ≡ S.Store.loan self.old.store }
    {
        self.store.prune(horizon);
    }
}
