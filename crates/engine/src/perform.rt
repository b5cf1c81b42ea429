//! The twelve calls as one, which takes the call as a value.
ghost use Rattle.std.specs.Prelude.{◌≡◌, OnErr};
ghost use Rattle.engine_model.specs.declared.calls.Call.TheVariants as call;
ghost use Rattle.engine.specs.Engines.{engine_of, engine_over, StepFollows};
ghost use Rattle.engine.specs.EngineLaw.{ExtendsTrace, InEveryTrace};
ghost use Rattle.engine.specs.Performing.{performed, result_reply};
ghost use Rattle.engine_model.specs.Replies.{CanReply};

use crate::answer::{Answer, CommittedAccount};
use crate::chain::Room;
use crate::engine::Engine;
use crate::named::Named;
use crate::state::State;
use engine_model::Call;
use snapshot::{CHAIN_READINGS, EngineFault, NO_READING, NO_WRITE, WRITE_KEYS};
use store::Store;

impl<S: Store> Engine<S> {
    /// Makes the call. Refused as the call of that name is: the reply is an answer of the call's kind, or one of the refusals that
    /// the table has for the call. Every trace that led to the engine goes on by this call and its answer, and keeps the law of
    /// traces.
    pub fn perform(&mut self, call: Call) -> Result<Answer, EngineFault>
        ensures step { (result, engine_of S.Reads.meaning self.new) ≡ performed S.Store.DEPTH call (engine_of S.Reads.meaning self.old) }
        ensures loan { S.Store.loan self.new.store ≡ S.Store.loan self.old.store }
        ensures unchanged { OnErr result (self.new ≡ self.old) }
        ensures reply { CanReply call (result_reply result) }
        ensures law { InEveryTrace S.Store.DEPTH (engine_of S.Reads.meaning self.old) (λ store trace. ExtendsTrace store trace call result (engine_of S.Reads.meaning self.new)) }
    {
        self.state.perform(&mut self.store, call)
    }
}

impl State {
    // Makes the call over a store.
    pub(crate) fn perform<S: Store>(
        &mut self,
        store: &mut S,
        call: Call,
    ) -> Result<Answer, EngineFault>
        ensures step { (result, engine_over (S.Reads.meaning store.new) self.new) ≡ performed S.Store.DEPTH call (engine_over (S.Reads.meaning store.old) self.old) }
        ensures loan { S.Store.loan store.new ≡ S.Store.loan store.old }
        ensures unchanged { OnErr result (self.new ≡ self.old) }
        ensures store_unchanged { OnErr result (store.new ≡ store.old) }
    {
        match call {
            Call::Begin { place, worker } => self.begin(place, worker).map(Answer::Leg),
            Call::Hand { place, leg, worker } => self.hand(place, leg, worker).map(Answer::Leg),
            Call::Fork {
                place,
                leg,
                first_worker,
                second_worker,
            } => {
                let (first, second) = self.fork(place, leg, first_worker, second_worker)?;
                Ok(Answer::Legs(first, second))
            }
            Call::Join {
                place,
                first_leg,
                second_leg,
                worker,
            } => self
                .join(place, first_leg, second_leg, worker)
                .map(Answer::Leg),
            Call::Read { place, leg, key } => self.read(store, place, leg, key).map(Answer::Value),
            Call::Write {
                place,
                leg,
                key,
                value,
            } => self.write(place, leg, key, value).and(Ok(Answer::Done)),
            Call::Commit {
                place,
                leg,
                clock,
                readings_room,
                writes_room,
            } => self
                .commit_as_value(store, place, leg, clock, readings_room, writes_room)
                .map(Answer::Account),
            Call::Abandon { place } => self.abandon(place).and(Ok(Answer::Done)),
            Call::Deliver { position } => self.deliver(position).and(Ok(Answer::Done)),
            Call::Discard { position } => self.discard(position).and(Ok(Answer::Done)),
            Call::Count => {
                let (waiting, lost) = self.count();
                Ok(Answer::Count(waiting, lost))
            }
            Call::Prune { horizon } => {
                store.prune(horizon);
                Ok(Answer::Done)
            }
        }
    }

    // Commits as into lists of these lengths, into the account's own memory.
    fn commit_as_value<S: Store>(
        &mut self,
        store: &mut S,
        place: u8,
        leg: u8,
        clock: u64,
        readings_room: usize,
        writes_room: usize,
    ) -> Result<CommittedAccount, EngineFault>
        ensures step { StepFollows S.Store.DEPTH (call.Commit place leg clock readings_room writes_room) (engine_over (S.Reads.meaning store.old) self.old) result (engine_over (S.Reads.meaning store.new) self.new) }
        ensures loan { S.Store.loan store.new ≡ S.Store.loan store.old }
        ensures unchanged { OnErr result (self.new ≡ self.old) }
        ensures store_unchanged { OnErr result (store.new ≡ store.old) }
    {
        let mut readings = [NO_READING; CHAIN_READINGS];
        let mut writes = [NO_WRITE; WRITE_KEYS];
        let room = Room {
            readings: readings_room,
            writes: writes_room,
        };
        let named = Named::leg(place, leg);
        let head = self.commit_into(store, named, clock, room, &mut readings, &mut writes)?;
        Ok(CommittedAccount {
            head,
            readings,
            writes,
        })
    }
}
