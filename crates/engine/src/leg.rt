//! A leg of a chain: one function's run in it.
ghost use Rattle.std.specs.Option.{option_map, option_copied};
ghost use Rattle.std.specs.Prelude.{◌≡◌, OnErr};
ghost use Rattle.std.specs.Result.{result_map_both};
ghost use Rattle.engine_model.specs.Engines as model;
ghost use Rattle.engine.specs.Legs.{joined_leg, leg_of, open_leg_of, open_in, leg_after};
ghost use Rattle.engine.specs.Workers.{worker_number};

use crate::worker::Worker;
use engine_parts::WriteSet;
use snapshot::{Interval, Reading, Refusal, Write};

// A leg that is open: the worker it runs on, the times at which its readings are known to agree, and what it has written.
#[derive(Clone, Copy)]
pub(crate) struct OpenLeg {
    pub(crate) worker: Worker,
    pub(crate) interval: Interval,
    pub(crate) writes: WriteSet,
}

impl OpenLeg {
    // A leg at this worker with the times of both legs and the writes of both, where a key in both has the other's value.
    // Refused where they have no time in common, or more than eight keys.
    pub(crate) fn join(&self, other: &OpenLeg, worker: Worker) -> Result<OpenLeg, Refusal>
        ensures { result_map_both open_leg_of (λ r. r) result ≡ joined_leg (worker_number worker) (open_leg_of self.now) (open_leg_of other.now) }
    {
        let interval = self.interval.join(other.interval)?;
        let writes = self.writes.join(&other.writes)?;
        Ok(OpenLeg {
            worker,
            interval,
            writes,
        })
    }
}

// A leg is unused until it is opened, and open until it ends.
#[derive(Clone, Copy)]
pub(crate) enum LegState {
    Unused,
    Open,
    Ended,
}

// A leg by its number. What stands in `leg` counts only while the leg is open.
#[derive(Clone, Copy)]
pub(crate) struct Leg {
    state: LegState,
    leg: OpenLeg,
}

// What a call does to a leg that it names.
#[derive(Clone, Copy)]
pub(crate) enum LegCall {
    Narrow { reading: Reading },
    Write { write: Write },
    End,
}

impl Leg {
    // A leg that is open.
    pub(crate) fn new(leg: OpenLeg) -> Leg
        ensures { leg_of result ≡ model.running (open_leg_of leg) }
    {
        Leg {
            state: LegState::Open,
            leg,
        }
    }

    // A leg that is unused.
    pub(crate) fn blank() -> Leg
        ensures { leg_of result ≡ model.unused }
    {
        Leg {
            state: LegState::Unused,
            leg: OpenLeg {
                worker: Worker::W0,
                interval: Interval { low: 0, high: 0 },
                writes: WriteSet::new(),
            },
        }
    }

    // The leg, if it is open.
    pub(crate) fn as_open(&self) -> Option<&OpenLeg>
        ensures { option_map open_leg_of (option_copied result) ≡ open_in (leg_of self.now) }
    {
        match self.state {
            LegState::Open => Some(&self.leg),
            LegState::Unused | LegState::Ended => None,
        }
    }

    // What becomes of a leg at a call: it is narrowed, written to or ended, or refuses where it is not open.
    // A leg that refuses stays as it is.
    #[inline(always)]
    pub(crate) fn change(&mut self, call: LegCall) -> Result<(), Refusal>
        ensures made { (result, leg_of self.new) ≡ leg_after call (leg_of self.old) }
        ensures unchanged { OnErr result (self.new ≡ self.old) }
    {
        match (self.state, call) {
            (LegState::Unused | LegState::Ended, _) => Err(Refusal::NotOpen),
            (LegState::Open, LegCall::Narrow { reading }) => {
                self.leg.interval = self.leg.interval.narrow(reading);
                Ok(())
            }
            (LegState::Open, LegCall::Write { write }) => self.leg.writes.write(write),
            (LegState::Open, LegCall::End) => {
                self.state = LegState::Ended;
                Ok(())
            }
        }
    }
}
