//! The place, leg and key that a call names: whether they are in range, and the faults with which the call is refused.
ghost use Rattle.std.specs.Prelude.{◌≡◌, Ok};
ghost use Rattle.std.specs.Result.{result_and, result_map_both};
ghost use Rattle.snapshot.specs.Limits.{is_worker};
ghost use Rattle.snapshot.specs.Refusals.{not_named, around_store};
ghost use Rattle.engine_model.specs.Steps.{chain_fault};
ghost use Rattle.engine.specs.Naming.{naming, in_range_or_refused, place_in_range, leg_in_range, key_in_range};
ghost use Rattle.engine.specs.Workers.{worker_number};

use crate::worker::Worker;
use snapshot::{EngineFault, Fault, Layer, NOT_NAMED, Refusal, is_key, is_leg, is_place};

#[derive(Clone, Copy)]
pub(crate) struct Named {
    pub(crate) place: u8,
    pub(crate) leg: u8,
    pub(crate) key: u8,
}

impl Named {
    // What a call names that names a place only.
    pub(crate) fn place(place: u8) -> Named
        ensures { result ≡ naming place not_named not_named }
    {
        Named::leg(place, NOT_NAMED)
    }

    // What a call names that names a leg.
    pub(crate) fn leg(place: u8, leg: u8) -> Named
        ensures { result ≡ naming place leg not_named }
    {
        Named {
            place,
            leg,
            key: NOT_NAMED,
        }
    }

    // Refused where there is no such place.
    pub(crate) fn check_place(self) -> Result<(), EngineFault>
        ensures { result ≡ in_range_or_refused self (place_in_range self) }
    {
        self.check(is_place(self.place))
    }

    // Refused where there is no such place or leg.
    pub(crate) fn check_leg(self) -> Result<(), EngineFault>
        ensures { result ≡ in_range_or_refused self (leg_in_range self) }
    {
        self.check(is_place(self.place) && is_leg(self.leg))
    }

    // Refused where there is no such place, leg or key.
    pub(crate) fn check_key(self) -> Result<(), EngineFault>
        ensures { result ≡ in_range_or_refused self (key_in_range self) }
    {
        self.check(is_place(self.place) && is_leg(self.leg) && is_key(self.key))
    }

    // Refused as out of range unless the test passed.
    pub(crate) fn check(self, in_range: bool) -> Result<(), EngineFault>
        ensures { result ≡ in_range_or_refused self in_range }
    {
        if in_range {
            Ok(())
        } else {
            Err(self.refused(Refusal::OutOfRange))
        }
    }

    // The worker of this number, or the refusal where there is none.
    pub(crate) fn worker(self, number: u8) -> Result<Worker, EngineFault>
        ensures { result_map_both worker_number (λ f. f) result ≡ result_and (in_range_or_refused self (is_worker number)) (Ok number) }
    {
        match Worker::numbered(number) {
            Some(worker) => Ok(worker),
            None => Err(self.refused(Refusal::OutOfRange)),
        }
    }

    // The fault of a call that the engine itself refuses.
    pub(crate) fn refused(self, refusal: Refusal) -> EngineFault
        ensures { result ≡ chain_fault self.place self.leg self.key refusal }
    {
        let Named { place, leg, key } = self;
        EngineFault::own(Fault {
            refusal,
            layer: Layer::Chain,
            place,
            leg,
            key,
        })
    }

    // The fault of a call that the store refuses.
    pub(crate) fn refused_by_store(self, fault: Fault) -> EngineFault
        ensures { result ≡ around_store fault self.place self.leg self.key }
    {
        EngineFault::around(fault, self.place, self.leg, self.key)
    }
}
