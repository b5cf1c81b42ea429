//! A place for a chain. It keeps the chain's memory when it is free, for the next chain that begins there.
ghost use Rattle.std.specs.Prelude.{◌≡◌, ℕ, Some, None};
ghost use Rattle.engine_model.specs.Engines.{new_chain};
ghost use Rattle.engine_parts.specs.Lists.{item_at};
ghost use Rattle.engine.specs.Places.{chain_at};
ghost use Rattle.engine.specs.Workers.{worker_number};

use crate::chain::Chain;
use crate::worker::Worker;
use snapshot::PLACES;

// How many chains can be open at a time.
pub(crate) const ALL_PLACES: usize = PLACES as usize;

#[derive(Drop)]
pub(crate) struct Place {
    pub(crate) is_taken: bool,
    pub(crate) chain: Chain,
}

impl Place {
    // A free place.
    pub(crate) fn new() -> Place
        ensures { chain_at result ≡ None }
    {
        Place {
            is_taken: false,
            chain: Chain::blank(),
        }
    }

    // Opens a chain here, with its leg 0 at a worker.
    pub(crate) fn begin(&mut self, worker: Worker)
        ensures { chain_at self.new ≡ Some (new_chain (worker_number worker)) }
    {
        self.chain.restart(worker);
        self.is_taken = true;
    }

    // Frees the place.
    pub(crate) fn free(&mut self)
        ensures { chain_at self.new ≡ None }
    {
        self.is_taken = false;
    }
}

// The places of a new engine.
pub(crate) fn free_places() -> [Place; ALL_PLACES]
    ensures { (p : ℕ) → item_at chain_at None result p ≡ None }
{
    [Place::new(), Place::new(), Place::new(), Place::new()]
}
