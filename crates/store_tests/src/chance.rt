//! Pseudo-random calls of a store, the same ones for the same seed: mostly near the store's last timestamp and on a few
//! keys, now and then far off or unfit.
ghost use Rattle.std.specs.Prelude.{◌<◌};

use snapshot::{OPEN_END, Write};
use std::alloc::{AllocError, Global};
use store::StoreCall;

// A linear congruential generator.
#[derive(Drop)]
pub(crate) struct Chance {
    state: u64,
}

impl Chance {
    pub(crate) fn new(seed: u64) -> Chance {
        Chance { state: seed }
    }

    // A number from 0 to one below the bound.
    fn below(&mut self, bound: u64) -> u64
        requires { 0 < bound }
        ensures { result < bound }
    {
        self.state = self
            .state
            .wrapping_mul(6_364_136_223_846_793_005)
            .wrapping_add(1_442_695_040_888_963_407);
        (self.state >> 20) % bound
    }

    // True once in so many times.
    pub(crate) fn is_one_in(&mut self, times: u64) -> bool {
        self.below(times.max(1)) == 0
    }

    // One of the first six keys, any key, or any number of a byte. Here and below `as` keeps the number: `below` says that it
    // fits.
    pub(crate) fn key(&mut self) -> u8 {
        match self.below(16) {
            0 => self.below(256) as u8,
            1..=4 => self.below(64) as u8,
            _ => self.below(6) as u8,
        }
    }

    // A time around the open end, long ago, or about now.
    pub(crate) fn time(&mut self, last: u64) -> u64 {
        match self.below(16) {
            0 => OPEN_END - 1 + self.below(3),
            1..=4 => self.below(last / 2 + 1),
            _ => last.saturating_add(4).saturating_sub(self.below(40)),
        }
    }

    // A clock reading that is too high, far behind, or about now.
    pub(crate) fn clock(&mut self, last: u64) -> u64 {
        match self.below(16) {
            0 => OPEN_END + self.below(2),
            1..=2 => self.below(last / 2 + 1),
            _ => last.saturating_add(self.below(10)).saturating_sub(4),
        }
    }

    // A clock reading around the last one that a store takes.
    pub(crate) fn clock_at_end(&mut self) -> u64 {
        OPEN_END - 12 + self.below(14)
    }

    // A horizon above every time, about now, or some time ago.
    pub(crate) fn horizon(&mut self, last: u64) -> u64 {
        match self.below(16) {
            0 => u64::MAX,
            1..=3 => last.saturating_add(self.below(4)).saturating_sub(1),
            _ => last.saturating_sub(self.below(80)),
        }
    }

    // The next call of a store with this last timestamp: one in `prunes` is a prune, and a commit has these writes.
    pub(crate) fn call<'a>(
        &mut self,
        last: u64,
        writes: &'a [Write],
        prunes: u64,
        at_end: bool,
    ) -> StoreCall<'a> {
        if self.is_one_in(prunes) {
            let horizon = self.horizon(last);
            return StoreCall::Prune { horizon };
        }
        match self.below(16) {
            0 => StoreCall::Last,
            1..=8 => {
                let key = self.key();
                let time = self.time(last);
                StoreCall::Version { key, time }
            }
            _ => {
                let clock = if at_end {
                    self.clock_at_end()
                } else {
                    self.clock(last)
                };
                StoreCall::Commit { clock, writes }
            }
        }
    }

    // The writes of a commit: mostly neighbours among the first keys, else keys further apart; now and then none or nine,
    // or a key twice, below the one before or out of range.
    pub(crate) fn writes(&mut self, heap: Global) -> Result<Vec<Write>, AllocError> {
        let (count, widest) = match self.below(24) {
            0 => (self.below(10), 9),
            1..=16 => (1 + self.below(3), 1),
            _ => (1 + self.below(8), 8),
        };
        let mut writes = Vec::new(heap);
        let mut key = self.below(4) as u8;
        for _ in 0..count {
            let value = self.below(4_294_967_296) as u32;
            writes.push(Write { key, value })?;
            key = match self.below(100) {
                0 => key,
                1 => key / 2,
                _ => key.saturating_add(1 + self.below(widest) as u8),
            };
        }
        Ok(writes)
    }
}
