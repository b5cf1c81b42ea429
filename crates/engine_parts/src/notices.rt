//! The engine's list of waiting notices, and the count of those that were lost.
ghost use Rattle.std.specs.Prelude.{◌≡◌, length, slice_get};
ghost use Rattle.engine_model.specs.Caches.{holds};
ghost use Rattle.engine_model.specs.Engines.{no_notices, without_notice};
ghost use Rattle.engine_model.specs.Notices.{raise, raise_all};
ghost use Rattle.engine_parts.specs.Caches.{caches_of};
ghost use Rattle.engine_parts.specs.WaitingNotices.{notices_of};

use crate::cache::{CACHES, Cache};
use crate::list::BoundedList;
use engine_model::Notice;
use snapshot::{Reading, WAITING_NOTICES, WORKERS, Write};

/// The notices that wait, the one raised first before the others, and how many were lost.
#[derive(Drop)]
pub struct Notices {
    waiting: BoundedList<Notice, WAITING_NOTICES>,
    lost: u64,
}

impl Notices {
    /// None waits, and none was lost.
    pub fn new() -> Notices
        ensures { notices_of result ≡ no_notices }
    {
        Notices {
            waiting: BoundedList::new(),
            lost: 0,
        }
    }

    /// How many wait, and how many were lost.
    pub fn count(&self) -> (usize, u64)
        ensures { result ≡ (length (notices_of self.now).waiting, (notices_of self.now).lost) }
    {
        (self.waiting.len(), self.lost)
    }

    /// The waiting notice at this position, if there is one.
    pub fn get(&self, position: u64) -> Option<Notice>
        ensures { result ≡ slice_get (notices_of self.now).waiting position }
    {
        self.waiting.get(position as usize)
    }

    /// Takes out the notice at this position, and later ones move up; past the end it has no effect.
    pub fn discard(&mut self, position: u64)
        ensures { notices_of self.new ≡ without_notice position (notices_of self.old) }
    {
        self.waiting.remove(position as usize);
    }

    /// The notice waits if there is room, and else is lost and counted, up to the greatest count.
    pub fn raise(&mut self, notice: Notice)
        ensures { notices_of self.new ≡ raise notice (notices_of self.old) }
    {
        if !self.waiting.push(notice) {
            self.lost = self.lost.saturating_add(1);
        }
    }

    /// Raises the notices of writes that were committed at this timestamp: key by key, and for each key worker by worker, one
    /// for each worker whose cache has an entry of it. The timestamp is also their promise.
    pub fn raise_for(&mut self, caches: &[Cache; CACHES], timestamp: u64, writes: &[Write])
        ensures { notices_of self.new ≡ raise_all (λ k c. holds k c) (caches_of caches.now) timestamp writes.now (notices_of self.old) }
    {
        for write in writes {
            for worker in 0..WORKERS {
                if caches[worker as usize].holds(write.key) {
                    self.raise(Notice {
                        worker,
                        key: write.key,
                        reading: Reading {
                            value: write.value,
                            timestamp,
                            promise: timestamp,
                        },
                    });
                }
            }
        }
    }
}
