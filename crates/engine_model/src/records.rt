//! The records that an engine keeps in its caches, its chains and its list of notices, and how they are found.
ghost use Rattle.std.specs.Prelude.{◌==◌, ◌&&◌};

use snapshot::{ChainReading, Keyed, Reading};

/// What a worker's cache holds of a key.
#[derive(Clone, Copy, Default)]
pub struct CacheEntry {
    /// The key, 0 to 63.
    pub key: u8,
    /// What is held of it.
    pub reading: Reading,
}

/// A chain's reading, and the leg that made it.
#[derive(Clone, Copy, Default)]
pub struct LegReading {
    /// The leg, 0 to 15.
    pub leg: u8,
    /// What it read.
    pub made: ChainReading,
}

/// Tells a worker of a new version of a key that its cache holds.
#[derive(Clone, Copy, Default)]
pub struct Notice {
    /// The worker that is told, 0 to 7.
    pub worker: u8,
    /// The key, 0 to 63.
    pub key: u8,
    /// The new version: its timestamp is also its promise.
    pub reading: Reading,
}

// An entry is found by its key.
impl Keyed<u8> for CacheEntry {
    ghost named = { λ e k. (e.key == k) };

    fn has_key(&self, key: u8) -> bool {
        self.key == key
    }
}

/// The leg that made a reading, and the key that it read.
#[derive(Clone, Copy)]
pub struct LegAndKey {
    /// The leg, 0 to 15.
    pub leg: u8,
    /// The key, 0 to 63.
    pub key: u8,
}

// A chain's reading is found by both.
impl Keyed<LegAndKey> for LegReading {
    ghost named = { λ r made. (r.leg == made.leg && r.made.key == made.key) };

    fn has_key(&self, made: LegAndKey) -> bool {
        self.leg == made.leg && self.made.key == made.key
    }
}
