//! A store of depth 1 and capacity 64: the newest version of each key in place, with no memory of the caller's.
ghost use Rattle.std.specs.Prelude.{◌≡◌, ℕ, true, length, nat_le};
ghost use Rattle.std.proofs.Common.{lit≤};
ghost use Rattle.snapshot.specs.Limits.{key_count};
ghost use Rattle.store.specs.Meaning.{new_store, versions_kept, with_writes, written_to};
ghost use Rattle.newest_store.specs.Newest.{newest_meaning, version_at, version_with};

use snapshot::{Fault, KEYS, Layer, Reading, Refusal, Write};
use store::{Reads, Store, Update, Version, check_commit, check_query};

/// The last timestamp, and the newest version of each key.
#[derive(Drop)]
pub struct Newest {
    last: u64,
    // `as`, since the length of an array calls no function
    versions: [Version; KEYS as usize],
}

impl Newest {
    /// A new store: value 0 at time 0 for each key.
    pub fn new() -> Newest
        ensures { newest_meaning result ≡ new_store key_count }
    {
        Newest {
            last: 0,
            versions: [Version {
                timestamp: 0,
                value: 0,
            }; KEYS as usize],
        }
    }

    // Commits the update, for which there is always room.
    fn write(&mut self, update: Update)
        ensures meaning { newest_meaning self.new ≡ with_writes 1 update.entry.timestamp update.entry.writes.now (newest_meaning self.old) }
        ensures room { nat_le (versions_kept (with_writes 1 update.entry.timestamp update.entry.writes.now (newest_meaning self.old))) key_count ≡ true }
    {
        put_all(&mut self.versions, update);
        self.last = update.timestamp;
    }
}

impl Reads for Newest {
    ghost meaning = { newest_meaning };

    ghost least_capacity = { λ s. lit≤ tt };

    fn last(&self) -> u64 {
        self.last
    }

    fn version(&self, key: u8, time: u64) -> Result<Reading, Fault> {
        check_query(key, time)?;
        let version = self.versions[usize::from(key)];
        if version.timestamp <= time {
            Ok(Reading {
                value: version.value,
                timestamp: version.timestamp,
                promise: self.last,
            })
        } else {
            Err(Fault::at_key(Refusal::VersionGone, Layer::Store, key))
        }
    }
}

impl Store for Newest {
    ghost DEPTH = { 1 };

    ghost not_none = { lit≤ tt };

    const DEPTH: usize = 1;

    // no memory is lent
    ghost Memory = { Unit {0} };

    ghost memory = { λ s. tt };

    ghost Loan = { Unit {0} };

    ghost loan = { λ s. tt };

    ghost Holds = { λ l m h. Unit {0} };

    ghost holds = { λ s. tt };

    fn commit(&mut self, clock: u64, writes: &[Write]) -> Result<u64, Fault> {
        let update = check_commit(clock, writes, self.last)?;
        self.write(update);
        Ok(update.timestamp)
    }

    // One version of a key is never older than the newest, so there is nothing to drop.
    fn prune(&mut self, horizon: u64) {}
}

// Puts a version in the place of each key that the update writes.
fn put_all(versions: &mut [Version], update: Update)
    requires { length versions.old ≡ key_count }
    ensures { (k : ℕ) → version_at k versions.new ≡ version_with update.entry.timestamp (written_to k update.entry.writes.now) (version_at k versions.old) }
{
    for write in update.writes {
        versions[usize::from(write.key)] = Version {
            timestamp: update.timestamp,
            value: write.value,
        };
    }
}
