//! The two traits of a store: the reading side, and the full store built on it. Every kind of store is known by its
//! meaning alone: each call answers what the rules draw from the meaning, and leaves the meaning that they draw.
ghost use Rattle.std.specs.Prelude.{◌≡◌, ℕ, ◌≤◌, OnErr};
ghost use Rattle.snapshot.specs.Limits.{key_count};
ghost use Rattle.store.specs.Meaning.{Meaning, version_answer, commit_answer, after_commit, after_prune};

use snapshot::{Fault, Reading, Write};

/// What can be asked of a store. Neither question changes it.
pub trait Reads {
    ghost meaning: { Self → Meaning };

    // there is room for one version of each key
    ghost least_capacity: { (s : Self) → key_count ≤ (meaning s).capacity };

    /// The last timestamp.
    fn last(&self) -> u64
        ensures { result ≡ (meaning self.now).last };

    /// The newest kept version of the key that is not later than the time, and up to when it is known to be current.
    /// Refused: 1 key (0 to 63) or time (0 to 2^48) out of range, 15 every kept version is later.
    fn version(&self, key: u8, time: u64) -> Result<Reading, Fault>
        ensures { result ≡ version_answer (meaning self.now) key time };
}

/// A store that can be written to, and pruned of old versions.
pub trait Store: Reads {
    // what DEPTH is in the clauses
    ghost DEPTH: { ℕ };

    // it is 1 or more
    ghost not_none: { 1 ≤ DEPTH };

    /// The most versions that a store of this kind keeps of one key, 1 or more.
    const DEPTH: usize;

    // what the memory that a caller lends to a store of this kind holds
    ghost Memory: { Type 0 };

    ghost memory: { Self → Memory };

    // what no call changes of it: which memory was lent, and what is left alone of it
    ghost Loan: { Type 0 };

    ghost loan: { Self → Loan };

    // what memory lent so holds while the store means this
    ghost Holds: { Loan → Meaning → Memory → Type 0 };

    /// Gives each written key a version at one new timestamp, and answers the timestamp. A refused commit leaves the
    /// store's very value as it was. Refused: 11 not 1 to 8 writes with rising keys of 0 to 63, 12 the clock reading is above
    /// 2^48 - 1, 13 no time is left, 14 there is no room for more versions.
    fn commit(&mut self, clock: u64, writes: &[Write]) -> Result<u64, Fault>
        ensures answer { result ≡ commit_answer DEPTH clock writes.now (Self.Reads.meaning self.old) }
        ensures after { Self.Reads.meaning self.new ≡ after_commit DEPTH clock writes.now (Self.Reads.meaning self.old) }
        ensures loan { loan self.new ≡ loan self.old }
        ensures unchanged { OnErr result (self.new ≡ self.old) };

    /// Drops of each key the versions older than the newest one that is above neither the horizon nor last.
    fn prune(&mut self, horizon: u64)
        ensures after { Self.Reads.meaning self.new ≡ after_prune horizon (Self.Reads.meaning self.old) }
        ensures loan { loan self.new ≡ loan self.old };

    // and so it does at all times
    ghost holds: { (s : Self) → Holds (loan s) (Self.Reads.meaning s) (memory s) };
}
