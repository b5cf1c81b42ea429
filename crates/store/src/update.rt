//! A commit that a store can take.
ghost use Rattle.std.specs.Prelude.{◌≡◌, true};
ghost use Rattle.store.specs.Meaning.{fit_writes};

use snapshot::Write;

/// Writes that are fit, and the timestamp that they get.
#[derive(Clone, Copy, PartialEq, Eq, Debug)]
pub struct Update<'a> {
    /// The timestamp, 1 to 2^48 - 1.
    pub timestamp: u64,
    /// One to eight writes with rising keys.
    pub writes: &'a [Write],
    ghost fit: { fit_writes writes.now ≡ true },
}
