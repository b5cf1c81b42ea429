//! The keys of a list of writes: each in range, and strictly rising.
ghost use Rattle.std.specs.Prelude.{◌≡◌, ◌^◌, ◌<◌, true};
ghost use Rattle.std.specs.List.{AllByRecursion};
ghost use Rattle.snapshot.specs.Accounts.{rising_from};
ghost use Rattle.snapshot.specs.Limits.{is_key};

use crate::account::Write;
use crate::limits::is_key;

/// Are the writes' keys in range and strictly rising?
pub fn are_rising(writes: &[Write]) -> bool
    ensures value { result ≡ rising_from 0 writes.now }
    ensures fits { result ≡ true → AllByRecursion (λ w. w.value < 2 ^ 32) writes.now }
{
    writes.is_sorted_by(|earlier, later| earlier.key < later.key)
        && writes.iter().all(|write| has_fit_key(*write))
}

// Is the write's key in range?
fn has_fit_key(write: Write) -> bool
    ensures value { result ≡ is_key write.key }
    ensures fits { write.value < 2 ^ 32 }
{
    is_key(write.key)
}
