//! What every store checks before it looks at its versions: the key and time of a question, the writes and clock reading
//! of a commit.
ghost use Rattle.std.specs.Prelude.{◌≡◌, ◌+◌, ◌<◌, ◌≤◌, max, true, Err, IfOk, is_ok};
ghost use Rattle.snapshot.specs.Limits.{open_end};
ghost use Rattle.snapshot.specs.declared.fault.Refusal.TheVariants.{ClockTooHigh, NoTimeLeft};
ghost use Rattle.store.specs.Checking.{Checked};
ghost use Rattle.store.specs.Meaning.{fit_writes, issued, in_range, store_fault};

use crate::update::Update;
use snapshot::{Fault, Layer, OPEN_END, Refusal, WRITE_KEYS, Write, are_rising, is_key, is_time};

/// Refused: 1 key (0 to 63) or time (0 to 2^48) out of range.
pub fn check_query(key: u8, time: u64) -> Result<(), Fault>
    ensures { result ≡ in_range key time }
{
    if is_key(key) && is_time(time) {
        Ok(())
    } else {
        Err(Fault::at_key(Refusal::OutOfRange, Layer::Store, key))
    }
}

/// Does a commit take these writes: one to eight, their keys in range and strictly rising?
pub fn are_fit(writes: &[Write]) -> bool
    ensures { result ≡ fit_writes writes.now }
{
    1 <= writes.len() && writes.len() <= WRITE_KEYS && are_rising(writes)
}

/// The timestamp of a commit: the clock reading, or one more than the last timestamp if that is larger. Refused (12) for a
/// clock reading of 2^48 or more, else (13) where the last timestamp is 2^48 - 1 or more.
pub fn issue(clock: u64, last: u64) -> Result<u64, Fault>
    ensures value { result ≡ issued clock last }
    ensures timestamp { IfOk result (λ t. t ≡ max clock (last + 1)) }
    ensures too_high { open_end ≤ clock → result ≡ Err (store_fault ClockTooHigh) }
    ensures no_time { clock < open_end → open_end ≤ last + 1 → result ≡ Err (store_fault NoTimeLeft) }
    ensures accepted { clock < open_end → last + 1 < open_end → is_ok result ≡ true }
{
    if clock >= OPEN_END {
        return Err(Fault::unnamed(Refusal::ClockTooHigh, Layer::Store));
    }
    if last >= OPEN_END - 1 {
        return Err(Fault::unnamed(Refusal::NoTimeLeft, Layer::Store));
    }
    Ok(clock.max(last + 1))
}

/// The writes with the timestamp that they get. Refused: 11 the writes are unfit, 12 the clock reading is above 2^48 - 1, 13 the
/// last timestamp is 2^48 - 1 or more.
pub fn check_commit<'a>(clock: u64, writes: &'a [Write], last: u64) -> Result<Update<'a>, Fault>
    ensures { Checked clock writes.now last result }
{
    if are_fit(writes) {
        let timestamp = issue(clock, last)?;
        Ok(Update { timestamp, writes })
    } else {
        Err(Fault::unnamed(Refusal::UnfitWrites, Layer::Store))
    }
}
