//! An account as a caller has it, and whether it is lawful: the rules that its numbers, readings and writes keep.
ghost use Rattle.std.specs.Prelude.{◌≡◌, ◌^◌, ◌<◌, true, ◌&&◌, nat_lt};
ghost use Rattle.std.specs.List.{AllByRecursion, list_all};
ghost use Rattle.snapshot.specs.Accounts.{CommonTimes, agreed_ends, few_enough, lawful, sound_reading, sound_timestamp, greatest_timestamp, least_promise};
ghost use Rattle.snapshot.specs.Intervals.{from_to};
ghost use Rattle.book.specs.Theorems.{ValuesFit};
ghost use Rattle.book.specs.Format.{as_account};

use snapshot::{
    CHAIN_READINGS, ChainReading, Interval, OPEN_END, WRITE_KEYS, Write, are_rising, is_key,
    is_timestamp, is_worker,
};

/// The account of a committed chain: its final interval, its timestamp (0 if nothing was written), its readings in order,
/// and its writes.
#[derive(Clone, Copy, PartialEq, Eq, Debug)]
pub struct Account<'a> {
    /// The final interval of the chain.
    pub interval: Interval,
    /// The time of its writes; 0 if it wrote nothing.
    pub timestamp: u64,
    /// Its readings in order, at most 32 in a lawful account.
    pub readings: &'a [ChainReading],
    /// Its writes in rising order of their keys, at most 8 in a lawful account.
    pub writes: &'a [Write],
}

impl Account<'_> {
    /// Is the account lawful?
    pub fn is_lawful(&self) -> bool
        ensures value { result ≡ lawful (as_account self.now) }
        ensures means { result ≡ true → CommonTimes (as_account self.now) }
        ensures fits { result ≡ true → ValuesFit (as_account self.now) }
    {
        // `&` has no branch: every rule is looked at.
        self.is_small()
            & are_sound(self.readings)
            & are_rising(self.writes)
            & self.is_agreed()
            & self.has_sound_timestamp()
    }

    fn is_small(&self) -> bool
        ensures { result ≡ few_enough self.now.readings.now self.now.writes.now }
    {
        self.readings.len() <= CHAIN_READINGS && self.writes.len() <= WRITE_KEYS
    }

    // Does the interval go from the greatest timestamp to the least promise, and is it not empty?
    fn is_agreed(&self) -> bool
        ensures { result ≡ agreed_ends self.now.interval.low self.now.interval.high self.now.readings.now }
    {
        self.interval == agreed_interval(self.readings) && self.interval.low <= self.interval.high
    }

    // Is the timestamp 0 without writes, and else a commit's and later than every promise?
    fn has_sound_timestamp(&self) -> bool
        ensures { result ≡ sound_timestamp self.now.timestamp self.now.readings.now self.now.writes.now }
    {
        if self.writes.is_empty() {
            self.timestamp == 0
        } else {
            is_timestamp(self.timestamp) && is_after_all(self.timestamp, self.readings)
        }
    }
}

// Is each reading in range: worker, key, and timestamp up to a promise before the open end?
fn are_sound(readings: &[ChainReading]) -> bool
    ensures value { result ≡ list_all sound_reading readings.now }
    ensures fits { result ≡ true → AllByRecursion (λ x. x.reading.value < 2 ^ 32) readings.now }
{
    readings.iter().all(|reading| is_sound(*reading))
}

fn is_sound(made: ChainReading) -> bool
    ensures value { result ≡ sound_reading made }
    ensures fits { made.reading.value < 2 ^ 32 }
{
    is_worker(made.worker)
        && is_key(made.key)
        && made.reading.timestamp <= made.reading.promise
        && made.reading.promise < OPEN_END
}

// From the greatest timestamp to the least promise; without readings, all times.
fn agreed_interval(readings: &[ChainReading]) -> Interval
    ensures { result ≡ from_to (greatest_timestamp readings.now) (least_promise readings.now) }
{
    readings.iter().fold(
        Interval::ALL_TIMES,
        |agreed, made| agreed.narrow(made.reading),
    )
}

// Is the timestamp later than every promise?
fn is_after_all(timestamp: u64, readings: &[ChainReading]) -> bool
    ensures { result ≡ list_all (λ x. nat_lt x.reading.promise timestamp) readings.now }
{
    readings.iter().all(|made| made.reading.promise < timestamp)
}
