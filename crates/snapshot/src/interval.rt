//! An interval of times, both ends included: the stretch in which all readings of a chain's leg are known to agree.
ghost use Rattle.std.specs.Prelude.{◌≡◌, min, max};
ghost use Rattle.snapshot.specs.Intervals.{from_to, meets_reading, narrowed, joined_or_refused, MeetsMeans, NarrowedMeans, JoinedMeans};

use crate::account::Reading;
use crate::fault::Refusal;
use crate::limits::OPEN_END;

/// The times from `low` to `high`, both included; none where low is above high, which no interval of an engine's leg is.
#[derive(Clone, Copy, PartialEq, Eq, Debug)]
pub struct Interval {
    /// The first time, 0 to the open end.
    pub low: u64,
    /// The last time, 0 to the open end.
    pub high: u64,
}

impl Interval {
    /// From 0 to the open end.
    pub const ALL_TIMES: Interval = Interval {
        low: 0,
        high: OPEN_END,
    };

    /// Was the reading's version current, as far as is known, at some time of the interval?
    pub fn meets(self, reading: Reading) -> bool
        ensures value { result ≡ meets_reading self reading }
        ensures means { MeetsMeans self reading result }
    {
        reading.promise >= self.low && reading.timestamp <= self.high
    }

    /// The times of the interval at which the reading's version is known to be current.
    pub fn narrow(self, reading: Reading) -> Interval
        ensures value { result ≡ narrowed self reading }
        ensures means { NarrowedMeans self reading result }
    {
        self.common(Interval {
            low: reading.timestamp,
            high: reading.promise,
        })
    }

    /// The times of both intervals. Refused: 6 they have none in common.
    pub fn join(self, other: Interval) -> Result<Interval, Refusal>
        ensures value { result ≡ joined_or_refused self other }
        ensures means { JoinedMeans self other result }
    {
        let both = self.common(other);
        if both.low <= both.high {
            Ok(both)
        } else {
            Err(Refusal::IntervalsApart)
        }
    }

    // From the larger low end to the smaller high end: the times of both, if they have any in common.
    fn common(self, other: Interval) -> Interval
        ensures { result ≡ from_to (max self.low other.low) (min self.high other.high) }
    {
        Interval {
            low: self.low.max(other.low),
            high: self.high.min(other.high),
        }
    }
}
