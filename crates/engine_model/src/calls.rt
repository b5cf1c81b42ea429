//! An engine's calls as values.

/// One call of an engine, with the numbers that it names. Any numbers may be named: what is out of its range is refused.
#[derive(Clone, Copy, PartialEq, Eq, Debug)]
pub enum Call {
    /// Opens a chain at a free place (0 to 3), with its leg 0 at a worker (0 to 7).
    Begin {
        place: u8,
        worker: u8,
    },
    /// Ends a leg (0 to 15) and opens the next at a worker.
    Hand {
        place: u8,
        leg: u8,
        worker: u8,
    },
    /// Ends a leg and opens two, each at a worker.
    Fork {
        place: u8,
        leg: u8,
        first_worker: u8,
        second_worker: u8,
    },
    /// Ends two legs and opens one at a worker.
    Join {
        place: u8,
        first_leg: u8,
        second_leg: u8,
        worker: u8,
    },
    /// Reads a key (0 to 63) on a leg.
    Read {
        place: u8,
        leg: u8,
        key: u8,
    },
    /// Writes a key's value on a leg.
    Write {
        place: u8,
        leg: u8,
        key: u8,
        value: u32,
    },
    /// Commits a chain by its only open leg at a clock reading (0 to 2^48 - 1), into lists with room for so many readings and
    /// writes.
    Commit {
        place: u8,
        leg: u8,
        clock: u64,
        readings_room: usize,
        writes_room: usize,
    },
    /// Frees a place.
    Abandon {
        place: u8,
    },
    /// Shows a waiting notice, by its position from 0, to its worker's cache.
    Deliver {
        position: u64,
    },
    /// Removes a waiting notice, by its position from 0.
    Discard {
        position: u64,
    },
    /// Asks how many notices wait and how many were lost.
    Count,
    /// Lets the store drop of each key the versions older than the newest one that is above neither the horizon (any number)
    /// nor last.
    Prune {
        horizon: u64,
    },
}
