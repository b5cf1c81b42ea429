//! Every limit of the engine, named once, and the tests of a number against its range.
ghost use Rattle.std.specs.Prelude.{◌≡◌};
ghost use Rattle.snapshot.specs.Limits.{is_time, is_timestamp, is_key, is_worker, is_place, is_leg};

/// A time is 0 to `OPEN_END`, both included. The open end stands for "no end known".
pub const OPEN_END: u64 = 281_474_976_710_656;

/// How many keys there are, numbered from 0.
pub const KEYS: u8 = 64;

/// How many workers there are, numbered from 0.
pub const WORKERS: u8 = 8;

/// How many places for open chains there are, numbered from 0.
pub const PLACES: u8 = 4;

/// How many legs a chain has at most, numbered from 0.
pub const LEGS: u8 = 16;

/// The most keys in a write set, and the most writes of one commit.
pub const WRITE_KEYS: usize = 8;

/// The most readings of a chain.
pub const CHAIN_READINGS: usize = 32;

/// The most keys in a worker's cache.
pub const CACHE_KEYS: usize = 8;

/// The most notices that wait.
pub const WAITING_NOTICES: usize = 32;

/// The fewest records of a table store's memory.
pub const LEAST_RECORDS: usize = 64;

/// The most records of a table store's memory.
pub const MOST_RECORDS: usize = 1024;

/// Is this a time: 0 to the open end?
pub fn is_time(time: u64) -> bool
    ensures { result ≡ is_time time }
{
    time <= OPEN_END
}

/// Can a commit have this timestamp: 1 to one below the open end?
pub fn is_timestamp(time: u64) -> bool
    ensures { result ≡ is_timestamp time }
{
    1 <= time && time < OPEN_END
}

// One comparison each: `is_below::<KEYS>(key)`, generic in the limit, would be longer and say less.

/// Is there a key of this number?
pub fn is_key(number: u8) -> bool
    ensures { result ≡ is_key number }
{
    number < KEYS
}

/// Is there a worker of this number?
pub fn is_worker(number: u8) -> bool
    ensures { result ≡ is_worker number }
{
    number < WORKERS
}

/// Is there a place of this number?
pub fn is_place(number: u8) -> bool
    ensures { result ≡ is_place number }
{
    number < PLACES
}

/// Can a leg have this number?
pub fn is_leg(number: u8) -> bool
    ensures { result ≡ is_leg number }
{
    number < LEGS
}
