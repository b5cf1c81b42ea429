//! What is read, written and accounted for: a reading of one version, a chain's reading, a write, and the head of an account.
ghost use Rattle.std.specs.Prelude.{Some};
ghost use Rattle.snapshot.specs.Shown.{head_text};

use crate::interval::Interval;
use std::fmt;

/// A version's value, its timestamp, and its promise: the last time at which that version is known to be current.
#[derive(Clone, Copy, Default, PartialEq, Eq, Debug)]
pub struct Reading {
    /// The version's value, 0 to 2^32 - 1.
    pub value: u32,
    /// The time of the commit that wrote it, 0 for a new store's.
    pub timestamp: u64,
    /// The last time at which the version is known to be current: the timestamp or later.
    pub promise: u64,
}

/// A reading that a chain made: on which worker, of which key.
#[derive(Clone, Copy, Default, PartialEq, Eq, Debug)]
pub struct ChainReading {
    /// The worker of the leg that read, 0 to 7.
    pub worker: u8,
    /// The key that was read, 0 to 63.
    pub key: u8,
    /// What was read.
    pub reading: Reading,
}

/// A key and the value that it is to have.
#[derive(Clone, Copy, Default, PartialEq, Eq, Debug)]
pub struct Write {
    /// The key, 0 to 63.
    pub key: u8,
    /// The value, 0 to 2^32 - 1.
    pub value: u32,
}

/// The five numbers of a committed chain's account: its final interval, its timestamp (0 if nothing was written), and how
/// many readings and writes its two lists have. The lists are a caller's.
#[derive(Clone, Copy, PartialEq, Eq, Debug)]
pub struct AccountHead {
    /// The chain's final interval: all its readings were true at each time of it, both ends included.
    pub interval: Interval,
    /// The time of the chain's writes, 1 to 2^48 - 1; 0 if it wrote nothing.
    pub timestamp: u64,
    /// How many readings the account has, 0 to 32.
    pub readings: usize,
    /// How many writes the account has, 0 to 8.
    pub writes: usize,
}

// Shown as low, high, timestamp and the two counts, with single spaces.
impl fmt::Display for AccountHead {
    ghost output = { λ h. Some (head_text h) };

    fn fmt<W: fmt::Write>(&self, f: &mut fmt::Formatter<W>) -> fmt::Result {
        let AccountHead {
            interval: Interval { low, high },
            timestamp,
            readings,
            writes,
        } = *self;
        write!(f, "{low} {high} {timestamp} {readings} {writes}")
    }
}

/// What stands in a list of readings where none is known.
pub const NO_READING: ChainReading = ChainReading {
    worker: 0,
    key: 0,
    reading: Reading {
        value: 0,
        timestamp: 0,
        promise: 0,
    },
};

/// What stands in a list of writes where none is known.
pub const NO_WRITE: Write = Write { key: 0, value: 0 };
