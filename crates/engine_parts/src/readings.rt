//! A chain's readings in order, at most 32.
ghost use Rattle.std.specs.Prelude.{◌≡◌, ◌≤◌, false, if◌then◌else◌, [], ◌∷◌, ◌++◌, length, nat_lt};
ghost use Rattle.engine_model.specs.Steps.{own_reading};
ghost use Rattle.engine_parts.specs.KeysRead.{readings_of, reads_key};

use crate::list::BoundedList;
use engine_model::{LegAndKey, LegReading};
use snapshot::{CHAIN_READINGS, KEYS, is_key};
use std::marker::Model;

/// The readings, and whether there is one of a key, so that a key that was not read is not looked for.
#[derive(Drop)]
pub struct Readings {
    list: BoundedList<LegReading, CHAIN_READINGS>,
    // `as`, since the length of an array calls no function
    read: [bool; KEYS as usize],
}

impl Model for Readings {
    ghost use Rattle.engine_parts.specs.Lists.{elements_of};
    ghost use Rattle.engine_parts.specs.KeysRead.{ReadingsFields, KnowsKeys};

    ghost Value = { ReadingsFields };

    ghost view = { λ r. record { list = r.list; read = r.read } };

    ghost invariant = { λ r. KnowsKeys r.read (elements_of r.list) };
}

impl Readings {
    /// No readings.
    pub fn new() -> Readings
        ensures { readings_of result ≡ [] }
    {
        Readings {
            list: BoundedList::new(),
            read: [false; KEYS as usize],
        }
    }

    /// Drops all readings.
    pub fn clear(&mut self)
        ensures { readings_of self.new ≡ [] }
    {
        self.list.clear();
        self.read = [false; KEYS as usize];
    }

    /// How many readings there are.
    pub fn len(&self) -> usize
        ensures value { result ≡ length (readings_of self.now) }
        ensures fits { result ≤ 32 }
    {
        self.list.len()
    }

    /// The readings, from the first to the last.
    pub fn as_slice(&self) -> &[LegReading]
        ensures value { result.now ≡ readings_of self.now }
        ensures fits { length result.now ≤ 32 }
    {
        self.list.as_slice()
    }

    /// The first reading of the key that this leg has made, if there is one.
    pub fn own(&self, leg: u8, key: u8) -> Option<LegReading>
        ensures { result ≡ own_reading leg key (readings_of self.now) }
    {
        if !self.may_read(key) {
            return None;
        }
        self.list.with_key(LegAndKey { leg, key })
    }

    /// Adds a reading at the end, and answers whether there was room.
    pub fn push(&mut self, reading: LegReading) -> bool
        ensures room { result ≡ nat_lt (length (readings_of self.old)) 32 }
        ensures after { readings_of self.new ≡ (if result then readings_of self.old ++ reading ∷ [] else readings_of self.old) }
        ensures unchanged { result ≡ false → self.new ≡ self.old }
    {
        if !self.list.push(reading) {
            return false;
        }
        if is_key(reading.made.key) {
            self.read[usize::from(reading.made.key)] = true;
        }
        true
    }

    // Can there be a reading of the key?
    fn may_read(&self, key: u8) -> bool
        ensures { result ≡ false → reads_key key (readings_of self.now) ≡ false }
    {
        !is_key(key) || self.read[usize::from(key)]
    }
}
