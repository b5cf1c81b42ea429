//! Finding a record by its key, once for every kind of record and of key.
ghost use Rattle.std.specs.Prelude.{◌≡◌, Bool, ◌==◌};
ghost use Rattle.snapshot.specs.Finding.{first_with, FirstMeans};

use crate::account::{ChainReading, Write};

/// A record that can have a key.
pub trait Keyed<K> {
    ghost named: { Self → K → Bool };

    /// Has the record this key?
    fn has_key(&self, key: K) -> bool
        ensures { result ≡ named self.now key };
}

/// The place, from 0, of the first record with this key, if there is one.
pub fn find<K: Copy, T: Keyed<K>>(records: &[T], key: K) -> Option<usize>
    ensures value { result ≡ first_with (λ x. T.named x key) records.now }
    ensures means { FirstMeans (λ x. T.named x key) records.now result }
{
    records.iter().position(|record| record.has_key(key))
}

// An implementation for each kind of record, which names the field.

impl Keyed<u8> for Write {
    ghost named = { λ w k. (w.key == k) };

    fn has_key(&self, key: u8) -> bool {
        self.key == key
    }
}

impl Keyed<u8> for ChainReading {
    ghost named = { λ r k. (r.key == k) };

    fn has_key(&self, key: u8) -> bool {
        self.key == key
    }
}
