//! A number for each of the 64 keys.
ghost use Rattle.std.specs.Prelude.{◌≡◌, ℕ, ◌-◌, nat_lt};
ghost use Rattle.records.specs.PerKeys.{number_for, with, one_less, total_of};

use snapshot::{KEYS, is_key};

/// The numbers, by key.
#[derive(Clone, Copy)]
pub struct PerKey {
    // `as`, since the length of an array calls no function
    numbers: [u16; KEYS as usize],
}

impl PerKey {
    /// 0 for every key.
    #[tactic(auto, using(crate::proofs::Totals::none_at))]
    pub fn none() -> PerKey
        ensures { (k : ℕ) → number_for result k ≡ 0 }
    {
        PerKey {
            numbers: [0; KEYS as usize],
        }
    }

    /// The number for this key; 0 where there is no such key, which has none of anything.
    pub fn get(&self, key: u8) -> u16
        ensures { result ≡ number_for self.now key }
    {
        self.numbers.get(usize::from(key)).copied().unwrap_or(0)
    }

    /// Gives the key this number; where there is no such key, nothing changes.
    pub fn set(&mut self, key: u8, number: u16)
        ensures { (k : ℕ) → number_for self.new k ≡ with (number_for self.old) key number k }
    {
        // a test and an index: after a write through `get_mut` nothing is known of the other numbers
        if is_key(key) {
            self.numbers[usize::from(key)] = number;
        }
    }

    /// Takes one from the key's number and answers whether there was one to take.
    pub fn take_one(&mut self, key: u8) -> bool
        ensures answer { result ≡ nat_lt 0 (number_for self.old key) }
        ensures after { (k : ℕ) → number_for self.new k ≡ one_less (number_for self.old) key k }
    {
        let Some(left) = self.get(key).checked_sub(1) else {
            return false;
        };
        self.set(key, left);
        true
    }

    /// Takes another's numbers from these, each from its own, as far as it goes.
    #[tactic(auto, using(std::proofs::lemmas::Bool::Decides::nat_tests))]
    pub fn subtract(&mut self, other: &PerKey)
        ensures { (k : ℕ) → number_for self.new k ≡ number_for self.old k - number_for other.now k }
    {
        for key in 0..KEYS {
            let left = self.get(key).saturating_sub(other.get(key));
            self.set(key, left);
        }
    }

    /// One less for each key that has any.
    #[tactic(auto, using(std::proofs::lemmas::Bool::Decides::nat_tests))]
    pub fn all_but_one(&self) -> PerKey
        ensures { (k : ℕ) → number_for result k ≡ number_for self.now k - 1 }
    {
        let mut fewer = *self;
        for key in 0..KEYS {
            let left = fewer.get(key).saturating_sub(1);
            fewer.set(key, left);
        }
        fewer
    }

    /// The numbers of all keys together.
    pub fn total(&self) -> usize
        ensures { result ≡ total_of (number_for self.now) }
    {
        let mut total: usize = 0;
        for key in 0..KEYS {
            total += usize::from(self.get(key));
        }
        total
    }
}
