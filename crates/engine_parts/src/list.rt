//! A list of at most `N` entries, which lie in the value itself: no call on it asks for memory. Unlike the kit's list in
//! fixed memory it can be copied, and has no invariant: a length beyond the bound means the whole array.
ghost use Rattle.std.specs.Prelude.{◌≡◌, ◌≤◌, false, [], ◌∷◌, ◌++◌, length, nat_le, nat_lt, if◌then◌else◌, slice_get, slice_set, remove, insert};
ghost use Rattle.std.specs.List.{find};
ghost use Rattle.engine_parts.specs.Lists.{elements_of};

use snapshot::{Keyed, find};

/// At most `N` entries, the first `len` of the array; a length beyond `N` means all of it.
#[derive(Clone, Copy)]
pub struct BoundedList<T, const N: usize> {
    items: [T; N],
    len: usize,
}

impl<T: Copy + Default, const N: usize> BoundedList<T, N> {
    /// An empty list.
    pub fn new() -> BoundedList<T, N>
        ensures { elements_of result ≡ [] }
    {
        BoundedList {
            items: [T::default(); N],
            len: 0,
        }
    }
}

impl<T: Copy, const N: usize> BoundedList<T, N> {
    /// How many entries there are.
    pub fn len(&self) -> usize
        ensures value { result ≡ length (elements_of self.now) }
        ensures fits { result ≤ N }
    {
        self.len.min(N)
    }

    /// The entries, from the first to the last.
    pub fn as_slice(&self) -> &[T]
        ensures value { result.now ≡ elements_of self.now }
        ensures fits { length result.now ≤ N }
    {
        &self.items[..self.len()]
    }

    /// Is there room for no more?
    pub fn is_full(&self) -> bool
        ensures value { result ≡ nat_le N (length (elements_of self.now)) }
        ensures fits { length (elements_of self.now) ≤ N }
    {
        N <= self.len
    }

    /// Drops all entries.
    pub fn clear(&mut self)
        ensures { elements_of self.new ≡ [] }
    {
        self.len = 0;
    }

    /// The entry at this place, if there is one.
    pub fn get(&self, place: usize) -> Option<T>
        ensures { result ≡ slice_get (elements_of self.now) place }
    {
        self.as_slice().get(place).copied()
    }

    /// The first entry with this key, if there is one.
    #[tactic(auto, using(crate::proofs::ListProofs::leads_nowhere, crate::proofs::ListProofs::leads_to_it))]
    pub fn with_key<K: Copy>(&self, key: K) -> Option<T>
    where
        T: Keyed<K>,
        ensures { result ≡ find (λ x. T.named x key) (elements_of self.now) }
    {
        let place = find(self.as_slice(), key)?;
        self.get(place)
    }

    /// Adds an entry at the end, and answers whether there was room.
    pub fn push(&mut self, entry: T) -> bool
        ensures room { result ≡ nat_lt (length (elements_of self.old)) N }
        ensures after { elements_of self.new ≡ (if result then elements_of self.old ++ entry ∷ [] else elements_of self.old) }
        ensures unchanged { result ≡ false → self.new ≡ self.old }
    {
        if self.is_full() {
            return false;
        }
        let len = self.len();
        self.items[len] = entry;
        self.len = len + 1;
        true
    }

    /// Puts an entry in the place of another; past the end it has no effect.
    #[tactic(auto, using(crate::proofs::ListProofs::put_in_front))]
    pub fn put(&mut self, place: usize, entry: T)
        ensures { elements_of self.new ≡ slice_set (elements_of self.old) place entry }
    {
        if place < self.len() {
            self.items[place] = entry;
        }
    }

    /// Takes out the entry at this place, and later ones move up; past the end it has no effect.
    #[tactic(auto, using(crate::proofs::ListProofs::moved_up))]
    pub fn remove(&mut self, place: usize)
        ensures { elements_of self.new ≡ remove (elements_of self.old) place }
    {
        let len = self.len();
        if place < len {
            self.items.copy_within(place + 1..len, place);
            self.len = len - 1;
        }
    }

    /// Puts an entry before the one at this place, or at the end where there is none, and answers whether there was room.
    #[tactic(auto, using(crate::proofs::ListProofs::inserted_there))]
    pub fn insert(&mut self, place: usize, entry: T) -> bool
        ensures room { result ≡ nat_lt (length (elements_of self.old)) N }
        ensures after { elements_of self.new ≡ (if result then insert (elements_of self.old) place entry else elements_of self.old) }
        ensures unchanged { result ≡ false → self.new ≡ self.old }
    {
        if self.is_full() {
            return false;
        }
        let len = self.len();
        let place = place.min(len);
        self.items.copy_within(place..len, place + 1);
        self.items[place] = entry;
        self.len = len + 1;
        true
    }
}
