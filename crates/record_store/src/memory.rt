//! Memory that holds a list of records, whatever it is made of.
ghost use Rattle.std.specs.Prelude.{◌≡◌, ℕ, ◌+◌, ◌-◌, ◌≤◌, ◌<◌, Bool, true, List, length, take, drop, replicate, slice_set, slice_index_or};
ghost use Rattle.std.specs.List.{copy_within};
ghost use Rattle.snapshot.specs.Limits.{key_count, most_records};
ghost use Rattle.records.specs.Records.{no_record};
ghost use Rattle.records.specs.declared.record.Record.{Record as ARecord};

use records::Record;

/// Places for records, from 0.
pub trait RecordMemory {
    // what stands at its places
    ghost records: { Self → List ARecord };

    // the first n places hold records as they are written here, and nothing stands after them
    ghost tidy: { Self → ℕ → Bool };

    // it is fit for a store
    ghost fit: { Self → Bool };

    // fit memory has places for one record of each key, and for 1,024 at most
    ghost bounds: { (m : Self) → fit m ≡ true → (key_count ≤ length (records m)) × (length (records m) ≤ most_records) };

    // all that it holds, and the name of its loan
    ghost Held: { Type 0 };

    ghost held: { Self → Held };

    ghost name: { Self → ℕ };

    // these records lie in it from its start, and nothing else does
    ghost Lies: { List ARecord → Held → Type 0 };

    /// How many places there are.
    fn len(&self) -> usize
        ensures { result ≡ length (records self.now) };

    /// Is it fit for a store?
    fn is_fit(&self) -> bool
        ensures { result ≡ fit self.now };

    /// The record at a place.
    fn at(&self, place: usize) -> Record
        requires { place < length (records self.now) }
        ensures { result ≡ slice_index_or (records self.now) place no_record };

    /// Writes a record to a place.
    fn put(&mut self, place: usize, new: Record)
        requires { place < length (records self.old) }
        ensures value { records self.new ≡ slice_set (records self.old) place new }
        ensures tidy { tidy self.old place ≡ true → tidy self.new (place + 1) ≡ true }
        ensures same { (name self.new ≡ name self.old) × (fit self.new ≡ fit self.old) };

    /// Moves the records from `start` up to `end` to the places from `to` on, lower ones.
    fn move_down(&mut self, start: usize, end: usize, to: usize)
        requires down { to ≤ start }
        requires rising { start ≤ end }
        requires within { end ≤ length (records self.old) }
        ensures value { records self.new ≡ copy_within (records self.old) start end to }
        ensures tidy { (n : ℕ) → end ≤ n → tidy self.old n ≡ true → tidy self.new n ≡ true }
        ensures same { (name self.new ≡ name self.old) × (fit self.new ≡ fit self.old) };

    /// Leaves nothing at the places from `start` up to `end`.
    fn clear(&mut self, start: usize, end: usize)
        requires rising { start ≤ end }
        requires within { end ≤ length (records self.old) }
        ensures front { take start (records self.new) ≡ take start (records self.old) }
        ensures cleared { take (end - start) (drop start (records self.new)) ≡ replicate (end - start) no_record }
        ensures rest { drop end (records self.new) ≡ drop end (records self.old) }
        ensures size { length (records self.new) ≡ length (records self.old) }
        ensures tidy { tidy self.old end ≡ true → tidy self.new start ≡ true }
        ensures same { (name self.new ≡ name self.old) × (fit self.new ≡ fit self.old) };

    /// Leaves nothing anywhere.
    fn erase(&mut self)
        ensures value { records self.new ≡ replicate (length (records self.old)) no_record }
        ensures tidy { tidy self.new 0 ≡ true }
        ensures same { (name self.new ≡ name self.old) × (fit self.new ≡ fit self.old) };

    // where the first n places are tidy, their records lie in it
    ghost lies: { (m : Self) → (n : ℕ) → n ≤ length (records m) → tidy m n ≡ true → Lies (take n (records m)) (held m) };
}
