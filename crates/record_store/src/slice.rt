//! A slice of records that a caller lends, as memory: 64 to 1,024 records are fit for a store.
ghost use Rattle.std.specs.Prelude.{◌≡◌, ◌-◌, ◌≤◌, length};
ghost use Rattle.std.specs.List.{copy_within};
ghost use Rattle.records.specs.Slices.{LiesIn, is_table_size, zeros_after};

use crate::memory::RecordMemory;
use records::{NO_RECORD, Record};
use snapshot::{LEAST_RECORDS, MOST_RECORDS};

// Is this memory fit for a table: 64 to 1,024 records?
pub(crate) fn is_fit(memory: &[Record]) -> bool
    ensures { result ≡ is_table_size (length memory.now) }
{
    LEAST_RECORDS <= memory.len() && memory.len() <= MOST_RECORDS
}

// Moves all records but the first `BY` to the front.
fn move_to_front<const BY: usize>(records: &mut [Record])
    requires { BY ≤ length records.old }
    ensures { records.new ≡ copy_within records.old BY (length records.old) 0 }
{
    let end = records.len();
    records.copy_within(BY..end, 0);
}

// The same as a function that stands alone: where it knows the distance, the compiler makes one `memmove` of the loop.
#[inline(never)]
fn close_gap<const BY: usize>(records: &mut [Record])
    requires { BY ≤ length records.old }
    ensures { records.new ≡ copy_within records.old BY (length records.old) 0 }
{
    move_to_front::<BY>(records);
}

// Moves the records from `start` up to `end` down by `BY` places.
#[tactic(auto, using(crate::proofs::Moves::gap_closed))]
fn move_by<const BY: usize>(records: &mut [Record], start: usize, end: usize)
    requires down { BY ≤ start }
    requires rising { start ≤ end }
    requires within { end ≤ length records.old }
    ensures { records.new ≡ copy_within records.old start end (start - BY) }
{
    close_gap::<BY>(&mut records[start - BY..end]);
}

// Moves the records from `start` up to `end` to the places from `to` on, lower ones.
fn move_run(records: &mut [Record], start: usize, end: usize, to: usize)
    requires down { to ≤ start }
    requires rising { start ≤ end }
    requires within { end ≤ length records.old }
    ensures { records.new ≡ copy_within records.old start end to }
{
    match start - to {
        1 => move_by::<1>(records, start, end),
        2 => move_by::<2>(records, start, end),
        3 => move_by::<3>(records, start, end),
        4 => move_by::<4>(records, start, end),
        5 => move_by::<5>(records, start, end),
        6 => move_by::<6>(records, start, end),
        7 => move_by::<7>(records, start, end),
        8 => move_by::<8>(records, start, end),
        _ => records.copy_within(start..end, to),
    }
}

impl RecordMemory for &mut [Record] {
    ghost use Rattle.records.proofs.SliceLaws.{fit_bounds, lies_in};

    ghost records = { λ m. m.now };

    ghost tidy = { λ m n. zeros_after m.now n };

    ghost fit = { λ m. is_table_size (length m.now) };

    ghost use Rattle.std.specs.Prelude.{List};
    ghost use Rattle.records.specs.declared.record.Record.{Record as ARecord};

    ghost Held = { List ARecord };

    ghost held = { λ m. m.now };

    ghost name = { λ m. m.ghost_name };

    ghost Lies = { LiesIn };

    ghost bounds = { λ m. fit_bounds m.now };

    ghost lies = { λ m. lies_in m.now };

    fn len(&self) -> usize {
        (**self).len()
    }

    fn is_fit(&self) -> bool {
        is_fit(self)
    }

    fn at(&self, place: usize) -> Record {
        self[place]
    }

    #[tactic(auto, using(crate::proofs::Zeros::put_tidy))]
    fn put(&mut self, place: usize, new: Record) {
        self[place] = new;
    }

    #[tactic(auto, using(crate::proofs::Zeros::moved_tidy))]
    fn move_down(&mut self, start: usize, end: usize, to: usize) {
        move_run(self, start, end, to);
    }

    #[tactic(auto, using(crate::proofs::Zeros::cleared_rest, crate::proofs::Zeros::cleared_tidy))]
    fn clear(&mut self, start: usize, end: usize) {
        self[start..end].fill(NO_RECORD);
    }

    #[tactic(auto, using(crate::proofs::Zeros::zeroed))]
    fn erase(&mut self) {
        self.fill(NO_RECORD);
    }
}
