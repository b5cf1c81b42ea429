//! A list of calls on a table of their own, and what they leave in the memory that it was lent.
ghost use Rattle.std.specs.Prelude.{◌≡◌, ◌+◌, ◌≤◌, true, false, ◌++◌, length, is_ok, vec_len, vec_capacity, MatchResult};
ghost use Rattle.store.specs.Calls.{after_store_calls, store_answers};
ghost use Rattle.store.specs.Meaning.{new_store};
ghost use Rattle.records.specs.Layouts.{record_depth};
ghost use Rattle.records.specs.Slices.{is_table_size};
ghost use Rattle.record_store.specs.Tables.{HoldsOnly, capacity_of};

use record_store::Table;
use records::Record;
use std::alloc::AllocError;
use store::{StoreAnswer, StoreCall, run};

/// Makes a new table in this memory, performs the calls on it in order, adds their answers to the list, and lets the table go. Fit
/// memory then holds the versions that are kept, and nothing else; unfit memory is left alone. The only error is want of memory
/// for the answers: no call has been performed then, and fit memory holds a new store.
pub fn run_in(
    memory: &mut [Record],
    calls: &[StoreCall],
    answers: &mut Vec<StoreAnswer>,
) -> Result<(), AllocError>
    ensures answers { MatchResult result (λ _. answers.new.items ≡ answers.old.items ++ store_answers record_depth calls.now (new_store (capacity_of (length memory.old)))) (λ _. answers.new.items ≡ answers.old.items) }
    ensures laid { is_table_size (length memory.old) ≡ true → MatchResult result (λ _. HoldsOnly (after_store_calls record_depth calls.now (new_store (length memory.old))) memory.new) (λ _. HoldsOnly (new_store (length memory.old)) memory.new) }
    ensures size { length memory.new ≡ length memory.old }
    ensures alone { is_table_size (length memory.old) ≡ false → memory.new ≡ memory.old }
    ensures succeeds { vec_len answers.old + length calls.now ≤ vec_capacity answers.old → is_ok result ≡ true }
{
    let mut table = Table::new(memory);
    run(&mut table, calls, answers)
}
