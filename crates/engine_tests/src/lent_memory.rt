//! A list of engine calls over a table in memory that a caller lends: what the memory holds afterwards is proved.
ghost use Rattle.std.specs.Prelude.{◌≡◌, ◌+◌, ◌≤◌, true, false, ◌++◌, length, is_ok, vec_len, vec_capacity, MatchResult};
ghost use Rattle.store.specs.Meaning.{new_store};
ghost use Rattle.records.specs.Layouts.{record_depth};
ghost use Rattle.records.specs.Slices.{is_table_size};
ghost use Rattle.record_store.specs.Tables.{HoldsOnly, capacity_of};
ghost use Rattle.engine_model.specs.Engines.{new_engine};
ghost use Rattle.engine.specs.Performing.{answers_to, engine_after_calls};

use engine::{Answer, run_over};
use engine_model::Call;
use snapshot::EngineFault;
use std::alloc::AllocError;
use table_store::{Record, Table};

/// Makes a new table in this memory, lends it to a new engine for the calls, adds their answers to the list, and lets the table
/// go. Fit memory then holds the versions that the calls have left in the store, and nothing else; unfit memory is left alone. The
/// only error is want of memory for the answers: no call has been performed then, and fit memory holds a new store.
pub fn run_in(
    memory: &mut [Record],
    calls: &[Call],
    answers: &mut Vec<Result<Answer, EngineFault>>,
) -> Result<(), AllocError>
    ensures answers { MatchResult result (λ _. answers.new.items ≡ answers.old.items ++ answers_to record_depth calls.now (new_engine (new_store (capacity_of (length memory.old))))) (λ _. answers.new.items ≡ answers.old.items) }
    ensures laid { is_table_size (length memory.old) ≡ true → MatchResult result (λ _. HoldsOnly (engine_after_calls record_depth calls.now (new_engine (new_store (length memory.old)))).store memory.new) (λ _. HoldsOnly (new_store (length memory.old)) memory.new) }
    ensures size { length memory.new ≡ length memory.old }
    ensures alone { is_table_size (length memory.old) ≡ false → memory.new ≡ memory.old }
    ensures succeeds { vec_len answers.old + length calls.now ≤ vec_capacity answers.old → is_ok result ≡ true }
{
    let mut table = Table::new(memory);
    run_over(&mut table, calls, answers)
}
