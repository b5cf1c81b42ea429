//! A list of calls on a new engine, which owns its store or borrows it.
ghost use Rattle.std.specs.Prelude.{◌≡◌, ◌+◌, ◌≤◌, true, ◌++◌, length, is_ok, vec_len, vec_capacity, MatchResult, OnOk};
ghost use Rattle.engine_model.specs.Engines.{new_engine};
ghost use Rattle.engine.specs.Engines.{engine_of, engine_over};
ghost use Rattle.engine.specs.EngineLaw.{RunKeepsLaw};
ghost use Rattle.engine.specs.Performing.{engine_after_calls, answers_to};

use crate::answer::Answer;
use crate::engine::Engine;
use crate::state::State;
use engine_model::Call;
use snapshot::EngineFault;
use std::alloc::AllocError;
use store::Store;

/// Performs the calls in order on a new engine over the store, adds their answers to the list, and hands back the engine.
/// Succeeds wherever the list has room for the answers; else it may fail, for want of memory, and then no call has been
/// performed. Where the store is new, the calls with their answers are a trace that keeps the law of traces, and so is that of
/// the first n calls, for every n.
pub fn run<S: Store>(
    store: S,
    calls: &[Call],
    answers: &mut Vec<Result<Answer, EngineFault>>,
) -> (Engine<S>, Result<(), AllocError>)
    ensures answers { MatchResult result.1 (λ _. answers.new.items ≡ answers.old.items ++ answers_to S.Store.DEPTH calls.now (new_engine (S.Reads.meaning store))) (λ _. answers.new.items ≡ answers.old.items) }
    ensures after { MatchResult result.1 (λ _. engine_of S.Reads.meaning result.0 ≡ engine_after_calls S.Store.DEPTH calls.now (new_engine (S.Reads.meaning store))) (λ _. engine_of S.Reads.meaning result.0 ≡ new_engine (S.Reads.meaning store)) }
    ensures succeeds { vec_len answers.old + length calls.now ≤ vec_capacity answers.old → is_ok result.1 ≡ true }
    ensures loan { S.Store.loan result.0.store ≡ S.Store.loan store }
    ensures law { OnOk result.1 (RunKeepsLaw S.Store.DEPTH calls.now (S.Reads.meaning store) (engine_of S.Reads.meaning result.0)) }
{
    let mut engine = Engine::new(store);
    let done = perform_all(&mut engine.state, &mut engine.store, calls, answers);
    (engine, done)
}

/// Performs the calls in order on a new engine over a store that is borrowed, as `run` does. The store then means what the rules
/// make of it by these calls, and memory that was lent to it holds just that. For want of memory the store is left as it was.
pub fn run_over<S: Store>(
    store: &mut S,
    calls: &[Call],
    answers: &mut Vec<Result<Answer, EngineFault>>,
) -> Result<(), AllocError>
    ensures answers { MatchResult result (λ _. answers.new.items ≡ answers.old.items ++ answers_to S.Store.DEPTH calls.now (new_engine (S.Reads.meaning store.old))) (λ _. answers.new.items ≡ answers.old.items) }
    ensures after { MatchResult result (λ _. S.Reads.meaning store.new ≡ (engine_after_calls S.Store.DEPTH calls.now (new_engine (S.Reads.meaning store.old))).store) (λ _. store.new ≡ store.old) }
    ensures succeeds { vec_len answers.old + length calls.now ≤ vec_capacity answers.old → is_ok result ≡ true }
    ensures law { OnOk result (RunKeepsLaw S.Store.DEPTH calls.now (S.Reads.meaning store.old) (engine_after_calls S.Store.DEPTH calls.now (new_engine (S.Reads.meaning store.old)))) }
    ensures loan { S.Store.loan store.new ≡ S.Store.loan store.old }
    ensures memory { MatchResult result (λ _. S.Store.Holds (S.Store.loan store.old) (engine_after_calls S.Store.DEPTH calls.now (new_engine (S.Reads.meaning store.old))).store (S.Store.memory store.new)) (λ _. S.Store.Holds (S.Store.loan store.old) (S.Reads.meaning store.old) (S.Store.memory store.new)) }
{
    perform_all(&mut State::new(), store, calls, answers)
}

// Performs the calls in order over the store, and adds their answers to the list.
fn perform_all<S: Store>(
    state: &mut State,
    store: &mut S,
    calls: &[Call],
    answers: &mut Vec<Result<Answer, EngineFault>>,
) -> Result<(), AllocError>
    ensures answers { MatchResult result (λ _. answers.new.items ≡ answers.old.items ++ answers_to S.Store.DEPTH calls.now (engine_over (S.Reads.meaning store.old) state.old)) (λ _. answers.new.items ≡ answers.old.items) }
    ensures after { MatchResult result (λ _. engine_over (S.Reads.meaning store.new) state.new ≡ engine_after_calls S.Store.DEPTH calls.now (engine_over (S.Reads.meaning store.old) state.old)) (λ _. (store.new ≡ store.old) × (state.new ≡ state.old)) }
    ensures succeeds { vec_len answers.old + length calls.now ≤ vec_capacity answers.old → is_ok result ≡ true }
    ensures loan { S.Store.loan store.new ≡ S.Store.loan store.old }
{
    answers.reserve(calls.len())?;
    for call in calls {
        let answer = state.perform(store, *call);
        answers.push_reserved(answer);
    }
    Ok(())
}
