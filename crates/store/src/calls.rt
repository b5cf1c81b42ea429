//! A store's calls and their answers as values, and a list of calls run on any store.
ghost use Rattle.std.specs.Prelude.{◌≡◌, ◌+◌, ◌≤◌, true, ◌++◌, length, is_ok, vec_len, vec_capacity, MatchResult, OnOk};
ghost use Rattle.store.specs.Calls.{answer_of, after_store_call, store_answers, after_store_calls};
ghost use Rattle.store.specs.Laws.{KeepsLaws};

use crate::traits::Store;
use snapshot::{Fault, Reading, Write};
use std::alloc::AllocError;

/// One call of a store: a value and no closure, so that the laws can speak of any list of calls.
#[derive(Clone, Copy)]
pub enum StoreCall<'a> {
    /// Asks for the last timestamp.
    Last,
    /// Asks for the version of a key at a time.
    Version { key: u8, time: u64 },
    /// Commits writes at a clock reading.
    Commit { clock: u64, writes: &'a [Write] },
    /// Drops of each key the versions older than the newest one that is above neither the horizon nor last.
    Prune { horizon: u64 },
}

/// What the call of the same name answered.
#[derive(Clone, Copy, PartialEq, Eq, Debug)]
pub enum StoreAnswer {
    /// The last timestamp.
    Last(u64),
    /// The version with its promise, or why it is refused.
    Version(Result<Reading, Fault>),
    /// The timestamp of the writes, or why they are refused.
    Commit(Result<u64, Fault>),
    /// It is done.
    Prune,
}

/// Performs one call.
pub fn perform<S: Store>(store: &mut S, call: StoreCall) -> StoreAnswer
    ensures answer { result ≡ answer_of S.Store.DEPTH call.entry (S.Reads.meaning store.old) }
    ensures after { S.Reads.meaning store.new ≡ after_store_call S.Store.DEPTH call.entry (S.Reads.meaning store.old) }
    ensures loan { S.Store.loan store.new ≡ S.Store.loan store.old }
{
    match call {
        StoreCall::Last => StoreAnswer::Last(store.last()),
        StoreCall::Version { key, time } => StoreAnswer::Version(store.version(key, time)),
        StoreCall::Commit { clock, writes } => StoreAnswer::Commit(store.commit(clock, writes)),
        StoreCall::Prune { horizon } => {
            store.prune(horizon);
            StoreAnswer::Prune
        }
    }
}

/// Performs the calls in order, and adds their answers to the list. The only error is want of memory for the answers, and
/// then no call has been performed. Where the store was new, it keeps the laws of stores.
pub fn run<S: Store>(
    store: &mut S,
    calls: &[StoreCall],
    answers: &mut Vec<StoreAnswer>,
) -> Result<(), AllocError>
    ensures answers { MatchResult result (λ _. answers.new.items ≡ answers.old.items ++ store_answers S.Store.DEPTH calls.now (S.Reads.meaning store.old)) (λ _. answers.new.items ≡ answers.old.items) }
    ensures after { MatchResult result (λ _. S.Reads.meaning store.new ≡ after_store_calls S.Store.DEPTH calls.now (S.Reads.meaning store.old)) (λ _. store.new ≡ store.old) }
    ensures succeeds { vec_len answers.old + length calls.now ≤ vec_capacity answers.old → is_ok result ≡ true }
    ensures loan { S.Store.loan store.new ≡ S.Store.loan store.old }
    ensures memory { MatchResult result (λ _. S.Store.Holds (S.Store.loan store.old) (after_store_calls S.Store.DEPTH calls.now (S.Reads.meaning store.old)) (S.Store.memory store.new)) (λ _. S.Store.Holds (S.Store.loan store.old) (S.Reads.meaning store.old) (S.Store.memory store.new)) }
    ensures laws { OnOk result (KeepsLaws S.Store.DEPTH calls.now (S.Reads.meaning store.old) (S.Reads.meaning store.new)) }
{
    answers.reserve(calls.len())?;
    for call in calls {
        let answer = perform(store, *call);
        answers.push_reserved(answer);
    }
    Ok(())
}
