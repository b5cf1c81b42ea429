//! A newest store that notes which calls are made of it.
ghost use Rattle.std.proofs.Common.{lit≤};
ghost use Rattle.newest_store.specs.Newest.{newest_meaning};

use newest_store::Newest;
use snapshot::{Fault, NO_WRITE, Reading, WRITE_KEYS, Write};
use std::cell::Cell;
use store::{Reads, Store};

// A call of the store; a commit with its number of writes and the writes, behind which no writes follow.
#[derive(Clone, Copy, PartialEq, Eq, Debug)]
pub(crate) enum Query {
    Last,
    Version {
        key: u8,
        time: u64,
    },
    Commit {
        clock: u64,
        count: usize,
        writes: [Write; WRITE_KEYS],
    },
    Prune {
        horizon: u64,
    },
}

// How many calls there were, and the latest.
pub(crate) type Queries = (u8, Option<Query>);

// There was no call.
pub(crate) const NONE: Queries = (0, None);

// There was one call: for the version of a key at a time.
pub(crate) fn version(key: u8, time: u64) -> Queries {
    (1, Some(Query::Version { key, time }))
}

// There was one call: a commit.
pub(crate) fn one_commit(clock: u64, writes: &[Write]) -> Queries {
    (1, Some(commit_query(clock, writes)))
}

// There was one call: a prune.
pub(crate) fn one_prune(horizon: u64) -> Queries {
    (1, Some(Query::Prune { horizon }))
}

fn commit_query(clock: u64, writes: &[Write]) -> Query {
    Query::Commit {
        clock,
        count: writes.len(),
        writes: start_of(writes),
    }
}

// The start of a list of writes.
fn start_of(writes: &[Write]) -> [Write; WRITE_KEYS] {
    let mut start = [NO_WRITE; WRITE_KEYS];
    for (entry, write) in start.iter_mut().zip(writes) {
        *entry = *write;
    }
    start
}

// The store, and its calls since they were last asked for.
#[derive(Drop)]
pub(crate) struct Watched {
    store: Newest,
    queries: Cell<Queries>,
}

impl Watched {
    pub(crate) fn new(store: Newest) -> Watched {
        Watched {
            store,
            queries: Cell::new(NONE),
        }
    }

    // The calls since this was last asked.
    pub(crate) fn queries(&self) -> Queries {
        self.queries.replace(NONE)
    }

    fn note(&self, query: Query) {
        let (count, _) = self.queries.get();
        self.queries.set((count.saturating_add(1), Some(query)));
    }
}

impl Reads for Watched {
    ghost meaning = { λ w. newest_meaning w.store };

    ghost least_capacity = { λ w. lit≤ tt };

    fn last(&self) -> u64 {
        self.note(Query::Last);
        self.store.last()
    }

    fn version(&self, key: u8, time: u64) -> Result<Reading, Fault> {
        self.note(Query::Version { key, time });
        self.store.version(key, time)
    }
}

impl Store for Watched {
    ghost DEPTH = { 1 };

    ghost not_none = { lit≤ tt };

    const DEPTH: usize = 1;

    // no memory is lent
    ghost Memory = { Unit {0} };

    ghost memory = { λ w. tt };

    ghost Loan = { Unit {0} };

    ghost loan = { λ w. tt };

    ghost Holds = { λ l m h. Unit {0} };

    ghost holds = { λ w. tt };

    fn commit(&mut self, clock: u64, writes: &[Write]) -> Result<u64, Fault> {
        self.note(commit_query(clock, writes));
        self.store.commit(clock, writes)
    }

    fn prune(&mut self, horizon: u64) {
        self.note(Query::Prune { horizon });
        self.store.prune(horizon);
    }
}
