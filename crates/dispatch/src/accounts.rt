//! Commits, and the book of their accounts.
ghost use Rattle.std.specs.Prelude.{◌≡◌, ◌++◌, ◌⊎◌, IfOk, OnOk, OnErr};
ghost use Rattle.book.specs.Format.{account_bytes, as_account};
ghost use Rattle.snapshot.specs.Limits.{chain_readings, write_keys};
ghost use Rattle.engine_model.specs.declared.calls.Call.TheVariants as call;
ghost use Rattle.engine.specs.Engines.{engine_of, IsStep};
ghost use Rattle.dispatch.specs.Accounting.{Accounted, AccountedOnceThereIsRoom, OnlyPruned};

use crate::site::PLACE;
use book::{Account, LONGEST_ACCOUNT};
use engine::Engine;
use snapshot::{
    AccountHead, CHAIN_READINGS, ChainReading, EngineFault, NO_READING, NO_WRITE, Refusal,
    WRITE_KEYS, Write,
};
use std::marker::Model;
use store::Store;

/// The account of a committed chain: its five numbers, and lists with room for every account, of which its readings and its
/// writes fill the starts. As the engine's `CommittedAccount`, which only `perform` answers: here the commit fills lists of the
/// caller's.
#[derive(Drop)]
pub struct Committed {
    head: AccountHead,
    readings: [ChainReading; CHAIN_READINGS],
    writes: [Write; WRITE_KEYS],
}

impl Model for Committed {
    ghost use Rattle.std.specs.Prelude.{◌≤◌, length};
    ghost use Rattle.snapshot.specs.Accounts.{Account, account_of};

    ghost Value = { Account };

    ghost view = { λ c. account_of c.head c.readings c.writes };

    ghost invariant = { λ c. (c.head.readings ≤ length c.readings) × (c.head.writes ≤ length c.writes) };
}

impl Committed {
    /// The account as the book takes it.
    pub fn account(&self) -> Account<'_>
        ensures { as_account result ≡ self.now }
    {
        let (readings, writes) = (&self.readings[..], &self.writes[..]);
        Account {
            interval: self.head.interval,
            timestamp: self.head.timestamp,
            readings: &readings[..self.head.readings],
            writes: &writes[..self.head.writes],
        }
    }
}

// Commits the chain by a leg, and answers its account.
#[tactic(auto, using(crate::proofs::Accountings::accounted, crate::proofs::Accountings::lists_fit, crate::proofs::Accountings::shown_accepted, crate::proofs::Accountings::shown_refused))]
fn commit_once<S: Store>(
    engine: &mut Engine<S>,
    leg: u8,
    clock: u64,
) -> Result<Committed, EngineFault>
    ensures step { IsStep S.Reads.meaning S.Store.DEPTH (call.Commit PLACE leg clock chain_readings write_keys) engine.old result engine.new }
    ensures accounted { IfOk result (λ account. Accounted S.Store.DEPTH (engine_of S.Reads.meaning engine.old) PLACE leg clock account) }
    ensures unchanged { OnErr result (engine.new ≡ engine.old) }
{
    let mut readings = [NO_READING; CHAIN_READINGS];
    let mut writes = [NO_WRITE; WRITE_KEYS];
    let head = engine.commit(PLACE, leg, clock, &mut readings, &mut writes)?;
    Ok(Committed {
        head,
        readings,
        writes,
    })
}

// Commits the chain by a leg, and answers its account. Where the store has no room (14), it is pruned up to the horizon, and
// the chain commits then: a refused commit changes nothing, and leaves the chain open. An error leaves the engine as it was, or
// pruned where the commit was refused so.
fn commit<S: Store>(
    rt: &impl Print,
    engine: &mut Engine<S>,
    leg: u8,
    clock: u64,
    horizon: u64,
) -> anyhow::Result<Committed>
    ensures accounted { IfOk result (λ account. AccountedOnceThereIsRoom S.Store.DEPTH (engine_of S.Reads.meaning engine.old) PLACE leg clock horizon account (engine_of S.Reads.meaning engine.new)) }
    ensures refused { OnErr result ((engine.new ≡ engine.old) ⊎ OnlyPruned S.Store.DEPTH (engine_of S.Reads.meaning engine.old) PLACE leg clock horizon (engine_of S.Reads.meaning engine.new)) }
{
    match commit_once(engine, leg, clock) {
        Ok(committed) => Ok(committed),
        Err(EngineFault { fault, .. }) if fault.refusal == Refusal::CapacityExceeded => {
            println!(rt; "  refused 14: pruned up to {horizon}")?;
            engine.prune(horizon);
            Ok(commit_once(engine, leg, clock)?)
        }
        Err(fault) => Err(fault.into()),
    }
}

// Adds the account's bytes to the end of the book.
fn add_to(book: &mut Vec<u8>, account: &Account) -> anyhow::Result<()>
    ensures added { OnOk result (book.new.items ≡ book.old.items ++ account_bytes (as_account account.now)) }
    ensures unchanged { OnErr result (book.new.items ≡ book.old.items) }
{
    let mut buffer = [0; LONGEST_ACCOUNT];
    match account.write(&mut buffer) {
        Ok(size) => {
            book.extend_from_slice(&buffer[..size])?;
            Ok(())
        }
        Err(refused) => Err(refused.into()),
    }
}

/// Commits the chain by a leg, with the store pruned up to the horizon where it has no room; adds the account to the end of the
/// book, and answers it. An error leaves the book as it was.
pub fn commit_to_book<S: Store>(
    rt: &impl Print,
    engine: &mut Engine<S>,
    book: &mut Vec<u8>,
    leg: u8,
    clock: u64,
    horizon: u64,
) -> anyhow::Result<Committed>
    ensures accounted { IfOk result (λ account. AccountedOnceThereIsRoom S.Store.DEPTH (engine_of S.Reads.meaning engine.old) PLACE leg clock horizon account (engine_of S.Reads.meaning engine.new)) }
    ensures added { IfOk result (λ account. book.new.items ≡ book.old.items ++ account_bytes account) }
    ensures unchanged { OnErr result (book.new.items ≡ book.old.items) }
{
    // first, so that no chain commits whose account finds no memory
    book.reserve(LONGEST_ACCOUNT)?;
    let committed = commit(rt, engine, leg, clock, horizon)?;
    add_to(book, &committed.account())?;
    Ok(committed)
}
