//! What calls of an engine answer, as values.
ghost use Rattle.std.specs.Prelude.{◌≡◌};
ghost use Rattle.snapshot.specs.Accounts.{head_of};
ghost use Rattle.engine.specs.Equality.{equal_accounts, equal_accounts_law};

use snapshot::{AccountHead, CHAIN_READINGS, ChainReading, WRITE_KEYS, Write};
use std::fmt;
use std::marker::Model;

/// The account of a committed chain, with memory of its own.
#[derive(Drop)]
pub struct CommittedAccount {
    pub(crate) head: AccountHead,
    pub(crate) readings: [ChainReading; CHAIN_READINGS],
    pub(crate) writes: [Write; WRITE_KEYS],
}

impl Model for CommittedAccount {
    ghost use Rattle.std.specs.Prelude.{◌≤◌, length};
    ghost use Rattle.snapshot.specs.Accounts.{Account, account_of};

    ghost Value = { Account };

    ghost view = { λ c. account_of c.head c.readings c.writes };

    ghost invariant = { λ c. (c.head.readings ≤ length c.readings) × (c.head.writes ≤ length c.writes) };
}

impl CommittedAccount {
    /// The five numbers.
    #[tactic(auto, using(crate::proofs::CommitLemmas::head_shown))]
    pub fn head(&self) -> AccountHead
        ensures { result ≡ head_of self.now }
    {
        self.head
    }

    /// The readings, in order.
    pub fn readings(&self) -> &[ChainReading]
        ensures { result.now ≡ self.now.readings }
    {
        let all = &self.readings[..];
        &all[..self.head.readings]
    }

    /// The writes, in rising order of their keys.
    pub fn writes(&self) -> &[Write]
        ensures { result.now ≡ self.now.writes }
    {
        let all = &self.writes[..];
        &all[..self.head.writes]
    }
}

/// Two accounts are equal where their five numbers, their readings and their writes are.
impl PartialEq for CommittedAccount {
    ghost eq = { equal_accounts };

    ghost laws = { equal_accounts_law };

    fn eq(&self, other: &CommittedAccount) -> bool {
        self.readings() == other.readings()
            && self.writes() == other.writes()
            && self.head() == other.head()
    }
}

impl fmt::Debug for CommittedAccount {
    fn fmt<W: fmt::Write>(&self, f: &mut fmt::Formatter<W>) -> fmt::Result {
        f.debug_struct("CommittedAccount")
            .field("head", &self.head())
            .field("readings", &self.readings())
            .field("writes", &self.writes())
            .finish()
    }
}

/// What an accepted call answers.
#[derive(PartialEq, Debug, Drop)]
pub enum Answer {
    /// Begin, hand and join: the new leg's number, 0 to 15.
    Leg(u8),
    /// Fork: the two new legs' numbers, the first worker's first.
    Legs(u8, u8),
    /// Read: the value.
    Value(u32),
    /// Count: how many notices wait, 0 to 32, and how many were lost.
    Count(usize, u64),
    /// Commit: the account.
    Account(CommittedAccount),
    /// Write, abandon, deliver, discard and prune: it is done.
    Done,
}
