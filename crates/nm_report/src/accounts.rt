//! What became of each rank.

ghost use Rattle.std.specs.Prelude.{◌≡◌, ◌≤◌, ◌↔◌, [], ◌∷◌, ◌++◌, length, IsNone, IsTrue};
ghost use Rattle.std.specs.Prelude.{OnOk, OnErr, slice_get, option_copied};

use nm_history::History;
use nm_types::Memory;
use std::alloc::Global;
use std::marker::Model;

/// What became of a rank.
pub struct RankAccount {
    /// Its events.
    pub history: History,
    /// How many of its commands ran.
    pub at: u64,
    /// The line of the command that can't go on. There is none where all of its commands ran.
    pub waits: Option<u64>,
}

impl Drop for RankAccount {
    fn drop(self) {
        let RankAccount {
            history: _,
            at: _,
            waits: _,
        } = self;
    }
}

/// A list of what became of the ranks, by rank.
pub struct Accounts {
    items: Vec<RankAccount>,
}

impl Drop for Accounts {
    fn drop(self) {
        let Accounts { items: _ } = self;
    }
}

impl Model for Accounts {
    ghost use Rattle.std.specs.Prelude.{List};
    ghost use Rattle.nm_report.specs.declared.accounts.RankAccount.{RankAccount};

    ghost Value = { List RankAccount };

    ghost view = { λ a. a.items.items };
}

impl Accounts {
    /// The empty list.
    pub fn new(alloc: Global) -> Self
        ensures { result ≡ [] }
    {
        Accounts {
            items: Vec::new(alloc),
        }
    }

    /// The list of these accounts.
    pub fn from_vec(items: Vec<RankAccount>) -> Self
        ensures { result ≡ items.items }
    {
        Accounts { items }
    }

    /// The accounts, given away.
    pub fn into_vec(self) -> Vec<RankAccount>
        ensures { result.items ≡ self }
    {
        let Accounts { items } = self;
        items
    }

    /// Puts the account of the next rank at the end.
    pub fn push(&mut self, account: RankAccount) -> Result<(), Memory>
        ensures ok { OnOk result (self.new ≡ self.old ++ account ∷ []) }
        ensures err { OnErr result (self.new ≡ self.old) }
    {
        self.items.push(account)?;
        Ok(())
    }

    /// How many accounts there are.
    pub fn len(&self) -> usize
        ensures { result ≡ length self.now }
    {
        self.items.len()
    }

    /// Whether there is none.
    pub fn is_empty(&self) -> bool
        ensures { IsTrue result ↔ (self.now ≡ []) }
    {
        self.items.is_empty()
    }

    /// The account at place k, from 0; `None` where there are at most k.
    pub fn get(&self, k: usize) -> Option<&RankAccount>
        ensures value { option_copied result ≡ slice_get self.now k }
        ensures none { IsNone result ↔ (length self.now ≤ k) }
    {
        self.items.get(k)
    }

    /// The accounts, in order.
    pub fn as_slice(&self) -> &[RankAccount]
        ensures { result.now ≡ self.now }
    {
        self.items.as_slice()
    }
}
