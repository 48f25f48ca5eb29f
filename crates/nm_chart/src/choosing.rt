//! The ranks that a picture shows.

ghost use Rattle.std.specs.Prelude.{◌≡◌, false, get_or};
ghost use Rattle.nm_chart.specs.Parts.{AreKept, IsKept};

use nm_history::History;
use nm_report::{Accounts, RankAccount, RunRecord};
use std::alloc::Global;
use std::mem;

/// Whether a rank is among those that are chosen.
fn is_chosen(chosen: &[bool], rank: usize) -> bool
    ensures { result ≡ get_or chosen.now rank false }
{
    chosen.get(rank).copied().unwrap_or(false)
}

/// Leaves nothing of a rank, unless it is chosen.
fn keep(alloc: Global, account: &mut RankAccount, is_chosen: bool)
    ensures { IsKept is_chosen account.old account.new }
{
    if is_chosen {
        return;
    }
    account.history = History::new(alloc);
    account.waits = None;
}

/// Leaves nothing of the ranks that are not chosen.
fn keep_all(alloc: Global, ranks: &mut [RankAccount], chosen: &[bool])
    ensures { AreKept chosen.now ranks.old ranks.new }
{
    for (rank, account) in ranks.iter_mut().enumerate() {
        keep(alloc, account, is_chosen(chosen, rank));
    }
}

/// The accounts with nothing of the ranks that are not chosen.
fn only_among(alloc: Global, ranks: Accounts, chosen: &[bool]) -> Accounts
    ensures { AreKept chosen.now ranks result }
{
    let mut accounts = ranks.into_vec();
    keep_all(alloc, accounts.as_mut_slice(), chosen);
    Accounts::from_vec(accounts)
}

/// Leaves nothing of the ranks of a record that are not chosen.
pub fn keep_chosen(alloc: Global, run: &mut RunRecord, chosen: &[bool])
    ensures { AreKept chosen.now run.old.ranks run.new.ranks }
{
    let ranks = mem::replace(&mut run.ranks, Accounts::new(alloc));
    run.ranks = only_among(alloc, ranks, chosen);
}
