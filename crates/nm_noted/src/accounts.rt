//! The accounts of ranks of whose events the last ones are kept.

ghost use Rattle.std.specs.Prelude.{IfOk};
ghost use Rattle.std.specs.List.{AllZip};
ghost use Rattle.nm_recent.specs.Recents.{AreOf};
ghost use Rattle.nm_noted.specs.Recent.{IsKeptOf, recent_end};

use nm_history::{Event, History};
use nm_recent::Recent;
use nm_report::{Accounts, RankAccount};
use nm_types::Memory;
use nm_world::RankEnd;
use std::alloc::Global;

// The events that are kept, oldest first.
fn events_of(history: Recent) -> Result<Vec<Event>, Memory>
    ensures { IfOk result (λ v. AreOf history.events v.items) }
{
    let (pending, last) = history.into_parts();
    let mut events = pending.into_vec();
    let mut last = last.into_vec();
    events.append(&mut last)?;
    Ok(events)
}

// The account of a rank, with these events.
fn account_of(rank: RankEnd<Recent>) -> Result<RankAccount, Memory>
    ensures { IfOk result (IsKeptOf (recent_end rank)) }
{
    let RankEnd { history, at, waits } = rank;
    let events = events_of(history)?;
    Ok(RankAccount {
        history: History::from_vec(events),
        at,
        waits,
    })
}

/// The accounts of the ranks, with the events that are kept.
pub fn accounts_of(alloc: Global, ranks: Vec<RankEnd<Recent>>) -> Result<Accounts, Memory>
    ensures { IfOk result (λ accounts. AllZip (λ rank account. IsKeptOf (recent_end rank) account) ranks.items accounts) }
{
    let mut accounts = Accounts::new(alloc);
    for rank in ranks {
        let account = account_of(rank)?;
        accounts.push(account)?;
    }
    Ok(accounts)
}
