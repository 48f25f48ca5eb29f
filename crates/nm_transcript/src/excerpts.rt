//! The end of a long run as a script and a trace.

ghost use Rattle.std.specs.Prelude.{◌≡◌, ◌+◌, IfOk, IfSome, length};
ghost use Rattle.nm_transcript.specs.Excerpts.{AreOwn, IsExcerpt, IsOwn};
ghost use Rattle.nm_transcript.specs.Renumbered.{IsOneOf};

use crate::calls::Calls;
use crate::last_calls::LastCalls;
use crate::named::{NamedCalls, lines_named, named_calls};
use crate::placed::{place_events, place_in};
use crate::stamps::stamps_of;
use crate::transcripts::{Refusal, Transcript, arrange};
use nm_history::History;
use nm_report::{Accounts, RankAccount, RunRecord};
use nm_types::Memory;
use std::alloc::Global;
use std::mem;

// The calls of each rank that its events name, and what became of the rank by their order.
#[derive(Drop)]
struct Own {
    given: Vec<Calls>,
    accounts: Vec<RankAccount>,
}

// The line of the call in which a rank waits, by the order of the calls.
fn place_waits(waits: Option<u64>, lines: &[u64]) -> Option<u64>
    ensures { IfSome result (IsOneOf (length lines.now)) }
{
    match waits {
        Some(line) => place_in(lines, line),
        None => None,
    }
}

// The account by the order of these calls, which have these lines in it.
fn place_account(
    alloc: Global,
    account: RankAccount,
    lines: &[u64],
    stamps: &[u64],
) -> Result<RankAccount, Memory>
    ensures { IfOk result (IsOwn (length lines.now)) }
{
    let mut account = account;
    let history = mem::replace(&mut account.history, History::new(alloc));
    let events = place_events(alloc, history.into_vec(), lines, stamps)?;
    account.history = History::from_vec(events);
    account.waits = place_waits(account.waits, lines);
    Ok(account)
}

// Puts the calls of a rank that its events name, and what became of the rank, behind the others.
fn put(
    alloc: Global,
    own: &mut Own,
    calls: LastCalls,
    account: RankAccount,
    stamps: &[u64],
) -> Result<(), Memory>
    ensures own { IfOk result (λ _. AreOwn own.old.given.items own.old.accounts.items →
        AreOwn own.new.given.items own.new.accounts.items) }
    ensures many { IfOk result (λ _. length own.new.given.items ≡ length own.old.given.items + 1) }
{
    let named = lines_named(alloc, &account)?;
    let chosen = named_calls(alloc, calls, &named)?;
    let NamedCalls { calls, lines } = chosen;
    let account = place_account(alloc, account, &lines, stamps)?;
    own.given.push(calls)?;
    own.accounts.push(account)?;
    Ok(())
}

// So it is with each rank.
fn own_all(
    alloc: Global,
    calls: Vec<LastCalls>,
    accounts: Vec<RankAccount>,
    stamps: &[u64],
) -> Result<Own, Memory>
    requires many { length calls.items ≡ length accounts.items }
    ensures own { IfOk result (λ x. AreOwn x.given.items x.accounts.items) }
    ensures many { IfOk result (λ x. length x.given.items ≡ length calls.items) }
{
    let mut own = Own {
        given: Vec::new(alloc),
        accounts: Vec::new(alloc),
    };
    let mut accounts = accounts.into_iter();
    for kept in calls {
        let Some(account) = accounts.next() else {
            unreachable!()
        };
        put(alloc, &mut own, kept, account, stamps)?;
    }
    Ok(own)
}

/// The script of the calls that the events of a record name, and the record by the script's lines. The record has what
/// was kept of each rank: the last events, and those before them that were pending. In it the k-th call that a rank
/// made, from 0, has line k + 2. The stamps are numbered anew, from 1, in their order.
///
/// It is no record of a run of that script, since each rank had done more before.
pub fn excerpt(alloc: Global, calls: Vec<LastCalls>, run: RunRecord) -> Result<Transcript, Refusal>
    requires calls { length calls.items ≡ run.shape.ranks }
    requires ranks { length run.ranks ≡ run.shape.ranks }
    ensures ranks { IfOk result (λ x. x.script.ranks ≡ run.shape.ranks) }
    ensures ok { IfOk result (λ x. IsExcerpt run x.script.lines x.record) }
{
    let mut run = run;
    let stamps = stamps_of(alloc, run.ranks.as_slice())?;
    let accounts = mem::replace(&mut run.ranks, Accounts::new(alloc));
    let own = own_all(alloc, calls, accounts.into_vec(), &stamps)?;
    let Own { given, accounts } = own;
    run.ranks = Accounts::from_vec(accounts);
    arrange(alloc, given, run)
}
