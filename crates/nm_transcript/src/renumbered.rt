//! A record by other numbers for the lines of its commands.

ghost use Rattle.std.specs.Prelude.{if◌then◌else◌, ◌≡◌, ◌==◌, ◌∷◌, ◌++◌, [], IfOk, IfSome, OnOk, length, option_map};
ghost use Rattle.nm_history.specs.Quiescence.{EachRank};
ghost use Rattle.nm_report.specs.Ends.{end_of_account, ends_of};
ghost use Rattle.nm_transcript.specs.Renumbered.{AreOf, IsOneOf, line_of as line_of_lem, number_in as number_in_lem};
ghost use Rattle.nm_transcript.specs.Renumbered.{renumbered as renumbered_lem};
ghost use Rattle.nm_transcript.specs.Renumbered.{renumbered_all, renumbered_end, renumbered_ends};
ghost use Rattle.nm_transcript.specs.Transcripts.{IsEndOf, numbers_of as numbers_of_lem};

use nm_history::{Event, Happened, History};
use nm_report::{Accounts, RankAccount, RunRecord};
use nm_types::{Line, Memory};
use std::alloc::Global;
use std::mem;

// The number of the line of a rank's command, which stood at line k + 2 where it is the k-th one.
fn number_in(numbers: &[u64], line: u64) -> u64
    requires { IsOneOf (length numbers.now) line }
    ensures { result ≡ number_in_lem numbers.now line }
{
    numbers[(line - 2) as usize]
}

/// The line of the command of an event, if it has one.
pub fn line_of(what: &Happened) -> Option<u64>
    ensures { result ≡ line_of_lem what.now }
{
    match what {
        Happened::Send { line, .. }
        | Happened::Post { line, .. }
        | Happened::Claim { line, .. }
        | Happened::Match { line, .. }
        | Happened::Ran { line, .. } => Some(*line),
        _ => None,
    }
}

/// What happened, of the command in this line.
pub fn with_line(what: Happened, line: u64) -> Happened
    ensures { result ≡ renumbered_lem (λ _. line) what }
{
    match what {
        Happened::Send {
            to,
            n,
            tag,
            ctx,
            len,
            how,
            line: _,
        } => Happened::Send {
            to,
            n,
            tag,
            ctx,
            len,
            how,
            line,
        },
        Happened::Post { post, line: _ } => Happened::Post { post, line },
        Happened::Claim { from, n, line: _ } => Happened::Claim { from, n, line },
        Happened::Match {
            number,
            from,
            n,
            cap,
            line: _,
        } => Happened::Match {
            number,
            from,
            n,
            cap,
            line,
        },
        Happened::Ran { line: _, answer } => Happened::Ran { line, answer },
        what => what,
    }
}

// What happened, by the numbers of the commands' lines.
fn renumbered(what: Happened, numbers: &[u64]) -> Happened
    requires { IfSome (line_of_lem what) (IsOneOf (length numbers.now)) }
    ensures { result ≡ renumbered_lem (number_in_lem numbers.now) what }
{
    match line_of(&what) {
        Some(line) => with_line(what, number_in(numbers, line)),
        None => what,
    }
}

// An event, by the numbers of the commands' lines.
fn renumbered_event(event: Event, numbers: &[u64]) -> Event
    requires { IfSome (line_of_lem event.what) (IsOneOf (length numbers.now)) }
    ensures stamp { result.stamp ≡ event.stamp }
    ensures what { result.what ≡ renumbered_lem (number_in_lem numbers.now) event.what }
{
    let Event { stamp, what } = event;
    Event {
        stamp,
        what: renumbered(what, numbers),
    }
}

// The events of a rank, by the numbers of its lines.
fn renumber_events(alloc: Global, events: Vec<Event>, numbers: &[u64]) -> Result<Vec<Event>, Memory>
    requires { AreOf (length numbers.now) events.items }
    ensures { IfOk result (λ all. all.items ≡ renumbered_all (number_in_lem numbers.now) events.items) }
{
    let mut all = Vec::new(alloc);
    for event in events {
        let told = renumbered_event(event, numbers);
        all.push(told)?;
    }
    Ok(all)
}

// The line of the command that waits, by the numbers of the lines.
fn renumber_waits(waits: Option<u64>, numbers: &[u64]) -> Option<u64>
    requires { IfSome waits (IsOneOf (length numbers.now)) }
    ensures { result ≡ option_map (number_in_lem numbers.now) waits }
{
    match waits {
        Some(line) => Some(number_in(numbers, line)),
        None => None,
    }
}

// What became of a rank, by the numbers of its lines.
fn renumber_account(
    alloc: Global,
    account: RankAccount,
    numbers: &[u64],
) -> Result<RankAccount, Memory>
    requires { IsEndOf (length numbers.now) (end_of_account account) }
    ensures { IfOk result (λ later.
        end_of_account later ≡ renumbered_end (number_in_lem numbers.now) (end_of_account account)) }
{
    let mut account = account;
    let history = mem::replace(&mut account.history, History::new(alloc));
    let events = renumber_events(alloc, history.into_vec(), numbers)?;
    account.history = History::from_vec(events);
    account.waits = renumber_waits(account.waits, numbers);
    Ok(account)
}

// Puts the number of a line at the end, where it is of this rank.
fn note(numbers: &mut Vec<u64>, line: &Line, rank: usize, number: u64) -> Result<(), Memory>
    ensures { OnOk result
        (numbers.new.items ≡ numbers.old.items ++ (if line.now.rank == rank then number ∷ [] else [])) }
{
    if usize::from(line.rank) == rank {
        numbers.push(number)?;
    }
    Ok(())
}

// The numbers of the lines of a rank's commands.
fn numbers_of(alloc: Global, lines: &[Line], rank: usize) -> Result<Vec<u64>, Memory>
    ensures { IfOk result (λ numbers. numbers.items ≡ numbers_of_lem lines.now rank) }
{
    let mut numbers = Vec::new(alloc);
    for (place, line) in lines.iter().enumerate() {
        note(&mut numbers, line, rank, place as u64 + 2)?;
    }
    Ok(numbers)
}

// What became of the ranks, by the numbers of these lines.
fn renumber_accounts(
    alloc: Global,
    accounts: Vec<RankAccount>,
    lines: &[Line],
) -> Result<Vec<RankAccount>, Memory>
    requires { EachRank (λ i rank. IsEndOf (length (numbers_of_lem lines.now i)) rank) (ends_of accounts.items) }
    ensures { IfOk result (λ later. ends_of later.items
        ≡ renumbered_ends (λ i. number_in_lem (numbers_of_lem lines.now i)) 0 (ends_of accounts.items)) }
{
    let mut later = Vec::new(alloc);
    for account in accounts {
        let numbers = numbers_of(alloc, lines, later.len())?;
        let told = renumber_account(alloc, account, numbers.as_slice())?;
        later.push(told)?;
    }
    Ok(later)
}

/// The record, by the numbers of these lines.
pub fn renumber(alloc: Global, run: RunRecord, lines: &[Line]) -> Result<RunRecord, Memory>
    requires { EachRank (λ i rank. IsEndOf (length (numbers_of_lem lines.now i)) rank) (ends_of run.ranks) }
    ensures ranks { IfOk result (λ later. ends_of later.ranks
        ≡ renumbered_ends (λ i. number_in_lem (numbers_of_lem lines.now i)) 0 (ends_of run.ranks)) }
    ensures same { IfOk result (λ later. (later.shape ≡ run.shape) × (later.pairs ≡ run.pairs)
        × (later.cells ≡ run.cells) × (later.done ≡ run.done)) }
{
    let mut run = run;
    let ranks = mem::replace(&mut run.ranks, Accounts::new(alloc));
    let ranks = renumber_accounts(alloc, ranks.into_vec(), lines)?;
    run.ranks = Accounts::from_vec(ranks);
    Ok(run)
}
