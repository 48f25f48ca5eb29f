//! Whether each rank is at its end, or waits at its next command, which can't go on.

ghost use Rattle.std.specs.Prelude.{◌≡◌, ◌+◌, ◌<◌, IsSomeAnd, MatchOption, None, Some, length};
ghost use Rattle.std.specs.Prelude.{slice_get};
ghost use Rattle.nm_types.specs.Commands.{commands_of};
ghost use Rattle.nm_history.specs.Quiescence.{EachRank, IsStopped};
ghost use Rattle.nm_report.specs.Ends.{end_of_account, ends_of};
ghost use Rattle.nm_lookups.specs.Deciding.{Decides};
ghost use Rattle.nm_check.specs.Tabled.{EachTabled};
ghost use Rattle.nm_check_rank.specs.Tabled.{AreRankTables};
ghost use Rattle.nm_check.specs.RestBreaks.{BreaksStanding, IsNext};

use nm_check_rank::paired::tables::Tables;
use nm_report::RankAccount;
use nm_types::Line;

/// The place of the line with a rank's command that comes after so many.
fn next_place(rank: u8, lines: &[Line], at: u64) -> Option<usize>
    ensures { MatchOption result (slice_get (commands_of rank lines.now) at ≡ None)
        (λ k. IsSomeAnd (slice_get lines.now k)
        (λ l. slice_get (commands_of rank lines.now) at
        ≡ Some (record { line = k + 2; command = l.command }))) }
{
    let mut left = at;
    for (k, line) in lines.iter().enumerate() {
        if line.rank == rank {
            if left == 0 {
                return Some(k);
            }
            left -= 1;
        }
    }
    None
}

/// The next command of a rank.
#[derive(Clone, Copy)]
pub enum Next {
    /// No command is left.
    Nothing,
    /// It is in this line, and can go on or can't.
    Command { line: u64, goes_on: bool },
}

/// The next command of a rank, by what is looked up of it.
pub fn next_of(rank: u8, lines: &[Line], account: &RankAccount, tables: &Tables) -> Next
    requires { AreRankTables rank lines.now account.now.history.events tables.now }
    ensures { IsNext (commands_of rank lines.now) (end_of_account account.now) result }
{
    match next_place(rank, lines, account.at) {
        None => Next::Nothing,
        Some(k) => {
            let events = account.history.as_slice();
            let goes_on = tables.can_go_on(rank, lines, events, &lines[k].command);
            Next::Command {
                line: k as u64 + 2,
                goes_on,
            }
        }
    }
}

/// Whether a rank waits at a line.
fn is_waiting_at(waits: Option<u64>, line: u64) -> bool
    ensures { Decides result (waits ≡ Some line) }
{
    match waits {
        Some(own) => own == line,
        None => false,
    }
}

/// Whether a rank is at its end, or waits at its next command, which can't go on.
fn is_standing(rank: u8, lines: &[Line], account: &RankAccount, tables: &Tables) -> bool
    requires { AreRankTables rank lines.now account.now.history.events tables.now }
    ensures { Decides result (IsStopped (commands_of rank lines.now) (end_of_account account.now)) }
{
    match next_of(rank, lines, account, tables) {
        Next::Nothing => account.waits.is_none(),
        Next::Command { line, goes_on } => is_waiting_at(account.waits, line) && !goes_on,
    }
}

/// The first rank that neither is at its end nor waits at its next command, which can't go on.
pub(crate) fn first_not_standing(
    lines: &[Line],
    ranks: &[RankAccount],
    tables: &[Tables],
) -> Option<u8>
    requires few { length ranks.now < 256 }
    requires tabled { EachTabled lines.now (ends_of ranks.now) tables.now }
    ensures { MatchOption result
        (EachRank (λ i rank. IsStopped (commands_of i lines.now) rank) (ends_of ranks.now))
        (BreaksStanding lines.now (ends_of ranks.now)) }
{
    for (i, rank) in ranks.iter().enumerate() {
        if !is_standing(i as u8, lines, rank, &tables[i]) {
            return Some(i as u8);
        }
    }
    None
}
