//! The judge of a record.

ghost use Rattle.std.specs.Prelude.{◌≡◌, ◌<◌, IfOk, List, is_none, length};
ghost use Rattle.std.specs.List.{list_all};
ghost use Rattle.nm_types.specs.declared.scripts.Line as script_line;
ghost use Rattle.nm_history.specs.Quiescence.{EachRank};
ghost use Rattle.nm_history.specs.Run.{IsRunOf};
ghost use Rattle.nm_report.specs.Cells.{AllCellsFree};
ghost use Rattle.nm_report.specs.Ends.{are_done, ends_of, packets_of};
ghost use Rattle.nm_report.specs.Lawful.{IsRunIn};
ghost use Rattle.nm_lookups.specs.Deciding.{Decides};
ghost use Rattle.nm_check.specs.declared.verdicts.Verdict.TheVariants.{Holds};
ghost use Rattle.nm_check.specs.Ranked.{IsTabled, verdict_of as verdict_of_lem};
ghost use Rattle.nm_check.specs.Verdicts.{Judges, RunsItsOwn};
ghost use Rattle.nm_check.specs.Tabled.{EachTabled};

use crate::between::{BrokenPair, first_pair};
use crate::firsts::marks_of;
use crate::ranking::{Ranked, judge_ranks};
use crate::rest::resting::{RestBreak, first_of_rest};
use crate::verdicts::Verdict;
use nm_check_rank::paired::tables::Tables;
use nm_report::{RankAccount, RunRecord};
use nm_types::{Line, Memory, Script};
use std::alloc::Global;

/// What breaks first where all ranks run their own commands, and where.
#[derive(Clone, Copy)]
pub enum Tabled {
    Carried { pair: BrokenPair },
    Rest { first: RestBreak },
    Home,
    Done,
    Holds,
}

/// The verdict of it.
fn verdict_of(found: Tabled) -> Verdict
    ensures { result ≡ verdict_of_lem found }
{
    match found {
        Tabled::Carried { pair } => Verdict::Carried {
            clause: pair.first.clause,
            from: pair.from,
            to: pair.to,
        },
        Tabled::Rest { first } => Verdict::Rest {
            clause: first.clause(),
        },
        Tabled::Home => Verdict::Home,
        Tabled::Done => Verdict::Done,
        Tabled::Holds => Verdict::Holds,
    }
}

/// Whether the account has all cells of the run, each on its owner's free queue.
fn are_home(run: &RunRecord) -> bool
    ensures { Decides result (AllCellsFree run.now) }
{
    let all = u32::from(run.shape.ranks()) * u32::from(run.shape.cells());
    run.cells.total == all && run.cells.home == run.cells.total
}

/// Whether every rank is at its end.
fn are_all_done(ranks: &[RankAccount]) -> bool
    ensures { result ≡ list_all (λ rank. is_none rank.waits) ranks.now }
{
    ranks.iter().all(|rank| rank.waits.is_none())
}

/// Whether the record is marked as done exactly where every rank is at its end.
fn is_marked(run: &RunRecord) -> bool
    ensures { Decides result (run.now.done ≡ are_done (ends_of run.now.ranks)) }
{
    run.done == are_all_done(run.ranks.as_slice())
}

/// What breaks in a record whose ranks make a run.
fn judge_ends(run: &RunRecord) -> Tabled
    ensures { (lines : List script_line.Line) →
        IsRunOf run.now.shape lines (ends_of run.now.ranks) (packets_of run.now.pairs) →
        IsTabled lines run.now result }
{
    if !are_home(run) {
        return Tabled::Home;
    }
    if !is_marked(run) {
        return Tabled::Done;
    }
    Tabled::Holds
}

/// What breaks first in a record whose ranks run their own commands, by what is looked up of them.
pub fn judge_tabled(
    alloc: Global,
    script: &Script,
    run: &RunRecord,
    tables: &[Tables],
) -> Result<Tabled, Memory>
    requires whole { length run.now.ranks ≡ run.now.shape.ranks }
    requires few { length run.now.ranks < 256 }
    requires runs { EachRank (RunsItsOwn run.now.shape script.now.lines) (ends_of run.now.ranks) }
    requires tabled { EachTabled script.now.lines (ends_of run.now.ranks) tables.now }
    ensures { IfOk result (IsTabled script.now.lines run.now) }
{
    let lines = script.lines.as_slice();
    let ranks = run.ranks.as_slice();
    let marks = marks_of(alloc, lines, ranks, tables)?;
    if let Some(pair) = first_pair(&marks) {
        return Ok(Tabled::Carried { pair });
    }
    if let Some(first) = first_of_rest(lines, ranks, run.pairs.as_slice(), tables) {
        return Ok(Tabled::Rest { first });
    }
    Ok(judge_ends(run))
}

/// Judges whether a record is of a run of a script: it holds exactly where it is, else the verdict
/// is the first rule that is broken, rank by rank, then pair by pair, then of all ranks.
pub fn judge(alloc: Global, script: &Script, run: &RunRecord) -> Result<Verdict, Memory>
    requires equal { run.now.shape.ranks ≡ script.now.ranks }
    requires whole { length run.now.ranks ≡ run.now.shape.ranks }
    ensures first { IfOk result (Judges script.now.lines run.now) }
    ensures exact { IsRunIn run.now.shape script.now.lines run.now →
        IfOk result (λ verdict. verdict ≡ Holds) }
{
    let lines = script.lines.as_slice();
    match judge_ranks(alloc, run.shape, lines, run.ranks.as_slice())? {
        Ranked::Run(tables) => {
            let found = judge_tabled(alloc, script, run, &tables)?;
            Ok(verdict_of(found))
        }
        Ranked::Breaks { clause, rank, .. } => Ok(Verdict::Own { clause, rank }),
    }
}
