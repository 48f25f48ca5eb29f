//! What a record is judged to be, where its trace breaks a rule first, and what that rests on.

ghost use Rattle.std.specs.Prelude.{◌≡◌, ◌+◌, ◌-◌, ◌<◌, ◌≤◌, ℕ, IfOk, length};
ghost use Rattle.nm_report.specs.Ends.{ends_of};
ghost use Rattle.nm_report.specs.Lawful.{IsRunIn};
ghost use Rattle.nm_check.specs.Tabled.{EachTabled};
ghost use Rattle.nm_check.specs.declared.rest.clauses.RestClause.TheVariants as rest;
ghost use Rattle.nm_check.specs.declared.rest.resting.RestBreak.TheVariants as kind;
ghost use Rattle.nm_breaks.specs.Judgements as spec;
ghost use Rattle.nm_breaks.specs.Judgements.{IsJudgement, judged_as};
ghost use Rattle.nm_breaks.specs.declared.judgements.Judgement.TheVariants as judgement;
ghost use Rattle.nm_check.specs.Verdicts.{IsBreachOf, BreaksOwn, Judges};
ghost use Rattle.nm_breaks.specs.Places.{events_in};
ghost use Rattle.nm_check.specs.declared.judging.Tabled.TheVariants.{Carried as FoundCarried, Rest as FoundRest};
ghost use Rattle.nm_check.specs.declared.verdicts.Verdict.TheVariants as verdict;
ghost use Rattle.nm_check.specs.Ranked.{IsTabled};

use crate::against::against_of;
use crate::cells::{CellCount, count_of};
use crate::counts::{Miscount, first_counted};
use crate::others::other_event;
use crate::places::{EventLine, count_line, told_at, told_of};
use nm_check::between::BrokenPair;
use nm_check::firsts::Spot;
use nm_check::judging::{Tabled, judge_tabled};
use nm_check::ranking::{Ranked, judge_ranks};
use nm_check::rest::firsts::EventRule;
use nm_check::rest::resting::{RestBreak, clause_of_rule};
use nm_check::rest::waits::{Next, next_of};
use nm_check::{CarriedClause, OwnClause, RestClause, Verdict};
use nm_check_rank::paired::breaches::Breach;
use nm_check_rank::paired::dues::Due;
use nm_check_rank::paired::tables::Tables;
use nm_report::RunRecord;
use nm_types::{Line, Memory, Script};
use std::alloc::Global;

/// What a record is judged to be, and of a rule that breaks where, and what that rests on. Lines of the
/// trace are counted from 1.
#[derive(Clone, Copy)]
pub enum Judgement {
    /// The record is of a run of the script.
    Holds,
    /// A rank breaks a rule of its own run: this is the first in order, and it breaks one first there, at
    /// this event if it is one.
    Own {
        clause: OwnClause,
        rank: u8,
        first: Breach,
        event: Option<EventLine>,
    },
    /// The messages from one rank to another break a rule at this event, which is held against this one
    /// of the other rank, and this stands between the two.
    Carried {
        clause: CarriedClause,
        from: u8,
        to: u8,
        event: EventLine,
        other: Option<EventLine>,
        against: Option<Due>,
    },
    /// A send or a recall is left unfinished in the end.
    Left {
        rule: EventRule,
        event: EventLine,
    },
    /// A rank, which is said to wait at the command in this line of the script or at none, neither is at
    /// its end nor waits for what can't come: this is its next command.
    Standing {
        rank: u8,
        waits: Option<u64>,
        next: Next,
    },
    /// A count of packets is not the one that is called for, in this line.
    Counted {
        line: u32,
        miscount: Miscount,
    },
    /// The cells are not those that there are to be, or not all home, in this line.
    Home {
        line: u32,
        cells: CellCount,
    },
    /// The end is marked wrong, in this line.
    Done {
        line: u32,
    },
}

impl Judgement {
    /// The verdict alone.
    pub fn verdict(self) -> Verdict
        ensures { result ≡ judged_as self }
    {
        match self {
            Judgement::Holds => Verdict::Holds,
            Judgement::Own { clause, rank, .. } => Verdict::Own { clause, rank },
            Judgement::Carried {
                clause,
                from,
                to,
                ..
            } => Verdict::Carried { clause, from, to },
            Judgement::Left { rule, .. } => Verdict::Rest {
                clause: clause_of_rule(rule),
            },
            Judgement::Standing { .. } => Verdict::Rest {
                clause: RestClause::Waits,
            },
            Judgement::Counted { .. } => Verdict::Rest {
                clause: RestClause::Counts,
            },
            Judgement::Home { .. } => Verdict::Home,
            Judgement::Done { .. } => Verdict::Done,
        }
    }
}

/// Where a rank breaks a rule of its own run first.
fn own_judgement(
    lines: &[Line],
    run: &RunRecord,
    clause: OwnClause,
    rank: u8,
    first: Breach,
) -> Judgement
    requires judged { BreaksOwn run.now.shape lines.now (ends_of run.now.ranks) clause rank }
    requires first { IsBreachOf run.now.shape lines.now (ends_of run.now.ranks) rank first }
    requires short { events_in (ends_of run.now.ranks) ≤ 67108864 }
    ensures { (count : ℕ) → IsJudgement count lines.now run.now result }
{
    let event = told_of(run.ranks.as_slice(), rank, first.place);
    Judgement::Own {
        clause,
        rank,
        first,
        event,
    }
}

/// Where the messages from one rank to another break a rule first.
fn carried_judgement(
    lines: &[Line],
    run: &RunRecord,
    tables: &[Tables],
    pair: BrokenPair,
) -> Judgement
    requires found { IsTabled lines.now run.now (FoundCarried pair) }
    requires short { events_in (ends_of run.now.ranks) ≤ 67108864 }
    requires tabled { EachTabled lines.now (ends_of run.now.ranks) tables.now }
    ensures { (count : ℕ) → IsJudgement count lines.now run.now result }
{
    let ranks = run.ranks.as_slice();
    let from = pair.from;
    let to = pair.to;
    let event = told_at(ranks, pair.first.spot);
    let other = other_event(lines, ranks, tables, from, to, event.spot);
    let against = against_of(lines, ranks, event, other);
    Judgement::Carried {
        clause: pair.first.clause,
        from,
        to,
        event,
        other,
        against,
    }
}

/// Where an event is left unfinished first.
fn left_judgement(lines: &[Line], run: &RunRecord, rule: EventRule, spot: Spot) -> Judgement
    requires found { IsTabled lines.now run.now (FoundRest (kind.Event rule spot)) }
    requires short { events_in (ends_of run.now.ranks) ≤ 67108864 }
    ensures { (count : ℕ) → IsJudgement count lines.now run.now result }
{
    let event = told_at(run.ranks.as_slice(), spot);
    Judgement::Left { rule, event }
}

/// Which rank stands first where it may not.
fn standing_judgement(lines: &[Line], run: &RunRecord, tables: &[Tables], rank: u8) -> Judgement
    requires found { IsTabled lines.now run.now (FoundRest (kind.Standing rank)) }
    requires tabled { EachTabled lines.now (ends_of run.now.ranks) tables.now }
    ensures { (count : ℕ) → IsJudgement count lines.now run.now result }
{
    let i = rank as usize;
    let ranks = run.ranks.as_slice();
    let account = &ranks[i];
    let next = next_of(rank, lines, account, &tables[i]);
    Judgement::Standing {
        rank,
        waits: account.waits,
        next,
    }
}

/// Where the counts of packets are wrong first.
fn counts_judgement(
    alloc: Global,
    lines: &[Line],
    run: &RunRecord,
    tables: &[Tables],
) -> Result<Judgement, Memory>
    requires judged { Judges lines.now run.now (verdict.Rest rest.Counts) }
    requires few { length run.now.ranks < 256 }
    requires short { events_in (ends_of run.now.ranks) + length run.now.pairs ≤ 67108864 }
    requires tabled { EachTabled lines.now (ends_of run.now.ranks) tables.now }
    ensures { IfOk result
        (λ judgement. (count : ℕ) → IsJudgement count lines.now run.now judgement) }
{
    let ranks = run.ranks.as_slice();
    match first_counted(alloc, ranks, run.pairs.as_slice(), tables)? {
        Some(miscount) => {
            let line = count_line(ranks, miscount.at);
            Ok(Judgement::Counted { line, miscount })
        }
        None => Ok(Judgement::Holds),
    }
}

/// The cells break their rule.
fn home_judgement(run: &RunRecord, count: u32) -> Judgement
    ensures { result ≡ judgement.Home (count - 1) (spec.count_of run.now) }
{
    Judgement::Home {
        line: count.saturating_sub(1),
        cells: count_of(run),
    }
}

/// The judgement on a record whose ranks run their own commands, by what is looked up of them.
fn tabled_judgement(
    alloc: Global,
    lines: &[Line],
    run: &RunRecord,
    found: Tabled,
    tables: &[Tables],
    count: u32,
) -> Result<Judgement, Memory>
    requires found { IsTabled lines.now run.now found }
    requires few { length run.now.ranks < 256 }
    requires short { events_in (ends_of run.now.ranks) + length run.now.pairs ≤ 67108864 }
    requires tabled { EachTabled lines.now (ends_of run.now.ranks) tables.now }
    ensures { IfOk result (IsJudgement count lines.now run.now) }
{
    match found {
        Tabled::Carried { pair } => Ok(carried_judgement(lines, run, tables, pair)),
        Tabled::Rest { first } => match first {
            RestBreak::Event { rule, spot } => Ok(left_judgement(lines, run, rule, spot)),
            RestBreak::Standing { rank } => Ok(standing_judgement(lines, run, tables, rank)),
            RestBreak::Counts => counts_judgement(alloc, lines, run, tables),
        },
        Tabled::Home => Ok(home_judgement(run, count)),
        Tabled::Done => Ok(Judgement::Done { line: count }),
        Tabled::Holds => Ok(Judgement::Holds),
    }
}

/// Judges a record whose trace has so many lines, the last but one of the cells and the last of the
/// end: the verdict, where the trace breaks its rule first, and what that rests on.
pub fn judged(
    alloc: Global,
    script: &Script,
    run: &RunRecord,
    count: u32,
) -> Result<Judgement, Memory>
    requires equal { run.now.shape.ranks ≡ script.now.ranks }
    requires whole { length run.now.ranks ≡ run.now.shape.ranks }
    requires few { length run.now.ranks < 256 }
    requires short { events_in (ends_of run.now.ranks) + length run.now.pairs ≤ 67108864 }
    ensures first { IfOk result (IsJudgement count script.now.lines run.now) }
    ensures exact { IsRunIn run.now.shape script.now.lines run.now →
        IfOk result (λ judgement. judged_as judgement ≡ verdict.Holds) }
{
    let lines = script.lines.as_slice();
    match judge_ranks(alloc, run.shape, lines, run.ranks.as_slice())? {
        Ranked::Run(tables) => {
            let found = judge_tabled(alloc, script, run, &tables)?;
            tabled_judgement(alloc, lines, run, found, &tables, count)
        }
        Ranked::Breaks {
            clause,
            rank,
            first,
        } => { Ok(own_judgement(lines, run, clause, rank, first)) }
    }
}
