//! What stands against an event of a rank, by each rule of its own run.

ghost use Rattle.std.specs.Prelude.{◌≡◌, All, MatchOption, Some, slice_get, take};
ghost use Rattle.nm_check_rank.specs.OwnBreaks.{BreaksOf, IsAgainst, KeepsSoFar, RuleAt};
ghost use Rattle.nm_check_rank.specs.Runs.{IsRun, commands_in};
ghost use Rattle.nm_check_rank.specs.SoFar.{IsSoFar};

use crate::clauses::OwnClause;
use crate::paired::cancellings::cancel_due;
use crate::paired::claimings::claim_due;
use crate::paired::dues::{Due, against, answer_due, stamp_due};
use crate::paired::objections::{end_objection, whole_objection};
use crate::paired::runs::Run;
use crate::paired::so_far::SoFar;
use crate::paired::startings::start_due;
use nm_history::Event;

/// A rule that an event breaks, and what stands against the event.
#[derive(Clone, Copy)]
pub(crate) struct Standing {
    pub(crate) clause: OwnClause,
    pub(crate) due: Due,
}

/// What stands against the event at a place by a rule that the events before it keep: nothing exactly
/// where it keeps the rule.
pub(crate) fn stands_against(
    run: &Run,
    so_far: SoFar,
    clause: OwnClause,
    k: usize,
    e: &Event,
) -> Option<Due>
    requires run { IsRun run.now }
    requires here { slice_get run.now.events.now k ≡ Some e.now }
    requires so_far { IsSoFar run.now.events.now k so_far }
    requires kept { KeepsSoFar run.now.shape (commands_in run.now) clause
        (take k run.now.events.now) }
    ensures { IsAgainst run.now.shape (commands_in run.now) clause (take k run.now.events.now) e.now
        result }
{
    match clause {
        OwnClause::Stamps => stamp_due(so_far.stamp, e.stamp),
        OwnClause::Numbers => None,
        OwnClause::Claims => claim_due(run, so_far.claims, k, e),
        OwnClause::Starts => start_due(run, so_far.starts, k, e),
        OwnClause::Cancels => cancel_due(run, so_far.cancels, k, e),
        OwnClause::Wholes => against(whole_objection(run.tables, k, &e.what)),
        OwnClause::Ends => against(end_objection(run.tables, k, &e.what)),
        OwnClause::Answers => answer_due(run, so_far.ran, k, e),
    }
}

/// The first of some rules that the event at a place breaks, where those before it keep them.
pub(crate) fn first_against(
    run: &Run,
    rules: &[OwnClause],
    so_far: SoFar,
    k: usize,
    e: &Event,
) -> Option<Standing>
    requires run { IsRun run.now }
    requires here { slice_get run.now.events.now k ≡ Some e.now }
    requires so_far { IsSoFar run.now.events.now k so_far }
    requires kept { All (λ d. KeepsSoFar run.now.shape (commands_in run.now) d
        (take k run.now.events.now)) rules.now }
    ensures { MatchOption result
        (All (λ d. RuleAt run.now.shape (commands_in run.now) d (take k run.now.events.now) e.now)
        rules.now)
        (λ s. BreaksOf run.now.shape (commands_in run.now) rules.now (take k run.now.events.now)
        e.now s.clause s.due) }
{
    for clause in rules {
        if let Some(due) = stands_against(run, so_far, *clause, k, e) {
            return Some(Standing {
                clause: *clause,
                due,
            });
        }
    }
    None
}
