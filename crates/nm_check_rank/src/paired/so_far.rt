//! What there is of a rank's events so far, besides what is looked up.

ghost use Rattle.std.specs.Prelude.{◌≡◌, ◌+◌, ◌<◌, ◌-◌, ◌^◌, List, Some, length, slice_get};
ghost use Rattle.std.specs.Option.{option_map_or};
ghost use Rattle.nm_history.specs.declared.events.Event as event;
ghost use Rattle.nm_check_rank.specs.SoFar.{IsSoFar};
ghost use Rattle.nm_check_rank.specs.OwnBreaks.{KeepsInTheEnd};
ghost use Rattle.nm_lookups.specs.Deciding.{Decides};

use crate::clauses::OwnClause;
use crate::paired::cancels::Cancelling;
use crate::paired::claims::Claiming;
use crate::paired::order::line_ran;
use crate::paired::starts::Starting;
use nm_history::Event;
use nm_lookups::asked::since::Since;

/// What there is of the events so far.
#[derive(Clone, Copy)]
pub(crate) struct SoFar {
    /// The last stamp, 0 where there is none.
    pub(crate) stamp: u64,
    /// How many commands ran.
    pub(crate) ran: usize,
    /// The claims since the last answer.
    pub(crate) claims: Since,
    /// The sends and receives since then.
    pub(crate) starts: Since,
    /// The cancels and recalls since then.
    pub(crate) cancels: Since,
}

impl SoFar {
    /// Before the first event.
    pub(crate) fn none() -> SoFar
        ensures { (h : List event.Event) → IsSoFar h 0 result }
    {
        SoFar {
            stamp: 0,
            ran: 0,
            claims: Since::Nothing,
            starts: Since::Nothing,
            cancels: Since::Nothing,
        }
    }

    /// After one event more, which is at this place.
    pub(crate) fn after(self, k: usize, e: &Event) -> SoFar
        ensures { (h : List event.Event) → slice_get h k ≡ Some e.now → k < 2 ^ 64 - 1 →
            IsSoFar h k self → IsSoFar h (k + 1) result }
    {
        let line = line_ran(&e.what);
        let ran = ran_after(self.ran, line);
        let claims = self.claims.after::<Claiming>(k, &e.what);
        let starts = self.starts.after::<Starting>(k, &e.what);
        let cancels = self.cancels.after::<Cancelling>(k, &e.what);
        SoFar {
            stamp: e.stamp,
            ran,
            claims,
            starts,
            cancels,
        }
    }

    /// Whether nothing is left in the end that a rule does not allow, where so many commands are
    /// said to have run.
    pub(crate) fn is_over(self, clause: OwnClause, at: u64) -> bool
        ensures { (h : List event.Event) → IsSoFar h (length h) self →
            Decides result (KeepsInTheEnd at clause h) }
    {
        match clause {
            OwnClause::Answers => is_same(at, self.ran),
            OwnClause::Starts => self.starts.is_nothing(),
            OwnClause::Cancels => self.cancels.is_nothing(),
            OwnClause::Claims => self.claims.is_nothing(),
            _ => true,
        }
    }
}

/// How many commands ran, after one event more.
fn ran_after(ran: usize, line: Option<u64>) -> usize
    ensures { ran < 2 ^ 64 - 1 → result ≡ ran + option_map_or (λ l. 1) line 0 }
{
    match line {
        Some(_) => ran.saturating_add(1),
        None => ran,
    }
}

/// Whether as many commands ran as are said to have.
fn is_same(at: u64, ran: usize) -> bool
    ensures { Decides result (at ≡ ran) }
{
    at as usize == ran
}
