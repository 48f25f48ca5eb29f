//! The first rule of rest that is broken, and where.

ghost use Rattle.std.specs.Prelude.{◌≡◌, ◌<◌, MatchOption, length};
ghost use Rattle.nm_history.specs.Quiescence.{AreQuiescent};
ghost use Rattle.nm_report.specs.Ends.{ends_of, packets_of};
ghost use Rattle.nm_check.specs.RestBreaks.{AreInOrder, IsRestBreak, clause_of, rest_clause};
ghost use Rattle.nm_check.specs.Tabled.{EachTabled};

use crate::firsts::Spot;
use crate::looked::Looked;
use crate::rest::clauses::RestClause;
use crate::rest::counts::are_counted;
use crate::rest::firsts::{EventRule, first_rest_at};
use crate::rest::waits::first_not_standing;
use nm_check_rank::paired::tables::Tables;
use nm_report::{PairCount, RankAccount};
use nm_types::Line;

/// A rule of rest that is broken, and where first.
#[derive(Clone, Copy)]
pub enum RestBreak {
    /// A rule that is asked of each event breaks at this one.
    Event { rule: EventRule, spot: Spot },
    /// This rank neither is at its end nor waits for what can't come.
    Standing { rank: u8 },
    /// The counts of packets are not those called for.
    Counts,
}

/// A rule that is asked of each event as one of all.
pub fn clause_of_rule(rule: EventRule) -> RestClause
    ensures { result ≡ rest_clause rule }
{
    match rule {
        EventRule::Arrived => RestClause::Arrived,
        EventRule::Eager => RestClause::Eager,
        EventRule::Asked => RestClause::Asked,
        EventRule::Recalls => RestClause::Recalls,
    }
}

impl RestBreak {
    /// The rule.
    pub fn clause(self) -> RestClause
        ensures { result ≡ clause_of self }
    {
        match self {
            RestBreak::Event { rule, .. } => clause_of_rule(rule),
            RestBreak::Standing { .. } => RestClause::Waits,
            RestBreak::Counts => RestClause::Counts,
        }
    }
}

/// The first rule of rest that is broken, and where.
pub fn first_of_rest(
    lines: &[Line],
    ranks: &[RankAccount],
    pairs: &[PairCount],
    tables: &[Tables],
) -> Option<RestBreak>
    requires few { length ranks.now < 256 }
    requires ordered { AreInOrder (ends_of ranks.now) }
    requires tabled { EachTabled lines.now (ends_of ranks.now) tables.now }
    ensures { MatchOption result (AreQuiescent lines.now (ends_of ranks.now) (packets_of pairs.now))
        (IsRestBreak lines.now (ends_of ranks.now) (packets_of pairs.now)) }
{
    let of = Looked {
        lines,
        ranks,
        tables,
    };
    if let Some(spot) = first_rest_at(EventRule::Arrived, &of) {
        let rule = EventRule::Arrived;
        return Some(RestBreak::Event { rule, spot });
    }
    if let Some(spot) = first_rest_at(EventRule::Eager, &of) {
        let rule = EventRule::Eager;
        return Some(RestBreak::Event { rule, spot });
    }
    if let Some(spot) = first_rest_at(EventRule::Asked, &of) {
        let rule = EventRule::Asked;
        return Some(RestBreak::Event { rule, spot });
    }
    if let Some(spot) = first_rest_at(EventRule::Recalls, &of) {
        let rule = EventRule::Recalls;
        return Some(RestBreak::Event { rule, spot });
    }
    if let Some(rank) = first_not_standing(lines, ranks, tables) {
        return Some(RestBreak::Standing { rank });
    }
    if !are_counted(pairs, ranks, tables) {
        return Some(RestBreak::Counts);
    }
    None
}
