//! The first rule of the messages between two ranks that is broken, and where.

ghost use Rattle.std.specs.Prelude.{◌≡◌, ◌≤◌, List, MatchOption, length};
ghost use Rattle.nm_types.specs.declared.scripts.Line as script_line;
ghost use Rattle.nm_history.specs.Quiescence.{EachPair, EachRank, Ended, history_of};
ghost use Rattle.nm_check.specs.CarriedClauses.{PairDelivered};
ghost use Rattle.nm_check.specs.Marked.{AreMarks, BreaksTo, BreaksPair, EachMarked, IsBreak};

use crate::clauses::CarriedClause;
use crate::firsts::{Part, Spot, first_at, first_withdrawal};
use crate::marks::Marks;

/// A rule of the messages from one rank to another that is broken, and the event at which it breaks
/// first, as one reads the events of rank after rank.
#[derive(Clone, Copy)]
pub struct Break {
    pub clause: CarriedClause,
    pub spot: Spot,
}

/// The first rule of the messages from rank i to rank j that is broken.
fn first_between(i: u8, j: u8, sender: &Marks, receiver: &Marks) -> Option<Break>
    ensures { (lines : List script_line.Line) (ranks : List Ended) → AreMarks lines ranks i sender.now →
        AreMarks lines ranks j receiver.now → MatchOption result
        (PairDelivered lines i j (history_of ranks i) (history_of ranks j)) (IsBreak lines ranks i j) }
{
    if let Some(spot) = first_at(Part::Arrivals, j, i, receiver) {
        let clause = CarriedClause::Messages;
        return Some(Break { clause, spot });
    }
    if let Some(spot) = first_at(Part::Bodies, j, i, receiver) {
        let clause = CarriedClause::Bodies;
        return Some(Break { clause, spot });
    }
    if let Some(spot) = first_at(Part::Outs, i, j, sender) {
        let clause = CarriedClause::Outs;
        return Some(Break { clause, spot });
    }
    if let Some(spot) = first_withdrawal(i, j, sender, receiver) {
        let clause = CarriedClause::Withdrawals;
        return Some(Break { clause, spot });
    }
    None
}

/// A pair of ranks between which a rule is broken, and the first such rule.
#[derive(Clone, Copy)]
pub struct BrokenPair {
    pub from: u8,
    pub to: u8,
    pub first: Break,
}

/// The first rank to which the messages of rank i break a rule, with the first such rule.
fn first_from(i: u8, sender: &Marks, marks: &[Marks]) -> Option<BrokenPair>
    requires { length marks.now ≤ 256 }
    ensures { (lines : List script_line.Line) (ranks : List Ended) → AreMarks lines ranks i sender.now →
        EachMarked lines ranks marks.now → MatchOption result
        (EachRank (λ j rank. PairDelivered lines i j (history_of ranks i) rank.events) ranks)
        (λ pair. (pair.from ≡ i) × BreaksTo lines ranks i pair.to pair.first) }
{
    for (j, receiver) in marks.iter().enumerate() {
        let to = j as u8;
        if let Some(first) = first_between(i, to, sender, receiver) {
            return Some(BrokenPair { from: i, to, first });
        }
    }
    None
}

/// The first pair of ranks, by sender and then receiver, between which a rule is broken, with the
/// first such rule.
pub fn first_pair(marks: &[Marks]) -> Option<BrokenPair>
    requires { length marks.now ≤ 256 }
    ensures { (lines : List script_line.Line) (ranks : List Ended) →
        EachMarked lines ranks marks.now →
        MatchOption result (EachPair (PairDelivered lines) ranks)
        (λ pair. BreaksPair lines ranks pair.from pair.to pair.first) }
{
    for (i, sender) in marks.iter().enumerate() {
        if let Some(pair) = first_from(i as u8, sender, marks) {
            return Some(pair);
        }
    }
    None
}
