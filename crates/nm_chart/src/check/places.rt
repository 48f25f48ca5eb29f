//! The flag of a judgement.

ghost use Rattle.std.specs.Prelude.{◌≡◌, slice_get};
ghost use Rattle.nm_chart.specs.Findings as spec;

use nm_breaks::{EventLine, Judgement};
use nm_history::History;
use nm_picture::Flag;
use nm_report::RankAccount;

/// The flag at an event of a rank's history, in its line of the trace.
fn flag_in(history: &History, event: EventLine) -> Option<Flag>
    ensures { result ≡ spec.event_flag event (slice_get history.now.events event.spot.at) }
{
    match history.get(event.spot.at) {
        Some(happened) => Some(Flag::Event {
            rank: event.spot.rank,
            stamp: happened.stamp,
            line: event.line,
        }),
        None => None,
    }
}

/// .. of these ranks.
fn flag_at(ranks: &[RankAccount], event: EventLine) -> Option<Flag>
    ensures { result ≡ spec.flag_at event (slice_get ranks.now event.spot.rank) }
{
    match ranks.get(event.spot.rank as usize) {
        Some(account) => flag_in(&account.history, event),
        None => None,
    }
}

/// The flag at the event at which a rank breaks a rule, or at its end.
fn own_flag(ranks: &[RankAccount], rank: u8, event: Option<EventLine>) -> Option<Flag>
    ensures { result ≡ spec.own_flag ranks.now rank event }
{
    match event {
        Some(event) => flag_at(ranks, event),
        None => Some(Flag::Behind { rank }),
    }
}

/// The flag of a judgement on these ranks.
pub fn flag_of(ranks: &[RankAccount], judgement: Judgement) -> Option<Flag>
    ensures { result ≡ spec.flag_of ranks.now judgement }
{
    match judgement {
        Judgement::Holds => None,
        Judgement::Own { rank, event, .. } => own_flag(ranks, rank, event),
        Judgement::Carried { event, .. } => flag_at(ranks, event),
        Judgement::Left { event, .. } => flag_at(ranks, event),
        Judgement::Standing { rank, .. } => Some(Flag::Behind { rank }),
        Judgement::Counted { line, .. } => Some(Flag::Line { line }),
        Judgement::Home { line, .. } => Some(Flag::Line { line }),
        Judgement::Done { line } => Some(Flag::Line { line }),
    }
}
