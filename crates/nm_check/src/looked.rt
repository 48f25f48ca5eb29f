//! What is looked up of all ranks.

ghost use Rattle.std.specs.Prelude.{◌≡◌, ℕ, MatchOption, None, option_map, slice_get};
ghost use Rattle.nm_history.specs.RankRun.{Always, NumberAt};
ghost use Rattle.nm_history.specs.Sends.{sends};
ghost use Rattle.nm_history.specs.Quiescence.{history_of};
ghost use Rattle.nm_lookups.specs.Placed.{ArePlaces};
ghost use Rattle.nm_report.specs.Ends.{ends_of};
ghost use Rattle.nm_check.specs.Marked.{AreLooked, IsOwn, IsSendIn};

use nm_check_rank::paired::tables::Tables;
use nm_history::Event;
use nm_lookups::firsts::Message;
use nm_report::RankAccount;
use nm_types::Line;

/// The lines of a script, the ranks of a record, and what is looked up of each.
#[derive(Clone, Copy)]
pub struct Looked<'a> {
    pub lines: &'a [Line],
    pub ranks: &'a [RankAccount],
    pub tables: &'a [Tables],
}

/// The events of a rank and its tables, if there is such a rank.
pub(crate) fn own_of<'a>(of: &Looked<'a>, rank: u8) -> Option<(&'a [Event], &'a Tables)>
    requires { AreLooked of.now.lines.now (ends_of of.now.ranks.now) of.now.tables.now }
    ensures { MatchOption result (slice_get (ends_of of.now.ranks.now) rank ≡ None)
        (λ x. IsOwn of.now.lines.now (ends_of of.now.ranks.now) rank x.0.now x.1.now) }
{
    let i = rank as usize;
    let ranks = of.ranks;
    let tables = of.tables;
    if i >= ranks.len() {
        return None;
    }
    let account = &ranks[i];
    let own = &tables[i];
    Some((account.history.as_slice(), own))
}

/// The event at a place, if there are so many.
fn event_in(events: &[Event], place: usize) -> Option<&Event>
    ensures { option_map (λ e. e.now) result ≡ slice_get events.now place }
{
    events.get(place)
}

/// The event with which message n was sent to a rank, by the tables of these events.
fn send_in<'a>(events: &'a [Event], own: &Tables, to: u8, n: u64) -> Option<&'a Event>
    requires numbered { (many : ℕ) × Always (NumberAt many) events.now }
    requires places { ArePlaces events.now own.now.places }
    ensures { IsSendIn (sends events.now to) n (option_map (λ e. e.now) result) }
{
    match own.places.outgoing.gone.sends.get(&Message { rank: to, n }) {
        Some(place) => event_in(events, *place),
        None => None,
    }
}

/// The event with which rank i sent message n to rank j, if it did.
pub(crate) fn sent_at<'a>(of: &Looked<'a>, i: u8, j: u8, n: u64) -> Option<&'a Event>
    requires { AreLooked of.now.lines.now (ends_of of.now.ranks.now) of.now.tables.now }
    ensures { IsSendIn (sends (history_of (ends_of of.now.ranks.now) i) j) n
        (option_map (λ e. e.now) result) }
{
    match own_of(of, i) {
        Some((events, own)) => send_in(events, own, j, n),
        None => None,
    }
}
