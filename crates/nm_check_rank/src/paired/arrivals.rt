//! The arrival of a message, by the place at which it came.

ghost use Rattle.std.specs.Prelude.{◌≡◌, Some, slice_get, take};
ghost use Rattle.nm_history.specs.declared.events.Event as event;
ghost use Rattle.nm_history.specs.Answers.{arrival_claimed as arrival_claimed_lem};
ghost use Rattle.nm_history.specs.Sends.{arrival_of, message_of as message_of_lem};
ghost use Rattle.nm_lookups.specs.Placed.{ArePlaces};

use nm_history::{Event, Happened};
use nm_lookups::asked::handles::claim_at;
use nm_lookups::firsts::Message;
use nm_lookups::places::Places;
use nm_types::Arrival;

/// The arrival at a place.
fn arrival_there(events: &[Event], place: usize) -> Option<Arrival>
    ensures { (e : event.Event) → slice_get events.now place ≡ Some e →
        result ≡ arrival_of e.what }
{
    if place >= events.len() {
        return None;
    }
    match &events[place].what {
        Happened::Arrive { a } => Some(*a),
        _ => None,
    }
}

/// The arrival of a message, if it came before a place.
fn message_of(events: &[Event], places: &Places, message: Message, k: usize) -> Option<Arrival>
    requires { ArePlaces events.now places.now }
    ensures { result ≡ message_of_lem (take k events.now) message.rank message.n }
{
    match places.incoming.came.arrivals.get(&message) {
        Some(place) => {
            if *place < k {
                arrival_there(events, *place)
            } else {
                None
            }
        }
        None => None,
    }
}

/// The arrival of the message that the command of a line claimed before a place.
pub(crate) fn arrival_claimed(
    events: &[Event],
    places: &Places,
    line: u64,
    k: usize,
) -> Option<Arrival>
    requires { ArePlaces events.now places.now }
    ensures { result ≡ arrival_claimed_lem (take k events.now) line }
{
    match claim_at(events, &places.by_number, line, k) {
        Some(message) => message_of(events, places, message, k),
        None => None,
    }
}
