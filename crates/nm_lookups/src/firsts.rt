//! Where in a history each thing happened first.

ghost use Rattle.std.specs.Prelude.{◌≡◌, ◌≤◌, ℕ, Bool, false, IfOk, List, MatchOption, OnOk, Some};
ghost use Rattle.std.specs.Prelude.{length, nat_lt, slice_get, take};
ghost use Rattle.indexmap.specs.IndexMap.{get, Updates};
ghost use Rattle.nm_match.specs.declared.names.Message as message;
ghost use Rattle.nm_lookups.specs.Firsts.{is_named, is_numbered};
ghost use Rattle.nm_history.specs.declared.events.Event as event;
ghost use Rattle.nm_history.specs.declared.events.Happened as occurrence;
ghost use Rattle.nm_history.specs.Completion.{is_taken};
ghost use Rattle.nm_history.specs.AtEach.{AtEach};
ghost use Rattle.nm_history.specs.Delivery.{earlier_than};
ghost use Rattle.nm_history.specs.Happens.{happened};
ghost use Rattle.nm_history.specs.RankRun.{StampAt};
ghost use Rattle.nm_lookups.specs.Placed.{AreFirsts, AreNumberedFirsts, AreTaken};

use indexmap::IndexMap;
use nm_history::{Event, Happened};
pub use nm_match::Message;
use nm_types::Memory;
use std::alloc::Global;
use std::hash::Hash;

/// Keeps the first place of a key.
pub fn note<K: Eq + Hash + Drop + Copy>(
    places: &mut IndexMap<K, usize>,
    key: K,
    place: usize,
) -> Result<(), Memory>
    ensures { OnOk result (MatchOption (get K.eq places.old key)
        (Updates K.eq places.old places.new key (Some place)) (λ _. places.new ≡ places.old)) }
{
    if !places.contains_key(&key) {
        places.insert(key, place)?;
    }
    Ok(())
}

/// A kind of event that is of a message.
pub trait Kind {
    ghost is_of: { ℕ → ℕ → occurrence.Happened → Bool };

    /// The message, where the event is of this kind.
    fn message(what: &Happened) -> Option<Message>
        ensures { (m : message.Message) → is_of m.rank m.n what.now ≡ is_named m result };
}

/// The first place of each message at which an event of this kind is of it.
pub fn firsts<T: Kind>(alloc: Global, events: &[Event]) -> Result<IndexMap<Message, usize>, Memory>
    ensures { IfOk result (λ places. AreFirsts T.is_of events.now places) }
{
    let mut places = IndexMap::new(alloc);
    for (k, e) in events.iter().enumerate() {
        if let Some(message) = T::message(&e.what) {
            note(&mut places, message, k)?;
        }
    }
    Ok(places)
}

/// Whether a message has a first place before this one.
pub fn is_before<T: Kind>(places: &IndexMap<Message, usize>, rank: u8, n: u64, k: usize) -> bool
    ensures { (h : List event.Event) → AreFirsts T.is_of h places.now →
        result ≡ happened (T.is_of rank n) (take k h) }
{
    match places.get(&Message { rank, n }) {
        Some(place) => *place < k,
        None => false,
    }
}

/// Whether a message has a first place.
pub fn is_ever<T: Kind>(places: &IndexMap<Message, usize>, rank: u8, n: u64) -> bool
    ensures { (h : List event.Event) → AreFirsts T.is_of h places.now →
        result ≡ happened (T.is_of rank n) h }
{
    places.contains_key(&Message { rank, n })
}

/// Whether a message was paired before this place.
pub fn is_taken_before(taken: &IndexMap<Message, usize>, rank: u8, n: u64, k: usize) -> bool
    ensures { (h : List event.Event) → AreTaken h taken.now →
        result ≡ is_taken (take k h) rank n }
{
    match taken.get(&Message { rank, n }) {
        Some(place) => *place < k,
        None => false,
    }
}

/// Whether a message was paired at all.
pub fn is_ever_taken(taken: &IndexMap<Message, usize>, rank: u8, n: u64) -> bool
    ensures { (h : List event.Event) → AreTaken h taken.now → result ≡ is_taken h rank n }
{
    taken.contains_key(&Message { rank, n })
}

/// Whether the event at a place has a smaller stamp than this one.
fn is_stamped_before(events: &[Event], place: usize, stamp: u64) -> bool
    ensures there { (e : event.Event) → slice_get events.now place ≡ Some e →
        result ≡ nat_lt e.stamp stamp }
    ensures past { length events.now ≤ place → result ≡ false }
{
    if place >= events.len() {
        return false;
    }
    events[place].stamp < stamp
}

/// Whether something of a message happened with a smaller stamp than this one.
pub fn is_earlier<T: Kind>(
    places: &IndexMap<Message, usize>,
    events: &[Event],
    rank: u8,
    n: u64,
    stamp: u64,
) -> bool
    requires rising { AtEach (λ before e. StampAt before e.stamp) events.now }
    requires firsts { AreFirsts T.is_of events.now places.now }
    ensures { result ≡ happened (T.is_of rank n) (earlier_than stamp events.now) }
{
    match places.get(&Message { rank, n }) {
        Some(place) => is_stamped_before(events, *place, stamp),
        None => false,
    }
}

/// A kind of event that is of a number, or of a line.
pub trait Numbering {
    ghost is_at: { ℕ → occurrence.Happened → Bool };

    /// The number, where the event is of this kind.
    fn number(what: &Happened) -> Option<u64>
        ensures { (n : ℕ) → is_at n what.now ≡ is_numbered n result };
}

/// The first place of each number at which an event of this kind is of it.
pub fn numbered_firsts<T: Numbering>(
    alloc: Global,
    events: &[Event],
) -> Result<IndexMap<u64, usize>, Memory>
    ensures { IfOk result (λ places. AreNumberedFirsts T.is_at events.now places) }
{
    let mut places = IndexMap::new(alloc);
    for (k, e) in events.iter().enumerate() {
        if let Some(number) = T::number(&e.what) {
            note(&mut places, number, k)?;
        }
    }
    Ok(places)
}

/// Whether a number has a first place before this one.
pub fn is_number_before<T: Numbering>(places: &IndexMap<u64, usize>, number: u64, k: usize) -> bool
    ensures { (h : List event.Event) → AreNumberedFirsts T.is_at h places.now →
        result ≡ happened (T.is_at number) (take k h) }
{
    match places.get(&number) {
        Some(place) => *place < k,
        None => false,
    }
}

/// Whether a message was paired by an event with a smaller stamp than this one.
pub fn is_taken_earlier(
    taken: &IndexMap<Message, usize>,
    events: &[Event],
    rank: u8,
    n: u64,
    stamp: u64,
) -> bool
    requires rising { AtEach (λ before e. StampAt before e.stamp) events.now }
    requires taken { AreTaken events.now taken.now }
    ensures { result ≡ is_taken (earlier_than stamp events.now) rank n }
{
    match taken.get(&Message { rank, n }) {
        Some(place) => is_stamped_before(events, *place, stamp),
        None => false,
    }
}
