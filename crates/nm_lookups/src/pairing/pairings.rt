//! What was paired with what before each event of a history, and what was free.

ghost use Rattle.std.specs.Prelude.{◌≡◌, ℕ, ◌++◌, ◌∷◌, [], IfOk, List, MatchOption, OnOk, Some};
ghost use Rattle.std.specs.Prelude.{length, slice_get, take};
ghost use Rattle.std.specs.List.{list_any};
ghost use Rattle.indexmap.specs.IndexMap.{Updates, get};
ghost use Rattle.nm_types.specs.Commands.{commands_of};
ghost use Rattle.nm_types.specs.declared.scripts.Line as script_line;
ghost use Rattle.nm_history.specs.declared.events.Event as event;
ghost use Rattle.nm_history.specs.Completion.{is_taken as is_taken_lem, pair_of_receive};
ghost use Rattle.nm_history.specs.Matching.{first_message as first_message_lem, is_of_receive};
ghost use Rattle.nm_history.specs.Matching.{matched_pairs, new_pair};
ghost use Rattle.nm_history.specs.RankRun.{Always, NumberAt};
ghost use Rattle.nm_lookups.specs.Placed.{AreTaken};
ghost use Rattle.nm_lookups.specs.Looks.{look_of};
ghost use Rattle.nm_lookups.specs.Pairings.{ArePairTables, Tells};
ghost use Rattle.nm_lookups.specs.Replays.{Replays};

use crate::firsts::Message;
use crate::pairing::looks::look;
use crate::pairing::replays::Replay;
use indexmap::IndexMap;
use nm_history::Event;
use nm_history::plain::Pair;
use nm_match::Matcher;
use nm_types::{Arrival, Line, Memory, Peer, TagPick};
use std::alloc::Global;
use std::hash::Hash;

/// A pair, with the place of the event that made it.
#[derive(Clone, Copy)]
pub(crate) struct Paired {
    pub place: usize,
    pub pair: Pair,
}

/// The pairs of a history, in order, and by their messages and their receives.
pub(crate) struct Tables {
    pub pairs: Vec<Pair>,
    pub taken: IndexMap<Message, usize>,
    pub receives: IndexMap<u64, Paired>,
}

impl Drop for Tables {
    fn drop(self) {
        let Tables {
            pairs: _,
            taken: _,
            receives: _,
        } = self;
    }
}

/// Keeps the first value of a key.
fn note<K: Eq + Hash + Drop + Copy, V: Drop + Copy>(
    table: &mut IndexMap<K, V>,
    key: K,
    value: V,
) -> Result<(), Memory>
    ensures { OnOk result (MatchOption (get K.eq table.old key)
        (Updates K.eq table.old table.new key (Some value)) (λ _. table.new ≡ table.old)) }
{
    if !table.contains_key(&key) {
        table.insert(key, value)?;
    }
    Ok(())
}

impl Tables {
    /// Of no event.
    fn new(alloc: Global) -> Tables
        ensures { ArePairTables [] result }
    {
        Tables {
            pairs: Vec::new(alloc),
            taken: IndexMap::new(alloc),
            receives: IndexMap::new(alloc),
        }
    }

    /// The event at a place makes a pair.
    fn keep(&mut self, place: usize, pair: Pair) -> Result<(), Memory>
        ensures { (h : List event.Event) (e : event.Event) → ArePairTables h self.old →
            place ≡ length h → Some pair ≡ new_pair h (matched_pairs h) e.what →
            OnOk result (ArePairTables (h ++ e ∷ []) self.new) }
    {
        let message = Message {
            rank: pair.arrival.env.from,
            n: pair.arrival.n,
        };
        self.pairs.push(pair)?;
        note(&mut self.taken, message, place)?;
        note(&mut self.receives, pair.number, Paired { place, pair })?;
        Ok(())
    }
}

/// Replays a history from its start.
fn replay_all(
    replay: &mut Replay,
    tables: &mut Tables,
    looks: &mut Vec<Option<Arrival>>,
    rank: u8,
    lines: &[Line],
    events: &[Event],
) -> Result<(), Memory>
    requires numbered { (ranks : ℕ) × Always (NumberAt ranks) events.now }
    requires replay { Replays [] replay.old }
    requires tables { ArePairTables [] tables.old }
    requires looks { looks.old.items ≡ [] }
    ensures { OnOk result (Tells rank lines.now events.now
        (record { tables = tables.new; looks = looks.new; matcher = replay.new.matcher })) }
{
    for (k, e) in events.iter().enumerate() {
        looks.push(look(rank, lines, &mut replay.matcher, &e.what))?;
        if let Some(pair) = replay.take(&e.what)? {
            tables.keep(k, pair)?;
        }
    }
    Ok(())
}

/// What is made of a history while it is replayed.
pub(crate) struct Work {
    tables: Tables,
    looks: Vec<Option<Arrival>>,
    replay: Replay,
}

impl Drop for Work {
    fn drop(self) {
        let Work {
            tables: _,
            looks: _,
            replay: _,
        } = self;
    }
}

impl Work {
    /// Of no event.
    fn new(alloc: Global) -> Work
        ensures replay { Replays [] result.replay }
        ensures tables { ArePairTables [] result.tables }
        ensures looks { result.looks.items ≡ [] }
    {
        Work {
            tables: Tables::new(alloc),
            looks: Vec::new(alloc),
            replay: Replay::new(alloc),
        }
    }

    /// What it tells.
    fn into_pairing(self) -> Pairing
        ensures { result ≡ record {
          tables = self.tables;
          looks = self.looks;
          matcher = self.replay.matcher;
        } }
    {
        let Work {
            tables,
            looks,
            replay,
        } = self;
        Pairing {
            tables,
            looks,
            matcher: replay.into_matcher(),
        }
    }
}

/// What was paired with what before each event of a history, and what was free.
pub struct Pairing {
    pub(crate) tables: Tables,
    pub(crate) looks: Vec<Option<Arrival>>,
    pub(crate) matcher: Matcher,
}

impl Drop for Pairing {
    fn drop(self) {
        let Pairing {
            tables: _,
            looks: _,
            matcher: _,
        } = self;
    }
}

impl Pairing {
    /// Replays the history of a rank, by the lines of its script. Sends, receives and arrivals must
    /// be numbered in order; no other rule of a run is asked for.
    pub fn of(alloc: Global, rank: u8, lines: &[Line], events: &[Event]) -> Result<Pairing, Memory>
        requires numbered { (ranks : ℕ) × Always (NumberAt ranks) events.now }
        ensures { IfOk result (λ pairing. Tells rank lines.now events.now pairing) }
    {
        let mut work = Work::new(alloc);
        replay_all(
            &mut work.replay,
            &mut work.tables,
            &mut work.looks,
            rank,
            lines,
            events,
        )?;
        Ok(work.into_pairing())
    }

    /// The pairs, in the order in which they were made.
    pub fn pairs(&self) -> &[Pair]
        ensures { (rank : ℕ) (lines : List script_line.Line) (h : List event.Event) →
            Tells rank lines h self.now → result.now ≡ matched_pairs h }
    {
        &self.tables.pairs
    }

    /// The place of the event that paired each message first.
    pub fn taken(&self) -> &IndexMap<Message, usize>
        ensures { (rank : ℕ) (lines : List script_line.Line) (h : List event.Event) →
            Tells rank lines h self.now → AreTaken h result.now }
    {
        &self.tables.taken
    }

    /// Whether message `n` of a rank was paired before a place.
    pub fn is_taken(&self, from: u8, n: u64, k: usize) -> bool
        ensures { (rank : ℕ) (lines : List script_line.Line) (h : List event.Event) →
            Tells rank lines h self.now → result ≡ is_taken_lem (take k h) from n }
    {
        match self.tables.taken.get(&Message { rank: from, n }) {
            Some(place) => *place < k,
            None => false,
        }
    }

    /// The pair of a receive, if it was made before a place.
    pub fn pair(&self, number: u64, k: usize) -> Option<Pair>
        ensures { (rank : ℕ) (lines : List script_line.Line) (h : List event.Event) →
            Tells rank lines h self.now → result ≡ pair_of_receive (take k h) number }
    {
        match self.tables.receives.get(&number) {
            Some(paired) if paired.place < k => Some(paired.pair),
            _ => None,
        }
    }

    /// Whether a receive was paired before a place.
    pub fn is_paired(&self, number: u64, k: usize) -> bool
        ensures { (rank : ℕ) (lines : List script_line.Line) (h : List event.Event) →
            Tells rank lines h self.now →
            result ≡ list_any (is_of_receive number) (matched_pairs (take k h)) }
    {
        self.pair(number, k).is_some()
    }

    /// What the command of the event at a place found before it: the first free message that it
    /// selects, if it is a probe, an await or a matched probe.
    pub fn look(&self, k: usize) -> Option<Arrival>
        ensures { (rank : ℕ) (lines : List script_line.Line) (h : List event.Event) →
            Tells rank lines h self.now → (e : event.Event) → slice_get h k ≡ Some e →
            result ≡ look_of (commands_of rank lines) (take k h) e.what }
    {
        *self.looks.get(k)?
    }

    /// The first free message at the end of the history that a probe with this source, tag and
    /// context would show.
    pub fn first_message(&self, from: Peer, tag: TagPick, ctx: u8) -> Option<Arrival>
        ensures { (rank : ℕ) (lines : List script_line.Line) (h : List event.Event) →
            Tells rank lines h self.now →
            result ≡ first_message_lem h (matched_pairs h) from tag ctx }
    {
        self.matcher.probe(from, tag, ctx)
    }
}
