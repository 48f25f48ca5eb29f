//! Whether messages and receives are numbered from 0.

ghost use Rattle.std.specs.Prelude.{◌≡◌, ℕ, ◌+◌, ◌-◌, ◌<◌, ◌≤◌, ◌^◌, List, [], ◌∷◌, ◌++◌, length, take};
ghost use Rattle.nm_lookups.specs.Deciding.{Decides};
ghost use Rattle.nm_check_rank.specs.Breaks.{BreaksFirstAt};
ghost use Rattle.nm_check_rank.specs.Counted.{AreCounted};
ghost use Rattle.nm_check_rank.specs.Dues.{next_number};
ghost use Rattle.nm_history.specs.declared.events.Event.{Event};
ghost use Rattle.nm_history.specs.RankRun.{Always, NumberAt};
ghost use Rattle.nm_history.specs.Sends.{arrivals, sends};

use nm_history::{Event, Happened};

/// How many ranks a number of 8 bits can name.
const NAMES: usize = 256;

/// How many messages were sent to each rank and came from each, and how many receives there were.
#[derive(Drop)]
pub struct Counts {
    sends: [u64; NAMES],
    arrivals: [u64; NAMES],
    receives: u64,
}

impl Counts {
    fn none() -> Counts
        ensures { AreCounted [] result }
    {
        Counts {
            sends: [0; NAMES],
            arrivals: [0; NAMES],
            receives: 0,
        }
    }

    /// Whether the number of a send, a receive or an arrival is the next one, and an arrival is of
    /// one of the ranks.
    fn is_next(&self, ranks: u8, what: &Happened) -> bool
        ensures { (before : List Event) → AreCounted before self.now →
            Decides result (NumberAt ranks before what.now) }
    {
        match what {
            Happened::Send { to, n, .. } => *n == self.sends[*to as usize],
            Happened::Post { post, .. } => post.number == self.receives,
            Happened::Match { number, .. } => *number == self.receives,
            Happened::Arrive { a } => {
                a.env.from < ranks && a.n == self.arrivals[a.env.from as usize]
            }
            _ => true,
        }
    }

    /// The next number of a send, a receive or an arrival.
    pub fn next_number(&self, what: &Happened) -> Option<u64>
        ensures { (before : List Event) → AreCounted before self.now →
            result ≡ next_number before what.now }
    {
        match what {
            Happened::Send { to, .. } => Some(self.sends[*to as usize]),
            Happened::Post { .. } => Some(self.receives),
            Happened::Match { .. } => Some(self.receives),
            Happened::Arrive { a } => Some(self.arrivals[a.env.from as usize]),
            _ => None,
        }
    }

    fn add(&mut self, what: &Happened)
        ensures { (before : List Event) (stamp : ℕ) → length before < 2 ^ 64 - 1 →
            AreCounted before self.old →
            AreCounted (before ++ record { stamp = stamp; what = what.now } ∷ []) self.new }
    {
        match what {
            Happened::Send { to, .. } => {
                self.sends[*to as usize] = self.sends[*to as usize].saturating_add(1);
            }
            Happened::Post { .. } | Happened::Match { .. } => {
                self.receives = self.receives.saturating_add(1);
            }
            Happened::Arrive { a } => {
                let from = a.env.from as usize;
                self.arrivals[from] = self.arrivals[from].saturating_add(1);
            }
            _ => {}
        }
    }
}

/// How many events there are before the first send, receive or arrival that has not the next number,
/// or comes from no rank: all of them, if there is none.
pub(crate) fn first_number(ranks: u8, events: &[Event]) -> usize
    ensures inside { result ≤ length events.now }
    ensures kept { Always (NumberAt ranks) (take result events.now) }
    ensures broken { result < length events.now →
        BreaksFirstAt (Always (NumberAt ranks)) events.now result }
{
    let mut counts = Counts::none();
    for (k, e) in events.iter().enumerate() {
        if !counts.is_next(ranks, &e.what) {
            return k;
        }
        counts.add(&e.what);
    }
    events.len()
}

/// The counts of a history.
pub fn counted(events: &[Event]) -> Counts
    ensures { AreCounted events.now result }
{
    let mut counts = Counts::none();
    for e in events {
        counts.add(&e.what);
    }
    counts
}

/// Whether all that rank i sent to rank j has arrived, by the counts of both.
pub fn has_arrived(i: u8, j: u8, sender: &Counts, receiver: &Counts) -> bool
    ensures { (hi hj : List Event) → AreCounted hi sender.now → AreCounted hj receiver.now →
        Decides result (length (arrivals hj i) ≡ length (sends hi j)) }
{
    receiver.arrivals[i as usize] == sender.sends[j as usize]
}
