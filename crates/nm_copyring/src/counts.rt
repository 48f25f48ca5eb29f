//! What a port tells of itself, and how its counts change.

ghost use Rattle.std.specs.Prelude.{◌≡◌, ◌<◌, ◌↔◌, ◌^◌, IsTrue, length};
ghost use Rattle.nm_chain.specs.Plays.{capped};
ghost use Rattle.nm_copyring.specs.declared.table.Entry.{Entry};
ghost use Rattle.nm_types.specs.declared.packets.Piece.{Piece};
ghost use Rattle.nm_copyring.specs.Rule.{lane};
ghost use Rattle.nm_copyring.specs.Plays.{one_empty, one_full, one_pulled, one_pushed, with_lane};
ghost use Rattle.nm_copyring.specs.Counted.{Counts, tally, tally_in};
ghost use Rattle.nm_copyring.specs.Ports.{knows, pushed_to, pulled_from, full_to, empty_from};

use crate::port::RingPort;
use crate::tallies::Tally;
use nm_types::MAX_PACKETS;

impl RingPort {
    // What is counted of a rank.
    fn tally(&self, rank: u8) -> Tally
        requires { rank < (knows self.now).ranks }
        ensures { result ≡ tally (lane (knows self.now) rank) }
    {
        self.tallies[rank as usize]
    }

    /// The rank whose port this is.
    pub fn rank(&self) -> u8
        ensures { result ≡ self.now.rank }
    {
        self.rank
    }

    /// How many pieces were pushed to a rank: the number of the next one.
    pub fn pushed(&self, to: u8) -> u64
        requires { to < (knows self.now).ranks }
        ensures { result ≡ length (pushed_to self.now to) }
    {
        self.tally(to).pushed
    }

    /// How many pieces were pulled from a rank: the number of the next one.
    pub fn pulled(&self, sender: u8) -> u64
        requires { sender < (knows self.now).ranks }
        ensures { result ≡ length (pulled_from self.now sender) }
    {
        self.tally(sender).pulled
    }

    /// How often the next place for a rank was found full. The count stands still at 2^64 - 1.
    pub fn full(&self, to: u8) -> u64
        requires { to < (knows self.now).ranks }
        ensures { result ≡ capped (full_to self.now to) }
    {
        self.tally(to).full
    }

    /// How often the next place of a rank was found empty. The count stands still at 2^64 - 1.
    pub fn empty(&self, sender: u8) -> u64
        requires { sender < (knows self.now).ranks }
        ensures { result ≡ capped (empty_from self.now sender) }
    {
        self.tally(sender).empty
    }

    /// Whether one more piece may be pushed to a rank: fewer than 2^60 were.
    pub fn has_room(&self, to: u8) -> bool
        requires { to < (knows self.now).ranks }
        ensures { IsTrue result ↔ (length (pushed_to self.now to) < 2 ^ 60) }
    {
        self.pushed(to) < MAX_PACKETS
    }
}

/// One more piece was pushed to a rank.
pub(crate) fn count_pushed(tallies: &mut Vec<Tally>, to: usize)
    requires room { (to < length tallies.old.items)
        × ((tally_in tallies.old.items to).pushed < 2 ^ 60) }
    ensures { (e : Entry) (p : Piece) → Counts e tallies.old.items
        → Counts (with_lane (one_pushed p) to e) tallies.new.items }
{
    tallies[to].pushed += 1;
}

/// One more piece was pulled from a rank.
pub(crate) fn count_pulled(tallies: &mut Vec<Tally>, sender: usize)
    requires room { (sender < length tallies.old.items)
        × ((tally_in tallies.old.items sender).pulled < 2 ^ 60) }
    ensures { (e : Entry) (p : Piece) → Counts e tallies.old.items
        → Counts (with_lane (one_pulled p) sender e) tallies.new.items }
{
    tallies[sender].pulled += 1;
}

/// The next place for a rank was found full.
pub(crate) fn count_full(tallies: &mut Vec<Tally>, to: usize)
    requires { to < length tallies.old.items }
    ensures { (e : Entry) → Counts e tallies.old.items
        → Counts (with_lane one_full to e) tallies.new.items }
{
    let count = &mut tallies[to].full;
    *count = count.saturating_add(1);
}

/// The next place of a rank was found empty.
pub(crate) fn count_empty(tallies: &mut Vec<Tally>, sender: usize)
    requires { sender < length tallies.old.items }
    ensures { (e : Entry) → Counts e tallies.old.items
        → Counts (with_lane one_empty sender e) tallies.new.items }
{
    let count = &mut tallies[sender].empty;
    *count = count.saturating_add(1);
}
