//! What a port tells of itself.

ghost use Rattle.std.specs.Prelude.{◌≡◌, ◌≢◌, ◌+◌, ◌<◌, ◌↔◌, ◌^◌, IsTrue, Some, None};
ghost use Rattle.std.specs.Prelude.{option_copied, slice_index, length, IfOk, IfErr};
ghost use Rattle.nm_chain.specs.Update.{update};
ghost use Rattle.nm_cells.specs.Counted.{peer_in};
ghost use Rattle.nm_chain.specs.Rule.{put_to, from as from_rank};
ghost use Rattle.nm_chain.specs.Plays.{heads_of, missed_of, capped};
ghost use Rattle.nm_cells.specs.Ports.{knows, sent_by, taken_by, unpassed_by, IsOwn, IsUnpassed};
ghost use Rattle.nm_cells.specs.Ports.{own_of};

use crate::cell::Queue;
use crate::port::Port;
use crate::tallies::{Tally, count_passed};
use nm_chain::table::{Item, Parcel};
use nm_types::MAX_PACKETS;

impl<I: Item> Port<I> {
    // What is counted of a rank.
    pub(crate) fn peer(&self, rank: u8) -> Tally
        requires { rank < (knows self.now).ranks }
        ensures { result ≡ peer_in self.now.peers.items rank }
    {
        self.peers[rank as usize]
    }

    /// The rank whose port this is.
    pub fn rank(&self) -> u8
        ensures { result ≡ self.now.rank }
    {
        self.rank
    }

    /// How many parcels were sent to a rank: the number of the next one.
    pub fn sent(&self, to: u8) -> u64
        requires { to < (knows self.now).ranks }
        ensures { result ≡ sent_by self.now to }
    {
        self.peer(to).sent
    }

    /// How many parcels of a rank were passed on: the number of the next one.
    pub fn taken(&self, from: u8) -> u64
        requires { from < (knows self.now).ranks }
        ensures { result ≡ taken_by self.now from }
    {
        self.peer(from).taken
    }

    /// Of the parcels that were sent to a rank, how many went by box.
    pub fn box_put(&self, to: u8) -> u64
        requires { to < (knows self.now).ranks }
        ensures { result ≡ length (put_to to (knows self.now).put_box) }
    {
        self.peer(to).box_put
    }

    /// Of the parcels that came from a rank, how many came by box.
    pub fn box_got(&self, from: u8) -> u64
        requires { from < (knows self.now).ranks }
        ensures { result ≡ length (from_rank from (knows self.now).got_box) }
    {
        self.peer(from).box_got
    }

    /// Whether one more parcel may be sent to a rank: fewer than 2^60 were.
    pub fn has_room(&self, to: u8) -> bool
        requires { to < (knows self.now).ranks }
        ensures { IsTrue result ↔ (sent_by self.now to < 2 ^ 60) }
    {
        self.sent(to) < MAX_PACKETS
    }

    /// How many parcels the port took from its receive queue and didn't pass on. The count stands
    /// still at its last value.
    pub fn unpassed(&self) -> u64
        ensures { result ≡ capped (unpassed_by self.now) }
    {
        let mut total: u64 = 0;
        for i in 0..self.peers.len() {
            total = total.saturating_add(self.peers[i].unpassed);
        }
        total
    }

    /// How many cells, loose ones with them, pending enqueues and boxes at work the port has in
    /// hand.
    pub fn hands(&self) -> u32
        ensures { result ≡ self.now.hands }
    {
        self.hands
    }

    /// How often the head of an own queue was loaded as 0.
    pub fn head_empty(&self, q: Queue) -> u64
        requires { IsOwn self.now q }
        ensures { result ≡ (missed_of (own_of q) (knows self.now)).head_empty }
    {
        match q {
            Queue::Receive(_) => self.receive_missed.head_empty,
            Queue::Free(_) => self.free_missed.head_empty,
        }
    }

    /// How often the link of an own queue's first cell was loaded as 0, although it wasn't the
    /// last.
    pub fn link_missing(&self, q: Queue) -> u64
        requires { IsOwn self.now q }
        ensures { result ≡ (missed_of (own_of q) (knows self.now)).link_missing }
    {
        match q {
            Queue::Receive(_) => self.receive_missed.link_missing,
            Queue::Free(_) => self.free_missed.link_missing,
        }
    }

    /// Whether an own queue has a shadow head.
    pub fn has_shadow(&self, q: Queue) -> bool
        requires { IsOwn self.now q }
        ensures { IsTrue result ↔ (0 < (heads_of (own_of q) (knows self.now)).shadow) }
    {
        match q {
            Queue::Receive(_) => self.receive.shadow != 0,
            Queue::Free(_) => self.free.shadow != 0,
        }
    }

    /// How often the next box for a rank was found full.
    pub fn box_full(&self, to: u8) -> u64
        requires { to < (knows self.now).ranks }
        ensures { result ≡ slice_index (knows self.now).box_full to }
    {
        self.peer(to).box_full
    }

    /// How often the next box of a rank didn't have the awaited number.
    pub fn box_miss(&self, from: u8) -> u64
        requires { from < (knows self.now).ranks }
        ensures { result ≡ slice_index (knows self.now).box_miss from }
    {
        self.peer(from).box_miss
    }

    /// The parcel that the port holds.
    pub fn held(&self) -> Option<&Parcel<I>>
        ensures { option_copied result ≡ self.now.held }
    {
        self.held.get()
    }

    /// Holds a parcel that came by cell and wasn't passed on. Nothing was held. It answers the box of
    /// memory that was kept for it, if there was one.
    pub fn hold(&mut self, parcel: Box<Parcel<I>>) -> Option<Box<Parcel<I>>>
        requires nothing { self.old.held ≡ None }
        requires unpassed { IsUnpassed self.old parcel.value }
        ensures held { self.new.held ≡ Some parcel.value }
        ensures same { (self.new.seat ≡ self.old.seat) × (self.new.rank ≡ self.old.rank)
            × (self.new.hands ≡ self.old.hands) × (self.new.peers ≡ self.old.peers)
            × (self.new.loose ≡ self.old.loose) }
    {
        self.held.fill(parcel)
    }

    /// Gives the parcel that was held, and keeps a box of memory for the next one, if it is given. That
    /// comes back where nothing was held.
    pub fn unhold(
        &mut self,
        spare: Option<Box<Parcel<I>>>,
    ) -> Result<Box<Parcel<I>>, Option<Box<Parcel<I>>>>
        ensures value { IfOk result (λ parcel. self.old.held ≡ Some parcel.value) }
        ensures back { IfErr result (λ back. (back ≡ spare) × (self.old.held ≡ None)) }
        ensures nothing { self.new.held ≡ None }
        ensures same { (self.new.seat ≡ self.old.seat) × (self.new.rank ≡ self.old.rank)
            × (self.new.hands ≡ self.old.hands) × (self.new.peers ≡ self.old.peers)
            × (self.new.loose ≡ self.old.loose) }
    {
        if self.held.is_empty() {
            return Err(spare);
        }
        Ok(self.held.take(spare))
    }

    /// Passes a parcel on: it came by cell, it isn't held, and it is the next one of its sender.
    pub fn pass(&mut self, parcel: &Parcel<I>)
        requires unpassed { IsUnpassed self.old parcel.now }
        requires not_held { self.old.held ≢ Some parcel.now }
        requires next { parcel.now.seq ≡ taken_by self.old parcel.now.from }
        ensures taken { taken_by self.new ≡ update (taken_by self.old) parcel.now.from
            (taken_by self.old parcel.now.from + 1) }
        ensures unpassed { unpassed_by self.new + 1 ≡ unpassed_by self.old }
        ensures same { (self.new.seat ≡ self.old.seat) × (self.new.rank ≡ self.old.rank)
            × (self.new.hands ≡ self.old.hands) × (self.new.held ≡ self.old.held)
            × (self.new.loose ≡ self.old.loose) }
    {
        count_passed(&mut self.peers, parcel.from as usize);
    }
}
