//! A fabric that is closed.

ghost use Rattle.std.specs.Prelude.{length, map};
ghost use Rattle.nm_cells.specs.PathLists.{seen_in, Tallied};

use crate::tallies::Tally;
use atomic_table::Badge;
use nm_chain::remains::Remains;
use nm_chain::seats::View;
use nm_chain::table::{Entry, Item, Slot};
use nm_types::Account;

/// A fabric that is closed. It keeps what its ports knew, of which no value is made, and what they
/// counted. It keeps its table's memory, too, and lets it go where it is dropped.
#[derive(Drop)]
pub struct Closed<I> {
    pub(crate) badge: Badge<View<Entry<I>>>,
    pub(crate) cells: Account,
    /// What each port counted of each rank, in rank order.
    pub(crate) counted: Vec<Vec<Tally>>,
    pub(crate) remains: Remains<Slot<I>>,
    pub ghost tallied: { Tallied (seen_in badge.views) (map (λ v. v.items) counted.items)
        (length (seen_in badge.views)) },
}

impl<I: Item> Closed<I> {
    ghost use Rattle.std.specs.Prelude.{◌≡◌, ◌<◌};
    ghost use Rattle.nm_cells.specs.Counted.{peer_in};
    ghost use Rattle.nm_cells.specs.PathLists.{peers_in};
    ghost use Rattle.nm_cells.specs.ClosedLists.{counted, ranks_of, sent_list, taken_list};

    /// All cells, and those that were in their owners' free queues.
    pub fn account(&self) -> Account
        ensures { result ≡ self.now.cells }
    {
        self.cells
    }

    // What the rank `of` counted of the rank `with`.
    fn peer(&self, of: u8, with: u8) -> Tally
        requires { (of < ranks_of self.now) × (with < ranks_of self.now) }
        ensures { result ≡ peer_in (peers_in (counted self.now) of) with }
    {
        self.counted[of as usize][with as usize]
    }

    /// How many parcels the rank `from` sent to the rank `to`.
    pub fn sent(&self, from: u8, to: u8) -> u64
        requires { (from < ranks_of self.now) × (to < ranks_of self.now) }
        ensures { result ≡ length (sent_list self.now from to) }
    {
        self.peer(from, to).sent
    }

    /// How many parcels of the rank `from` the rank `to` passed on.
    pub fn taken(&self, from: u8, to: u8) -> u64
        requires { (from < ranks_of self.now) × (to < ranks_of self.now) }
        ensures { result ≡ length (taken_list self.now from to) }
    {
        self.peer(to, from).taken
    }
}
