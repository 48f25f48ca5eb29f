//! What a port counts of each rank, and how that changes.

ghost use Rattle.std.specs.Prelude.{◌≡◌, ◌<◌, ◌^◌, length};
ghost use Rattle.nm_cells.specs.Counted.{peer_in, with_peer, one_sent, one_arrived, one_boxed};
ghost use Rattle.nm_cells.specs.Counted.{one_opened, one_begun, one_unboxed, one_full, one_miss};
ghost use Rattle.nm_cells.specs.Counted.{one_passed};

use nm_chain::table::one_more;

/// What a port counts of one rank, which may be its own.
#[derive(Clone, Copy)]
pub struct Tally {
    /// The parcels that were sent to it: the number of the next one.
    pub sent: u64,
    /// The parcels of it that were passed on: the number of the next one.
    pub taken: u64,
    /// Of those that were sent to it, the ones that went by box.
    pub box_put: u64,
    /// Of those that came from it, the ones that came by box.
    pub box_got: u64,
    /// Whether its next box was found free and isn't filled since.
    pub filling: bool,
    /// Whether a parcel was found in its next box and isn't taken since.
    pub emptying: bool,
    /// Those that came from it by cell and weren't passed on.
    pub unpassed: u64,
    /// How often the next box for it was found full.
    pub box_full: u64,
    /// How often the next box of it didn't have the awaited number.
    pub box_miss: u64,
}

/// One more parcel was sent to a rank by cell.
pub(crate) fn count_sent(peers: &mut Vec<Tally>, to: usize)
    requires to { to < length peers.old.items }
    requires room { (peer_in peers.old.items to).sent < 2 ^ 60 }
    ensures { peers.new.items ≡ with_peer one_sent to peers.old.items }
{
    peers[to].sent += 1;
}

/// One more parcel of a rank came by cell.
pub(crate) fn count_arrived(peers: &mut Vec<Tally>, sender: usize)
    requires sender { sender < length peers.old.items }
    requires room { (peer_in peers.old.items sender).unpassed < 2 ^ 61 }
    ensures { peers.new.items ≡ with_peer one_arrived sender peers.old.items }
{
    peers[sender].unpassed += 1;
}

/// One more parcel was sent to a rank by box.
pub(crate) fn count_boxed(peers: &mut Vec<Tally>, to: usize)
    requires to { to < length peers.old.items }
    requires room { (peer_in peers.old.items to).sent < 2 ^ 60 }
    requires box_room { (peer_in peers.old.items to).box_put < 2 ^ 61 }
    ensures { peers.new.items ≡ with_peer one_boxed to peers.old.items }
{
    let peer = &mut peers[to];
    peer.sent += 1;
    peer.box_put += 1;
    peer.filling = false;
}

/// One more parcel of a rank came by box, and was passed on.
pub(crate) fn count_unboxed(peers: &mut Vec<Tally>, sender: usize)
    requires sender { sender < length peers.old.items }
    requires room { (peer_in peers.old.items sender).taken < 2 ^ 60 }
    requires box_room { (peer_in peers.old.items sender).box_got < 2 ^ 61 }
    ensures { peers.new.items ≡ with_peer one_unboxed sender peers.old.items }
{
    let peer = &mut peers[sender];
    peer.taken += 1;
    peer.box_got += 1;
    peer.emptying = false;
}

/// The next box for a rank is being filled.
pub(crate) fn note_filling(peers: &mut Vec<Tally>, to: usize)
    requires to { to < length peers.old.items }
    ensures { peers.new.items ≡ with_peer one_opened to peers.old.items }
{
    peers[to].filling = true;
}

/// The next box of a rank is being emptied.
pub(crate) fn note_emptying(peers: &mut Vec<Tally>, sender: usize)
    requires sender { sender < length peers.old.items }
    ensures { peers.new.items ≡ with_peer one_begun sender peers.old.items }
{
    peers[sender].emptying = true;
}

/// The next box for a rank was found full.
pub(crate) fn count_full(peers: &mut Vec<Tally>, to: usize)
    requires to { to < length peers.old.items }
    ensures { peers.new.items ≡ with_peer one_full to peers.old.items }
{
    let peer = &mut peers[to];
    peer.box_full = one_more(peer.box_full);
}

/// The next box of a rank didn't have the awaited number.
pub(crate) fn count_miss(peers: &mut Vec<Tally>, sender: usize)
    requires sender { sender < length peers.old.items }
    ensures { peers.new.items ≡ with_peer one_miss sender peers.old.items }
{
    let peer = &mut peers[sender];
    peer.box_miss = one_more(peer.box_miss);
}

/// A parcel of a rank that came by cell was passed on.
pub(crate) fn count_passed(peers: &mut Vec<Tally>, sender: usize)
    requires sender { sender < length peers.old.items }
    requires room { (peer_in peers.old.items sender).taken < 2 ^ 60 }
    requires some { 0 < (peer_in peers.old.items sender).unpassed }
    ensures { peers.new.items ≡ with_peer one_passed sender peers.old.items }
{
    let peer = &mut peers[sender];
    peer.taken += 1;
    peer.unpassed -= 1;
}
