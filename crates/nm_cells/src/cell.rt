//! Queues by name, and the tokens of cells.

ghost use Rattle.std.specs.Prelude.{◌≡◌, ◌↔◌, ◌<◌, IsTrue};

/// A queue of cells: the receive queue or the free queue of a rank.
#[derive(Clone, Copy)]
pub enum Queue {
    Receive(u8),
    Free(u8),
}

/// A cell in a port's hand. It can't be dropped: each cell goes into a queue again.
pub struct Cell {
    pub(crate) number: u64,
    /// A rank. It is as wide as the number, so that a cell has no padding, and is handed over as two words.
    pub(crate) owner: u64,
    ghost owner_in_range: { owner < 256 },
}

/// An enqueue between its exchange of the tail and its last store. It can't be dropped.
pub struct Pending {
    pub(crate) cell: u64,
    pub(crate) queue: u64,
    pub(crate) found: u64,
}

impl Cell {
    /// The rank that the cell belongs to.
    pub fn owner(&self) -> u8
        ensures { result ≡ self.now.owner }
    {
        self.owner as u8
    }
}

impl Pending {
    /// Whether the exchange found no tail: the queue was empty, and the head is still to be stored.
    pub fn is_first(&self) -> bool
        ensures { IsTrue result ↔ (self.now.found ≡ 0) }
    {
        self.found == 0
    }
}
