//! The table, and what a seat knows.

ghost use Rattle.std.specs.Prelude.{◌≡◌};
ghost use Rattle.nm_chain.specs.Plays.{raised, head_miss, link_miss};

use crate::seats::View;
use crate::table::items::Item;
use crate::table::parcels::Parcel;
use crate::table::slots::Slot;
use atomic_table::{Seat, Table, TableRule};
use nm_types::Shape;
use std::alloc::Global;
use std::collections::LinkedList;

/// What a rank has of one cell. No value of it is made.
pub enum Hand<I> {
    Away,
    /// It is its owner's, stands in no queue, and its slot is at home and empty.
    Loose,
    Held,
    /// Its link was cleared when it held this.
    Ready(Option<Parcel<I>>),
    /// Its enqueue into this queue found this tail.
    Entering(u64, u64),
}

/// The shadow head and the head of a queue, as its consumer knows them.
#[derive(Clone, Copy)]
pub struct Heads {
    /// 0, or the number of the first cell plus 1.
    pub shadow: u64,
    /// 0, or what was last loaded from the head.
    pub seen: u64,
}

/// What the consumer's last steps on a queue told of its first cell. No value of it is made.
pub enum Look {
    /// Nothing.
    Fresh,
    /// Its link was loaded as 0, and so many times more.
    LinkEmpty(u64),
    /// Then the tail was another cell.
    TailElsewhere,
}

/// The last steps of a rank on its receive queue and on its free queue. No value of it is made.
pub struct Looks {
    pub receive: Look,
    pub free: Look,
}

/// The count plus 1, or where that is no 64-bit number, the count.
pub fn one_more(count: u64) -> u64
    ensures { result ≡ raised count }
{
    if count < u64::MAX { count + 1 } else { count }
}

/// How often a queue had nothing for its consumer. A count stands still at its last value.
#[derive(Clone, Copy)]
pub struct Misses {
    /// The head was loaded as 0.
    pub head_empty: u64,
    /// The link was loaded as 0, although the cell was not the last one.
    pub link_missing: u64,
}

impl Misses {
    /// Nothing was missed.
    pub fn new() -> Misses
        ensures { result ≡ record { head_empty = 0; link_missing = 0 } }
    {
        Misses {
            head_empty: 0,
            link_missing: 0,
        }
    }

    /// The head was loaded as 0 once more.
    pub fn after_head(self) -> Misses
        ensures { result ≡ head_miss self }
    {
        Misses {
            head_empty: one_more(self.head_empty),
            link_missing: self.link_missing,
        }
    }

    /// The link was loaded as 0 once more, although the cell was not the last one.
    pub fn after_link(self) -> Misses
        ensures { result ≡ link_miss self }
    {
        Misses {
            head_empty: self.head_empty,
            link_missing: one_more(self.link_missing),
        }
    }
}

/// What one rank knows. No value of it is made.
pub struct Entry<I> {
    pub rank: u64,
    pub ranks: u64,
    pub each: u64,
    pub hands: LinkedList<Hand<I>>,
    pub receive: Heads,
    pub free: Heads,
    /// What it put into receive queues, with the rank that each went to.
    pub put: LinkedList<(u64, Option<Parcel<I>>)>,
    pub got: LinkedList<Option<Parcel<I>>>,
    /// What it put into boxes, with the rank that each went to.
    pub put_box: LinkedList<(u64, Option<Parcel<I>>)>,
    pub got_box: LinkedList<Option<Parcel<I>>>,
    /// For each rank, whether its next box for it was found free and is not filled since.
    pub filling: LinkedList<bool>,
    /// For each rank, what was found in its next box and is not taken since.
    pub emptying: LinkedList<Option<Option<Parcel<I>>>>,
    /// What its last steps on each of its queues told of the first cell.
    pub looks: Looks,
    pub receive_missed: Misses,
    pub free_missed: Misses,
    /// For each rank, how often its next box was found full.
    pub box_full: LinkedList<u64>,
    /// For each rank, how often its next box did not have the awaited number.
    pub box_miss: LinkedList<u64>,
}

/// The rule of the linked table (`Rule`), and the view of its first seat.
pub struct Linked;

impl<I: Item> TableRule<Slot<I>, View<Entry<I>>, Shape> for Linked {
    ghost use Rattle.nm_chain.specs.Rule.{Rule, first_view};

    ghost holds = { Rule I.boxable };

    ghost first = { first_view };
}

/// The table that all ranks share.
pub type Board<I> = Table<Slot<I>, View<Entry<I>>, Shape, Linked, Global>;

/// A seat of it, which speaks for some of the ranks.
pub type BoardSeat<I> = Seat<Slot<I>, View<Entry<I>>>;
