//! The calls of a producer: the three steps of an enqueue.

ghost use Rattle.std.specs.Prelude.{◌≡◌, suc, ◌+◌, ◌-◌, ◌*◌, ◌<◌, ◌≤◌, ◌^◌, None};
ghost use Rattle.nm_chain.specs.Update.{update};
ghost use Rattle.nm_chain.specs.declared.table.table.Hand.TheVariants.{Away, Ready, Entering};
ghost use Rattle.nm_chain.specs.Rule.{hand};
ghost use Rattle.nm_chain.specs.Plays.{with_hand, with_put};
ghost use Rattle.nm_cells.specs.Ports.{Owns, Stays, knows, holding, HasCell, Awaits, MayJoin};
ghost use Rattle.nm_cells.specs.Ports.{queue_of, rank_of_queue, posted_in, sent_into, HasRoomFor};

use crate::cell::{Cell, Pending, Queue};
use crate::port::{Fabric, Port};
use crate::slots::bring_cell;
use crate::tallies::{Tally, count_sent};
use nm_chain::seats::Steps;
use nm_chain::table::{Clears, Finishes, Item, Swaps, head_word, link_word, tail_word};
use std::sync::ledger::Ledger;

impl<I: Item> Fabric<I> {
    // The number of a queue: the receive queues come first.
    fn number_of(&self, q: Queue) -> u64
        requires { rank_of_queue q < self.now.ranks }
        ensures value { result ≡ queue_of self.now.ranks q }
        ensures low { result < 2 * self.now.ranks }
    {
        match q {
            Queue::Receive(rank) => u64::from(rank),
            Queue::Free(rank) => self.ranks + u64::from(rank),
        }
    }
}

// A parcel is sent where the queue is a receive queue.
fn count_put(peers: &mut Vec<Tally>, q: Queue)
    requires { HasRoomFor q peers.old.items }
    ensures { peers.new.items ≡ sent_into q peers.old.items }
{
    if let Queue::Receive(to) = q {
        count_sent(peers, to as usize);
    }
}

/// Stores 0 in the link of a cell in hand, which is ready from then on with what it holds.
pub fn clear_link<L: Ledger, I: Item>(
    f: &Fabric<I>,
    port: &mut Port<I>,
    cell: &Cell,
    steps: &mut Steps<L>,
)
    requires owns { Owns f.now port.old }
    requires in_hand { HasCell f.now port.old cell.now }
    ensures stays { Stays f.now port.old port.new }
    ensures ready { knows port.new ≡ with_hand cell.now.number
        (Ready (holding port.old cell.now.number)) (knows port.old) }
    ensures holding { holding port.new ≡ holding port.old }
    ensures hands { port.new.hands ≡ port.old.hands }
    ensures cost { steps.new ≡ steps.old + 1 }
{
    steps.tick();
    let word = link_word(f.ranks, cell.number);
    f.board
        .shared
        .store::<Clears>(&mut port.seat, word as usize, 0);
}

/// Exchanges the tail of a queue for a cell that is ready. The cell is the queue's last one from
/// then on, and where it is a receive queue, its parcel is sent.
pub fn swap_tail<L: Ledger, I: Item>(
    f: &Fabric<I>,
    port: &mut Port<I>,
    q: Queue,
    cell: Cell,
    steps: &mut Steps<L>,
) -> Pending
    requires owns { Owns f.now port.old }
    requires in_hand { HasCell f.now port.old cell }
    requires ready { hand (knows port.old) cell.number
        ≡ Ready (holding port.old cell.number) }
    requires may { MayJoin f.now port.old q cell.number (holding port.old cell.number) }
    ensures stays { Stays f.now port.old port.new }
    ensures pending { (result.cell ≡ cell.number) × Awaits f.now port.new result }
    ensures put { knows port.new ≡ with_put (posted_in q (holding port.old cell.number))
        (with_hand cell.number (Entering (queue_of f.now.ranks q) result.found)
        (knows port.old)) }
    ensures given { holding port.new ≡ update (holding port.old) cell.number None }
    ensures hands { port.new.hands ≡ port.old.hands }
    ensures cost { steps.new ≡ steps.old + 1 }
{
    steps.tick();
    let Cell { number, owner: _ } = cell;
    bring_cell(port, number);
    let queue = f.number_of(q);
    let word = tail_word(f.ranks, queue);
    let found = f
        .board
        .shared
        .swap::<Swaps>(&mut port.seat, word as usize, number + 1);
    port.carried.remove(0);
    count_put(&mut port.peers, q);
    Pending {
        cell: number,
        queue,
        found,
    }
}

/// Stores the head of a queue that was empty. The enqueue is done.
pub fn store_head<L: Ledger, I: Item>(
    f: &Fabric<I>,
    port: &mut Port<I>,
    enqueue: Pending,
    steps: &mut Steps<L>,
)
    requires owns { Owns f.now port.old }
    requires awaits { Awaits f.now port.old enqueue × (enqueue.found ≡ 0) }
    ensures stays { Stays f.now port.old port.new }
    ensures finished { knows port.new ≡ with_hand enqueue.cell Away (knows port.old) }
    ensures holding { holding port.new ≡ holding port.old }
    ensures hands { port.new.hands + 1 ≡ port.old.hands }
    ensures cost { steps.new ≡ steps.old + 1 }
{
    steps.tick();
    let Pending {
        cell,
        queue,
        found: _,
    } = enqueue;
    let word = head_word(queue);
    f.board
        .shared
        .store::<Finishes>(&mut port.seat, word as usize, cell + 1);
    port.hands -= 1;
}

/// Stores the link of the cell that was at the tail. The enqueue is done.
pub fn store_link<L: Ledger, I: Item>(
    f: &Fabric<I>,
    port: &mut Port<I>,
    enqueue: Pending,
    steps: &mut Steps<L>,
)
    requires owns { Owns f.now port.old }
    requires awaits { Awaits f.now port.old enqueue × (0 < enqueue.found) }
    ensures stays { Stays f.now port.old port.new }
    ensures finished { knows port.new ≡ with_hand enqueue.cell Away (knows port.old) }
    ensures holding { holding port.new ≡ holding port.old }
    ensures hands { port.new.hands + 1 ≡ port.old.hands }
    ensures cost { steps.new ≡ steps.old + 1 }
{
    steps.tick();
    let Pending {
        cell,
        queue: _,
        found,
    } = enqueue;
    let word = link_word(f.ranks, found - 1);
    f.board
        .shared
        .store::<Finishes>(&mut port.seat, word as usize, cell + 1);
    port.hands -= 1;
}
