//! What a rank knows of another by its packets.

ghost use Rattle.std.specs.Prelude.{◌≡◌, ◌≤◌, ◌==◌, ◌&&◌, true, false, [], List, length, not, IsTrue, OnOk};
ghost use Rattle.nm_history.specs.declared.events.Event.{Event};
ghost use Rattle.nm_history.specs.Continues.{continues as continues_lem};
ghost use Rattle.nm_history.specs.Continues.{has};
ghost use Rattle.nm_history.specs.Continues.{continues_stream as continues_stream_lem};
ghost use Rattle.nm_history.specs.Effects.{packet_events};
ghost use Rattle.nm_history.specs.Known.{learned, nothing_known};
ghost use Rattle.nm_eager.specs.Streams.{is_kept};
ghost use Rattle.nm_receiving.specs.Made.{all_made};
ghost use Rattle.nm_receiving.specs.StreamViews.{HasRoom, IsContinued, is_awaited, is_done_at_once};

use crate::streams::effects::{Made, arrival};
use crate::streams::numbers::Numbers;
use nm_eager::continues;
use nm_ghost::Trace;
use nm_types::{How, MAX_STAMP, Memory, Packet, What};
use std::alloc::Global;
use std::marker::Model;

/// From this stamp on a packet is a stray.
const WORN: u64 = MAX_STAMP - 15;

/// What the packets of one rank tell the rank that takes them.
///
/// Each call takes constant time, whatever came before; but a clearance or a withdrawal counts those that wait for
/// it, too, each of them once.
pub struct Stream {
    count: u64,
    // how many bytes the last message still lacks
    missing: u32,
    withdrawn: Numbers,
    cleared: Numbers,
    // The recalls that were answered, and those of them whose messages were withdrawn, only proofs read: what is
    // awaited the messages themselves tell.
    answered: Trace<u64>,
    undone: Trace<u64>,
}

impl Drop for Stream {
    fn drop(self) {
        let Stream {
            count: _,
            missing: _,
            withdrawn: _,
            cleared: _,
            answered: _,
            undone: _,
        } = self;
    }
}

impl Model for Stream {
    ghost use Rattle.nm_receiving.specs.StreamViews.{Told};

    ghost Value = { Told };

    ghost view = { λ s.
        record {
          known = record {
            count = s.count;
            missing = s.missing;
            withdrawn = s.withdrawn.numbers;
            cleared = s.cleared.numbers;
            answered = s.answered.items;
            undone = s.undone.items;
          };
          room = record {
            withdrawn = s.withdrawn.spare;
            cleared = s.cleared.spare;
          };
        } };
}

/// Whether a clearance continues: it is awaited, and has no bytes.
fn can_clear(awaited: bool, size: usize) -> bool
    ensures { result ≡ (awaited && size == 0) }
{
    awaited && size == 0
}

impl Stream {
    /// Nothing came.
    pub fn new(alloc: Global) -> Self
        ensures { result.known ≡ nothing_known }
    {
        Stream {
            count: 0,
            missing: 0,
            withdrawn: Numbers::new(alloc),
            cleared: Numbers::new(alloc),
            answered: Trace::new(),
            undone: Trace::new(),
        }
    }

    /// How many messages were announced. The next one has this number.
    pub fn count(&self) -> u64
        ensures { result ≡ self.now.known.count }
    {
        self.count
    }

    /// Whether a packet continues its stream, at a rank with this eager limit, in bytes.
    /// `awaited` is whether the rank awaits the packet, which only its own messages say: it clears
    /// one that waits for that, or answers a recall that has no answer.
    pub fn continues(&self, eager: u16, packet: &Packet, awaited: bool) -> bool
        ensures value { (h : List Event)
            → awaited ≡ is_awaited self.now.known h packet.now.from packet.now.what
            → result ≡ continues_lem eager self.now.known h packet.now }
        ensures continued { (h : List Event)
            → awaited ≡ is_awaited self.now.known h packet.now.from packet.now.what
            → IsTrue result → IsContinued self.now.known packet.now }
    {
        let size = packet.payload.as_slice().len();
        if packet.stamp >= WORN {
            return false;
        }
        match packet.what {
            What::Clear { .. } => can_clear(awaited, size),
            What::Withdrawn { n, done } => self.can_answer(awaited, n, done, size),
            _ => self.continues_own(eager, packet.what, size),
        }
    }

    /// Whether a recall can be answered so: that is awaited, and no cleared message is withdrawn.
    fn can_answer(&self, awaited: bool, n: u64, done: bool, size: usize) -> bool
        ensures { result
            ≡ (awaited && not (done && has self.now.known.cleared n) && size == 0) }
    {
        awaited && !(done && self.cleared.has(n)) && size == 0
    }

    /// Whether a packet of its sender's own messages continues, with a payload of this size.
    fn continues_own(&self, eager: u16, what: What, size: usize) -> bool
        ensures { result ≡ continues_stream_lem eager self.now.known what size }
    {
        match what {
            What::Withdraw { n } => {
                self.missing == 0 && n < self.count && !self.withdrawn.has(n) && size == 0
            }
            _ => continues(eager, self.count, self.missing, what, size),
        }
    }

    /// Makes room for what a packet tells. What is known stays.
    pub fn reserve(&mut self, what: What) -> Result<(), Memory>
        ensures ready { OnOk result (HasRoom self.new.room what) }
        ensures same { self.new.known ≡ self.old.known }
    {
        match what {
            What::Clear { .. } => self.cleared.reserve()?,
            What::Withdraw { .. } => self.withdrawn.reserve()?,
            What::Head { .. } | What::More { .. } | What::Ask { .. } | What::Withdrawn { .. } => {}
        }
        Ok(())
    }

    /// Learns what a packet tells that continues its stream. No more messages were announced than
    /// packets came before it.
    pub fn learn(&mut self, packet: &Packet)
        requires continues { IsContinued self.old.known packet.now }
        requires in_turn { self.old.known.count ≤ packet.now.seq }
        requires room { HasRoom self.old.room packet.now.what }
        ensures { self.new.known
            ≡ learned self.old.known packet.now.what (length packet.now.payload) }
    {
        let size = packet.payload.as_slice().len() as u32;
        match packet.what {
            What::Head { len, .. } => {
                self.count += 1;
                self.missing = len.saturating_sub(size);
            }
            What::More { .. } => self.missing = self.missing.saturating_sub(size),
            What::Ask { .. } => self.count += 1,
            What::Clear { n } => self.cleared.add(n),
            What::Withdraw { n } => self.withdrawn.add(n),
            What::Withdrawn { n, done } => {
                self.answered = self.answered.then(&n);
                if done {
                    self.undone = self.undone.then(&n);
                }
            }
        }
    }

    /// What a packet of a message makes happen that continues its stream, before it is learned, at a
    /// rank where what it asks for is done at once or is not. A packet of another kind makes no
    /// message arrive, and none whole.
    pub fn events(&self, packet: &Packet, done_at_once: bool) -> Made
        ensures message { (h : List Event)
            → done_at_once ≡ is_done_at_once h packet.now.from packet.now.what
            → is_kept packet.now.what ≡ true
            → all_made packet.now.from result ≡ packet_events self.now.known h packet.now.from
            packet.now.what (length packet.now.payload) }
        ensures other { is_kept packet.now.what ≡ false → all_made packet.now.from result ≡ [] }
    {
        let from = packet.from;
        let size = packet.payload.as_slice().len() as u32;
        let next = self.count;
        match packet.what {
            What::Head { tag, ctx, len } => Made {
                arrival: Some(arrival(next, from, tag, ctx, len, How::Eager)),
                n: next,
                whole: len == size,
            },
            What::More { n } => Made {
                arrival: None,
                n,
                whole: self.missing == size,
            },
            What::Ask { tag, ctx, len } => Made {
                arrival: Some(arrival(next, from, tag, ctx, len, How::Ask)),
                n: next,
                whole: len == 0 && done_at_once,
            },
            What::Clear { n } | What::Withdraw { n } | What::Withdrawn { n, .. } => Made {
                arrival: None,
                n,
                whole: false,
            },
        }
    }
}
