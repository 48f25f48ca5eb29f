//! What is looked up of a history.

ghost use Rattle.std.specs.Prelude.{IfOk};
ghost use Rattle.nm_lookups.specs.Placed.{AreByNumber, AreCame, AreGone, AreIncoming, AreOutgoing};
ghost use Rattle.nm_lookups.specs.Placed.{ArePlaces, AreRecalled, AreSettled};

use crate::firsts::{Message, firsts, numbered_firsts};
use crate::kinds::{
    Arrivals, AskedSends, Askings, Cancels, Claims, Late, LineClaims, Outs, Recalls, Refused,
    Sends, Starts, Undone, Wholes, Withdrawn,
};
use indexmap::IndexMap;
use nm_history::Event;
use nm_types::Memory;
use std::alloc::Global;

/// The first places at which the messages of other ranks came.
pub struct Came {
    pub arrivals: IndexMap<Message, usize>,
    pub askings: IndexMap<Message, usize>,
    pub wholes: IndexMap<Message, usize>,
}

impl Drop for Came {
    fn drop(self) {
        let Came {
            arrivals: _,
            askings: _,
            wholes: _,
        } = self;
    }
}

impl Came {
    fn of(alloc: Global, events: &[Event]) -> Result<Came, Memory>
        ensures { IfOk result (AreCame events.now) }
    {
        let arrivals = firsts::<Arrivals>(alloc, events)?;
        let askings = firsts::<Askings>(alloc, events)?;
        let wholes = firsts::<Wholes>(alloc, events)?;
        Ok(Came {
            arrivals,
            askings,
            wholes,
        })
    }
}

/// The first places at which it was settled what becomes of the messages of other ranks.
pub struct Settled {
    pub withdrawn: IndexMap<Message, usize>,
    pub refused: IndexMap<Message, usize>,
    pub claims: IndexMap<Message, usize>,
}

impl Drop for Settled {
    fn drop(self) {
        let Settled {
            withdrawn: _,
            refused: _,
            claims: _,
        } = self;
    }
}

impl Settled {
    fn of(alloc: Global, events: &[Event]) -> Result<Settled, Memory>
        ensures { IfOk result (AreSettled events.now) }
    {
        let withdrawn = firsts::<Withdrawn>(alloc, events)?;
        let refused = firsts::<Refused>(alloc, events)?;
        let claims = firsts::<Claims>(alloc, events)?;
        Ok(Settled {
            withdrawn,
            refused,
            claims,
        })
    }
}

/// The first places of what happens to the messages of other ranks.
pub struct Incoming {
    pub came: Came,
    pub settled: Settled,
}

impl Drop for Incoming {
    fn drop(self) {
        let Incoming {
            came: _,
            settled: _,
        } = self;
    }
}

impl Incoming {
    fn of(alloc: Global, events: &[Event]) -> Result<Incoming, Memory>
        ensures { IfOk result (AreIncoming events.now) }
    {
        let came = Came::of(alloc, events)?;
        let settled = Settled::of(alloc, events)?;
        Ok(Incoming { came, settled })
    }
}

/// The first places at which messages to other ranks were sent and left.
pub struct Gone {
    pub sends: IndexMap<Message, usize>,
    pub asked: IndexMap<Message, usize>,
    pub outs: IndexMap<Message, usize>,
}

impl Drop for Gone {
    fn drop(self) {
        let Gone {
            sends: _,
            asked: _,
            outs: _,
        } = self;
    }
}

impl Gone {
    fn of(alloc: Global, events: &[Event]) -> Result<Gone, Memory>
        ensures { IfOk result (AreGone events.now) }
    {
        let sends = firsts::<Sends>(alloc, events)?;
        let asked = firsts::<AskedSends>(alloc, events)?;
        let outs = firsts::<Outs>(alloc, events)?;
        Ok(Gone { sends, asked, outs })
    }
}

/// The first places at which messages to other ranks were recalled, and the answers came.
pub struct Recalled {
    pub recalls: IndexMap<Message, usize>,
    pub undone: IndexMap<Message, usize>,
    pub late: IndexMap<Message, usize>,
}

impl Drop for Recalled {
    fn drop(self) {
        let Recalled {
            recalls: _,
            undone: _,
            late: _,
        } = self;
    }
}

impl Recalled {
    fn of(alloc: Global, events: &[Event]) -> Result<Recalled, Memory>
        ensures { IfOk result (AreRecalled events.now) }
    {
        let recalls = firsts::<Recalls>(alloc, events)?;
        let undone = firsts::<Undone>(alloc, events)?;
        let late = firsts::<Late>(alloc, events)?;
        Ok(Recalled {
            recalls,
            undone,
            late,
        })
    }
}

/// The first places of what happens to the messages to other ranks.
pub struct Outgoing {
    pub gone: Gone,
    pub recalled: Recalled,
}

impl Drop for Outgoing {
    fn drop(self) {
        let Outgoing {
            gone: _,
            recalled: _,
        } = self;
    }
}

impl Outgoing {
    fn of(alloc: Global, events: &[Event]) -> Result<Outgoing, Memory>
        ensures { IfOk result (AreOutgoing events.now) }
    {
        let gone = Gone::of(alloc, events)?;
        let recalled = Recalled::of(alloc, events)?;
        Ok(Outgoing { gone, recalled })
    }
}

/// The first places of what happens to receives, by their number, and of what is done for a
/// command, by its line.
pub struct ByNumber {
    pub cancels: IndexMap<u64, usize>,
    pub starts: IndexMap<u64, usize>,
    pub claims: IndexMap<u64, usize>,
}

impl Drop for ByNumber {
    fn drop(self) {
        let ByNumber {
            cancels: _,
            starts: _,
            claims: _,
        } = self;
    }
}

impl ByNumber {
    fn of(alloc: Global, events: &[Event]) -> Result<ByNumber, Memory>
        ensures { IfOk result (AreByNumber events.now) }
    {
        let cancels = numbered_firsts::<Cancels>(alloc, events)?;
        let starts = numbered_firsts::<Starts>(alloc, events)?;
        let claims = numbered_firsts::<LineClaims>(alloc, events)?;
        Ok(ByNumber {
            cancels,
            starts,
            claims,
        })
    }
}

/// Where in a history each thing happened first.
pub struct Places {
    pub incoming: Incoming,
    pub outgoing: Outgoing,
    pub by_number: ByNumber,
}

impl Drop for Places {
    fn drop(self) {
        let Places {
            incoming: _,
            outgoing: _,
            by_number: _,
        } = self;
    }
}

impl Places {
    /// The first places in this history.
    pub fn of(alloc: Global, events: &[Event]) -> Result<Places, Memory>
        ensures { IfOk result (ArePlaces events.now) }
    {
        let incoming = Incoming::of(alloc, events)?;
        let outgoing = Outgoing::of(alloc, events)?;
        let by_number = ByNumber::of(alloc, events)?;
        Ok(Places {
            incoming,
            outgoing,
            by_number,
        })
    }
}
