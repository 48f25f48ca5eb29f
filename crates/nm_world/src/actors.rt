//! A process with its ports.

ghost use Rattle.nm_types.specs.declared.packets.Packet.{Packet};
ghost use Rattle.std.specs.Prelude.{◌≡◌, ◌+◌, ◌*◌, ◌<◌, ◌≤◌, ℕ, false, [], List, IfOk};
ghost use Rattle.nm_types.specs.Commands.{Numbered};
ghost use Rattle.nm_cells.specs.declared.port.Fabric.{Fabric};
ghost use Rattle.nm_cells.specs.Ports.{IsNew};
ghost use Rattle.nm_copyring.specs.declared.port.Rings.{Rings};
ghost use Rattle.nm_copyring.specs.Ports as ring_port;
ghost use Rattle.nm_rank.specs.Ranks.{IsFresh};
ghost use Rattle.nm_world.specs.Actors.{ActorInvariant, Environment, HasPorts, seat_of};
ghost use Rattle.nm_world.specs.Idle.{GaveNone, IsDue, FirstNotSent, Moves, NoPiece, NextNotPushed};
ghost use Rattle.nm_world.specs.Looks.{PolledUnlessWorn};

use crate::places::{Places, address, restore_header};
use nm_chain::seats::Steps;
use nm_copyring::{RingPort, Rings, can_pull, can_push, pull, push};
use nm_global::standing::laws::passing::{
    a_packet_is_taken, a_packet_leaves, a_piece_is_taken, a_piece_leaves,
};
use nm_global::standing::laws::stands::a_process_begins;
use nm_history::History;
use nm_port::carried::laws::{a_poll_carries, a_send_carries};
use nm_port::{Fabric, Port, Sent, poll, send};
use nm_process::Process;
use nm_rank::journal::Recorder;
use nm_types::{Memory, Packet, Piece, Shape};
use std::alloc::Global;
use std::sync::ledger::Ledger;

/// How many packets, pieces and commands of each kind a turn has room for.
pub(crate) const TURN: u32 = 64;

/// How many pieces of each rank a turn has room for.
const PULLS: u32 = 4;

/// A process with its ports, and places for what comes and goes. What records its history is a parameter.
#[derive(Drop)]
pub struct Actor<H: Recorder = History> {
    // in front, since it keeps apart
    pub(crate) places: Places,
    pub process: Process<H>,
    pub port: Port<Packet>,
    pub ring: RingPort,
}

impl<H: Recorder> Actor<H> {
    /// The actor of a port's rank, of which no command ran, in a run of these sizes. It has room for so many
    /// commands.
    ///
    /// With ports as `Fabric::build` and `Rings::build` give them for one rank, it stands at whatever
    /// commands.
    pub fn new(
        alloc: Global,
        shape: Shape,
        port: Port<Packet>,
        ring: RingPort,
        commands: usize,
    ) -> Result<Self, Memory>
        requires rank { port.rank < shape.ranks }
        ensures ports { IfOk result (λ a. (f : Fabric Packet) (r : Rings) →
            (f.ranks ≡ shape.ranks) × (r.ranks ≡ shape.ranks) →
            IsNew f port port.rank → ring_port.IsNew r ring port.rank → HasPorts f r a) }
        ensures stands { IfOk result (λ a. (f : Fabric Packet) (r : Rings) →
            (f.ranks ≡ shape.ranks) × (r.ranks ≡ shape.ranks) →
            IsNew f port port.rank → ring_port.IsNew r ring port.rank →
            (commands : List Numbered) (last : ℕ) → ActorInvariant commands last a) }
        ensures seat { IfOk result (λ a. seat_of a ≡ record { rank = port.rank; sizes = shape }) }
        ensures same { IfOk result (λ a. (a.port ≡ port) × (a.ring ≡ ring)) }
        ensures begins { IfOk result (λ a. (a.process.rank.me ≡ port.rank)
            × (a.process.rank.events ≡ []) × (a.process.at ≡ 0)) }
    {
        let process = Process::new(alloc, shape, port.rank(), commands)?;
        // no step: the law of a process at its start
        a_process_begins();
        Ok(Actor {
            process,
            port,
            ring,
            places: Places::blank(alloc),
        })
    }

    /// What happened at its rank, oldest first.
    pub fn history(&self) -> &H
        ensures { H.events result.now ≡ self.now.process.rank.events }
    {
        self.process.rank().history()
    }

    // Sends the first packet of the outbox, unless there is none or it comes back.
    fn send_next<L: Ledger>(
        &mut self,
        f: &Fabric<Packet>,
        steps: &mut Steps<L>,
    ) -> Result<bool, Memory>
        ghost here: { Environment }
        requires ports { HasPorts f.now here.rings self.old }
        ensures moves { IfOk result (λ moved.
            Moves (record here { fabric = f.now }) moved self.old self.new) }
        ensures back { IfOk result (λ moved. moved ≡ false → IsFresh self.old.process.rank →
            FirstNotSent self.old self.new) }
        ensures bound { steps.new ≤ steps.old + 9 }
    {
        let rank = self.process.rank();
        if rank.is_worn() {
            return Ok(false);
        }
        let Some(to) = rank.front_to() else {
            return Ok(false);
        };
        let mut parcel = self.places.parcel()?;
        rank.fill_front(&mut parcel.item);
        address(&mut parcel);
        let Sent { path: _, spare } = match send(f, &mut self.port, to, parcel, steps) {
            Ok(sent) => sent,
            Err(back) => {
                self.places.keep_letter(Some(back));
                return Ok(false);
            }
        };
        self.places.keep_letter(spare);
        self.process.pop_front();
        self.places.call(to);
        // no step: the laws of a packet that leaves
        a_send_carries::<Packet, Packet>();
        a_packet_leaves();
        Ok(true)
    }

    // Pushes the next piece, unless there is none or its place is full.
    fn push_next<L: Ledger>(&mut self, r: &Rings, steps: &mut Steps<L>) -> Result<bool, Memory>
        ghost here: { Environment }
        requires ports { HasPorts here.fabric r.now self.old }
        ensures moves { IfOk result (λ moved.
            Moves (record here { rings = r.now }) moved self.old self.new) }
        ensures back { IfOk result (λ moved. moved ≡ false → IsFresh self.old.process.rank →
            NextNotPushed self.old self.new) }
        ensures bound { steps.new ≤ steps.old + 3 }
    {
        let rank = self.process.rank();
        let Some(to) = rank.piece_to() else {
            return Ok(false);
        };
        if rank.is_worn() {
            return Ok(false);
        }
        if !can_push(r, &mut self.ring, to, steps) {
            return Ok(false);
        }
        let place = self.places.piece()?;
        Ok(self.push_front(r, place, steps))
    }

    // Pushes the next piece, which is built in this box, unless there is none or its place is full. The
    // rank isn't worn.
    fn push_front<L: Ledger>(
        &mut self,
        r: &Rings,
        mut piece: Box<Piece>,
        steps: &mut Steps<L>,
    ) -> bool
        ghost here: { Environment }
        requires ports { HasPorts here.fabric r.now self.old }
        requires fresh { IsFresh self.old.process.rank }
        ensures moves { Moves (record here { rings = r.now }) result self.old self.new }
        ensures back { result ≡ false → NextNotPushed self.old self.new }
        ensures bound { steps.new ≤ steps.old + 2 }
    {
        let Some(to) = self.process.rank().front_piece(&mut piece) else {
            self.places.keep(Some(piece));
            return false;
        };
        let spare = match push(r, &mut self.ring, to, piece, steps) {
            Ok(spare) => spare,
            Err(back) => {
                self.places.keep(Some(back));
                return false;
            }
        };
        self.process.pop_piece();
        self.places.keep(spare);
        self.places.call(to);
        // no step: the law of a piece that leaves
        a_piece_leaves();
        true
    }

    // Takes the next packet of a rank, if one came.
    pub(crate) fn take_next<L: Ledger>(
        &mut self,
        f: &Fabric<Packet>,
        steps: &mut Steps<L>,
    ) -> Result<bool, Memory>
        ghost here: { Environment }
        requires ports { HasPorts f.now here.rings self.old }
        ensures moves { IfOk result (λ moved.
            Moves (record here { fabric = f.now }) moved self.old self.new) }
        ensures none { IfOk result (λ moved. moved ≡ false → IsFresh self.old.process.rank →
            GaveNone self.old.process.rank.sizes.ranks self.old.port self.new.port) }
        ensures polled { IfOk result (λ _.
            PolledUnlessWorn self.old.process.rank.sizes.ranks 1 self.old self.new) }
        ensures bound { steps.new ≤ steps.old + (f.now.ranks + 10) }
    {
        let rank = self.process.rank();
        if rank.is_worn() {
            return Ok(false);
        }
        // no step: it tells that the history keeps its rules
        rank.history();
        let mut letter = match poll(f, &mut self.port, self.places.letter(), steps) {
            Ok(letter) => letter,
            Err(spare) => {
                self.places.keep_letter(spare);
                return Ok(false);
            }
        };
        restore_header(&mut letter);
        // no step: the laws of a packet that comes
        a_poll_carries::<Packet, Packet>();
        a_packet_is_taken();
        self.process.take_packet(&letter.item)?;
        self.places.count(letter.item.payload.as_slice().len());
        self.places.call(letter.from);
        self.places.keep_letter(Some(letter));
        Ok(true)
    }

    // Takes the next piece of a rank, if one is due and came.
    fn pull_next<L: Ledger>(
        &mut self,
        r: &Rings,
        sender: u8,
        steps: &mut Steps<L>,
    ) -> Result<bool, Memory>
        ghost here: { Environment }
        requires ports { HasPorts here.fabric r.now self.old }
        requires sender { sender < r.now.ranks }
        ensures moves { IfOk result (λ moved.
            Moves (record here { rings = r.now }) moved self.old self.new) }
        ensures none { IfOk result (λ moved. moved ≡ false → IsFresh self.old.process.rank →
            NoPiece self.old self.new sender) }
        ensures bound { steps.new ≤ steps.old + 3 }
    {
        let rank = self.process.rank();
        if !rank.is_piece_due(sender) {
            return Ok(false);
        }
        if rank.is_worn() {
            return Ok(false);
        }
        if !can_pull(r, &mut self.ring, sender, steps) {
            return Ok(false);
        }
        self.pull_due(r, sender, steps)
    }

    // Takes the next piece of a rank, if it came. It is due, and the rank isn't worn.
    fn pull_due<L: Ledger>(
        &mut self,
        r: &Rings,
        sender: u8,
        steps: &mut Steps<L>,
    ) -> Result<bool, Memory>
        ghost here: { Environment }
        requires ports { HasPorts here.fabric r.now self.old }
        requires sender { sender < r.now.ranks }
        requires due { IsDue self.old.process.rank sender }
        requires fresh { IsFresh self.old.process.rank }
        ensures moves { IfOk result (λ moved.
            Moves (record here { rings = r.now }) moved self.old self.new) }
        ensures none { IfOk result (λ moved. moved ≡ false → NoPiece self.old self.new sender) }
        ensures bound { steps.new ≤ steps.old + 2 }
    {
        let piece = match pull(r, &mut self.ring, sender, self.places.spare(), steps) {
            Ok(piece) => piece,
            Err(spare) => {
                self.places.keep(spare);
                return Ok(false);
            }
        };
        // no step: the law of a piece that comes
        a_piece_is_taken();
        self.process.take_piece(&piece)?;
        self.places.count(piece.bytes.as_slice().len());
        self.places.keep(Some(piece));
        self.places.call(sender);
        Ok(true)
    }

    // Sends up to so many packets. It answers whether any was sent.
    pub(crate) fn send_all<L: Ledger>(
        &mut self,
        f: &Fabric<Packet>,
        steps: &mut Steps<L>,
    ) -> Result<bool, Memory>
        ghost here: { Environment }
        requires ports { HasPorts f.now here.rings self.old }
        ensures moves { IfOk result (λ moved.
            Moves (record here { fabric = f.now }) moved self.old self.new) }
        ensures back { IfOk result (λ moved. moved ≡ false → IsFresh self.old.process.rank →
            FirstNotSent self.old self.new) }
        ensures bound { steps.new ≤ steps.old + 64 * 9 }
    {
        for sent in 0..TURN {
            if !self.send_next(f, steps)? {
                return Ok(sent > 0);
            }
        }
        Ok(true)
    }

    // Takes up to so many packets. It answers whether any was taken.
    pub(crate) fn take_all<L: Ledger>(
        &mut self,
        f: &Fabric<Packet>,
        steps: &mut Steps<L>,
    ) -> Result<bool, Memory>
        ghost here: { Environment }
        requires ports { HasPorts f.now here.rings self.old }
        ensures moves { IfOk result (λ moved.
            Moves (record here { fabric = f.now }) moved self.old self.new) }
        ensures none { IfOk result (λ moved. moved ≡ false → IsFresh self.old.process.rank →
            GaveNone self.old.process.rank.sizes.ranks self.old.port self.new.port) }
        ensures polled { IfOk result (λ _.
            PolledUnlessWorn self.old.process.rank.sizes.ranks 1 self.old self.new) }
        ensures bound { steps.new ≤ steps.old + 64 * (f.now.ranks + 10) }
    {
        for took in 0..TURN {
            if !self.take_next(f, steps)? {
                return Ok(took > 0);
            }
        }
        Ok(true)
    }

    // Polls up to so often, until a packet is taken. It answers whether one was.
    pub(crate) fn take_soon<L: Ledger>(
        &mut self,
        f: &Fabric<Packet>,
        polls: u32,
        steps: &mut Steps<L>,
    ) -> Result<bool, Memory>
        ghost here: { Environment }
        requires ports { HasPorts f.now here.rings self.old }
        ensures moves { IfOk result (λ moved.
            Moves (record here { fabric = f.now }) moved self.old self.new) }
    {
        for _poll in 0..polls {
            let took = self.take_next(f, steps)?;
            if took {
                return Ok(true);
            }
        }
        Ok(false)
    }

    // Pushes up to so many pieces. It answers whether any was pushed.
    pub(crate) fn push_all<L: Ledger>(
        &mut self,
        r: &Rings,
        steps: &mut Steps<L>,
    ) -> Result<bool, Memory>
        ghost here: { Environment }
        requires ports { HasPorts here.fabric r.now self.old }
        ensures moves { IfOk result (λ moved.
            Moves (record here { rings = r.now }) moved self.old self.new) }
        ensures back { IfOk result (λ moved. moved ≡ false → IsFresh self.old.process.rank →
            NextNotPushed self.old self.new) }
        ensures bound { steps.new ≤ steps.old + 64 * 3 }
    {
        for pushed in 0..TURN {
            if !self.push_next(r, steps)? {
                return Ok(pushed > 0);
            }
        }
        Ok(true)
    }

    // Takes up to so many pieces of a rank. It answers whether any was taken.
    fn pull_some<L: Ledger>(
        &mut self,
        r: &Rings,
        sender: u8,
        steps: &mut Steps<L>,
    ) -> Result<bool, Memory>
        ghost here: { Environment }
        requires ports { HasPorts here.fabric r.now self.old }
        requires sender { sender < r.now.ranks }
        ensures moves { IfOk result (λ moved.
            Moves (record here { rings = r.now }) moved self.old self.new) }
        ensures none { IfOk result (λ moved. moved ≡ false → IsFresh self.old.process.rank →
            NoPiece self.old self.new sender) }
        ensures bound { steps.new ≤ steps.old + 4 * 3 }
    {
        for pulled in 0..PULLS {
            if !self.pull_next(r, sender, steps)? {
                return Ok(pulled > 0);
            }
        }
        Ok(true)
    }

    // Takes pieces of each rank, where one of any rank is due. It answers whether any was taken.
    pub(crate) fn pull_all<L: Ledger>(
        &mut self,
        f: &Fabric<Packet>,
        r: &Rings,
        steps: &mut Steps<L>,
    ) -> Result<bool, Memory>
        ghost here: { Environment }
        requires ranks { f.now.ranks ≡ here.fabric.ranks }
        requires ports { HasPorts here.fabric r.now self.old }
        ensures moves { IfOk result (λ moved.
            Moves (record here { rings = r.now }) moved self.old self.new) }
        ensures none { IfOk result (λ moved. moved ≡ false → IsFresh self.old.process.rank →
            (i : ℕ) → i < f.now.ranks → NoPiece self.old self.new i) }
        ensures bound { steps.new ≤ steps.old + f.now.ranks * 12 }
    {
        if !self.process.rank().is_any_piece_due() {
            return Ok(false);
        }
        let mut moved = false;
        for sender in 0..f.ranks() {
            let one = self.pull_some(r, sender, steps)?;
            moved = moved | one;
        }
        Ok(moved)
    }
}
