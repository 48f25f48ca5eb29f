//! The places of an actor for what comes and goes.

ghost use Rattle.std.specs.Prelude.{◌≡◌};
ghost use Rattle.nm_world.specs.Parcels.{packet_of, parcel_of};

use nm_chain::table::Parcel;
use nm_crews::bells::{Bells, bit_of};
use nm_crews::blocks;
use nm_types::{Memory, Packet, Piece};
use std::alloc::Global;
use std::marker::Model;

/// Who is told which ranks may have something to do.
pub(crate) trait Listens {
    /// Is told of these, by this one. It answers the places of those that are in the crew of this one.
    fn told(&self, own: u8, ranks: u64) -> u64;
}

impl Listens for Bells {
    fn told(&self, own: u8, ranks: u64) -> u64 {
        self.ring(own, ranks)
    }
}

/// Nobody is told, since whoever makes the turns knows when.
#[derive(Clone, Copy)]
pub(crate) struct Silence;

impl Listens for Silence {
    fn told(&self, _own: u8, _ranks: u64) -> u64 {
        0
    }
}

/// Boxes of memory for a packet and for a piece, which come and go. They stay as long as their actor: a
/// box is made for the first packet or piece, and again only where a cell, a fastbox or a place of the
/// rings is filled for the first time. A turn in which nothing moves writes to none. Besides which ranks
/// something was sent or pushed to, or taken or pulled from. A contract sees nothing of what is in them.
pub(crate) struct Places {
    // keeps what is behind it out of the lines of memory of the player before, which another crew may have
    _apart: [u64; 16],
    // for the next packet, if there is one
    letter: Option<Box<Parcel<Packet>>>,
    // for the next piece, if there is one
    spare: Option<Box<Piece>>,
    // bit k is rank k's
    calls: u64,
    // how many commands ran, and packets and pieces came, in this turn
    done: u32,
    // how many turns more are those of a stream
    stream: u32,
    // the places of its crew's bell that may have something to do
    due: u64,
    // how many bytes came since memory was last asked for ahead
    came: usize,
    alloc: Global,
}

impl Drop for Places {
    fn drop(self) {
        let Places {
            _apart: _,
            letter: _,
            spare: _,
            calls: _,
            done: _,
            stream: _,
            due: _,
            came: _,
            alloc: _,
        } = self;
    }
}

impl Model for Places {
    ghost Value = { Unit {0} };

    ghost view = { λ _. tt };
}

// How many bytes of memory stand for whatever comes, beside its body.
const EACH: usize = 256;

// How many commands run, and packets and pieces come, at most in a turn that only answers what came.
const FEW: u32 = 16;

// After a turn with more so many turns in which anything is done are those of a stream.
const STREAM: u32 = 1024;

// A box with nothing of use in it.
fn new_box(alloc: Global) -> Result<Box<Piece>, Memory> {
    match Box::new(alloc, Piece::blank()) {
        Ok(piece) => Ok(piece),
        Err(_) => Err(Memory),
    }
}

// The same for a packet.
fn new_letter(alloc: Global) -> Result<Box<Parcel<Packet>>, Memory> {
    let blank = Parcel {
        from: 0,
        seq: 0,
        item: Packet::blank(),
    };
    match Box::new(alloc, blank) {
        Ok(letter) => Ok(letter),
        Err(_) => Err(Memory),
    }
}

/// Gives a parcel the header of the packet in it.
pub(crate) fn address(letter: &mut Parcel<Packet>)
    ensures { letter.new ≡ parcel_of letter.old.item }
{
    letter.from = letter.item.from;
    letter.seq = letter.item.seq;
}

/// Gives the packet in a parcel the parcel's header.
pub(crate) fn restore_header(letter: &mut Parcel<Packet>)
    ensures { letter.new.item ≡ packet_of letter.old }
{
    letter.item.from = letter.from;
    letter.item.seq = letter.seq;
}

impl Places {
    /// Places with nothing of use in them.
    pub(crate) fn blank(alloc: Global) -> Places {
        Places {
            _apart: [0; 16],
            letter: None,
            spare: None,
            calls: 0,
            done: 0,
            stream: 0,
            due: 0,
            came: 0,
            alloc,
        }
    }

    /// A box for a packet: the one that is kept, or a new one.
    pub(crate) fn parcel(&mut self) -> Result<Box<Parcel<Packet>>, Memory> {
        match self.letter.take() {
            Some(letter) => Ok(letter),
            None => new_letter(self.alloc),
        }
    }

    /// The box for a packet, if there is one.
    pub(crate) fn letter(&mut self) -> Option<Box<Parcel<Packet>>> {
        self.letter.take()
    }

    /// Keeps a box for the next packet.
    pub(crate) fn keep_letter(&mut self, letter: Option<Box<Parcel<Packet>>>) {
        self.letter = letter;
    }

    /// A box for a piece: the spare one, or a new one.
    pub(crate) fn piece(&mut self) -> Result<Box<Piece>, Memory> {
        match self.spare.take() {
            Some(piece) => Ok(piece),
            None => new_box(self.alloc),
        }
    }

    /// The spare box, if there is one.
    pub(crate) fn spare(&mut self) -> Option<Box<Piece>> {
        self.spare.take()
    }

    /// Keeps a box as the spare one.
    pub(crate) fn keep(&mut self, spare: Option<Box<Piece>>) {
        self.spare = spare;
    }

    /// Counts a command that ran, or what came with so many bytes. For each block of a rank that came one is asked
    /// for ahead.
    pub(crate) fn count(&mut self, bytes: usize) {
        self.done = self.done.saturating_add(1);
        self.came = self.came.saturating_add(bytes).saturating_add(EACH);
        if self.came >= blocks::RANK {
            self.came = 0;
            blocks::ask_for_rank(self.alloc);
        }
    }

    /// Notes that a rank may have something to do.
    pub(crate) fn call(&mut self, rank: u8) {
        self.calls = self.calls | bit_of(rank);
    }

    /// Rings for the ranks of which that was noted since the last time. Those of the crew of this rank are
    /// noted as due.
    pub(crate) fn tell<B: Listens>(&mut self, own: u8, bells: &B) {
        if self.calls == 0 {
            return;
        }
        self.due = self.due | bells.told(own, self.calls);
        self.calls = 0;
    }

    /// Ends a turn. It answers the places in the bell of its crew that were noted as due in it.
    pub(crate) fn take_due(&mut self) -> u64 {
        if self.done > FEW {
            self.stream = STREAM;
        } else if self.done > 0 {
            self.stream = self.stream.saturating_sub(1);
        }
        self.done = 0;
        let due = self.due;
        self.due = 0;
        due
    }

    /// Whether more than a few calls were under way a short time ago.
    pub(crate) fn is_stream(&self) -> bool {
        self.stream > 0
    }

    /// The allocator.
    pub(crate) fn allocator(&self) -> Global {
        self.alloc
    }
}
