//! Ranks that throw dice for each call, and mix each answer into the dice: so what a rank does depends on all that it
//! was told, and thereby on the order of the threads. `.ci/soak` runs them with many seeds, and judges each run.

ghost use Rattle.std.specs.Prelude.{◌≡◌, IfOk, length};

use nm_programs::Program;
use nm_programs::bodies::{generated, number};
use nm_programs::calls::{
    cancel, probe, probe_blocking, probe_matched, receive_matched, receive_of, send,
    send_synchronous, test, wait, within,
};
use nm_types::{Answer, Command, Memory, Peer, Shape, TagPick};
use std::alloc::Global;

const NAMES: u8 = 8;

const HANDLES: u8 = 2;

const TAGS: u8 = 3;

const CONTEXTS: u8 = 2;

// The lengths of bodies, and the capacities of receives.
const LENGTHS: [u32; 8] = [0, 1, 64, 65, 256, 257, 1025, 9000];

/// A run: its shape, where the dice begin, and how many calls each rank makes.
#[derive(Clone, Copy)]
pub struct Dice {
    pub shape: Shape,
    seed: u64,
    calls: u32,
}

// What a rank does next.
#[derive(Clone, Copy)]
enum Deed {
    Send,
    SendNumber,
    SendSynchronous,
    Receive,
    Test,
    Wait,
    Probe,
    Cancel,
    Claim,
    ReceiveClaimed,
}

const DEEDS: [Deed; 16] = [
    Deed::Send,
    Deed::Send,
    Deed::SendNumber,
    Deed::SendSynchronous,
    Deed::Receive,
    Deed::Receive,
    Deed::Receive,
    Deed::Test,
    Deed::Test,
    Deed::Wait,
    Deed::Wait,
    Deed::Probe,
    Deed::Probe,
    Deed::Cancel,
    Deed::Claim,
    Deed::ReceiveClaimed,
];

/// A rank that throws dice.
#[derive(Drop)]
pub struct Thrower {
    alloc: Global,
    ranks: u8,
    dice: u64,
    // of 256 waits and probes how many block
    patience: u8,
    // how many calls it has still to make
    left: u32,
    // the source and the tag of the message that a probe saw last
    seen: Option<(u8, u16)>,
}

// What an answer adds to the dice.
fn weight(answer: &Answer) -> u64 {
    match answer {
        Answer::Started => 1,
        Answer::Busy => 2,
        Answer::Null => 3,
        Answer::No => 4,
        Answer::Nothing => 5,
        Answer::Sent => 6,
        Answer::Cancelled => 7,
        Answer::Done => 8,
        Answer::Late => 9,
        Answer::Asked => 10,
        Answer::Got { from, .. } => 16 + u64::from(*from),
        Answer::Cut { from, .. } => 512 + u64::from(*from),
        Answer::Seen(seen) => 1024 + u64::from(seen.from),
    }
}

impl Dice {
    /// The run that a word `dice:SEED:RANKS:CALLS:CELLS:EAGER` asks for.
    pub fn read(word: &str) -> Option<Dice> {
        let mut parts = word.split(':');
        if parts.next()? != "dice" {
            return None;
        }
        let seed = parts.next()?.parse::<u64>().ok()?;
        let ranks = parts.next()?.parse::<u8>().ok()?;
        let calls = parts.next()?.parse::<u32>().ok()?;
        let cells = parts.next()?.parse::<u8>().ok()?;
        let eager = parts.next()?.parse::<u16>().ok()?;
        let shape = Shape::new(ranks, cells, eager).ok()?;
        Some(Dice { shape, seed, calls })
    }

    /// Its ranks.
    pub fn throwers(self, alloc: Global) -> Result<Vec<Thrower>, Memory>
        ensures { IfOk result (λ v. length v.items ≡ self.shape.ranks) }
    {
        let mut throwers = Vec::new(alloc);
        for me in 0..self.shape.ranks() {
            throwers.push(Thrower::new(alloc, me, self))?;
        }
        Ok(throwers)
    }
}

impl Thrower {
    fn new(alloc: Global, me: u8, dice: Dice) -> Thrower {
        Thrower {
            alloc,
            ranks: dice.shape.ranks(),
            dice: dice.seed.wrapping_mul(256).wrapping_add(u64::from(me)),
            patience: (dice.seed % 4 * 64) as u8,
            left: dice.calls,
            seen: None,
        }
    }

    // Mixes a number into the dice (Knuth's generator of 64 bits).
    fn mix(&mut self, number: u64) {
        self.dice = self
            .dice
            .wrapping_add(number)
            .wrapping_mul(6364136223846793005)
            .wrapping_add(1442695040888963407);
    }

    // A throw: a number below 256.
    fn throw(&mut self) -> u8 {
        self.mix(0);
        (self.dice / 1099511627776 % 256) as u8
    }

    // A number below another one that is not 0.
    fn below(&mut self, count: u8) -> u8 {
        let throw = self.throw();
        throw.checked_rem(count).unwrap_or(0)
    }

    fn length(&mut self) -> u32 {
        let place = usize::from(self.below(8));
        LENGTHS.get(place).copied().unwrap_or(0)
    }

    // A source, which is any of all in one of three throws.
    fn source(&mut self) -> Peer {
        if self.throw() < 85 {
            return Peer::Any;
        }
        Peer::One(self.below(self.ranks))
    }

    fn tag(&mut self) -> u16 {
        u16::from(self.below(TAGS))
    }

    fn tag_picked(&mut self) -> TagPick {
        if self.throw() < 85 {
            return TagPick::Any;
        }
        TagPick::One(self.tag())
    }

    // The receive of what was seen last, or of anything.
    fn receive(&mut self, name: u16) -> Command {
        let capacity = self.length();
        match self.seen.take() {
            Some((from, tag)) => receive_of(name, Peer::One(from), TagPick::One(tag), capacity),
            None => receive_of(name, self.source(), self.tag_picked(), capacity),
        }
    }

    // A send of either sort, in which bytes are generated.
    fn send(&mut self, name: u16) -> Command {
        send(
            name,
            self.below(self.ranks),
            self.tag(),
            generated(self.length()),
        )
    }

    // The send of a number that no other send has.
    fn send_number(&mut self, name: u16) -> Result<Command, Memory> {
        let body = number(self.alloc, self.dice)?;
        Ok(send(name, self.below(self.ranks), self.tag(), body))
    }

    fn send_synchronous(&mut self, name: u16) -> Command {
        send_synchronous(
            name,
            self.below(self.ranks),
            self.tag(),
            generated(self.length()),
        )
    }

    // A wait, or a test where its patience ends.
    fn wait(&mut self, name: u16) -> Command {
        if self.throw() < self.patience {
            wait(name)
        } else {
            test(name)
        }
    }

    // A probe, which blocks as seldom as a wait of eight.
    fn probe(&mut self) -> Command {
        let from = self.source();
        let tag = self.tag_picked();
        if self.throw() < self.patience / 8 {
            probe_blocking(from, tag)
        } else {
            probe(from, tag)
        }
    }

    fn call(&mut self) -> Result<Command, Memory> {
        let place = usize::from(self.below(16));
        let name = u16::from(self.below(NAMES));
        let handle = u16::from(self.below(HANDLES));
        Ok(match DEEDS.get(place).copied().unwrap_or(Deed::Test) {
            Deed::Send => self.send(name),
            Deed::SendNumber => self.send_number(name)?,
            Deed::SendSynchronous => self.send_synchronous(name),
            Deed::Receive => self.receive(name),
            Deed::Test => test(name),
            Deed::Wait => self.wait(name),
            Deed::Probe => self.probe(),
            Deed::Cancel => cancel(name),
            Deed::Claim => probe_matched(handle, self.source(), self.tag_picked()),
            Deed::ReceiveClaimed => receive_matched(name, handle, self.length()),
        })
    }
}

impl Program for Thrower {
    ghost says = { λ p answer command q. Unit {0} };

    fn next(&mut self, answer: Option<&Answer>) -> Result<Option<Command>, Memory> {
        if let Some(answer) = answer {
            self.mix(weight(answer));
            if let Answer::Seen(seen) = answer {
                self.seen = Some((seen.from, seen.tag));
            }
        }
        if self.left == 0 {
            return Ok(None);
        }
        self.left -= 1;
        let context = self.below(CONTEXTS);
        let call = self.call()?;
        Ok(Some(within(context, call)))
    }
}
