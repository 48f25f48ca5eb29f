//! Many messages from rank 0 to rank 1, in batches: both start the calls of a batch and wait for each, and rank 1
//! then says that it has them. So neither has more than a batch before it, however many there are.

ghost use Rattle.std.specs.Prelude.{◌≡◌, length, IfOk};

use nm_programs::Program;
use nm_programs::bodies::generated;
use nm_programs::calls::{receive, send, wait};
use nm_types::{Answer, Command, Memory};
use std::alloc::Global;

const SENDER: u8 = 0;

const RECEIVER: u8 = 1;

const TAG: u16 = 1;

const BATCH: u16 = 64;

// The name of the request by which the receiver says that it has a batch.
const WORD: u16 = BATCH;

// What a rank does next. The messages of a batch have numbers, from 0.
#[derive(Clone, Copy)]
enum Step {
    Start(u16),
    Wait(u16),
    Say,
    WaitForWord,
}

/// Which of the two a rank is.
#[derive(Clone, Copy)]
pub enum Side {
    Sender,
    Receiver,
}

/// One of the two ranks.
#[derive(Drop)]
pub struct Flooded {
    side: Side,
    bytes: u32,
    step: Step,
    // how many batches it has still to begin or to end
    left: u64,
    /// How many messages came.
    pub came: u64,
}

impl Flooded {
    /// A rank of a flood of so many batches.
    pub fn new(side: Side, bytes: u32, batches: u64) -> Flooded {
        Flooded {
            side,
            bytes,
            step: Step::Start(0),
            left: batches,
            came: 0,
        }
    }

    // The send or the receive of a message of a batch.
    fn start(&self, k: u16) -> Command {
        match self.side {
            Side::Sender => send(k, RECEIVER, TAG, generated(self.bytes)),
            Side::Receiver => receive(k, SENDER, TAG, self.bytes),
        }
    }

    // The word of the receiver, at either of them.
    fn say(&self) -> Command {
        match self.side {
            Side::Sender => receive(WORD, RECEIVER, TAG, 0),
            Side::Receiver => send(WORD, SENDER, TAG, generated(0)),
        }
    }

    // The next call, and the step that comes after it.
    fn call(&self) -> (Command, Step) {
        let last = BATCH - 1;
        match self.step {
            Step::Start(k) if k < last => (self.start(k), Step::Start(k + 1)),
            Step::Start(k) => (self.start(k), Step::Wait(0)),
            Step::Wait(k) if k < last => (wait(k), Step::Wait(k + 1)),
            Step::Wait(k) => (wait(k), Step::Say),
            Step::Say => (self.say(), Step::WaitForWord),
            Step::WaitForWord => (wait(WORD), Step::Start(0)),
        }
    }
}

impl Program for Flooded {
    ghost says = { λ p answer command q. Unit {0} };

    fn next(&mut self, answer: Option<&Answer>) -> Result<Option<Command>, Memory> {
        if let Some(Answer::Got { .. }) = answer {
            self.came = self.came.saturating_add(1);
        }
        if self.left == 0 {
            return Ok(None);
        }
        let (call, step) = self.call();
        if let Step::WaitForWord = self.step {
            self.left -= 1;
        }
        self.step = step;
        Ok(Some(call))
    }
}

/// The two ranks, with so many batches of 64 messages of so many bytes.
pub fn ranks(alloc: Global, bytes: u32, batches: u64) -> Result<Vec<Flooded>, Memory>
    ensures { IfOk result (λ v. length v.items ≡ 2) }
{
    let mut ranks = Vec::new(alloc);
    ranks.push(Flooded::new(Side::Sender, bytes, batches))?;
    ranks.push(Flooded::new(Side::Receiver, bytes, batches))?;
    Ok(ranks)
}
