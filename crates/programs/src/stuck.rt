//! Two ranks of which one asks and the other answers, once too few: the first waits for good, however many messages
//! went before. From the start on it has a receive posted for a word to stop, which never comes. Each has its next
//! receive posted before it sends, so the order of its events is always the same.

ghost use Rattle.std.specs.Prelude.{◌≡◌, length, IfOk};

use nm_programs::Program;
use nm_programs::bodies::generated;
use nm_programs::calls::{receive, send, wait};
use nm_types::{Answer, Command, Memory};
use std::alloc::Global;

const TAG: u16 = 1;

const STOP: u16 = 2;

const BYTES: u32 = 8;

/// So many questions make a million messages, with their answers.
pub const MANY: u64 = 500001;

/// A few.
pub const FEW: u64 = 5001;

// What a rank does next.
#[derive(Clone, Copy)]
enum Step {
    // posts a receive for a word to stop
    ListenForStop,
    // posts its first receive, before it has anything to send
    Listen,
    Receive,
    Send,
    WaitForReceive,
    WaitForSend,
}

/// One of the two ranks.
#[derive(Drop)]
pub struct Talker {
    other: u8,
    step: Step,
    // how many calls it has still to make
    left: u64,
}

impl Talker {
    // The next call, and the step that comes after it. A wait for a request that was not started is answered at once.
    fn call(&self) -> (Command, Step) {
        match self.step {
            Step::ListenForStop => (receive(2, self.other, STOP, 0), Step::Receive),
            Step::Listen => (receive(0, self.other, TAG, BYTES), Step::WaitForReceive),
            Step::Receive => (receive(0, self.other, TAG, BYTES), Step::Send),
            Step::Send => (
                send(1, self.other, TAG, generated(BYTES)),
                Step::WaitForReceive,
            ),
            Step::WaitForReceive => (wait(0), Step::WaitForSend),
            Step::WaitForSend => (wait(1), Step::Receive),
        }
    }
}

impl Program for Talker {
    ghost says = { λ p answer command q. Unit {0} };

    fn next(&mut self, _answer: Option<&Answer>) -> Result<Option<Command>, Memory> {
        if self.left == 0 {
            return Ok(None);
        }
        self.left -= 1;
        let (call, step) = self.call();
        self.step = step;
        Ok(Some(call))
    }
}

/// The two ranks: one asks so many questions, the other is at its end when it has the last one.
pub fn talkers(alloc: Global, questions: u64) -> Result<Vec<Talker>, Memory>
    ensures { IfOk result (λ v. length v.items ≡ 2) }
{
    let calls = questions.saturating_mul(4);
    let mut talkers = Vec::new(alloc);
    talkers.push(Talker {
        other: 1,
        step: Step::ListenForStop,
        left: calls.saturating_add(1),
    })?;
    talkers.push(Talker {
        other: 0,
        step: Step::Listen,
        left: calls.saturating_sub(1),
    })?;
    Ok(talkers)
}
