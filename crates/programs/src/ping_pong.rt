//! Two ranks send a message to and fro.

ghost use Rattle.std.specs.Prelude.{◌≡◌, IfOk, length};

use nm_programs::Program;
use nm_programs::bodies::generated;
use nm_programs::calls::{receive, send, wait};
use nm_types::{Answer, Command, Memory};
use std::alloc::Global;

const TAG: u16 = 1;

const BYTES: u32 = 3000;

const ROUNDS: u32 = 10;

// What a rank does next.
#[derive(Clone, Copy)]
enum Step {
    Send,
    WaitForSend,
    Receive,
    WaitForReceive,
}

/// One of the two ranks.
#[derive(Drop)]
pub struct Player {
    other: u8,
    step: Step,
    // how many calls it has still to make
    left: u32,
    /// How many bytes came.
    pub bytes: usize,
}

impl Player {
    // The rank that begins with this step.
    fn new(other: u8, step: Step) -> Player {
        Player {
            other,
            step,
            left: 4 * ROUNDS,
            bytes: 0,
        }
    }

    // The next call, and the step that comes after it.
    fn call(&self) -> (Command, Step) {
        match self.step {
            Step::Send => (
                send(0, self.other, TAG, generated(BYTES)),
                Step::WaitForSend,
            ),
            Step::WaitForSend => (wait(0), Step::Receive),
            Step::Receive => (receive(1, self.other, TAG, BYTES), Step::WaitForReceive),
            Step::WaitForReceive => (wait(1), Step::Send),
        }
    }
}

impl Program for Player {
    ghost says = { λ p answer command q. Unit {0} };

    fn next(&mut self, answer: Option<&Answer>) -> Result<Option<Command>, Memory> {
        if let Some(Answer::Got { body, .. }) = answer {
            self.bytes = self.bytes.saturating_add(body.len());
        }
        if self.left == 0 {
            return Ok(None);
        }
        self.left -= 1;
        let (call, step) = self.call();
        self.step = step;
        Ok(Some(call))
    }
}

/// The two ranks: one sends first, the other receives.
pub fn players(alloc: Global) -> Result<Vec<Player>, Memory>
    ensures { IfOk result (λ v. length v.items ≡ 2) }
{
    let mut players = Vec::new(alloc);
    players.push(Player::new(1, Step::Send))?;
    players.push(Player::new(0, Step::Receive))?;
    Ok(players)
}
