//! A master that hands tasks to whichever worker asks, by receives from any rank. A task is a number to be squared.

ghost use Rattle.std.specs.Prelude.{◌≡◌, IfOk, length};

use nm_programs::Program;
use nm_programs::bodies::{number, number_in};
use nm_programs::calls::{receive_any, send, wait};
use nm_types::{Answer, Command, Memory};
use std::alloc::Global;
use std::collections::VecDeque;

const MASTER: u8 = 0;

const WORKERS: u64 = 3;

const TASKS: u64 = 20;

// The tags: of tasks and results, and that there is none left.
const WORK: u16 = 1;

const STOP: u16 = 2;

/// What a rank of the farm is.
#[derive(Clone, Copy)]
pub enum Role {
    /// So many workers came to it.
    Master(u64),
    Worker,
}

/// A rank of the farm, with the calls that it makes next.
#[derive(Drop)]
pub struct Hand {
    alloc: Global,
    calls: VecDeque<Command>,
    pub role: Role,
    /// The sum of the results that came to a master; how many tasks a worker did.
    pub total: u64,
}

impl Hand {
    // A worker asks for its first task, as if with a result; a master waits for one that asks.
    fn new(alloc: Global, role: Role) -> Result<Hand, Memory> {
        let mut hand = Hand {
            alloc,
            calls: VecDeque::new(alloc),
            role,
            total: 0,
        };
        if let Role::Worker = role {
            hand.say(MASTER, WORK, 0)?;
        }
        hand.listen()?;
        Ok(hand)
    }

    // Sends a number.
    fn say(&mut self, to: u8, tag: u16, x: u64) -> Result<(), Memory> {
        let x = number(self.alloc, x)?;
        self.calls.push_back(send(1, to, tag, x))?;
        self.calls.push_back(wait(1))?;
        Ok(())
    }

    // Waits for a message of any rank.
    fn listen(&mut self) -> Result<(), Memory> {
        self.calls.push_back(receive_any(0, 8))?;
        self.calls.push_back(wait(0))?;
        Ok(())
    }

    // A worker came, after so many others: it gets the next task, or hears that there is none left.
    fn answer(&mut self, to: u8, x: u64, before: u64) -> Result<(), Memory> {
        let count = before.saturating_add(1);
        self.role = Role::Master(count);
        self.total = self.total.wrapping_add(x);
        let tag = if count <= TASKS { WORK } else { STOP };
        self.say(to, tag, count)?;
        if count < TASKS + WORKERS {
            self.listen()?;
        }
        Ok(())
    }

    fn work(&mut self, tag: u16, x: u64) -> Result<(), Memory> {
        if tag == WORK {
            self.total = self.total.saturating_add(1);
            self.say(MASTER, WORK, x.wrapping_mul(x))?;
            self.listen()?;
        }
        Ok(())
    }
}

impl Program for Hand {
    ghost says = { λ p answer command q. Unit {0} };

    fn next(&mut self, answer: Option<&Answer>) -> Result<Option<Command>, Memory> {
        if let Some(Answer::Got { from, tag, .. }) = answer {
            let x = number_in(answer).unwrap_or(0);
            match self.role {
                Role::Master(before) => self.answer(*from, x, before)?,
                Role::Worker => self.work(*tag, x)?,
            }
        }
        Ok(self.calls.pop_front())
    }
}

/// The master and its workers.
pub fn hands(alloc: Global) -> Result<Vec<Hand>, Memory>
    ensures { IfOk result (λ v. length v.items ≡ 4) }
{
    let mut hands = Vec::new(alloc);
    hands.push(Hand::new(alloc, Role::Master(0))?)?;
    for _ in 0..WORKERS {
        hands.push(Hand::new(alloc, Role::Worker)?)?;
    }
    Ok(hands)
}
