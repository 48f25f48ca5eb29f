//! Jacobi's iteration on a rod, of which each rank has a part: before each step they swap the values at their ends.

ghost use Rattle.std.specs.Prelude.{◌≡◌, ◌<◌, ◌≤◌, IfOk, length};

use nm_programs::Program;
use nm_programs::bodies::{number, number_in};
use nm_programs::calls::{receive, send, wait};
use nm_types::{Answer, Command, Memory};
use std::alloc::Global;
use std::collections::VecDeque;

const TAG: u16 = 1;

const STEPS: u32 = 50;

const CELLS: usize = 12;

const HEAT: u64 = 1000000;

/// A rank's part of the rod.
#[derive(Drop)]
pub struct Part {
    alloc: Global,
    below: Option<u8>,
    above: Option<u8>,
    pub cells: Vec<u64>,
    low: u64,
    high: u64,
    steps: u32,
    // what is left of the calls of an exchange
    calls: VecDeque<Command>,
}

// The next values: each is half the sum of those beside it.
fn relax(cells: &mut [u64], low: u64, high: u64) {
    let count = cells.len();
    let mut before = low;
    for k in 0..count {
        let here = cells[k];
        let after = if k < count - 1 { cells[k + 1] } else { high };
        cells[k] = before / 2 + after / 2;
        before = here;
    }
}

impl Part {
    // The part of rank `me` of so many.
    fn new(alloc: Global, me: u8, ranks: u8) -> Result<Part, Memory>
        requires { me < ranks }
    {
        Ok(Part {
            alloc,
            below: if me > 0 { Some(me - 1) } else { None },
            above: if me < ranks - 1 { Some(me + 1) } else { None },
            cells: vec![in alloc; 0; CELLS / usize::from(ranks)]?,
            low: 0,
            high: HEAT,
            steps: STEPS,
            calls: VecDeque::new(alloc),
        })
    }

    // Receives a neighbour's value and sends it this one, if there is a neighbour.
    fn swap(&mut self, to: Option<u8>, names: (u16, u16), value: u64) -> Result<(), Memory> {
        if let Some(to) = to {
            let value = number(self.alloc, value)?;
            self.calls.push_back(receive(names.0, to, TAG, 8))?;
            self.calls.push_back(send(names.1, to, TAG, value))?;
        }
        Ok(())
    }

    // Makes the calls of the next exchange. A wait for a request that was not started is answered at once.
    fn plan(&mut self) -> Result<(), Memory> {
        let first = self.cells.first().copied().unwrap_or(0);
        let last = self.cells.last().copied().unwrap_or(0);
        self.swap(self.below, (0, 1), first)?;
        self.swap(self.above, (2, 3), last)?;
        for name in 0..4 {
            self.calls.push_back(wait(name))?;
        }
        Ok(())
    }
}

impl Program for Part {
    ghost says = { λ p answer command q. Unit {0} };

    fn next(&mut self, answer: Option<&Answer>) -> Result<Option<Command>, Memory> {
        if let Some(Answer::Got { from, .. }) = answer {
            let x = number_in(answer).unwrap_or(0);
            match self.below == Some(*from) {
                true => self.low = x,
                false => self.high = x,
            }
        }
        if self.calls.is_empty() {
            if answer.is_some() {
                relax(self.cells.as_mut_slice(), self.low, self.high);
            }
            if self.steps > 0 {
                self.steps -= 1;
                self.plan()?;
            }
        }
        Ok(self.calls.pop_front())
    }
}

/// The parts of so many ranks, at least one.
pub fn parts(alloc: Global, ranks: u8) -> Result<Vec<Part>, Memory>
    requires { 0 < ranks }
    ensures { IfOk result (λ v. length v.items ≡ ranks) }
{
    let mut parts = Vec::new(alloc);
    for me in 0..ranks {
        parts.push(Part::new(alloc, me, ranks)?)?;
    }
    Ok(parts)
}
