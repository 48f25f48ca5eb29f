//! The sum of a number of each rank, round a ring: each rank passes on what it was passed, and adds it to its own
//! number.

ghost use Rattle.std.specs.Prelude.{◌≡◌, ◌<◌, IfOk, length};
ghost use Rattle.nm_report.specs.Ends.{ends_of};
ghost use Rattle.programs.specs.Sums.{AreSums, HaveSummed, sum_with};

use nm_outside::OpenGate;
use nm_programs::bodies::{number, number_in};
use nm_programs::calls::{receive, send, wait};
use nm_programs::{Outcome, Program, Stop, Unrecorded, run_programs, run_unrecorded};
use nm_types::{Answer, Command, Memory, Shape};
use std::alloc::Global;
use std::sync::Wait;
use std::thread::Threads;

const TAG: u16 = 2;

const RANKS: u8 = 5;

// What a rank does next.
#[derive(Clone, Copy)]
enum Step {
    Receive,
    Send,
    WaitForSend,
    WaitForReceive,
}

/// A rank of the ring.
#[derive(Drop)]
pub struct Link {
    alloc: Global,
    left: u8,
    right: u8,
    step: Step,
    // how many numbers it has still to be passed
    missing: u8,
    // what it passes on next
    passes: u64,
    /// Its own number and all that it was passed, modulo 2^64.
    pub sum: u64,
}

impl Link {
    // The rank `me` of so many, with its own number.
    fn new(alloc: Global, me: u8, ranks: u8, own: u64) -> Link
        requires { me < ranks }
    {
        Link {
            alloc,
            left: if me == 0 { ranks - 1 } else { me - 1 },
            right: if me == ranks - 1 { 0 } else { me + 1 },
            step: Step::Receive,
            missing: ranks - 1,
            passes: own,
            sum: own,
        }
    }

    // The next call, and the step that comes after it.
    fn call(&self) -> Result<(Command, Step), Memory> {
        Ok(match self.step {
            Step::Receive => (receive(0, self.left, TAG, 8), Step::Send),
            Step::Send => (
                send(1, self.right, TAG, number(self.alloc, self.passes)?),
                Step::WaitForSend,
            ),
            Step::WaitForSend => (wait(1), Step::WaitForReceive),
            Step::WaitForReceive => (wait(0), Step::Receive),
        })
    }
}

impl Program for Link {
    // Its sum is what it was, and the number that it was told, if it was told one.
    ghost says = { λ p answer command q. q.sum ≡ sum_with p.sum answer };

    fn next(&mut self, answer: Option<&Answer>) -> Result<Option<Command>, Memory> {
        if let Some(x) = number_in(answer) {
            self.passes = x;
            self.sum = self.sum.wrapping_add(x);
            self.missing = self.missing.saturating_sub(1);
        }
        if self.missing == 0 {
            return Ok(None);
        }
        let (call, step) = self.call()?;
        self.step = step;
        Ok(Some(call))
    }
}

/// Runs a ring. Each rank's sum is its own number and all numbers that came in its history.
pub fn run_ring<R: Threads + Wait + Sync>(
    rt: &R,
    alloc: Global,
    shape: Shape,
    links: Vec<Link>,
) -> Result<Outcome<Link>, Stop>
    requires many { length links.items ≡ shape.ranks }
    ensures { IfOk result (λ x. AreSums links.items (ends_of x.record.ranks) x.ranks.items) }
{
    run_programs(rt, alloc, shape, links, &OpenGate)
}

/// The same with histories that exist in proofs alone.
pub fn run_ring_unrecorded<R: Threads + Wait + Sync>(
    rt: &R,
    alloc: Global,
    shape: Shape,
    links: Vec<Link>,
) -> Result<Unrecorded<Link>, Stop>
    requires many { length links.items ≡ shape.ranks }
    ensures { IfOk result (λ x. HaveSummed shape links.items x) }
{
    run_unrecorded(rt, alloc, shape, links, &OpenGate)
}

/// Ranks with the numbers 1, 11, 21, 31 and 41.
pub fn links(alloc: Global) -> Result<Vec<Link>, Memory>
    ensures { IfOk result (λ v. length v.items ≡ 5) }
{
    let mut links = Vec::new(alloc);
    for me in 0..RANKS {
        links.push(Link::new(alloc, me, RANKS, 10 * u64::from(me) + 1))?;
    }
    Ok(links)
}
