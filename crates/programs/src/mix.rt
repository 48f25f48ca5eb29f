//! Ranks in a ring that send and take in every way, in rounds: a short message and a long one, a receive from any rank,
//! a matched probe, two sends that nobody takes and a receive for which nothing is sent, which are cancelled. No rank
//! is more than a round or two ahead of the next one, however many rounds there are.

ghost use Rattle.std.specs.Prelude.{◌≡◌, ◌<◌, length, IfOk};

use nm_programs::Program;
use nm_programs::bodies::generated;
use nm_programs::calls::{
    cancel, probe_blocking, probe_matched, receive, receive_matched, receive_of, send, wait,
};
use nm_types::{Answer, Command, Memory, Peer, TagPick};
use std::alloc::Global;

// How long messages are that are sent at once, and those that ask first.
const SHORT: u32 = 8;

const LONG: u32 = 2000;

// The tags of messages that a receive from any rank takes, that one from the rank before takes, that nobody takes,
// and that a matched probe claims; and of none.
const ANY: u16 = 1;

const NAMED: u16 = 2;

const LOST: u16 = 3;

const CLAIMED: u16 = 4;

const UNSENT: u16 = 5;

// The name of the last request of a round.
const LAST: u16 = 8;

const HANDLE: u16 = 0;

// What a rank does next. A request has the number of its step as its name.
#[derive(Clone, Copy)]
enum Step {
    Short,
    Long,
    LostShort,
    LostLong,
    Claimable,
    FromAny,
    FromOne,
    FromNone,
    CancelShort,
    CancelLong,
    CancelReceive,
    Look,
    Claim,
    Take,
    Wait(u16),
}

/// One of the ranks.
#[derive(Drop)]
pub struct Mixed {
    before: u8,
    behind: u8,
    step: Step,
    // how many rounds it has still to begin or to end
    left: u64,
    /// How many messages came.
    pub came: u64,
    /// How many of its sends and receives were cancelled.
    pub cancelled: u64,
}

impl Mixed {
    /// One of so many ranks, for so many rounds.
    fn new(me: u8, ranks: u8, rounds: u64) -> Mixed
        requires { me < ranks }
    {
        Mixed {
            before: if me == 0 { ranks - 1 } else { me - 1 },
            behind: if me + 1 == ranks { 0 } else { me + 1 },
            step: Step::Short,
            left: rounds,
            came: 0,
            cancelled: 0,
        }
    }

    // The send of a message to the rank behind it.
    fn sent(&self, name: u16, tag: u16, bytes: u32) -> Command {
        send(name, self.behind, tag, generated(bytes))
    }

    // The next call, and the step that comes after it.
    fn call(&self) -> (Command, Step) {
        let source = Peer::One(self.before);
        match self.step {
            Step::Short => (self.sent(0, ANY, SHORT), Step::Long),
            Step::Long => (self.sent(1, NAMED, LONG), Step::LostShort),
            Step::LostShort => (self.sent(2, LOST, SHORT), Step::LostLong),
            Step::LostLong => (self.sent(3, LOST, LONG), Step::Claimable),
            Step::Claimable => (self.sent(4, CLAIMED, SHORT), Step::FromAny),
            Step::FromAny => (
                receive_of(5, Peer::Any, TagPick::One(ANY), SHORT),
                Step::FromOne,
            ),
            Step::FromOne => (receive(6, self.before, NAMED, LONG), Step::FromNone),
            Step::FromNone => (receive(7, self.before, UNSENT, SHORT), Step::CancelShort),
            Step::CancelShort => (cancel(2), Step::CancelLong),
            Step::CancelLong => (cancel(3), Step::CancelReceive),
            Step::CancelReceive => (cancel(7), Step::Look),
            Step::Look => (probe_blocking(source, TagPick::One(CLAIMED)), Step::Claim),
            Step::Claim => (
                probe_matched(HANDLE, source, TagPick::One(CLAIMED)),
                Step::Take,
            ),
            Step::Take => (receive_matched(LAST, HANDLE, SHORT), Step::Wait(0)),
            Step::Wait(name) if name < LAST => (wait(name), Step::Wait(name + 1)),
            Step::Wait(name) => (wait(name), Step::Short),
        }
    }

    // Whether the next call is the last one of a round.
    fn is_round_over(&self) -> bool {
        match self.step {
            Step::Wait(name) => name >= LAST,
            _ => false,
        }
    }
}

impl Program for Mixed {
    ghost says = { λ p answer command q. Unit {0} };

    fn next(&mut self, answer: Option<&Answer>) -> Result<Option<Command>, Memory> {
        match answer {
            Some(Answer::Got { .. }) => self.came = self.came.saturating_add(1),
            Some(Answer::Cancelled) => self.cancelled = self.cancelled.saturating_add(1),
            _ => {}
        }
        if self.left == 0 {
            return Ok(None);
        }
        let (call, step) = self.call();
        if self.is_round_over() {
            self.left -= 1;
        }
        self.step = step;
        Ok(Some(call))
    }
}

/// So many ranks, for so many rounds.
pub fn ranks(alloc: Global, many: u8, rounds: u64) -> Result<Vec<Mixed>, Memory>
    ensures { IfOk result (λ v. length v.items ≡ many) }
{
    let mut ranks = Vec::new(alloc);
    for me in 0..many {
        ranks.push(Mixed::new(me, many, rounds))?;
    }
    Ok(ranks)
}
