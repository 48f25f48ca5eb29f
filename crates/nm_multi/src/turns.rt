//! A desk with the programs that threads run on it.

ghost use Rattle.std.specs.Prelude.{◌≡◌, ◌<◌, ◌≤◌, ◌⊎◌, ◌↔◌, true, false, [], IfOk, MatchBool, MatchOption};
ghost use Rattle.std.specs.Prelude.{OnErr, replicate, slice_get};
ghost use Rattle.nm_multi.specs.declared.turns.TheConstants.{MAX_ROUNDS, MAX_THREADS};
ghost use Rattle.nm_multi.specs.Acts.{IsReplay, Makes};
ghost use Rattle.nm_multi.specs.Programs.{ArePrograms, HasMadeAll, SameTurns, call_of, no_progress};
ghost use Rattle.nm_multi.specs.Programs.{progress_after};
ghost use Rattle.nm_multi.specs.Programs.{finish_or_pump as finish_or_pump_lem, next_call as next_call_lem};
ghost use Rattle.nm_multi.specs.Programs.{request_in as request_in_lem};

use crate::desks::Desk;
use crate::{Call, CallLog, Reply};
use nm_rank::Req;
use nm_types::{Body, Memory, Shape};
use std::alloc::Global;
use std::marker::Model;

/// The most threads.
pub const MAX_THREADS: u8 = 16;

/// The most rounds of a thread.
pub const MAX_ROUNDS: u16 = 1000;

/// How far a thread is in its program: how many calls it made, and the requests that the last send
/// and the last receive of it started, if they started one.
#[derive(Clone, Copy, Drop)]
pub struct Progress {
    pub made: u32,
    pub sent: Option<Req>,
    pub received: Option<Req>,
}

/// The request that a reply gives, if it does.
fn request_in(reply: &Reply) -> Option<Req>
    ensures { result ≡ request_in_lem reply.now }
{
    match reply {
        Reply::Started(r) => Some(*r),
        _ => None,
    }
}

/// The finish of a request, or a pump where there is none.
fn finish_or_pump(request: Option<Req>) -> Call
    ensures { result ≡ finish_or_pump_lem request }
{
    match request {
        Some(r) => Call::Finish { r },
        None => Call::Pump,
    }
}

/// What is noted of so many threads that made no call.
fn none_noted(alloc: Global, threads: u8) -> Result<Vec<Progress>, Memory>
    ensures { IfOk result (λ noted. noted.items ≡ replicate threads no_progress) }
{
    let none = Progress {
        made: 0,
        sent: None,
        received: None,
    };
    Ok(vec![in alloc; none; threads as usize]?)
}

impl Progress {
    /// The next call of the program of this thread.
    fn next_call(&self, who: u8) -> Call
        ensures { result ≡ next_call_lem who self.now }
    {
        let tag = u16::from(who);
        let place = self.made % 5;
        if place == 0 {
            let body = Body::Gen(self.made / 5 % 64);
            Call::Isend { tag, body }
        } else if place == 1 {
            Call::Irecv { tag, cap: 64 }
        } else if place == 2 {
            Call::Pump
        } else if place == 3 {
            finish_or_pump(self.received)
        } else {
            finish_or_pump(self.sent)
        }
    }

    /// After one more call, which had this reply.
    fn after(self, reply: &Reply) -> Progress
        requires { self.made < 4294967295 }
        ensures { result ≡ progress_after self reply.now }
    {
        let place = self.made % 5;
        Progress {
            made: self.made + 1,
            sent: if place == 0 {
                request_in(reply)
            } else {
                self.sent
            },
            received: if place == 1 {
                request_in(reply)
            } else {
                self.received
            },
        }
    }

    /// After the call at this place of a log, or the same where there is none.
    fn with_entry(self, log: &CallLog, place: usize) -> Progress
        requires { self.made < 4294967295 }
        ensures { MatchOption (slice_get log.now.entries place) (result ≡ self)
            (λ e. result ≡ progress_after self e.reply) }
    {
        match log.get(place) {
            Some(entry) => self.after(&entry.reply),
            None => self,
        }
    }
}

/// A desk, how many threads share it, how many rounds each makes, and how far each is.
pub struct Turns {
    desk: Desk,
    shape: Shape,
    threads: u8,
    rounds: u16,
    progress: Vec<Progress>,
}

impl Drop for Turns {
    fn drop(self) {
        let Turns {
            desk: _,
            shape: _,
            threads: _,
            rounds: _,
            progress: _,
        } = self;
    }
}

impl Model for Turns {
    ghost use Rattle.nm_multi.specs.Programs.{AreTurns, TurnsView};

    ghost Value = { TurnsView };

    ghost view = { λ t. record { desk = t.desk; threads = t.threads; rounds = t.rounds } };

    ghost invariant = { λ t. AreTurns t.shape
        (record { desk = t.desk; threads = t.threads; rounds = t.rounds }) t.progress.items };
}

impl Turns {
    /// A desk at which no thread made a call.
    pub fn new(alloc: Global, shape: Shape, threads: u8, rounds: u16) -> Result<Turns, Memory>
        requires one { shape.ranks ≡ 1 }
        requires threads { (1 ≤ threads) × (threads ≤ MAX_THREADS) }
        requires rounds { rounds ≤ MAX_ROUNDS }
        ensures empty { IfOk result (λ t. t.desk.log ≡ []) }
        ensures shape { IfOk result (λ t. t.desk.rank.sizes ≡ shape) }
        ensures numbers { IfOk result (λ t. (t.threads ≡ threads) × (t.rounds ≡ rounds)) }
    {
        let desk = Desk::new(alloc, shape)?;
        let progress = none_noted(alloc, threads)?;
        Ok(Turns {
            desk,
            shape,
            threads,
            rounds,
            progress,
        })
    }

    /// Makes the next call of the program of a thread, and answers `true`, or `false` where it made
    /// them all.
    pub fn next(&mut self, who: u8) -> Result<bool, Memory>
        requires who { who < self.old.threads }
        ensures last { IfOk result (λ more. (more ≡ false) ↔ HasMadeAll self.old who) }
        ensures more { IfOk result (λ more. MatchBool more
            (Makes false who (call_of self.old who) self.old.desk self.new.desk)
            (self.new ≡ self.old)) }
        ensures err { OnErr result ((self.new ≡ self.old)
            ⊎ Makes true who (call_of self.old who) self.old.desk self.new.desk) }
        ensures same { SameTurns self.old self.new }
        ensures programs { ArePrograms self.new.threads self.new.rounds self.new.desk.log }
    {
        let progress = self.progress[who as usize];
        if progress.made >= 5 * u32::from(self.rounds) {
            return Ok(false);
        }
        let before = self.desk.log().len();
        let made = self.desk.make(who, progress.next_call(who));
        self.progress[who as usize] = progress.with_entry(self.desk.log(), before);
        made?;
        Ok(true)
    }

    /// The same for any number, with `false` for one that is no thread.
    pub(crate) fn next_of(&mut self, who: u8) -> Result<bool, Memory> {
        if who >= self.threads {
            return Ok(false);
        }
        self.next(who)
    }

    /// The shape of the desk.
    pub fn shape(&self) -> Shape
        ensures { result ≡ self.now.desk.rank.sizes }
    {
        self.shape
    }

    /// How many threads share it.
    pub fn threads(&self) -> u8
        ensures value { result ≡ self.now.threads }
        ensures programs { ArePrograms self.now.threads self.now.rounds self.now.desk.log }
    {
        self.threads
    }

    /// How many rounds each thread makes.
    pub fn rounds(&self) -> u16
        ensures { result ≡ self.now.rounds }
    {
        self.rounds
    }

    /// The calls that were made, when the desk is used no more.
    pub fn into_log(self) -> CallLog
        ensures log { result.entries ≡ self.desk.log }
        ensures replay { IsReplay self.desk.rank.sizes self.desk.log self.desk.rank }
        ensures programs { ArePrograms self.threads self.rounds self.desk.log }
    {
        let Turns {
            desk,
            shape: _,
            threads: _,
            rounds: _,
            progress: _,
        } = self;
        desk.into_log()
    }
}
