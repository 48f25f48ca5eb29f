//! The last calls of a rank.

ghost use Rattle.std.specs.Prelude.{◌≡◌, ◌++◌, ◌∷◌, [], OnOk, List};
ghost use Rattle.nm_types.specs.declared.scripts.Command.{Command};
ghost use Rattle.nm_transcript.specs.LastCalls.{AreCallsOf, IsCallOf};

use nm_ghost::Trace;
use nm_types::{Command, Memory};
use std::alloc::Global;
use std::collections::VecDeque;
use std::marker::Model;

// How many calls are kept: those that the last 64 events of a rank can name, and that in which it waits.
const KEPT: usize = 65;

/// A call that is kept.
#[derive(Drop)]
pub struct Call {
    /// How many calls its rank made before it.
    pub number: u64,
    pub command: Command,
    /// Whether it started a request.
    pub started: bool,
}

/// The last 65 calls of a rank; and of those before them, for each name, the last one that started a request. Contracts
/// know all.
pub struct LastCalls {
    made: u64,
    all: Trace<Command>,
    starts: VecDeque<Call>,
    last: VecDeque<Call>,
}

impl Drop for LastCalls {
    fn drop(self) {
        let LastCalls {
            made: _,
            all: _,
            starts: _,
            last: _,
        } = self;
    }
}

impl Model for LastCalls {
    ghost use Rattle.std.specs.Prelude.{◌≡◌, ◌<◌, ◌^◌, ◌-◌, List, length};
    ghost use Rattle.nm_types.specs.declared.scripts.Command.{Command};
    ghost use Rattle.nm_transcript.specs.LastCalls.{AreCallsOf};

    ghost Value = { List Command };

    ghost view = { λ a. a.all.items };

    ghost invariant = { λ a. (a.made < 2 ^ 64 - 1 → a.made ≡ length a.all.items)
        × AreCallsOf a.all.items a.starts.items × AreCallsOf a.all.items a.last.items };
}

// The name of the request that a call starts, if it starts one.
fn name_of(command: &Command) -> Option<u16> {
    match command {
        Command::Send { q, .. } | Command::Recv { q, .. } | Command::Mrecv { q, .. } => Some(*q),
        _ => None,
    }
}

// Where the call stands that started a request of this name, if there is one.
fn place_of(starts: &VecDeque<Call>, name: u16) -> Option<usize> {
    for place in 0..starts.len() {
        if let Some(call) = starts.get(place) {
            if name_of(&call.command) == Some(name) {
                return Some(place);
            }
        }
    }
    None
}

// The call at this place goes.
fn take_out(starts: &mut VecDeque<Call>, place: usize)
    ensures { (all : List Command) → AreCallsOf all starts.old.items → AreCallsOf all starts.new.items }
{
    let _started = starts.remove(place);
}

// Lets the call go that started a request of this name.
fn forget(starts: &mut VecDeque<Call>, name: u16)
    ensures { (all : List Command) → AreCallsOf all starts.old.items → AreCallsOf all starts.new.items }
{
    if let Some(place) = place_of(starts, name) {
        take_out(starts, place);
    }
}

// A call that started a request of this name takes the place of the one before it.
fn replace(starts: &mut VecDeque<Call>, name: u16, call: Call) -> Result<(), Memory>
    ensures { (all : List Command) → AreCallsOf all starts.old.items → IsCallOf all call →
        AreCallsOf all starts.new.items }
{
    forget(starts, name);
    starts.push_back(call)?;
    Ok(())
}

// The name of the request that the call started, if it started one.
fn started_name(call: &Call) -> Option<u16> {
    if call.started {
        name_of(&call.command)
    } else {
        None
    }
}

// A call is one of the last no more.
fn leave(starts: &mut VecDeque<Call>, call: Call) -> Result<(), Memory>
    ensures { (all : List Command) → AreCallsOf all starts.old.items → IsCallOf all call →
        AreCallsOf all starts.new.items }
{
    match started_name(&call) {
        Some(name) => replace(starts, name, call),
        None => Ok(()),
    }
}

// The first of the last calls is one of them no more, where there are as many as are kept.
fn pass(starts: &mut VecDeque<Call>, last: &mut VecDeque<Call>) -> Result<(), Memory>
    ensures starts { (all : List Command) → AreCallsOf all starts.old.items → AreCallsOf all last.old.items →
        AreCallsOf all starts.new.items }
    ensures last { (all : List Command) → AreCallsOf all last.old.items → AreCallsOf all last.new.items }
{
    if last.len() < KEPT {
        return Ok(());
    }
    match last.pop_front() {
        Some(call) => leave(starts, call),
        None => Ok(()),
    }
}

// The call, which started a request.
fn started(call: Call) -> Call
    ensures { (result.number ≡ call.number) × (result.command ≡ call.command) }
{
    let Call {
        number,
        command,
        ..
    } = call;
    Call {
        number,
        command,
        started: true,
    }
}

// The last call started a request.
fn start(last: &mut VecDeque<Call>)
    ensures { (all : List Command) → AreCallsOf all last.old.items → AreCallsOf all last.new.items }
{
    if let Some(call) = last.pop_back() {
        last.push_back_reserved(started(call));
    }
}

impl LastCalls {
    /// None yet.
    pub fn new(alloc: Global) -> LastCalls
        ensures { result ≡ [] }
    {
        LastCalls {
            made: 0,
            all: Trace::new(),
            starts: VecDeque::new(alloc),
            last: VecDeque::new(alloc),
        }
    }

    /// Puts a call at the end.
    pub fn push(&mut self, command: Command) -> Result<(), Memory>
        ensures { OnOk result (self.new ≡ self.old ++ command ∷ []) }
    {
        pass(&mut self.starts, &mut self.last)?;
        let all = self.all.then(&command);
        self.last.push_back(Call {
            number: self.made,
            command,
            started: false,
        })?;
        let made = self.made.saturating_add(1);
        self.all = all;
        self.made = made;
        Ok(())
    }

    /// The last call started a request.
    pub fn start(&mut self)
        ensures { self.new ≡ self.old }
    {
        start(&mut self.last);
    }

    /// The calls that are kept: those before the last ones, and the last ones.
    pub fn into_parts(self) -> (VecDeque<Call>, VecDeque<Call>)
        ensures starts { AreCallsOf self result.0.items }
        ensures last { AreCallsOf self result.1.items }
    {
        let LastCalls {
            made: _,
            all: _,
            starts,
            last,
        } = self;
        (starts, last)
    }
}
