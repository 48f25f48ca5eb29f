//! The plain run: which commands run.

ghost use Rattle.std.specs.Prelude.{◌≡◌, ℕ, ◌+◌, ◌<◌, ◌≤◌, IfOk, Some, length};
ghost use Rattle.nm_types.specs.Commands.{Numbered};
ghost use Rattle.nm_types.specs.Limits.{sent_len};
ghost use Rattle.nm_sure.specs.Plain as spec;
ghost use Rattle.nm_sure.specs.Plain.{is_ready_at, next_of, plain_end, with_one_more};
ghost use Rattle.nm_sure.specs.PlainText.{waits_at};
ghost use Rattle.nm_sure.specs.Planned as planned;
ghost use Rattle.nm_sure.specs.Planned.{AreRan, IsLine, IsPlan, IsStart};

use crate::names::all_held;
use crate::partners::partners;
use crate::ranks::all_lines;
use nm_types::laws::commands_stand_at_their_lines;
use nm_types::{Command, Line, Memory, Script};
use std::alloc::Global;

/// The place of the line of a number in the script.
pub(crate) fn place_of(number: u64) -> usize
    requires { 2 ≤ number }
    ensures { result + 2 ≡ number }
{
    number as usize - 2
}

/// A send that leaves at once, without its receive.
fn is_eager(command: &Command, eager: u16) -> bool
    requires { sent_len command.now < 4294967296 }
    ensures { result ≡ planned.is_eager eager command.now }
{
    match command {
        Command::Send { body, sync, .. } => !*sync && body.len() <= u32::from(eager),
        _ => false,
    }
}

/// A script, with what its starts and names belong to.
pub(crate) struct Plan<'a> {
    pub(crate) lines: &'a [Line],
    /// The lines of each rank's commands.
    pub(crate) ranks: Vec<Vec<u64>>,
    /// What each line's name stands for, by line.
    pub(crate) held: Vec<Option<u64>>,
    /// The partner of each start, by line.
    pub(crate) partners: Vec<Option<u64>>,
    /// Up to how many bytes a standard send does not wait for its receive.
    eager: u16,
    pub(crate) ghost right: { IsPlan lines.now ranks.items held.items partners.items },
}

impl Drop for Plan<'_> {
    fn drop(self) {
        let Plan {
            lines: _,
            ranks: _,
            held: _,
            partners: _,
            eager: _,
        } = self;
    }
}

/// How far a run got.
pub(crate) struct Reached {
    /// How many commands of each rank ran.
    pub(crate) at: Vec<u64>,
    /// Whether it ran, by line.
    ran: Vec<bool>,
}

impl Drop for Reached {
    fn drop(self) {
        let Reached { at: _, ran: _ } = self;
    }
}

impl Plan<'_> {
    /// The line of a rank's next command.
    pub(crate) fn next(&self, at: &[u64], rank: usize) -> Option<u64>
        requires { length at.now ≡ length self.now.ranks.items }
        ensures { result ≡ waits_at self.now.lines.now at.now rank }
    {
        let own = self.ranks.get(rank)?;
        own.get(at[rank] as usize).copied()
    }

    /// The request of the start of a line is ready.
    fn is_ready(&self, reached: &Reached, start: u64) -> bool
        requires ran { AreRan self.now.lines.now reached.now.at.items reached.now.ran.items }
        requires line { (rank : ℕ) × IsStart self.now.lines.now rank start }
        ensures { (rank : ℕ) → IsStart self.now.lines.now rank start →
            result ≡ is_ready_at self.now.eager self.now.lines.now reached.now.at.items rank start }
    {
        commands_stand_at_their_lines();
        let place = place_of(start);
        if is_eager(&self.lines[place].command, self.eager) {
            return true;
        }
        match self.partners[place] {
            Some(partner) => reached.ran[place_of(partner)],
            None => false,
        }
    }

    /// The command of a line, the next one of its rank, can go on.
    fn goes_on(&self, reached: &Reached, number: u64) -> bool
        requires ran { AreRan self.now.lines.now reached.now.at.items reached.now.ran.items }
        requires line { IsLine self.now.lines.now number }
        ensures { (rank : ℕ) (c : Numbered) →
            next_of self.now.lines.now reached.now.at.items rank ≡ Some c → c.line ≡ number →
            result
            ≡ spec.goes_on self.now.eager self.now.lines.now reached.now.at.items rank c.command }
    {
        let place = place_of(number);
        let Command::Wait { .. } = &self.lines[place].command else {
            return true;
        };
        match self.held[place] {
            Some(start) => self.is_ready(reached, start),
            None => true,
        }
    }

    /// A rank has a next command, which can go on.
    fn can_run(&self, reached: &Reached, rank: usize) -> bool
        requires ran { AreRan self.now.lines.now reached.now.at.items reached.now.ran.items }
        requires ranks { length reached.now.at.items ≡ length self.now.ranks.items }
        ensures { result
            ≡ spec.can_run self.now.eager self.now.lines.now reached.now.at.items rank }
    {
        match self.next(reached.at.as_slice(), rank) {
            Some(number) => self.goes_on(reached, number),
            None => false,
        }
    }

    /// The lowest rank that can run its next command.
    fn next_rank(&self, reached: &Reached) -> Option<usize>
        requires ran { AreRan self.now.lines.now reached.now.at.items reached.now.ran.items }
        requires ranks { length reached.now.at.items ≡ length self.now.ranks.items }
        ensures { result ≡ spec.next_rank self.now.eager self.now.lines.now reached.now.at.items }
    {
        (0..reached.at.len()).find(|rank| self.can_run(reached, *rank))
    }

    /// The rank runs its next command.
    fn run_next(&self, reached: &mut Reached, rank: usize)
        requires ran { AreRan self.now.lines.now reached.old.at.items reached.old.ran.items }
        requires ranks { length reached.old.at.items ≡ length self.now.ranks.items }
        requires next { (c : Numbered)
            × (next_of self.now.lines.now reached.old.at.items rank ≡ Some c) }
        ensures at { reached.new.at.items ≡ with_one_more reached.old.at.items rank }
        ensures ran { AreRan self.now.lines.now reached.new.at.items reached.new.ran.items }
    {
        if let Some(number) = self.next(reached.at.as_slice(), rank) {
            reached.ran[place_of(number)] = true;
            reached.at[rank] += 1;
        }
    }

    /// How far the plain run gets.
    pub(crate) fn reached(&self, alloc: Global) -> Result<Reached, Memory>
        ensures { IfOk result (λ r. r.at.items
            ≡ plain_end self.now.eager (length self.now.ranks.items) self.now.lines.now) }
    {
        let mut reached = Reached {
            at: vec![in alloc; 0; self.ranks.len()]?,
            ran: vec![in alloc; false; self.lines.len()]?,
        };
        for _ in 0..self.lines.len() {
            match self.next_rank(&reached) {
                Some(rank) => self.run_next(&mut reached, rank),
                None => break,
            }
        }
        Ok(reached)
    }
}

/// The plan of a script.
pub(crate) fn make_plan<'a>(
    alloc: Global,
    script: &'a Script,
    eager: u16,
) -> Result<Plan<'a>, Memory>
    ensures lines { IfOk result (λ plan. plan.lines.now ≡ script.now.lines) }
    ensures ranks { IfOk result (λ plan. length plan.ranks.items ≡ script.now.ranks) }
    ensures eager { IfOk result (λ plan. plan.eager ≡ eager) }
{
    let lines = script.lines.as_slice();
    let held = all_held(alloc, lines)?;
    let partners = partners(alloc, lines, held.as_slice())?;
    let ranks = all_lines(alloc, lines, script.ranks)?;
    Ok(Plan {
        lines,
        ranks,
        held,
        partners,
        eager,
    })
}
