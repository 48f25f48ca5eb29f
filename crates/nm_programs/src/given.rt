//! The commands that a program gives, one after another.

ghost use Rattle.std.specs.Prelude.{◌≡◌, ◌+◌, ◌<◌, ◌++◌, ◌∷◌, [], ℕ, None, true, false, List, IfOk};
ghost use Rattle.std.specs.Option.{option_or};
ghost use Rattle.std.specs.Prelude.{IfSome, IsSome, MatchOption, OnOk, option_map, option_to_list, slice_get};
ghost use Rattle.nm_types.specs.Limits.{is_in_range};
ghost use Rattle.nm_process.specs.Playing.{AllInRange, HasPlayed, IsCounted, NeverRuns, gives_on, shown_by};

use crate::programs::Program;
use crate::ranges::in_range;
use nm_ghost::Trace;
use nm_process::Source;
use nm_types::{Answer, Command, Memory};
use std::marker::Model;

/// As many commands as there are lines for: the k-th one, from 0, has line k + 2.
const LAST: u64 = 18446744073709551610;

/// A program, and the command that it gave last, which has not run. What it gave before is known to
/// contracts alone.
#[derive(Drop)]
pub struct Given<P: Program> {
    // in a run of so many ranks
    ranks: u8,
    // as it was at first
    start: Trace<P>,
    program: P,
    next: Option<Command>,
    // a command that is out of range, or for which there is no line: it never runs, and is the last one
    stray: Option<Command>,
    // how many commands ran
    at: u64,
    given: Trace<Command>,
    told: Trace<Answer>,
    // it was refused memory, and knows no more where it is
    failed: bool,
}

impl<P: Program> Model for Given<P> {
    ghost use Rattle.std.specs.Prelude.{◌≡◌, ◌<◌, ◌≤◌, None, true, false, IfSome};
    ghost use Rattle.nm_types.specs.Limits.{is_in_range};
    ghost use Rattle.nm_process.specs.Playing.{AllInRange, GivenView, IsCounted, IsPlayed, NeverRuns};

    ghost Value = { GivenView P };

    ghost view = { λ g.
        record {
          ranks = g.ranks;
          start = g.start.items;
          program = g.program;
          next = g.next;
          stray = g.stray;
          at = g.at;
          given = g.given.items;
          told = g.told.items;
          failed = g.failed;
        } };

    ghost invariant = { λ g.
        IsCounted g.given.items g.next g.at
        × (g.at ≤ 18446744073709551610)
        × IfSome g.next (λ x. (is_in_range g.ranks x ≡ true) × (g.at < 18446744073709551610)
        × (g.stray ≡ None))
        × (g.failed ≡ false → IsPlayed P.says (record {
          ranks = g.ranks;
          start = g.start.items;
          program = g.program;
          next = g.next;
          stray = g.stray;
          at = g.at;
          given = g.given.items;
          told = g.told.items;
          failed = g.failed;
        }))
        × IfSome g.stray (NeverRuns g.ranks g.at)
        × AllInRange g.ranks g.given.items };
}

/// A program at the end of a run.
#[derive(Drop)]
pub struct Played<P> {
    /// The program as it was left.
    pub program: P,
    /// The command in which its rank waits, if it waits.
    pub next: Option<Command>,
    /// A command that never ran, since it is out of range or there was no line for it.
    pub stray: Option<Command>,
}

// Whether a command may run after so many.
fn may_run(command: &Command, ranks: u8, at: u64) -> bool
    ensures runs { result ≡ true → (is_in_range ranks command.now ≡ true) × (at < 18446744073709551610) }
    ensures never { result ≡ false → NeverRuns ranks at command.now }
{
    at < LAST && in_range(ranks, command)
}

impl<P: Program> Given<P> {
    /// What a program gives in a run of so many ranks, from its start on.
    pub fn new(program: P, ranks: u8) -> Result<Self, Memory>
        ensures begins { IfOk result (λ g. (g.at ≡ 0) × (g.ranks ≡ ranks) × (g.told ≡ [])
            × (g.start ≡ program ∷ []) × (g.failed ≡ false)) }
    {
        let start = Trace::new().then(&program);
        let mut program = program;
        let (next, stray) = sorted(program.next(None)?, ranks, 0);
        let mut given = Trace::new();
        note(&mut given, &next);
        Ok(Given {
            ranks,
            start,
            program,
            next,
            stray,
            at: 0,
            given,
            told: Trace::new(),
            failed: false,
        })
    }

    /// The program as it was left, and its commands that did not run.
    ///
    /// From its start on it was told exactly the answers of the commands that ran, and gave exactly these
    /// commands, and then the one that did not run, if there is one.
    pub fn into_parts(self) -> Played<P>
        ensures left { (result.program ≡ self.program) × (result.next ≡ self.next)
            × (result.stray ≡ self.stray) }
        ensures played { self.failed ≡ false → (start : P) → self.start ≡ start ∷ [] →
            HasPlayed P.says start self.told self.program (option_or self.stray self.next)
            (self.given ++ option_to_list self.stray) }
        ensures counted { IsCounted self.given self.next self.at }
        ensures next { IfSome self.next (λ x. self.stray ≡ None) }
        ensures stray { IfSome self.stray (NeverRuns self.ranks self.at) }
        ensures in_range { AllInRange self.ranks self.given }
    {
        let Given {
            ranks: _,
            start: _,
            program,
            next,
            stray,
            at: _,
            given: _,
            told: _,
            failed: _,
        } = self;
        Played {
            program,
            next,
            stray,
        }
    }
}

// Whether there is no command, or one that may run after so many.
fn is_next(command: &Option<Command>, ranks: u8, at: u64) -> bool
    ensures runs { result ≡ true → IfSome command.now (λ x. (is_in_range ranks x ≡ true)
        × (at < 18446744073709551610)) }
    ensures never { result ≡ false → IsSome command.now × IfSome command.now (NeverRuns ranks at) }
{
    match command {
        Some(command) => may_run(command, ranks, at),
        None => true,
    }
}

// A command that may run after so many, or one that never runs.
fn sorted(command: Option<Command>, ranks: u8, at: u64) -> (Option<Command>, Option<Command>)
    ensures runs { IfSome result.0 (λ x. (is_in_range ranks x ≡ true) × (at < 18446744073709551610)
        × (result.1 ≡ None)) }
    ensures never { IfSome result.1 (NeverRuns ranks at) }
    ensures same { (option_or result.1 result.0 ≡ command)
        × (option_to_list result.0 ++ option_to_list result.1 ≡ option_to_list command) }
{
    let Some(command) = command else {
        return (None, None);
    };
    if may_run(&command, ranks, at) {
        (Some(command), None)
    } else {
        (None, Some(command))
    }
}

// Notes that this command was given, if there is one.
fn note(given: &mut Trace<Command>, next: &Option<Command>)
    ensures { given.new.items ≡ given.old.items ++ option_to_list next.now }
{
    if let Some(command) = next {
        *given = given.then(command);
    }
}

// Puts a command in the place of the next one if it may run after so many, and else in that of one that never runs.
#[inline(always)]
fn sort(
    command: Option<Command>,
    ranks: u8,
    at: u64,
    next: &mut Option<Command>,
    stray: &mut Option<Command>,
)
    ensures runs { IfSome next.new (λ x. (is_in_range ranks x ≡ true) × (at < 18446744073709551610)
        × (stray.new ≡ None)) }
    ensures never { IfSome stray.new (NeverRuns ranks at) }
    ensures same { (option_or stray.new next.new ≡ command)
        × (option_to_list next.new ++ option_to_list stray.new ≡ option_to_list command) }
{
    if is_next(&command, ranks, at) {
        *next = command;
        *stray = None;
    } else {
        *next = None;
        *stray = command;
    }
}

impl<P: Program> Source for Given<P> {
    ghost Begun = { List P };

    ghost shows = { shown_by };

    ghost gives = { gives_on };

    fn count(&self) -> usize {
        0
    }

    fn next(&self) -> Option<(u64, &Command)> {
        let Some(command) = &self.next else {
            return None;
        };
        Some((self.at + 2, command))
    }

    fn pass(&mut self, answer: &Answer) -> Result<(), Memory> {
        let told = self.told.then(answer);
        let command = match self.program.next(Some(answer)) {
            Ok(command) => command,
            Err(Memory) => {
                self.failed = true;
                return Err(Memory);
            }
        };
        self.told = told;
        self.at += 1;
        sort(
            command,
            self.ranks,
            self.at,
            &mut self.next,
            &mut self.stray,
        );
        note(&mut self.given, &self.next);
        Ok(())
    }
}
