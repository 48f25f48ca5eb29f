//! A program whose calls are noted.

ghost use Rattle.std.specs.Prelude.{◌≡◌, ◌++◌, OnOk, option_to_list};
ghost use Rattle.nm_noted.specs.Noted.{IsFresh, notes};

use crate::copies::copy_command;
use crate::keepers::Keeper;
use nm_programs::Program;
use nm_transcript::Calls;
use nm_types::{Answer, Command, Memory};
use std::alloc::Global;

/// A program, and the calls that it made: all, or the last ones.
pub struct Noted<P, C = Calls> {
    pub program: P,
    pub calls: C,
}

impl<P: Drop, C: Drop> Drop for Noted<P, C> {
    fn drop(self) {
        let Noted {
            program: _,
            calls: _,
        } = self;
    }
}

impl<P: Program, C: Keeper> Noted<P, C> {
    /// A program that made no call yet.
    pub fn new(alloc: Global, program: P) -> Noted<P, C>
        ensures { IsFresh C.calls program result }
    {
        Noted {
            program,
            calls: C::empty(alloc),
        }
    }

    /// The program, and its calls.
    pub fn into_parts(self) -> (P, C)
        ensures { (result.0 ≡ self.program) × (result.1 ≡ self.calls) }
    {
        let Noted { program, calls } = self;
        (program, calls)
    }
}

// The last call got this answer, if there was one.
fn hear<C: Keeper>(calls: &mut C, answer: Option<&Answer>)
    ensures { C.calls calls.new ≡ C.calls calls.old }
{
    if let Some(answer) = answer {
        calls.hear(answer);
    }
}

// Notes a call.
fn note<C: Keeper>(calls: &mut C, command: &Option<Command>) -> Result<(), Memory>
    ensures { OnOk result (C.calls calls.new ≡ C.calls calls.old ++ option_to_list command.now) }
{
    if let Some(command) = command {
        calls.keep(copy_command(command)?)?;
    }
    Ok(())
}

impl<P: Program, C: Keeper> Program for Noted<P, C> {
    // It goes on as its program does, and notes what that gives.
    ghost says = { notes P.says C.calls };

    fn next(&mut self, answer: Option<&Answer>) -> Result<Option<Command>, Memory> {
        hear(&mut self.calls, answer);
        let command = self.program.next(answer)?;
        note(&mut self.calls, &command)?;
        Ok(command)
    }
}
