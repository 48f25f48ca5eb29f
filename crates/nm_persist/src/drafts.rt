//! Lines that were read, and what has to be known of them to read the next one.

ghost use Rattle.std.specs.Prelude.{◌≡◌, ◌∷◌, ◌++◌, [], ◌&&◌, nat_lt, true, false, Some, None};
ghost use Rattle.std.specs.Prelude.{OnOk, IfOk};
ghost use Rattle.std.specs.Prelude.{Err, MatchOption};
ghost use Rattle.nm_plans.specs.declared.faults.PlanKind as kind;
ghost use Rattle.nm_persist.specs.Drafts.{IsDraft};
ghost use Rattle.nm_plans.specs.Expansion.{expand};
ghost use Rattle.nm_persist.specs.Sizes.{IsSizeOf};
ghost use Rattle.nm_plans.specs.Grammar.{is_in_range};
ghost use Rattle.nm_persist.specs.Table as table;

use crate::sizes::Size;
use nm_plans::requests::{End, Ends, Requests, parts_in, push_lines_for};
use nm_plans::{PlanKind, PlanLine, PlanLines};
use nm_script::LineFault;
use nm_types::Memory;
use std::alloc::Global;

/// Lines that were read, with their requests, the ends of these, and the size of their script.
#[derive(Drop)]
pub struct Draft {
    pub ranks: u8,
    pub lines: PlanLines,
    pub requests: Requests,
    pub ends: Ends,
    pub size: Size,
}

impl Draft {
    /// No line yet, of a plan of so many ranks.
    pub fn new(alloc: Global, ranks: u8) -> Draft
        ensures draft { IsDraft result }
        ensures ranks { result.ranks ≡ ranks }
        ensures lines { result.lines ≡ [] }
    {
        Draft {
            ranks,
            lines: PlanLines::new(alloc),
            requests: Requests::new(alloc),
            ends: Ends::new(alloc),
            size: Size::of_ranks(ranks),
        }
    }

    /// The line's rank has made a request of its name, or one with its end.
    fn is_taken(&self, line: &PlanLine) -> bool
        requires { IsDraft self.now }
        ensures { result ≡ table.is_taken self.now.lines line.now }
    {
        match End::of_line(line) {
            Some(end) => self.requests.of_line(line).is_some() || self.ends.parts(end).is_some(),
            None => false,
        }
    }

    /// The request of the other side has another number of parts.
    fn has_other_parts(&self, line: &PlanLine) -> bool
        requires { IsDraft self.now }
        ensures { result ≡ table.has_other_parts self.now.lines line.now }
    {
        match End::of_line(line) {
            Some(end) => match self.ends.parts(end.other()) {
                Some(parts) => parts != parts_in(&line.command),
                None => false,
            },
            None => false,
        }
    }

    /// There is no such request, or it isn't in a state for the command.
    fn is_out_of_order(&self, line: &PlanLine) -> bool
        requires { IsDraft self.now }
        ensures { result ≡ table.is_out_of_order self.now.lines line.now }
    {
        if End::of_line(line).is_some() {
            return false;
        }
        match self.requests.of_line(line) {
            Some(request) => !request.allows(&line.command),
            None => true,
        }
    }

    /// The size of the script with this line, if it is within the limits.
    fn size_with(&self, alloc: Global, line: &PlanLine) -> Result<Option<Size>, Memory>
        requires draft { IsDraft self.now }
        requires in_range { (nat_lt line.now.rank self.now.ranks
            && is_in_range self.now.ranks line.now.command) ≡ true }
        requires free { table.is_taken self.now.lines line.now ≡ false }
        requires in_order { table.is_out_of_order self.now.lines line.now ≡ false }
        ensures { IfOk result (λ size. MatchOption size
            (table.is_past self.now.ranks self.now.lines line.now ≡ true)
            (λ size. IsSizeOf size self.now.ranks (expand (self.now.lines ++ line.now ∷ [])))) }
    {
        let mut lines = Vec::new(alloc);
        push_lines_for(alloc, &mut lines, &self.requests, line)?;
        Ok(self.size.with_lines(&lines))
    }

    /// Puts a line behind the others, unless it has a fault.
    pub fn add(&mut self, alloc: Global, line: PlanLine) -> Result<(), LineFault<PlanKind>>
        requires draft { IsDraft self.old }
        requires in_range { (nat_lt line.rank self.old.ranks
            && is_in_range self.old.ranks line.command) ≡ true }
        ensures ok { OnOk result (self.new.lines ≡ self.old.lines ++ line ∷ []) }
        ensures ranks { self.new.ranks ≡ self.old.ranks }
        ensures draft { OnOk result (IsDraft self.new) }
        ensures sound { OnOk result (table.fault_in self.old.ranks self.old.lines line ≡ None) }
        ensures fault { (e : kind.PlanKind) → result ≡ Err (LineFault.Bad e) →
            table.fault_in self.old.ranks self.old.lines line ≡ Some e }
    {
        if self.is_taken(&line) {
            return Err(LineFault::Bad(PlanKind::Taken));
        }
        if self.has_other_parts(&line) {
            return Err(LineFault::Bad(PlanKind::Parts));
        }
        if self.is_out_of_order(&line) {
            return Err(LineFault::Bad(PlanKind::Order));
        }
        let Some(size) = self.size_with(alloc, &line)? else {
            return Err(LineFault::Bad(PlanKind::Size));
        };
        self.requests.note(&line)?;
        self.ends.note(&line)?;
        self.size = size;
        self.lines.push(line)?;
        Ok(())
    }
}
