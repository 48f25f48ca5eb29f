//! The whole text: its length, its first line, and one line after the other.

ghost use Rattle.std.specs.Prelude.{◌≡◌, ◌≤◌, ◌+◌, ◌<◌, ℕ, List, [], length};
ghost use Rattle.std.specs.Prelude.{IfErr, IfOk, OnOk};
ghost use Rattle.nm_script.specs.Faults.{GivesAt};
ghost use Rattle.nm_script.specs.Lines.{lines_of};
ghost use Rattle.nm_script.specs.TextReading.{AnswersText, IsRefused, lines_from};
ghost use Rattle.nm_script.specs.TextRules.{IsFaultIn};
ghost use Rattle.nm_plans.specs.declared.faults.PlanKind as kinds;
ghost use Rattle.nm_plans.specs.declared.lines.PlanLine as plan_line;
ghost use Rattle.nm_persist.specs.Drafts.{Adds, AddsAt, IsDraft};
ghost use Rattle.nm_persist.specs.Reading.{line_at, parts, plan_reader, read_of};
ghost use Rattle.nm_persist.specs.Rules.{IsFirstFault, IsTextOf, plans};

use crate::drafts::Draft;
use crate::plans::Plan;
use nm_plans::{PlanFault, PlanKind, line_from};
use nm_script::texts::first_line;
use nm_script::words::{is_printable, split_line, words};
use nm_script::{LineFault, is_too_long};
use nm_types::{MAX_LINES, MAX_RANKS};
use std::alloc::Global;

/// Reads a line that isn't the first, and puts it behind the others.
#[tactic(auto, unfolding(crate::specs::Reading::line_at))]
fn line_in(alloc: Global, draft: &mut Draft, line: &[u8]) -> Result<(), LineFault<PlanKind>>
    requires draft { IsDraft draft.old }
    requires few { length draft.old.lines < MAX_LINES }
    requires ranks { draft.old.ranks ≤ MAX_RANKS }
    ensures adds { Adds result draft.old.lines draft.new.lines
        (line_at draft.old.ranks draft.old.lines line.now) }
    ensures ranks { draft.new.ranks ≡ draft.old.ranks }
    ensures draft { OnOk result (IsDraft draft.new) }
    ensures few { OnOk result (length draft.new.lines < MAX_LINES) }
{
    if !is_printable(line) {
        return Err(LineFault::Bad(PlanKind::NotAscii));
    }
    if draft.lines.len() + 2 > MAX_LINES as usize {
        return Err(LineFault::Bad(PlanKind::Lines));
    }
    let words = words(alloc, line)?;
    let line = line_from(alloc, draft.ranks, &words)?;
    draft.add(alloc, line)
}

/// Another line, with its number at a fault.
fn other_line(alloc: Global, draft: &mut Draft, line: &[u8]) -> Result<(), PlanFault>
    requires draft { IsDraft draft.old }
    requires few { length draft.old.lines < MAX_LINES }
    requires ranks { draft.old.ranks ≤ MAX_RANKS }
    ensures adds { AddsAt (length draft.old.lines + 2) result draft.old.lines draft.new.lines
        (line_at draft.old.ranks draft.old.lines line.now) }
    ensures ranks { draft.new.ranks ≡ draft.old.ranks }
    ensures draft { OnOk result (IsDraft draft.new) }
    ensures few { OnOk result (length draft.new.lines < MAX_LINES) }
{
    let number = draft.lines.len() as u32 + 2;
    match line_in(alloc, draft, line) {
        Ok(()) => Ok(()),
        Err(fault) => Err(fault.at(number)),
    }
}

/// The lines from the second on.
fn other_lines(alloc: Global, ranks: u8, bytes: &[u8]) -> Result<Draft, PlanFault>
    requires { ranks ≤ MAX_RANKS }
    ensures exact { GivesAt (λ draft. draft.lines) result
        (lines_from plan_reader ranks [] (lines_of bytes.now)) }
    ensures draft { IfOk result IsDraft }
    ensures ranks { IfOk result (λ draft. draft.ranks ≡ ranks) }
    ensures few { IfOk result (λ draft. length draft.lines < MAX_LINES) }
{
    let mut draft = Draft::new(alloc, ranks);
    let mut rest = bytes;
    while !rest.is_empty() {
        let (text, after) = split_line(rest);
        other_line(alloc, &mut draft, text)?;
        rest = after;
    }
    Ok(draft)
}

/// The plan that the bytes spell, or the first fault.
#[tactic(auto, unfolding(crate::specs::Reading::read_of))]
fn read_exactly(alloc: Global, bytes: &[u8]) -> Result<Plan, PlanFault>
    ensures { GivesAt parts result (read_of bytes.now) }
{
    if is_too_long(bytes) {
        return Err(PlanFault::Bad {
            line: 0,
            kind: PlanKind::TooLong,
        });
    }
    if bytes.is_empty() {
        return Err(PlanFault::Bad {
            line: 1,
            kind: PlanKind::First,
        });
    }
    let (line, rest) = split_line(bytes);
    let ranks = first_line(alloc, line, PlanKind::NotAscii, PlanKind::First)?;
    let draft = other_lines(alloc, ranks, rest)?;
    Ok(Plan {
        ranks,
        lines: draft.lines,
    })
}

/// The plan that the bytes spell. The last line may lack its line feed.
///
/// A text has at most `MAX_LINES` lines and `MAX_TEXT` bytes, with the line feed that its last line
/// lacks. `Memory` says nothing of the bytes.
pub fn read(alloc: Global, bytes: &[u8]) -> Result<Plan, PlanFault>
    ensures taken { IfOk result (λ plan. IsTextOf bytes.now plan.ranks plan.lines) }
    ensures takes { (ranks : ℕ) (lines : List plan_line.PlanLine) →
        IsTextOf bytes.now ranks lines → AnswersText parts result ranks lines }
    ensures fault { IfErr result (IsFaultIn plans bytes.now) }
    ensures faults { (line : ℕ) (e : kinds.PlanKind) →
        IsFirstFault bytes.now line e → IsRefused result line e }
{
    read_exactly(alloc, bytes)
}
