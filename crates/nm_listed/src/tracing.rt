//! A trace of one of the reports that a script can have.

ghost use Rattle.std.specs.Prelude.{◌≡◌, ◌≤◌, ◌++◌, [], ◌∷◌, IfOk, OnOk, map};
ghost use Rattle.nm_explored.specs.Ends.{AreEndsByWay, TellsAll, told_at_end};
ghost use Rattle.nm_listed.specs.Finding.{IsTraced, text_of_told};
ghost use Rattle.nm_listed.specs.Texts.{SameTexts};
ghost use Rattle.nm_listed.specs.Tracing.{AreReported, IsChosen, turns_of, way_of};

use crate::finding::MAX_REPORTS;
use crate::lawful::ends_are_runs;
use crate::records::{text_of, trace_by};
use crate::texts::Texts;
use nm_explored::End;
use nm_explored::choices::moves::Turn;
use nm_report::laws::reports_say_what_was_told;
use nm_types::{Memory, Script, Shape};
use std::alloc::Global;

/// What a search for a trace of a report gives.
#[derive(Drop)]
pub enum Traced {
    /// The trace of a run that has the report with this number.
    Trace(Vec<u8>),
    /// There are no more reports than so many.
    Fewer { count: usize },
    /// The reports have more than 134,217,728 bytes.
    TooLong,
}

/// The reports of ends, and the way to each, in the same order.
struct Reported {
    texts: Texts,
    paths: Vec<Vec<Turn>>,
}

impl Drop for Reported {
    fn drop(self) {
        let Reported { texts: _, paths: _ } = self;
    }
}

/// Adds the report of an end, and the way to it.
fn push_report(
    alloc: Global,
    shape: Shape,
    end: End,
    texts: &mut Texts,
    paths: &mut Vec<Vec<Turn>>,
) -> Result<(), Memory>
    ensures text { OnOk result (texts.new ≡ texts.old ++ text_of_told shape (told_at_end end) ∷ []) }
    ensures way { OnOk result (map turns_of paths.new.items ≡ map turns_of paths.old.items ++ way_of end ∷ []) }
{
    let (told, path) = end.into_parts();
    texts.push(text_of(alloc, shape, told)?)?;
    paths.push(path)?;
    Ok(())
}

/// The reports of these ends, and the way to each.
fn reports_of(alloc: Global, shape: Shape, ends: Vec<End>) -> Result<Reported, Memory>
    ensures told { IfOk result (λ found.
        found.texts ≡ map (λ end. text_of_told shape (told_at_end end)) ends.items) }
    ensures ways { IfOk result (λ found. map turns_of found.paths.items ≡ map way_of ends.items) }
{
    let mut texts = Texts::new(alloc);
    let mut paths = Vec::new(alloc);
    for end in ends {
        push_report(alloc, shape, end, &mut texts, &mut paths)?;
    }
    Ok(Reported { texts, paths })
}

/// The trace of the run by the way to the end whose report has this number in the list, where there are so many. No
/// other record is built.
fn chosen(
    alloc: Global,
    script: &Script,
    shape: Shape,
    list: &Texts,
    found: &Reported,
    number: u32,
) -> Result<Traced, Memory>
    requires equal { shape.ranks ≡ script.now.ranks }
    requires some { 1 ≤ number }
    requires same { SameTexts found.now.texts list.now }
    requires reported { AreReported shape script.now.lines found.now.texts (map turns_of found.now.paths.items) }
    ensures { IfOk result (IsChosen shape script.now.lines list.now number) }
{
    let all = list.as_slice();
    let place = number as usize - 1;
    if place >= all.len() {
        return Ok(Traced::Fewer { count: all.len() });
    }
    let at = found.texts.number(all[place].as_slice()).unwrap() - 1;
    let path = found.paths[at].as_slice();
    Ok(Traced::Trace(trace_by(alloc, script, shape, path)?))
}

/// Of ends that tell all that the runs of the script can tell, a trace of a run whose report is the one
/// with this number, 1 for the first, in the list of all reports that the script can have.
pub fn trace_of(
    alloc: Global,
    script: &Script,
    shape: Shape,
    ends: Vec<End>,
    number: u32,
) -> Result<Traced, Memory>
    requires equal { shape.ranks ≡ script.now.ranks }
    requires tells { TellsAll shape script.now.lines ends.items }
    requires ways { AreEndsByWay shape script.now.lines ends.items }
    requires some { 1 ≤ number }
    ensures { IfOk result (IsTraced shape script.now.lines number) }
{
    reports_say_what_was_told();
    ends_are_runs();
    let found = reports_of(alloc, shape, ends)?;
    let mut list = found.texts.copy(alloc)?;
    list.put_in_order()?;
    if list.is_within(MAX_REPORTS) {
        chosen(alloc, script, shape, &list, &found, number)
    } else {
        Ok(Traced::TooLong)
    }
}
