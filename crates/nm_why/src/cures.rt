//! Single changes after which no run of a script can hang.

ghost use Rattle.std.specs.Prelude.{◌≡◌, ◌⊎◌, Contains, IfOk, OnOk};
ghost use Rattle.nm_why.specs.Cures.{AreCures, IsTrial, IsTrialOf, trial_by};
ghost use Rattle.nm_why.specs.Lists.{AddsOnly, Keeps};

use crate::changes::{Change, changed};
use crate::hangs::{Fate, Search};
use crate::limits::script_of;
use nm_types::{Line, Lines, Memory, Shape};
use std::alloc::Global;

/// What a search said of a change.
#[derive(Clone, Copy)]
pub(crate) enum Trial {
    /// After it no run hangs.
    Cured,
    /// After it some run hangs, or it is no script.
    Not,
    /// The search gave up.
    Unknown,
}

/// What was found of some changes.
pub struct Cures {
    /// After these no run hangs.
    pub cures: Vec<Change>,
    /// At these the search gave up.
    pub undecided: Vec<Change>,
}

impl Drop for Cures {
    fn drop(self) {
        let Cures {
            cures: _,
            undecided: _,
        } = self;
    }
}

/// What a search says of a change, by how the runs end after it.
fn trial_of(fate: Fate) -> Trial
    ensures { result ≡ trial_by fate }
{
    match fate {
        Fate::Ends => Trial::Cured,
        Fate::Hangs => Trial::Not,
        Fate::Either => Trial::Not,
        Fate::MayHang => Trial::Not,
        Fate::Open => Trial::Unknown,
    }
}

/// What it says of the lines after a change.
fn try_lines<S: Search>(
    alloc: Global,
    search: &S,
    shape: Shape,
    others: Vec<Line>,
) -> Result<Trial, Memory>
    ensures { IfOk result (IsTrialOf shape others.items) }
{
    match script_of(shape.ranks(), Lines::from_vec(others)) {
        Some(script) => Ok(trial_of(search.fate(alloc, &script, shape)?)),
        None => Ok(Trial::Not),
    }
}

/// What it says of a change.
fn try_change<S: Search>(
    alloc: Global,
    search: &S,
    shape: Shape,
    lines: &[Line],
    change: Change,
) -> Result<Trial, Memory>
    ensures { IfOk result (IsTrial shape lines.now change) }
{
    match changed(alloc, lines, change)? {
        Some(others) => try_lines(alloc, search, shape, others),
        None => Ok(Trial::Not),
    }
}

/// Adds a change to the cures, or to those at which the search gave up, by what it said.
fn file(
    cures: &mut Vec<Change>,
    undecided: &mut Vec<Change>,
    change: Change,
    trial: Trial,
) -> Result<(), Memory>
    ensures cures { OnOk result (AddsOnly (λ c. (c ≡ change) × (trial ≡ Trial.Cured)) cures.old.items cures.new.items) }
    ensures kept { OnOk result (Keeps cures.old.items cures.new.items × Keeps undecided.old.items undecided.new.items) }
    ensures filed { OnOk result (Contains cures.new.items change
        ⊎ (Contains undecided.new.items change ⊎ (trial ≡ Trial.Not))) }
{
    match trial {
        Trial::Cured => cures.push(change)?,
        Trial::Not => {}
        Trial::Unknown => undecided.push(change)?,
    }
    Ok(())
}

/// Which of these changes are cures: after them no run of the script can hang.
pub fn cures_among<S: Search>(
    alloc: Global,
    search: &S,
    shape: Shape,
    lines: &[Line],
    changes: &[Change],
) -> Result<Cures, Memory>
    ensures { IfOk result (AreCures shape lines.now changes.now) }
{
    let mut cures = Vec::new(alloc);
    let mut undecided = Vec::new(alloc);
    for change in changes {
        let trial = try_change(alloc, search, shape, lines, *change)?;
        file(&mut cures, &mut undecided, *change, trial)?;
    }
    Ok(Cures { cures, undecided })
}
