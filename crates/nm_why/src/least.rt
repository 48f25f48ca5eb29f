//! A least part of a script that still does something: without any one of its commands it does not.

ghost use Rattle.std.specs.Prelude.{◌≡◌, ◌⊎◌, ℕ, Contains, IfOk, IsFalse, IsTrue, OnOk, remove};
ghost use Rattle.nm_why.specs.Hangs.{Does, IsMeeting};
ghost use Rattle.nm_why.specs.Least.{AreRising, IsLeast, IsPart, IsScan};
ghost use Rattle.nm_why.specs.Parts.{lines_at as lines_at_lem};

use crate::hangs::{Aim, Meets, Search, meeting};
use crate::limits::script_of;
use crate::parts::{all_places, lines_at};
use nm_types::{Line, Lines, Memory, Shape};
use std::alloc::Global;

/// So few commands are left out one after another.
const FEW: usize = 3;

/// A script with its sizes, and what a part of it is to do still.
#[derive(Clone, Copy)]
pub struct Task<'a> {
    pub lines: &'a [Line],
    pub shape: Shape,
    pub aim: Aim,
}

/// A part of a script that does it: without any one of its commands it does not, but for those at which
/// a search gave up.
pub struct Least {
    /// The places of its lines in the script, from 0.
    pub places: Vec<usize>,
    /// The commands of the part at which a search gave up.
    pub undecided: Vec<usize>,
}

impl Drop for Least {
    fn drop(self) {
        let Least {
            places: _,
            undecided: _,
        } = self;
    }
}

/// What is found of the commands of a part, one after another.
pub(crate) enum Scan {
    /// Without this one it does it, too.
    Shorter { k: usize },
    /// It needs them all, but for these, at which a search gave up.
    Needed { undecided: Vec<usize> },
}

/// Whether the part at these places does it.
fn meets<S: Search>(alloc: Global, search: &S, of: &Task, places: &[usize]) -> Result<Meets, Memory>
    ensures { IfOk result (IsMeeting of.now.aim of.now.shape
        (lines_at_lem of.now.lines.now places.now)) }
{
    let lines = Lines::from_vec(lines_at(alloc, of.lines, places)?);
    match script_of(of.shape.ranks(), lines) {
        Some(script) => Ok(meeting(of.aim, search.fate(alloc, &script, of.shape)?)),
        None => Ok(Meets::Unknown),
    }
}

/// The places without the one at place k.
fn without(alloc: Global, places: &[usize], k: usize) -> Result<Vec<usize>, Memory>
    ensures { IfOk result (λ others. others.items ≡ remove places.now k) }
{
    let mut others = Vec::from_slice(alloc, places)?;
    if k < others.len() {
        others.remove(k);
    }
    Ok(others)
}

/// Leaves out the place at place k, if there is one.
fn drop_at(places: &mut Vec<usize>, k: usize)
    ensures { AreRising places.old.items → AreRising places.new.items }
{
    if k < places.len() {
        places.remove(k);
    }
}

/// The places without so many from the one at place k on.
fn without_some(
    alloc: Global,
    places: &[usize],
    k: usize,
    count: usize,
) -> Result<Vec<usize>, Memory>
    ensures { AreRising places.now → IfOk result (λ others. AreRising others.items) }
{
    let mut others = Vec::from_slice(alloc, places)?;
    for _place in 0..count {
        drop_at(&mut others, k);
    }
    Ok(others)
}

/// Leaves out so many commands of a part from the one at place k on, if the others do it without them. Answers where the
/// next ones begin.
fn leave_out<S: Search>(
    alloc: Global,
    search: &S,
    of: &Task,
    places: &mut Vec<usize>,
    k: usize,
    count: usize,
) -> Result<usize, Memory>
    requires { IsPart of.now.aim of.now.shape of.now.lines.now places.old.items }
    ensures { OnOk result (IsPart of.now.aim of.now.shape of.now.lines.now places.new.items) }
{
    let others = without_some(alloc, places.as_slice(), k, count)?;
    match meets(alloc, search, of, others.as_slice())? {
        Meets::Yes => {
            *places = others;
            Ok(k)
        }
        Meets::No => Ok(k.saturating_add(count)),
        Meets::Unknown => Ok(k.saturating_add(count)),
    }
}

/// Leaves out so many commands of a part at once, from the first on, where the others do it without them.
fn thin<S: Search>(
    alloc: Global,
    search: &S,
    of: &Task,
    places: &mut Vec<usize>,
    count: usize,
) -> Result<(), Memory>
    requires { IsPart of.now.aim of.now.shape of.now.lines.now places.old.items }
    ensures { OnOk result (IsPart of.now.aim of.now.shape of.now.lines.now places.new.items) }
{
    let mut k = 0usize;
    for _turn in 0..places.len() {
        if k >= places.len() {
            return Ok(());
        }
        k = leave_out(alloc, search, of, places, k, count)?;
    }
    Ok(())
}

/// Leaves out half of the commands of a part at once, then a quarter, and so on, where the others do it without them.
fn halve<S: Search>(
    alloc: Global,
    search: &S,
    of: &Task,
    places: &mut Vec<usize>,
) -> Result<(), Memory>
    requires { IsPart of.now.aim of.now.shape of.now.lines.now places.old.items }
    ensures { OnOk result (IsPart of.now.aim of.now.shape of.now.lines.now places.new.items) }
{
    let mut count = places.len() / 2;
    while count > FEW {
        thin(alloc, search, of, places, count)?;
        count /= 2;
    }
    Ok(())
}

/// Notes a command at which a search gave up. Answers whether the part needs the command, as far as is
/// known.
fn note(undecided: &mut Vec<usize>, k: usize, meets: Meets) -> Result<bool, Memory>
    ensures kept { OnOk result ((j : ℕ) → Contains undecided.old.items j → Contains undecided.new.items j) }
    ensures needed { IfOk result (λ needed. IsTrue needed → (meets ≡ Meets.No) ⊎ Contains undecided.new.items k) }
    ensures gone { IfOk result (λ needed. IsFalse needed → meets ≡ Meets.Yes) }
{
    match meets {
        Meets::Yes => Ok(false),
        Meets::No => Ok(true),
        Meets::Unknown => {
            undecided.push(k)?;
            Ok(true)
        }
    }
}

/// The first command from a place on without which the part does it, too, if there is one.
fn scan_from<S: Search>(
    alloc: Global,
    search: &S,
    of: &Task,
    places: &[usize],
    from: usize,
) -> Result<Scan, Memory>
    ensures { IfOk result
        (IsScan of.now.aim of.now.shape of.now.lines.now places.now from) }
{
    let mut undecided = Vec::new(alloc);
    for k in from..places.len() {
        let others = without(alloc, places, k)?;
        let found = meets(alloc, search, of, others.as_slice())?;
        let is_needed = note(&mut undecided, k, found)?;
        if !is_needed {
            return Ok(Scan::Shorter { k });
        }
    }
    Ok(Scan::Needed { undecided })
}

/// A least part of some commands of a script that do it.
///
/// One command after another is left out where the others do it without it, from the first on, until all
/// that are left are needed.
fn shorten<S: Search>(
    alloc: Global,
    search: &S,
    of: &Task,
    whole: Vec<usize>,
) -> Result<Least, Memory>
    requires { IsPart of.now.aim of.now.shape of.now.lines.now whole.items }
    ensures { IfOk result (IsLeast of.now.aim of.now.shape of.now.lines.now) }
{
    let mut places = whole;
    let mut from = 0;
    'turns: loop {
        match scan_from(alloc, search, of, places.as_slice(), from)? {
            Scan::Shorter { k } => {
                places.remove(k);
                from = k;
            }
            Scan::Needed { undecided } => {
                if from == 0 {
                    return Ok(Least { places, undecided });
                }
                from = 0;
            }
        }
    }
}

/// A least part of a script that still does what the script does. Many commands at once are left out first, so that
/// most searches are of few.
pub fn least_part<S: Search>(alloc: Global, search: &S, of: &Task) -> Result<Least, Memory>
    requires { Does of.now.aim of.now.shape of.now.lines.now }
    ensures { IfOk result (IsLeast of.now.aim of.now.shape of.now.lines.now) }
{
    let mut places = all_places(alloc, of.lines.len())?;
    halve(alloc, search, of, &mut places)?;
    shorten(alloc, search, of, places)
}
