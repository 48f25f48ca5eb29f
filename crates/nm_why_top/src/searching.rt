//! The searches for a run that hangs, and for one that ends.

ghost use Rattle.std.specs.Prelude.{◌≡◌, ℕ, IfOk, List, is_some, not};
ghost use Rattle.std.specs.List.{list_any};
ghost use Rattle.nm_types.specs.declared.scripts.Line as the_line;
ghost use Rattle.nm_types.specs.Limits.{IsScript};
ghost use Rattle.nm_types.specs.Sizes.{Sizes};
ghost use Rattle.nm_explored.specs.Ends.{told_at_end};
ghost use Rattle.nm_hangs.specs.Found.{IsHang};
ghost use Rattle.nm_why.specs.Hangs.{CanHang, IsFate, is_hung as is_hung_lem};
ghost use Rattle.nm_why_top.specs.declared.seeking.Sought.TheVariants as sought;
ghost use Rattle.nm_why_top.specs.Seeking.{IsSeen};

use crate::seeking::{Seen, Sought, seek};
use nm_explored::End;
use nm_hangs::{Hang, find_hang};
use nm_listed::lawful::ends_are_runs;
use nm_report::RankAccount;
use nm_types::{Memory, Script, Shape};
use nm_why::hangs::{Fate, Search};
use std::alloc::Global;

/// Whether a rank waits by one of these accounts.
fn does_one_wait(accounts: &[RankAccount]) -> bool
    ensures { result ≡ list_any (λ account. is_some account.waits) accounts.now }
{
    accounts.iter().any(|account| account.waits.is_some())
}

/// Whether a rank waits at an end.
pub fn is_hung(end: &End) -> bool
    ensures { result ≡ is_hung_lem (told_at_end end.now) }
{
    does_one_wait(end.told.as_slice())
}

/// Whether no rank waits at one of these ends.
pub fn does_one_end(ends: &[End]) -> bool
    ensures { result ≡ list_any (λ end. not (is_hung_lem (told_at_end end))) ends.now }
{
    ends.iter().any(|end| !is_hung(end))
}

/// A search for one run that hangs, which gives up where it meets more states than this.
#[derive(Clone, Copy)]
pub struct Hunt {
    pub states: u32,
}

/// How the runs of a script end, by what was found of it.
fn fate_by(hang: &Hang) -> Fate
    ensures { (shape : Sizes) (lines : List the_line.Line) (states : ℕ) → IsHang shape lines states hang.now →
        IsFate shape lines result }
{
    match hang {
        Hang::Found { .. } => Fate::MayHang,
        Hang::Never => Fate::Ends,
        Hang::Open => Fate::Open,
    }
}

impl Search for Hunt {
    fn fate(&self, alloc: Global, script: &Script, shape: Shape) -> Result<Fate, Memory> {
        let found = find_hang(alloc, script, shape, self.states)?;
        Ok(fate_by(&found))
    }
}

/// A search for one run that hangs, and for one that ends. Each gives up where it meets more states than this.
#[derive(Clone, Copy)]
pub struct Hunts {
    pub states: u32,
}

/// How the runs of a script end, of which one hangs, by what is known of one that ends.
fn fate_with(end: &Seen) -> Fate
    ensures { (shape : Sizes) (lines : List the_line.Line) → IsScript shape.ranks lines → CanHang shape lines →
        IsSeen sought.End shape lines end.now → IsFate shape lines result }
{
    ends_are_runs();
    match end {
        Seen::By { .. } => Fate::Either,
        Seen::Never => Fate::Hangs,
        Seen::Open => Fate::MayHang,
    }
}

/// How the runs of a script end, of which one hangs.
fn fate_of_hanging(
    alloc: Global,
    script: &Script,
    shape: Shape,
    states: u32,
) -> Result<Fate, Memory>
    requires equal { shape.ranks ≡ script.now.ranks }
    requires hangs { CanHang shape script.now.lines }
    ensures { IfOk result (IsFate shape script.now.lines) }
{
    let end = seek(alloc, script, shape, states, Sought::End)?;
    Ok(fate_with(&end))
}

/// How the runs of a script end, by what was found of it.
fn fate_after(
    alloc: Global,
    script: &Script,
    shape: Shape,
    states: u32,
    found: &Hang,
) -> Result<Fate, Memory>
    requires equal { shape.ranks ≡ script.now.ranks }
    requires found { IsHang shape script.now.lines states found.now }
    ensures { IfOk result (IsFate shape script.now.lines) }
{
    match found {
        Hang::Found { .. } => fate_of_hanging(alloc, script, shape, states),
        Hang::Never => Ok(Fate::Ends),
        Hang::Open => Ok(Fate::Open),
    }
}

impl Search for Hunts {
    fn fate(&self, alloc: Global, script: &Script, shape: Shape) -> Result<Fate, Memory> {
        let found = find_hang(alloc, script, shape, self.states)?;
        fate_after(alloc, script, shape, self.states, &found)
    }
}
