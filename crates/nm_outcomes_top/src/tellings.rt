//! What is told of the reports that a script can have, and how it is said.

ghost use Rattle.std.specs.Prelude.{◌≡◌, IfOk};
ghost use Rattle.nm_outcomes_top.specs.Answers.{listed_status as listed_status_lem};
ghost use Rattle.nm_outcomes_top.specs.Answers.{placed_status as placed_status_lem};
ghost use Rattle.nm_outcomes_top.specs.Answers.{traced_status as traced_status_lem};
ghost use Rattle.nm_outcomes_top.specs.Answers.{telling_status as telling_status_lem};
ghost use Rattle.nm_outcomes_top.specs.Answers.{telling_text as telling_text_lem};
ghost use Rattle.nm_outcomes_top.specs.Texts.{fewer_text as fewer_text_lem, place_text as place_text_lem};

use crate::listing::{is_one_stuck, is_stuck, joined_text, outcomes_text};
use nm_listed::{Place, Texts};
use nm_shell::line;
use nm_types::Memory;
use std::alloc::{AllocError, Global};

/// What is told of the reports that a script can have.
#[derive(Drop)]
pub enum Telling {
    /// These are all of them.
    Listed { texts: Texts },
    /// The trace of a run whose report is the one that was asked for.
    Traced { trace: Vec<u8> },
    /// There is none with this number, but so many.
    Fewer { number: u32, count: usize },
    /// Where the given report stands among them.
    Placed { place: Place },
    /// These are all of them where each standard send may wait, and how many variants that makes.
    Joined { texts: Texts, count: u32 },
    /// The trace of a run that hangs.
    Hung { trace: Vec<u8> },
    /// No run hangs.
    NoHang,
}

/// What is said where there is no report with this number.
fn fewer_text(alloc: Global, number: u32, count: usize) -> Result<Vec<u8>, AllocError>
    ensures { IfOk result (λ bytes. bytes.items ≡ fewer_text_lem number count) }
{
    let text = format!(in alloc; "fault outcome {} {}\n", number, count)?;
    Ok(text.into_bytes())
}

/// What is said of a given report.
fn place_text(alloc: Global, place: Place) -> Result<Vec<u8>, AllocError>
    ensures { IfOk result (λ bytes. bytes.items ≡ place_text_lem place) }
{
    let text = match place {
        Place::At { number } => format!(in alloc; "outcome {}\n", number)?,
        Place::Not { line } => format!(in alloc; "no outcome {}\n", line)?,
    };
    Ok(text.into_bytes())
}

/// The text of what is told.
pub fn telling_text(alloc: Global, telling: &Telling) -> Result<Vec<u8>, Memory>
    ensures { IfOk result (λ text. text.items ≡ telling_text_lem telling.now) }
{
    match telling {
        Telling::Listed { texts } => outcomes_text(alloc, texts),
        Telling::Traced { trace } => Ok(Vec::from_slice(alloc, trace.as_slice())?),
        Telling::Fewer { number, count } => Ok(fewer_text(alloc, *number, *count)?),
        Telling::Placed { place } => Ok(place_text(alloc, *place)?),
        Telling::Joined { texts, count } => joined_text(alloc, texts, *count),
        Telling::Hung { trace } => Ok(Vec::from_slice(alloc, trace.as_slice())?),
        Telling::NoHang => Ok(line(alloc, "no hang\n")?),
    }
}

/// The status of reports that were listed.
fn listed_status(texts: &Texts) -> u8
    ensures { result ≡ listed_status_lem texts.now }
{
    if is_one_stuck(texts) { 1 } else { 0 }
}

/// The status of a trace.
fn traced_status(trace: &[u8]) -> u8
    ensures { result ≡ traced_status_lem trace.now }
{
    if is_stuck(trace) { 1 } else { 0 }
}

/// The status of a given report.
fn placed_status(place: Place) -> u8
    ensures { result ≡ placed_status_lem place }
{
    match place {
        Place::At { .. } => 0,
        Place::Not { .. } => 8,
    }
}

/// The status of what is told.
pub fn telling_status(telling: &Telling) -> u8
    ensures { result ≡ telling_status_lem telling.now }
{
    match telling {
        Telling::Listed { texts } => listed_status(texts),
        Telling::Traced { trace } => traced_status(trace.as_slice()),
        Telling::Fewer { .. } => 7,
        Telling::Placed { place } => placed_status(*place),
        Telling::Joined { texts, .. } => listed_status(texts),
        Telling::Hung { .. } => 1,
        Telling::NoHang => 0,
    }
}
