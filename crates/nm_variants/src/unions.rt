//! The reports of all variants, together.

ghost use Rattle.std.specs.Prelude.{◌≡◌, ◌++◌, ◌⊎◌, ◌↔◌, ◌/◌, ◌≤◌, ◌<◌, List, ℕ, [], Contains, IfOk, OnOk, map};
ghost use Rattle.nm_outcomes.specs.Outcomes.{AreRising};
ghost use Rattle.nm_listed.specs.Texts.{bytes_of};
ghost use Rattle.nm_variants.specs.Reports.{AreReportsBelow, IsStep, IsSum, IsUnion};
ghost use Rattle.nm_variants.specs.Variants.{variants};

use crate::searching::{Searched, search_variant};
use crate::variants::count;
use nm_listed::{MAX_REPORTS, Texts};
use nm_types::{Memory, Script, Shape};
use std::alloc::Global;

/// What a variant came to, whose reports are put to those of others.
#[derive(Clone, Copy)]
pub(crate) enum Step {
    /// Its reports are there.
    Added,
    /// It has more states than its share, or its text is too long.
    TooMany,
    /// The reports have more than 134,217,728 bytes.
    TooLong,
}

/// The reports of all variants of a script.
#[derive(Drop)]
pub enum Union {
    /// Each once, in the order of a dictionary, and how many variants there are.
    All { texts: Texts, count: u32 },
    /// There are more variants than states, or one has more states than its share, or too long a text.
    TooMany,
    /// The reports have more than 134,217,728 bytes.
    TooLong,
}

/// Puts copies of these texts behind others.
fn push_all(alloc: Global, texts: &mut Texts, more: &[Vec<u8>]) -> Result<(), Memory>
    ensures { OnOk result (texts.new ≡ texts.old ++ map bytes_of more.now) }
{
    for text in more {
        texts.push(Vec::from_slice(alloc, text.as_slice())?)?;
    }
    Ok(())
}

/// Puts these texts to others, each once and in the order of a dictionary.
fn join(alloc: Global, texts: &mut Texts, more: &Texts) -> Result<(), Memory>
    ensures rising { OnOk result (AreRising texts.new) }
    ensures joined { OnOk result ((text : List ℕ) →
        Contains texts.new text ↔ (Contains texts.old text ⊎ Contains more.now text)) }
{
    push_all(alloc, texts, more.as_slice())?;
    texts.put_in_order()?;
    Ok(())
}

/// Puts the reports of the variant with this number to those of the variants below it.
fn add_variant(
    alloc: Global,
    script: &Script,
    shape: Shape,
    number: u32,
    bound: u32,
    texts: &mut Texts,
) -> Result<Step, Memory>
    requires { AreReportsBelow shape script.now.lines number texts.old }
    ensures { IfOk result (IsStep shape script.now.lines number bound texts.new) }
{
    let more = match search_variant(alloc, script, shape, number, bound)? {
        Searched::All(more) => more,
        Searched::TooMany => return Ok(Step::TooMany),
        Searched::TooLong => return Ok(Step::TooLong),
    };
    join(alloc, texts, &more)?;
    if texts.is_within(MAX_REPORTS) {
        Ok(Step::Added)
    } else {
        Ok(Step::TooLong)
    }
}

/// Puts together the reports of the variants below a number, where there are none yet.
fn add_variants(
    alloc: Global,
    script: &Script,
    shape: Shape,
    count: u32,
    bound: u32,
    texts: &mut Texts,
) -> Result<Step, Memory>
    requires { texts.old ≡ [] }
    ensures { IfOk result (IsSum shape script.now.lines count bound texts.new) }
{
    for number in 0..count {
        match add_variant(alloc, script, shape, number, bound, texts)? {
            Step::Added => {}
            other => return Ok(other),
        }
    }
    Ok(Step::Added)
}

/// The reports of all runs of the script where each of its standard sends that is no longer than the eager limit, by
/// itself, is buffered or waits for its receive. The search of each variant may meet an equal share of the states.
pub fn all_reports(
    alloc: Global,
    script: &Script,
    shape: Shape,
    states: u32,
) -> Result<Union, Memory>
    requires { 1 ≤ states }
    ensures { IfOk result (IsUnion shape script.now.lines states) }
{
    let Some(count) = count(script.lines.as_slice(), shape.eager(), states) else {
        return Ok(Union::TooMany);
    };
    let mut texts = Texts::new(alloc);
    match add_variants(alloc, script, shape, count, states / count, &mut texts)? {
        Step::Added => Ok(Union::All { texts, count }),
        Step::TooMany => Ok(Union::TooMany),
        Step::TooLong => Ok(Union::TooLong),
    }
}
