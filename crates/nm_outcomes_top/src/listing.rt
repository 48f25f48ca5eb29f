//! The reports of a script, as one text.

ghost use Rattle.std.specs.Prelude.{◌≡◌, ◌+◌, ◌++◌, IfOk, OnOk, count_by, map, nat_lt, string_bytes};
ghost use Rattle.nm_listed.specs.Texts.{bytes_of};
ghost use Rattle.nm_outcomes_top.specs.Texts.{is_stuck as is_stuck_lem, numbers_line, outcome_text};
ghost use Rattle.nm_outcomes_top.specs.Texts.{head_line, outcomes_from, stuck_count};
ghost use Rattle.nm_outcomes_top.specs.Texts as spec;

use nm_listed::Texts;
use nm_types::Memory;
use std::alloc::{AllocError, Global};

/// Whether a report says at its end that a rank is stuck.
pub fn is_stuck(text: &[u8]) -> bool
    ensures { result ≡ is_stuck_lem text.now }
{
    text.ends_with(b"stuck\n".as_slice())
}

/// How many of some reports are stuck.
fn count_stuck(texts: &[Vec<u8>]) -> usize
    ensures { result ≡ count_by (λ text. is_stuck_lem (bytes_of text)) texts.now }
{
    texts
        .iter()
        .filter(|text| is_stuck(text.as_slice()))
        .count()
}

/// Whether one of the reports is stuck.
pub fn is_one_stuck(texts: &Texts) -> bool
    ensures { result ≡ nat_lt 0 (stuck_count texts.now) }
{
    count_stuck(texts.as_slice()) > 0
}

/// Writes a report behind a line with its number.
fn push_outcome(
    alloc: Global,
    out: &mut Vec<u8>,
    number: usize,
    text: &[u8],
) -> Result<(), AllocError>
    ensures ok { OnOk result (out.new.items ≡ out.old.items ++ outcome_text number text.now) }
{
    let head = format!(in alloc; "outcome {}\n", number)?;
    out.extend_from_slice(head.as_bytes())?;
    out.extend_from_slice(text)
}

/// Writes the reports, each behind a line with its number.
fn push_outcomes(alloc: Global, out: &mut Vec<u8>, texts: &[Vec<u8>]) -> Result<(), AllocError>
    ensures ok { OnOk result
        (out.new.items ≡ out.old.items ++ outcomes_from 1 (map bytes_of texts.now)) }
{
    for (place, text) in texts.iter().enumerate() {
        push_outcome(alloc, out, place + 1, text.as_slice())?;
    }
    Ok(())
}

/// The line of the numbers.
fn numbers(alloc: Global, all: usize, stuck: usize) -> Result<String, AllocError>
    ensures { IfOk result (λ line. string_bytes line ≡ numbers_line all stuck) }
{
    format!(in alloc; "outcomes {} stuck {}\n", all, stuck)
}

/// The line of the number of variants.
fn head(alloc: Global, count: u32) -> Result<String, AllocError>
    ensures { IfOk result (λ line. string_bytes line ≡ head_line count) }
{
    format!(in alloc; "variants {}\n", count)
}

/// All that is said of the reports of a script.
pub fn outcomes_text(alloc: Global, texts: &Texts) -> Result<Vec<u8>, Memory>
    ensures { IfOk result (λ text. text.items ≡ spec.outcomes_text texts.now) }
{
    let mut out = Vec::new(alloc);
    let list = texts.as_slice();
    push_outcomes(alloc, &mut out, list)?;
    let line = numbers(alloc, list.len(), count_stuck(list))?;
    out.extend_from_slice(line.as_bytes())?;
    Ok(out)
}

/// .. where each standard send may wait, which makes so many variants.
pub fn joined_text(alloc: Global, texts: &Texts, count: u32) -> Result<Vec<u8>, Memory>
    ensures { IfOk result (λ text. text.items ≡ spec.joined_text count texts.now) }
{
    let mut out = head(alloc, count)?.into_bytes();
    let listing = outcomes_text(alloc, texts)?;
    out.extend_from_slice(listing.as_slice())?;
    Ok(out)
}
