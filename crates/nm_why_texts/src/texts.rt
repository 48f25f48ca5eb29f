//! What is said of a script that can hang.

ghost use Rattle.std.specs.Prelude.{◌≡◌, ◌+◌, ◌++◌, [], IfOk, OnOk, filter_map, flat_map, option_copied, string_bytes};
ghost use Rattle.std.specs.List.{cons_option, slice_get};
ghost use Rattle.nm_why_texts.specs.Texts.{change_line, change_words, edit_words, least_head, line_number};
ghost use Rattle.nm_why_texts.specs.Texts.{cures_text, least_text, places_line, why_text};

use crate::waiting::{push_chain, push_waits};
use crate::whys::Why;
use nm_types::{Memory, Peer, TagPick};
use nm_why::changes::{Change, Edit};
use nm_why::cures::Cures;
use nm_why::hangs::Aim;
use nm_why::least::Least;
use std::alloc::{AllocError, Global};

/// The number of the line at a place.
fn number_at(place: usize) -> u128
    ensures { result ≡ place + 2 }
{
    place as u128 + 2
}

/// Writes what is edited.
fn push_edit(out: &mut String, edit: Edit) -> Result<(), AllocError>
    ensures { OnOk result (string_bytes out.new ≡ string_bytes out.old ++ edit_words edit) }
{
    match edit {
        Edit::Source(Peer::Any) => out.push_str("source any"),
        Edit::Source(Peer::One(rank)) => write!(out, "source {rank}"),
        Edit::Tag(TagPick::Any) => out.push_str("tag any"),
        Edit::Tag(TagPick::One(tag)) => write!(out, "tag {tag}"),
        Edit::Context(ctx) => write!(out, "context {ctx}"),
        Edit::Synchronous => out.push_str("synchronous"),
    }
}

/// Writes a change.
fn push_change(out: &mut String, change: Change) -> Result<(), AllocError>
    ensures { OnOk result (string_bytes out.new ≡ string_bytes out.old ++ change_words change) }
{
    match change {
        Change::Edited { place, edit } => {
            let line = number_at(place);
            write!(out, "line {line} ")?;
            push_edit(out, edit)
        }
        Change::Swapped { place, other } => {
            let line = number_at(place);
            let second = number_at(other);
            write!(out, "lines {line} {second} exchanged")
        }
        Change::LeftOut { place } => {
            let line = number_at(place);
            write!(out, "line {line} left out")
        }
    }
}

/// Writes a line for a change, behind a word.
fn push_change_line(out: &mut String, word: &str, change: Change) -> Result<(), AllocError>
    ensures { OnOk result (string_bytes out.new ≡ string_bytes out.old ++ change_line word.now change) }
{
    write!(out, "{word} ")?;
    push_change(out, change)?;
    out.push_str("\n")
}

/// Writes a line for each change, behind a word.
pub fn push_changes(out: &mut String, word: &str, changes: &[Change]) -> Result<(), AllocError>
    ensures { OnOk result (string_bytes out.new
        ≡ string_bytes out.old ++ flat_map (change_line word.now) changes.now) }
{
    for change in changes {
        push_change_line(out, word, *change)?;
    }
    Ok(())
}

/// Writes the numbers of the lines at places.
fn push_numbers(out: &mut String, places: &[usize]) -> Result<(), AllocError>
    ensures { OnOk result (string_bytes out.new ≡ string_bytes out.old ++ flat_map line_number places.now) }
{
    for place in places {
        let line = number_at(*place);
        write!(out, " {line}")?;
    }
    Ok(())
}

/// Writes what a least part of a script still does.
fn push_least_head(out: &mut String, aim: Aim, kept: usize, all: usize) -> Result<(), AllocError>
    ensures { OnOk result (string_bytes out.new ≡ string_bytes out.old ++ least_head aim kept all) }
{
    match aim {
        Aim::Hang => write!(out, "least {kept} of {all} commands can hang\n"),
        Aim::Both => write!(out, "least {kept} of {all} commands can hang and can end\n"),
    }
}

/// Writes the numbers of the lines at places, behind a word.
fn push_places(out: &mut String, word: &str, places: &[usize]) -> Result<(), AllocError>
    ensures { OnOk result (string_bytes out.new ≡ string_bytes out.old ++ places_line word.now places.now) }
{
    out.push_str(word)?;
    push_numbers(out, places)?;
    out.push_str("\n")
}

/// Adds a place, if there is one.
fn push_place(places: &mut Vec<usize>, place: Option<&usize>) -> Result<(), Memory>
    ensures { OnOk result
        (places.new.items ≡ places.old.items ++ cons_option (option_copied place.entry) []) }
{
    if let Some(place) = place {
        places.push(*place)?;
    }
    Ok(())
}

/// The place that stands at a place of a part, if there is one.
fn at(places: &[usize], k: usize) -> Option<&usize>
    ensures { option_copied result ≡ slice_get places.now k }
{
    places.get(k)
}

/// The places of a script's lines that stand at places of a part.
fn places_of(alloc: Global, places: &[usize], undecided: &[usize]) -> Result<Vec<usize>, Memory>
    ensures { IfOk result (λ of. of.items ≡ filter_map (λ k. slice_get places.now k) undecided.now) }
{
    let mut of = Vec::new(alloc);
    for k in undecided {
        push_place(&mut of, at(places, *k))?;
    }
    Ok(of)
}

/// Writes the least part.
fn push_least(
    alloc: Global,
    out: &mut String,
    aim: Aim,
    least: &Least,
    all: usize,
) -> Result<(), Memory>
    ensures { OnOk result (string_bytes out.new ≡ string_bytes out.old ++ least_text aim least.now all) }
{
    let places = least.places.as_slice();
    let undecided = places_of(alloc, places, least.undecided.as_slice())?;
    push_least_head(out, aim, places.len(), all)?;
    push_places(out, "lines", places)?;
    push_places(out, "open", undecided.as_slice())?;
    Ok(())
}

/// Writes how many changes were tried, the cures, and those at which a search gave up.
fn push_cures(out: &mut String, tried: usize, cures: &Cures) -> Result<(), AllocError>
    ensures { OnOk result (string_bytes out.new ≡ string_bytes out.old ++ cures_text tried cures.now) }
{
    let found = cures.cures.as_slice();
    let undecided = cures.undecided.as_slice();
    write!(
        out,
        "changes {} cures {} open {}\n",
        tried,
        found.len(),
        undecided.len()
    )?;
    push_changes(out, "cure", found)?;
    push_changes(out, "open", undecided)
}

/// Writes what is said of a script that can hang.
pub fn push_why(alloc: Global, out: &mut String, why: &Why, all: usize) -> Result<(), Memory>
    ensures { OnOk result (string_bytes out.new ≡ string_bytes out.old ++ why_text why.now all) }
{
    push_waits(alloc, out, why.states.as_slice(), why.waits.as_slice())?;
    push_chain(out, why.chain.as_slice())?;
    push_least(alloc, out, why.aim, &why.least, all)?;
    push_cures(out, why.tried.len(), &why.cures)?;
    Ok(())
}
