//! The whole picture.

ghost use Rattle.std.specs.Prelude.{◌≡◌, ◌≤◌, ◌++◌, IfOk, OnOk, length, string_bytes};
ghost use Rattle.nm_picture.specs.Pictures.{IsPictureIn, IsPictureOf, arrows_text, front_text};
ghost use Rattle.nm_picture.specs.Pictures.{marks_text, picture_text, shapes_text, words_text};
ghost use Rattle.nm_picture.specs.Flags.{IsFlaggedIn, flagged_text};
ghost use Rattle.nm_picture.specs.Sheet.{sheet_text};

use crate::arrows::push_arrows;
use crate::axis::push_axis;
use crate::flags::{Flag, push_flag};
use crate::labels::push_labels;
use crate::legend::push_legend;
use crate::links::push_links;
use crate::marks::push_marks;
use crate::outlines::{push_all_words, push_lanes, push_left_out, push_size};
use crate::returns::push_returns;
use crate::rings::push_rings;
use crate::sheet::SHEET;
use nm_diagram::{Frame, Part};
use nm_report::{RankAccount, RunRecord};
use nm_types::Memory;
use std::alloc::{AllocError, Global};

/// Writes what stands in each picture.
#[tactic(auto, unfolding(crate::specs::Sheet::sheet_text))]
fn push_sheet(out: &mut String) -> Result<(), AllocError>
    ensures ok { OnOk result (string_bytes out.new ≡ string_bytes out.old ++ sheet_text) }
{
    out.push_str(SHEET)
}

/// Writes the front of the picture.
#[tactic(auto, unfolding(crate::specs::Pictures::front_text))]
fn push_front(
    alloc: Global,
    out: &mut String,
    frame: &Frame,
    ranks: &[RankAccount],
) -> Result<(), AllocError>
    ensures ok { OnOk result
        (string_bytes out.new ≡ string_bytes out.old ++ front_text frame.now ranks.now) }
{
    push_size(out, frame)?;
    push_sheet(out)?;
    push_left_out(out, frame)?;
    push_legend(alloc, out, frame, ranks)?;
    push_axis(out, frame)
}

/// Writes the lines, the links, and the marks with their rings.
#[tactic(auto, unfolding(crate::specs::Pictures::marks_text))]
fn push_back(
    alloc: Global,
    out: &mut String,
    frame: &Frame,
    ranks: &[RankAccount],
) -> Result<(), AllocError>
    requires few { length ranks.now ≤ 256 }
    requires lanes { frame.now.lanes ≤ length ranks.now }
    ensures ok { OnOk result
        (string_bytes out.new ≡ string_bytes out.old ++ marks_text frame.now ranks.now) }
{
    push_lanes(out, frame, &ranks[..frame.lanes as usize])?;
    push_links(alloc, out, frame, ranks)?;
    push_marks(alloc, out, frame, ranks)?;
    push_rings(alloc, out, frame, ranks)
}

/// Writes the arrows, and the ways of withdrawals.
#[tactic(auto, unfolding(crate::specs::Pictures::arrows_text))]
fn push_fore(out: &mut String, frame: &Frame, ranks: &[RankAccount]) -> Result<(), AllocError>
    requires few { length ranks.now ≤ 256 }
    ensures ok { OnOk result
        (string_bytes out.new ≡ string_bytes out.old ++ arrows_text frame.now ranks.now) }
{
    push_arrows(out, frame, ranks)?;
    push_returns(out, frame, ranks)
}

/// Writes the labels, and the names of the ranks.
#[tactic(auto, unfolding(crate::specs::Pictures::words_text))]
fn push_words(
    alloc: Global,
    out: &mut String,
    frame: &Frame,
    ranks: &[RankAccount],
) -> Result<(), AllocError>
    requires few { length ranks.now ≤ 256 }
    requires lanes { frame.now.lanes ≤ length ranks.now }
    ensures ok { OnOk result
        (string_bytes out.new ≡ string_bytes out.old ++ words_text frame.now ranks.now) }
{
    push_labels(alloc, out, frame, ranks)?;
    push_all_words(out, frame, &ranks[..frame.lanes as usize])
}

/// Writes the shapes: the lines first, the arrows in front of the marks, and the words in front of all.
#[tactic(auto, unfolding(crate::specs::Pictures::shapes_text))]
fn push_shapes(
    alloc: Global,
    out: &mut String,
    frame: &Frame,
    ranks: &[RankAccount],
) -> Result<(), AllocError>
    requires few { length ranks.now ≤ 256 }
    requires lanes { frame.now.lanes ≤ length ranks.now }
    ensures ok { OnOk result
        (string_bytes out.new ≡ string_bytes out.old ++ shapes_text frame.now ranks.now) }
{
    push_back(alloc, out, frame, ranks)?;
    push_fore(out, frame, ranks)?;
    push_words(alloc, out, frame, ranks)
}

/// Writes the whole picture.
#[tactic(auto, unfolding(crate::specs::Pictures::picture_text))]
fn push_all(
    alloc: Global,
    out: &mut String,
    frame: &Frame,
    ranks: &[RankAccount],
) -> Result<(), AllocError>
    requires few { length ranks.now ≤ 256 }
    requires lanes { frame.now.lanes ≤ length ranks.now }
    ensures ok { OnOk result
        (string_bytes out.new ≡ string_bytes out.old ++ picture_text frame.now ranks.now) }
{
    push_front(alloc, out, frame, ranks)?;
    push_shapes(alloc, out, frame, ranks)?;
    out.push_str("</g>\n</svg>\n")
}

/// Writes the whole picture, with a flag.
#[tactic(auto, unfolding(crate::specs::Flags::flagged_text))]
fn push_flagged(
    alloc: Global,
    out: &mut String,
    frame: &Frame,
    ranks: &[RankAccount],
    flag: Option<Flag>,
) -> Result<(), AllocError>
    requires few { length ranks.now ≤ 256 }
    requires lanes { frame.now.lanes ≤ length ranks.now }
    ensures ok { OnOk result
        (string_bytes out.new ≡ string_bytes out.old ++ flagged_text frame.now ranks.now flag) }
{
    push_front(alloc, out, frame, ranks)?;
    push_shapes(alloc, out, frame, ranks)?;
    push_flag(out, frame, flag)?;
    out.push_str("</g>\n</svg>\n")
}

/// The picture of a part of a run, with a flag where the run breaks a rule first.
pub fn flagged_picture(
    alloc: Global,
    run: &RunRecord,
    part: Part,
    flag: Option<Flag>,
) -> Result<Vec<u8>, Memory>
    requires few { length run.now.ranks ≤ 256 }
    requires in_range { (part.span.first ≤ 1000000) × (part.span.end ≤ 1000001) }
    requires lanes { part.lanes ≤ length run.now.ranks }
    ensures { IfOk result (λ text. IsFlaggedIn part flag run.now text.items) }
{
    let ranks = run.ranks.as_slice();
    let frame = Frame::of(ranks, part);
    let mut out = String::new(alloc);
    push_flagged(alloc, &mut out, &frame, ranks, flag)?;
    Ok(out.into_bytes())
}

/// The picture of a part of a run.
pub fn picture_in(alloc: Global, run: &RunRecord, part: Part) -> Result<Vec<u8>, Memory>
    requires few { length run.now.ranks ≤ 256 }
    requires in_range { (part.span.first ≤ 1000000) × (part.span.end ≤ 1000001) }
    requires lanes { part.lanes ≤ length run.now.ranks }
    ensures { IfOk result (λ text. IsPictureIn part run.now text.items) }
{
    let ranks = run.ranks.as_slice();
    let frame = Frame::of(ranks, part);
    let mut out = String::new(alloc);
    push_all(alloc, &mut out, &frame, ranks)?;
    Ok(out.into_bytes())
}

/// The picture of a run.
pub fn picture(alloc: Global, run: &RunRecord) -> Result<Vec<u8>, Memory>
    requires { length run.now.ranks ≤ 256 }
    ensures { IfOk result (λ text. IsPictureOf run.now text.items) }
{
    picture_in(alloc, run, Part::whole())
}
