//! A mark for each event, on the line of its rank.

ghost use Rattle.std.specs.Prelude.{◌≡◌, ◌≤◌, ◌<◌, ◌++◌, OnOk, flat_map, length, string_bytes};
ghost use Rattle.nm_diagram.specs.Diagrams.{all_marks, mark_of, marks_at, marks_of};
ghost use Rattle.nm_picture.specs.Pictures.{mark_text, sign_text, title_text};

use crate::places::{x_of, y_of};
use crate::tags::push_use;
use crate::words::{push_escaped, title};
use nm_diagram::{Frame, Sign};
use nm_history::Event;
use nm_report::RankAccount;
use std::alloc::{AllocError, Global};

/// Writes the start tag of the mark of an event.
fn push_sign(out: &mut String, frame: &Frame, rank: u8, event: &Event) -> Result<(), AllocError>
    ensures ok { OnOk result
        (string_bytes out.new
        ≡ string_bytes out.old ++ sign_text frame.now (mark_of rank event.now)) }
{
    let name = Sign::of(&event.what).name();
    push_use(out, name, x_of(frame, rank), y_of(frame, event.stamp))
}

/// Writes a title between its tags.
#[tactic(auto, unfolding(crate::specs::Pictures::title_text))]
fn push_title(out: &mut String, words: &str) -> Result<(), AllocError>
    ensures ok { OnOk result
        (string_bytes out.new ≡ string_bytes out.old ++ title_text words.now) }
{
    out.push_str("<title>")?;
    push_escaped(out, words)?;
    out.push_str("</title>")
}

/// Writes the mark of an event.
#[tactic(auto, unfolding(crate::specs::Pictures::mark_text))]
fn push_mark(
    alloc: Global,
    out: &mut String,
    frame: &Frame,
    rank: u8,
    event: &Event,
) -> Result<(), AllocError>
    ensures ok { OnOk result
        (string_bytes out.new
        ≡ string_bytes out.old ++ mark_text frame.now (mark_of rank event.now)) }
{
    let words = title(alloc, rank, event)?;
    push_sign(out, frame, rank, event)?;
    push_title(out, words.as_str())?;
    out.push_str("</use>\n")
}

/// Writes the mark of an event, if it is shown.
fn push_if_shown(
    alloc: Global,
    out: &mut String,
    frame: &Frame,
    rank: u8,
    event: &Event,
) -> Result<(), AllocError>
    ensures ok { OnOk result (string_bytes out.new ≡ string_bytes out.old
        ++ flat_map (mark_text frame.now) (marks_at frame.now.span rank event.now)) }
{
    if frame.span.shows(event) {
        push_mark(alloc, out, frame, rank, event)
    } else {
        Ok(())
    }
}

/// Writes the marks of a rank.
fn push_marks_of_rank(
    alloc: Global,
    out: &mut String,
    frame: &Frame,
    rank: u8,
    account: &RankAccount,
) -> Result<(), AllocError>
    ensures ok { OnOk result (string_bytes out.new ≡ string_bytes out.old
        ++ flat_map (mark_text frame.now) (marks_of frame.now.span rank account.now)) }
{
    for event in account.history.as_slice() {
        push_if_shown(alloc, out, frame, rank, event)?;
    }
    Ok(())
}

/// Writes the marks of all events that are shown, rank by rank.
pub fn push_marks(
    alloc: Global,
    out: &mut String,
    frame: &Frame,
    ranks: &[RankAccount],
) -> Result<(), AllocError>
    requires few { length ranks.now ≤ 256 }
    ensures ok { OnOk result (string_bytes out.new
        ≡ string_bytes out.old ++ flat_map (mark_text frame.now) (all_marks frame.now.span ranks.now)) }
{
    for (rank, account) in ranks.iter().enumerate() {
        push_marks_of_rank(alloc, out, frame, rank as u8, account)?;
    }
    Ok(())
}
