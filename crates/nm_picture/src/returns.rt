//! The ways of withdrawals.

ghost use Rattle.std.specs.Prelude.{◌≡◌, ◌≤◌, ◌++◌, OnOk, flat_map, length, string_bytes};
ghost use Rattle.nm_diagram.specs.Returns.{all_returns, returns_at, returns_of};
ghost use Rattle.nm_picture.specs.Pictures.{return_shaft, return_text, return_title};

use crate::places::{x_of, y_of};
use crate::tags::{Ends, push_line_tag};
use nm_diagram::{Frame, Return, return_at};
use nm_history::Event;
use nm_report::RankAccount;
use std::alloc::AllocError;

/// Writes the start tag of a way.
fn push_shaft(out: &mut String, frame: &Frame, way: &Return) -> Result<(), AllocError>
    ensures ok { OnOk result
        (string_bytes out.new ≡ string_bytes out.old ++ return_shaft frame.now way.now) }
{
    let ends = Ends {
        x1: x_of(frame, way.from),
        y1: y_of(frame, way.left),
        x2: x_of(frame, way.to),
        y2: y_of(frame, way.came),
    };
    push_line_tag(out, "back", ends)
}

/// Writes its title.
#[tactic(auto, unfolding(crate::specs::Pictures::return_title))]
fn push_return_title(out: &mut String, n: u64) -> Result<(), AllocError>
    ensures ok { OnOk result (string_bytes out.new ≡ string_bytes out.old ++ return_title n) }
{
    write!(out, "<title>withdrawal of message {n}</title>")
}

/// Writes a way.
#[tactic(auto, unfolding(crate::specs::Pictures::return_text))]
fn push_return(out: &mut String, frame: &Frame, way: &Return) -> Result<(), AllocError>
    ensures ok { OnOk result
        (string_bytes out.new ≡ string_bytes out.old ++ return_text frame.now way.now) }
{
    push_shaft(out, frame, way)?;
    push_return_title(out, way.n)?;
    out.push_str("</line>\n")
}

/// Writes the way that ends at an event, if it is shown and has one.
fn push_at(
    out: &mut String,
    frame: &Frame,
    ranks: &[RankAccount],
    rank: u8,
    event: &Event,
) -> Result<(), AllocError>
    ensures ok { OnOk result (string_bytes out.new ≡ string_bytes out.old
        ++ flat_map (return_text frame.now) (returns_at frame.now.span ranks.now rank event.now)) }
{
    match return_at(frame.span, ranks, rank, event) {
        Some(way) => push_return(out, frame, &way),
        None => Ok(()),
    }
}

/// Writes the ways that end at a rank.
fn push_returns_of_rank(
    out: &mut String,
    frame: &Frame,
    ranks: &[RankAccount],
    rank: u8,
    account: &RankAccount,
) -> Result<(), AllocError>
    ensures ok { OnOk result (string_bytes out.new ≡ string_bytes out.old
        ++ flat_map (return_text frame.now) (returns_of frame.now.span ranks.now rank account.now)) }
{
    for event in account.history.as_slice() {
        push_at(out, frame, ranks, rank, event)?;
    }
    Ok(())
}

/// Writes the ways of all withdrawals that are shown.
pub fn push_returns(
    out: &mut String,
    frame: &Frame,
    ranks: &[RankAccount],
) -> Result<(), AllocError>
    requires few { length ranks.now ≤ 256 }
    ensures ok { OnOk result (string_bytes out.new ≡ string_bytes out.old
        ++ flat_map (return_text frame.now) (all_returns frame.now.span ranks.now)) }
{
    for (rank, account) in ranks.iter().enumerate() {
        push_returns_of_rank(out, frame, ranks, rank as u8, account)?;
    }
    Ok(())
}
