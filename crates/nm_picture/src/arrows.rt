//! The arrows of messages.

ghost use Rattle.std.specs.Prelude.{◌≡◌, ◌≤◌, ◌++◌, OnOk, flat_map, length, string_bytes};
ghost use Rattle.nm_diagram.specs.Diagrams.{all_arrows, arrows_at, arrows_of};
ghost use Rattle.nm_picture.specs.Pictures.{arrow_text, arrow_title, aside_of, shaft_text};

use crate::places::{x_of, y_of};
use crate::tags::{Ends, push_line_tag};
use nm_diagram::{Arrow, Frame, arrow_at};
use nm_history::Event;
use nm_report::{RankAccount, word_of_how};
use std::alloc::AllocError;

/// How far an arrow stands aside: one that comes back to its own line does.
fn aside(arrow: &Arrow) -> u64
    ensures value { result ≡ aside_of arrow.now }
    ensures within { result ≤ 8 }
{
    if arrow.from == arrow.to { 8 } else { 0 }
}

/// Writes the tag of an arrow.
fn push_shaft(out: &mut String, frame: &Frame, arrow: &Arrow) -> Result<(), AllocError>
    ensures ok { OnOk result
        (string_bytes out.new ≡ string_bytes out.old ++ shaft_text frame.now arrow.now) }
{
    let aside = aside(arrow);
    let ends = Ends {
        x1: x_of(frame, arrow.from) + aside,
        y1: y_of(frame, arrow.sent),
        x2: x_of(frame, arrow.to) + aside,
        y2: y_of(frame, arrow.arrived),
    };
    push_line_tag(out, word_of_how(arrow.how), ends)
}

/// Writes the title of an arrow.
#[tactic(auto, unfolding(crate::specs::Pictures::arrow_title))]
fn push_arrow_title(out: &mut String, arrow: &Arrow) -> Result<(), AllocError>
    ensures ok { OnOk result (string_bytes out.new ≡ string_bytes out.old
        ++ arrow_title arrow.now) }
{
    let how = word_of_how(arrow.how);
    let Arrow { n, from, to, .. } = *arrow;
    write!(out, "<title>message {n} from {from} to {to} {how}</title>")
}

/// Writes an arrow.
#[tactic(auto, unfolding(crate::specs::Pictures::arrow_text))]
fn push_arrow(out: &mut String, frame: &Frame, arrow: &Arrow) -> Result<(), AllocError>
    ensures ok { OnOk result
        (string_bytes out.new ≡ string_bytes out.old ++ arrow_text frame.now arrow.now) }
{
    push_shaft(out, frame, arrow)?;
    push_arrow_title(out, arrow)?;
    out.push_str("</line>\n")
}

/// Writes the arrow of an event, if it is shown and has one.
fn push_at(
    out: &mut String,
    frame: &Frame,
    ranks: &[RankAccount],
    rank: u8,
    event: &Event,
) -> Result<(), AllocError>
    ensures ok { OnOk result (string_bytes out.new ≡ string_bytes out.old
        ++ flat_map (arrow_text frame.now) (arrows_at frame.now.span ranks.now rank event.now)) }
{
    match arrow_at(frame.span, ranks, rank, event) {
        Some(arrow) => push_arrow(out, frame, &arrow),
        None => Ok(()),
    }
}

/// Writes the arrows of the messages that arrived at a rank.
fn push_arrows_of_rank(
    out: &mut String,
    frame: &Frame,
    ranks: &[RankAccount],
    rank: u8,
    account: &RankAccount,
) -> Result<(), AllocError>
    ensures ok { OnOk result (string_bytes out.new ≡ string_bytes out.old
        ++ flat_map (arrow_text frame.now) (arrows_of frame.now.span ranks.now rank account.now)) }
{
    for event in account.history.as_slice() {
        push_at(out, frame, ranks, rank, event)?;
    }
    Ok(())
}

/// Writes the arrows of all messages whose arrival is shown.
pub fn push_arrows(out: &mut String, frame: &Frame, ranks: &[RankAccount]) -> Result<(), AllocError>
    requires few { length ranks.now ≤ 256 }
    ensures ok { OnOk result (string_bytes out.new
        ≡ string_bytes out.old ++ flat_map (arrow_text frame.now) (all_arrows frame.now.span ranks.now)) }
{
    for (rank, account) in ranks.iter().enumerate() {
        push_arrows_of_rank(out, frame, ranks, rank as u8, account)?;
    }
    Ok(())
}
