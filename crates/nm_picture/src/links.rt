//! The bows that join receives to the messages that they took.

ghost use Rattle.std.specs.Prelude.{◌≡◌, ◌≤◌, ◌++◌, OnOk, flat_map, length, string_bytes};
ghost use Rattle.nm_diagram.specs.Links.{all_links, link_of, links_among, links_of};
ghost use Rattle.nm_picture.specs.Pictures.{bend_of, bow_at, bow_text, bow_x, link_text, link_title};
ghost use Rattle.nm_picture.specs.Pictures.{span_of};

use crate::places::{gap_of, x_of, y_of};
use nm_diagram::pairs::all_pairs;
use nm_diagram::{Frame, Link, link_at, linked_events};
use nm_history::Event;
use nm_history::plain::Pair;
use nm_report::RankAccount;
use std::alloc::{AllocError, Global};

/// The most stamps that the ends of a link are apart.
const MAX_SPAN: u64 = 1_000_000;

/// How many stamps lie between the ends of a link.
fn span(link: &Link) -> u64
    ensures value { result ≡ span_of link.now }
    ensures within { result ≤ 1000000 }
{
    (link.received.max(link.arrived) - link.received.min(link.arrived)).min(MAX_SPAN)
}

/// How far the bow of a link bends: the farther, the more it spans.
fn bend(frame: &Frame, link: &Link) -> u64
    ensures value { result ≡ bend_of frame.now link.now }
    ensures within { result ≤ 55 }
{
    let gap = gap_of(frame);
    let span = span(link);
    gap / 12 + (gap * span / (6 * span + 72)).min(25) + gap / 24 * (link.number % 4)
}

/// How far from the left the bow of a link stands.
fn bow_of(frame: &Frame, link: &Link) -> u64
    ensures { result ≡ bow_x frame.now link.now }
{
    x_of(frame, link.lane) - bend(frame, link)
}

/// Writes the tag of a bow at a line, between two heights.
#[tactic(auto, unfolding(crate::specs::Pictures::bow_at))]
fn push_bow_at(out: &mut String, x: u64, bow: u64, y1: u64, y2: u64) -> Result<(), AllocError>
    ensures ok { OnOk result (string_bytes out.new ≡ string_bytes out.old ++ bow_at x bow y1 y2) }
{
    write!(
        out,
        "<path class=\"link\" d=\"M {x} {y1} C {bow} {y1} {bow} {y2} {x} {y2}\">"
    )
}

/// Writes the tag of a link.
fn push_bow(out: &mut String, frame: &Frame, link: &Link) -> Result<(), AllocError>
    ensures ok { OnOk result (string_bytes out.new ≡ string_bytes out.old ++ bow_text frame.now link.now) }
{
    let x = x_of(frame, link.lane);
    let bow = bow_of(frame, link);
    let y1 = y_of(frame, link.received);
    let y2 = y_of(frame, link.arrived);
    push_bow_at(out, x, bow, y1, y2)
}

/// Writes the title of a link.
#[tactic(auto, unfolding(crate::specs::Pictures::link_title))]
fn push_link_title(out: &mut String, link: &Link) -> Result<(), AllocError>
    ensures ok { OnOk result (string_bytes out.new ≡ string_bytes out.old ++ link_title link.now) }
{
    let Link {
        number,
        from,
        n,
        ..
    } = *link;
    write!(
        out,
        "<title>receive {number} takes message {n} from {from}</title>"
    )
}

/// Writes a link.
#[tactic(auto, unfolding(crate::specs::Pictures::link_text))]
fn push_link(out: &mut String, frame: &Frame, link: &Link) -> Result<(), AllocError>
    ensures ok { OnOk result (string_bytes out.new ≡ string_bytes out.old ++ link_text frame.now link.now) }
{
    push_bow(out, frame, link)?;
    push_link_title(out, link)?;
    out.push_str("</path>\n")
}

/// Writes the link of a pair, if its receive and its arrival are shown.
fn push_pair(
    out: &mut String,
    frame: &Frame,
    rank: u8,
    events: &[Event],
    pair: &Pair,
) -> Result<(), AllocError>
    ensures ok { OnOk result (string_bytes out.new ≡ string_bytes out.old
        ++ flat_map (link_text frame.now) (link_of frame.now.span rank events.now pair.now)) }
{
    match link_at(frame.span, rank, events, pair) {
        Some(link) => push_link(out, frame, &link),
        None => Ok(()),
    }
}

/// Writes the links of some events of a rank.
fn push_links_among(
    alloc: Global,
    out: &mut String,
    frame: &Frame,
    rank: u8,
    events: &[Event],
) -> Result<(), AllocError>
    ensures ok { OnOk result (string_bytes out.new
        ≡ string_bytes out.old ++ flat_map (link_text frame.now) (links_among frame.now.span rank events.now)) }
{
    let pairs = all_pairs(alloc, events)?;
    for pair in pairs.as_slice() {
        push_pair(out, frame, rank, events, pair)?;
    }
    Ok(())
}

/// Writes the links of a rank.
fn push_links_of_rank(
    alloc: Global,
    out: &mut String,
    frame: &Frame,
    rank: u8,
    account: &RankAccount,
) -> Result<(), AllocError>
    ensures ok { OnOk result (string_bytes out.new ≡ string_bytes out.old
        ++ flat_map (link_text frame.now) (links_of frame.now.span rank account.now)) }
{
    push_links_among(alloc, out, frame, rank, linked_events(account))
}

/// Writes the links of all ranks.
pub fn push_links(
    alloc: Global,
    out: &mut String,
    frame: &Frame,
    ranks: &[RankAccount],
) -> Result<(), AllocError>
    requires few { length ranks.now ≤ 256 }
    ensures ok { OnOk result (string_bytes out.new
        ≡ string_bytes out.old ++ flat_map (link_text frame.now) (all_links frame.now.span ranks.now)) }
{
    for (rank, account) in ranks.iter().enumerate() {
        push_links_of_rank(alloc, out, frame, rank as u8, account)?;
    }
    Ok(())
}
