//! The rings round messages that nobody took.

ghost use Rattle.std.specs.Prelude.{◌≡◌, ◌≤◌, ◌++◌, OnOk, flat_map, length, string_bytes};
ghost use Rattle.nm_diagram.specs.Left.{all_rings, rings_among, rings_at, rings_of};
ghost use Rattle.nm_picture.specs.Pictures.{ring_tag, ring_text, ring_title};

use crate::places::{x_of, y_of};
use crate::tags::push_use;
use nm_diagram::pairs::all_pairs;
use nm_diagram::{Frame, Ring, is_short, ring_at};
use nm_history::Event;
use nm_history::plain::Pair;
use nm_report::RankAccount;
use std::alloc::{AllocError, Global};

/// Writes the start tag of a ring.
fn push_ring_tag(out: &mut String, frame: &Frame, ring: &Ring) -> Result<(), AllocError>
    ensures ok { OnOk result
        (string_bytes out.new ≡ string_bytes out.old ++ ring_tag frame.now ring.now) }
{
    push_use(out, "left", x_of(frame, ring.lane), y_of(frame, ring.stamp))
}

/// Writes its title.
#[tactic(auto, unfolding(crate::specs::Pictures::ring_title))]
fn push_ring_title(out: &mut String, n: u64, from: u8) -> Result<(), AllocError>
    ensures ok { OnOk result
        (string_bytes out.new ≡ string_bytes out.old ++ ring_title n from) }
{
    write!(out, "<title>nobody took message {n} from {from}</title>")
}

/// Writes a ring.
#[tactic(auto, unfolding(crate::specs::Pictures::ring_text))]
fn push_ring(out: &mut String, frame: &Frame, ring: &Ring) -> Result<(), AllocError>
    ensures ok { OnOk result
        (string_bytes out.new ≡ string_bytes out.old ++ ring_text frame.now ring.now) }
{
    push_ring_tag(out, frame, ring)?;
    push_ring_title(out, ring.n, ring.from)?;
    out.push_str("</use>\n")
}

/// Writes the ring of an event, if it has one.
fn push_at(
    out: &mut String,
    frame: &Frame,
    rank: u8,
    events: &[Event],
    pairs: &[Pair],
    event: &Event,
) -> Result<(), AllocError>
    ensures ok { OnOk result (string_bytes out.new ≡ string_bytes out.old
        ++ flat_map (ring_text frame.now)
        (rings_at frame.now.span rank events.now pairs.now event.now)) }
{
    match ring_at(frame.span, rank, events, pairs, event) {
        Some(ring) => push_ring(out, frame, &ring),
        None => Ok(()),
    }
}

/// Writes the rings of some events of a rank.
fn push_rings_among(
    alloc: Global,
    out: &mut String,
    frame: &Frame,
    rank: u8,
    events: &[Event],
) -> Result<(), AllocError>
    ensures ok { OnOk result (string_bytes out.new ≡ string_bytes out.old
        ++ flat_map (ring_text frame.now) (rings_among frame.now.span rank events.now)) }
{
    let pairs = all_pairs(alloc, events)?;
    for event in events {
        push_at(out, frame, rank, events, pairs.as_slice(), event)?;
    }
    Ok(())
}

/// Writes the rings of a rank.
fn push_rings_of_rank(
    alloc: Global,
    out: &mut String,
    frame: &Frame,
    rank: u8,
    account: &RankAccount,
) -> Result<(), AllocError>
    ensures ok { OnOk result (string_bytes out.new ≡ string_bytes out.old
        ++ flat_map (ring_text frame.now) (rings_of frame.now.span rank account.now)) }
{
    let events = account.history.as_slice();
    if is_short(events) {
        push_rings_among(alloc, out, frame, rank, events)
    } else {
        Ok(())
    }
}

/// Writes the rings of all ranks.
pub fn push_rings(
    alloc: Global,
    out: &mut String,
    frame: &Frame,
    ranks: &[RankAccount],
) -> Result<(), AllocError>
    requires few { length ranks.now ≤ 256 }
    ensures ok { OnOk result (string_bytes out.new ≡ string_bytes out.old
        ++ flat_map (ring_text frame.now) (all_rings frame.now.span ranks.now)) }
{
    for (rank, account) in ranks.iter().enumerate() {
        push_rings_of_rank(alloc, out, frame, rank as u8, account)?;
    }
    Ok(())
}
