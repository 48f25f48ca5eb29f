//! A flag: where a trace breaks a rule first, in words, and a ring round the place.

ghost use Rattle.std.specs.Prelude.{◌≡◌, ◌++◌, OnOk, if◌then◌else◌, string_bytes, []};
ghost use Rattle.nm_picture.specs.Flags.{behind_note, event_note, flag_ring, flag_text, line_note};
ghost use Rattle.nm_picture.specs.Flags.{has_lane as has_lane_lem, is_place_in as is_place_in_lem};
ghost use Rattle.nm_picture.specs.Pictures.{foot_y, lane_x, stamp_y};

use crate::places::{foot, x_of, y_of};
use nm_diagram::Frame;
use std::alloc::AllocError;

/// Where a trace breaks a rule first.
#[derive(Clone, Copy)]
pub enum Flag {
    /// At the event of this rank with this stamp, in this line of the trace, from 1.
    Event { rank: u8, stamp: u64, line: u32 },
    /// At the end of this rank.
    Behind { rank: u8 },
    /// In this line of the trace, which is no event.
    Line { line: u32 },
}

/// Whether a rank has a line.
fn has_lane(frame: &Frame, rank: u8) -> bool
    ensures { result ≡ has_lane_lem frame.now rank }
{
    (rank as u16) < frame.lanes && frame.chosen[rank as usize]
}

/// Whether the events of a rank with a stamp are shown.
fn is_place_in(frame: &Frame, rank: u8, stamp: u64) -> bool
    ensures { result ≡ is_place_in_lem frame.now rank stamp }
{
    has_lane(frame, rank) && frame.span.first <= stamp && stamp < frame.span.end
}

/// Writes a ring.
#[tactic(auto, unfolding(crate::specs::Flags::flag_ring))]
fn push_ring(out: &mut String, x: u64, y: u64) -> Result<(), AllocError>
    ensures ok { OnOk result (string_bytes out.new ≡ string_bytes out.old ++ flag_ring x y) }
{
    write!(
        out,
        "<circle class=\"red stroke\" r=\"13\" cx=\"{x}\" cy=\"{y}\"></circle>\n"
    )
}

/// Writes which line of the trace breaks a rule.
#[tactic(auto, unfolding(crate::specs::Flags::event_note))]
fn push_event_note(out: &mut String, line: u32) -> Result<(), AllocError>
    ensures ok { OnOk result (string_bytes out.new ≡ string_bytes out.old ++ event_note line) }
{
    write!(
        out,
        "<text class=\"note\" x=\"340\" y=\"39\">trace line {line} breaks a rule (red ring)</text>\n"
    )
}

/// .. which is no event.
#[tactic(auto, unfolding(crate::specs::Flags::line_note))]
fn push_line_note(out: &mut String, line: u32) -> Result<(), AllocError>
    ensures ok { OnOk result (string_bytes out.new ≡ string_bytes out.old ++ line_note line) }
{
    write!(
        out,
        "<text class=\"note\" x=\"340\" y=\"39\">trace line {line} breaks a rule</text>\n"
    )
}

/// Writes which rank breaks a rule at its end.
#[tactic(auto, unfolding(crate::specs::Flags::behind_note))]
fn push_behind_note(out: &mut String, rank: u8) -> Result<(), AllocError>
    ensures ok { OnOk result (string_bytes out.new ≡ string_bytes out.old ++ behind_note rank) }
{
    write!(
        out,
        "<text class=\"note\" x=\"340\" y=\"39\">rank {rank} breaks a rule at its end (red ring)</text>\n"
    )
}

/// Writes the ring round an event, if it is shown.
fn push_at_event(out: &mut String, frame: &Frame, rank: u8, stamp: u64) -> Result<(), AllocError>
    ensures ok { OnOk result (string_bytes out.new ≡ string_bytes out.old
        ++ (if is_place_in_lem frame.now rank stamp
        then flag_ring (lane_x frame.now rank) (stamp_y frame.now stamp) else [])) }
{
    if is_place_in(frame, rank, stamp) {
        push_ring(out, x_of(frame, rank), y_of(frame, stamp))
    } else {
        Ok(())
    }
}

/// Writes the ring round the end of a rank, if it has a line.
fn push_at_end(out: &mut String, frame: &Frame, rank: u8) -> Result<(), AllocError>
    ensures ok { OnOk result (string_bytes out.new ≡ string_bytes out.old
        ++ (if has_lane_lem frame.now rank
        then flag_ring (lane_x frame.now rank) (foot_y frame.now) else [])) }
{
    if has_lane(frame, rank) {
        push_ring(out, x_of(frame, rank), foot(frame))
    } else {
        Ok(())
    }
}

/// Writes a flag: its words, and a ring where its place is shown.
pub fn push_flag(out: &mut String, frame: &Frame, flag: Option<Flag>) -> Result<(), AllocError>
    ensures ok { OnOk result (string_bytes out.new
        ≡ string_bytes out.old ++ flag_text frame.now flag) }
{
    match flag {
        Some(Flag::Event { rank, stamp, line }) => {
            push_event_note(out, line)?;
            push_at_event(out, frame, rank, stamp)
        }
        Some(Flag::Behind { rank }) => {
            push_behind_note(out, rank)?;
            push_at_end(out, frame, rank)
        }
        Some(Flag::Line { line }) => push_line_note(out, line),
        None => Ok(()),
    }
}
