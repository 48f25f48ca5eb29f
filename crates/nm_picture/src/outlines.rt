//! The lanes of the ranks, with the ranks' names, and what stands at their ends.

ghost use Rattle.std.specs.Prelude.{◌≡◌, ◌≤◌, ◌++◌, OnOk, false, flat_map, get_or};
ghost use Rattle.std.specs.Prelude.{length, string_bytes};
ghost use Rattle.nm_diagram.specs.Diagrams.{all_lanes, lane_of, lanes_at};
ghost use Rattle.std.specs.List.{range_with_len};
ghost use Rattle.nm_picture.specs.Pictures.{head_text, lane_text, lane_words, left_out_text};
ghost use Rattle.nm_picture.specs.Pictures.{name_count, name_text, note_text};
ghost use Rattle.nm_picture.specs.Pictures.{process_line, rank_label, rank_labels, size_text, wait_label};
ghost use Rattle.nm_picture.specs.Pictures.{wait_sign, wait_sign_at, wait_text, wait_words};

use crate::places::{foot, row_of, shortened, top, width, x_of};
use nm_diagram::Frame;
use nm_report::RankAccount;
use std::alloc::AllocError;

/// Writes the sign of a command that can't go on, at a place.
#[tactic(auto, unfolding(crate::specs::Pictures::wait_sign_at))]
fn push_wait_sign_at(out: &mut String, x: u64, y: u64, line: u64) -> Result<(), AllocError>
    ensures ok { OnOk result
        (string_bytes out.new ≡ string_bytes out.old ++ wait_sign_at x y line) }
{
    write!(
        out,
        "<use href=\"#waits\" x=\"{x}\" y=\"{y}\"><title>waits at line {line}</title></use>\n"
    )
}

/// Writes the sign at the end of a rank's line.
fn push_wait_sign(out: &mut String, frame: &Frame, rank: u8, line: u64) -> Result<(), AllocError>
    ensures ok { OnOk result
        (string_bytes out.new ≡ string_bytes out.old ++ wait_sign frame.now rank line) }
{
    push_wait_sign_at(out, x_of(frame, rank), foot(frame), line)
}

/// Writes the words below the name of a rank that waits.
#[tactic(auto, unfolding(crate::specs::Pictures::wait_label))]
fn push_wait_label(out: &mut String, frame: &Frame, rank: u8, line: u64) -> Result<(), AllocError>
    ensures ok { OnOk result (string_bytes out.new
        ≡ string_bytes out.old ++ wait_label frame.now rank line) }
{
    let x = x_of(frame, rank);
    let y = foot(frame) + 40 + 14 * (rank as u64 % 2);
    let word = shortened(frame, "line ");
    write!(
        out,
        "<text class=\"waits\" x=\"{x}\" y=\"{y}\">{word}{line}</text>\n"
    )
}

/// Writes the sign where a rank waits.
#[tactic(auto, unfolding(crate::specs::Pictures::wait_text))]
fn push_wait(
    out: &mut String,
    frame: &Frame,
    rank: u8,
    waits: Option<u64>,
) -> Result<(), AllocError>
    ensures ok { OnOk result
        (string_bytes out.new ≡ string_bytes out.old ++ wait_text frame.now rank waits) }
{
    match waits {
        Some(line) => push_wait_sign(out, frame, rank, line),
        None => Ok(()),
    }
}

/// Writes the line of the command that can't go on.
#[tactic(auto, unfolding(crate::specs::Pictures::wait_words))]
fn push_wait_words(
    out: &mut String,
    frame: &Frame,
    rank: u8,
    waits: Option<u64>,
) -> Result<(), AllocError>
    ensures ok { OnOk result
        (string_bytes out.new ≡ string_bytes out.old ++ wait_words frame.now rank waits) }
{
    match waits {
        Some(line) => push_wait_label(out, frame, rank, line),
        None => Ok(()),
    }
}

/// Writes the process line of a rank.
#[tactic(auto, unfolding(crate::specs::Pictures::process_line))]
fn push_process(out: &mut String, frame: &Frame, rank: u8) -> Result<(), AllocError>
    ensures ok { OnOk result
        (string_bytes out.new ≡ string_bytes out.old ++ process_line frame.now rank) }
{
    let x = x_of(frame, rank);
    let y = foot(frame);
    write!(
        out,
        "<line class=\"lane\" x1=\"{x}\" y1=\"70\" x2=\"{x}\" y2=\"{y}\"></line>\n"
    )
}

/// Writes the name of a rank.
#[tactic(auto, unfolding(crate::specs::Pictures::rank_label))]
fn push_rank_label(out: &mut String, frame: &Frame, rank: u8, y: u64) -> Result<(), AllocError>
    ensures ok { OnOk result (string_bytes out.new ≡ string_bytes out.old ++ rank_label frame.now rank y) }
{
    let x = x_of(frame, rank);
    let word = shortened(frame, "rank ");
    write!(
        out,
        "<text class=\"rank\" x=\"{x}\" y=\"{y}\">{word}{rank}</text>\n"
    )
}

/// The most names of a rank between rows.
const MAX_NAMES: u32 = 1000;

/// How often the names of the ranks stand between rows.
fn count_names(frame: &Frame) -> u32
    ensures value { result ≡ name_count frame.now }
    ensures within { result ≤ 1000 }
{
    let rows = frame.bottom.saturating_sub(top(frame));
    (rows / 40).min(MAX_NAMES)
}

/// Writes the name of a rank before the row 40 * k.
fn push_name(out: &mut String, frame: &Frame, rank: u8, k: u32) -> Result<(), AllocError>
    ensures ok { OnOk result
        (string_bytes out.new ≡ string_bytes out.old ++ name_text frame.now rank k) }
{
    push_rank_label(out, frame, rank, row_of(frame, 40 * k as u64) - 20)
}

/// Writes the name of a rank before each fortieth row.
fn push_names(out: &mut String, frame: &Frame, rank: u8) -> Result<(), AllocError>
    ensures ok { OnOk result (string_bytes out.new ≡ string_bytes out.old
        ++ flat_map (name_text frame.now rank) (range_with_len 1 (name_count frame.now))) }
{
    let count = count_names(frame);
    for k in 0..count {
        push_name(out, frame, rank, k + 1)?;
    }
    Ok(())
}

/// Writes the name of a rank at both ends of its line and before each fortieth row.
#[tactic(auto, unfolding(crate::specs::Pictures::rank_labels))]
fn push_rank_labels(out: &mut String, frame: &Frame, rank: u8) -> Result<(), AllocError>
    ensures ok { OnOk result
        (string_bytes out.new ≡ string_bytes out.old ++ rank_labels frame.now rank) }
{
    push_rank_label(out, frame, rank, 56)?;
    push_rank_label(out, frame, rank, foot(frame) + 24)?;
    push_names(out, frame, rank)
}

/// Writes the line of a rank, and the sign where it waits.
#[tactic(auto, unfolding(crate::specs::Pictures::lane_text))]
fn push_lane(
    out: &mut String,
    frame: &Frame,
    rank: u8,
    account: &RankAccount,
) -> Result<(), AllocError>
    ensures ok { OnOk result (string_bytes out.new
        ≡ string_bytes out.old ++ flat_map (lane_text frame.now) (lane_of rank account.now)) }
{
    push_process(out, frame, rank)?;
    push_wait(out, frame, rank, account.waits)
}

/// Writes the names of a rank, and where it waits.
#[tactic(auto, unfolding(crate::specs::Pictures::lane_words))]
fn push_words(
    out: &mut String,
    frame: &Frame,
    rank: u8,
    account: &RankAccount,
) -> Result<(), AllocError>
    ensures ok { OnOk result (string_bytes out.new
        ≡ string_bytes out.old ++ flat_map (lane_words frame.now) (lane_of rank account.now)) }
{
    push_rank_labels(out, frame, rank)?;
    push_wait_words(out, frame, rank, account.waits)
}

/// Whether a rank is chosen.
fn is_chosen(frame: &Frame, rank: u8) -> bool
    ensures { result ≡ get_or frame.now.chosen rank false }
{
    frame.chosen[rank as usize]
}

/// Writes the line of a rank, if it is chosen.
fn push_if_chosen(
    out: &mut String,
    frame: &Frame,
    rank: u8,
    account: &RankAccount,
) -> Result<(), AllocError>
    ensures ok { OnOk result (string_bytes out.new ≡ string_bytes out.old
        ++ flat_map (lane_text frame.now) (lanes_at frame.now.chosen rank account.now)) }
{
    if is_chosen(frame, rank) {
        push_lane(out, frame, rank, account)
    } else {
        Ok(())
    }
}

/// Writes the lines of the chosen ranks.
pub fn push_lanes(out: &mut String, frame: &Frame, ranks: &[RankAccount]) -> Result<(), AllocError>
    requires few { length ranks.now ≤ 256 }
    ensures ok { OnOk result (string_bytes out.new ≡ string_bytes out.old
        ++ flat_map (lane_text frame.now) (all_lanes frame.now.chosen ranks.now)) }
{
    for (rank, account) in ranks.iter().enumerate() {
        push_if_chosen(out, frame, rank as u8, account)?;
    }
    Ok(())
}

/// Writes the names of a rank, if it is chosen.
fn push_words_if_chosen(
    out: &mut String,
    frame: &Frame,
    rank: u8,
    account: &RankAccount,
) -> Result<(), AllocError>
    ensures ok { OnOk result (string_bytes out.new ≡ string_bytes out.old
        ++ flat_map (lane_words frame.now) (lanes_at frame.now.chosen rank account.now)) }
{
    if is_chosen(frame, rank) {
        push_words(out, frame, rank, account)
    } else {
        Ok(())
    }
}

/// Writes the names of the chosen ranks.
pub fn push_all_words(
    out: &mut String,
    frame: &Frame,
    ranks: &[RankAccount],
) -> Result<(), AllocError>
    requires few { length ranks.now ≤ 256 }
    ensures ok { OnOk result (string_bytes out.new ≡ string_bytes out.old
        ++ flat_map (lane_words frame.now) (all_lanes frame.now.chosen ranks.now)) }
{
    for (rank, account) in ranks.iter().enumerate() {
        push_words_if_chosen(out, frame, rank as u8, account)?;
    }
    Ok(())
}

/// Writes how many events are left out.
#[tactic(auto, unfolding(crate::specs::Pictures::left_out_text))]
fn push_count(out: &mut String, count: u64) -> Result<(), AllocError>
    ensures ok { OnOk result
        (string_bytes out.new ≡ string_bytes out.old ++ left_out_text count) }
{
    write!(
        out,
        "<text class=\"note\" x=\"340\" y=\"26\">later events left out: {count}</text>\n"
    )
}

/// Writes how many events are left out, where there are any.
#[tactic(auto, unfolding(crate::specs::Pictures::note_text))]
pub fn push_left_out(out: &mut String, frame: &Frame) -> Result<(), AllocError>
    ensures ok { OnOk result
        (string_bytes out.new ≡ string_bytes out.old ++ note_text frame.now.left_out) }
{
    if frame.left_out == 0 {
        Ok(())
    } else {
        push_count(out, frame.left_out)
    }
}

/// Writes the start tag of a picture of this size, and that of the group in it.
#[tactic(auto, unfolding(crate::specs::Pictures::size_text))]
fn push_svg(out: &mut String, width: u64, height: u64) -> Result<(), AllocError>
    ensures ok { OnOk result
        (string_bytes out.new ≡ string_bytes out.old ++ size_text width height) }
{
    write!(
        out,
        "<svg xmlns=\"http://www.w3.org/2000/svg\" width=\"{width}\" height=\"{height}\" viewBox=\"0 0 {width} {height}\">\n<g>\n"
    )
}

/// Writes the start tag of the picture.
#[tactic(auto, unfolding(crate::specs::Pictures::head_text))]
pub fn push_size(out: &mut String, frame: &Frame) -> Result<(), AllocError>
    ensures ok { OnOk result
        (string_bytes out.new ≡ string_bytes out.old ++ head_text frame.now) }
{
    let height = (foot(frame) + 74).max(500);
    push_svg(out, width(frame), height)
}
