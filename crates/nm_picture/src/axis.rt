//! The axis of stamps, at the left of the lanes.

ghost use Rattle.std.specs.Prelude.{◌≡◌, ◌≤◌, ◌++◌, OnOk, string_bytes};
ghost use Rattle.nm_picture.specs.Pictures.{axis_text, passed_ticks, tick_count, tick_text};

use crate::places::{top, width, y_of};
use nm_diagram::Frame;
use std::alloc::AllocError;

/// The most stamps that are numbered.
const MAX_TICKS: u32 = 8000;

/// Writes the number of the stamp 5 * k, and a line through the lanes.
#[tactic(auto, unfolding(crate::specs::Pictures::tick_text))]
fn push_tick(out: &mut String, frame: &Frame, k: u32) -> Result<(), AllocError>
    ensures ok { OnOk result
        (string_bytes out.new ≡ string_bytes out.old ++ tick_text frame.now k) }
{
    let stamp = 5 * k as u64;
    let right = width(frame);
    let y = y_of(frame, stamp);
    let base = y + 3;
    write!(
        out,
        "<path class=\"grid\" d=\"M 296 {y} H {right}\"></path><text class=\"axis\" x=\"290\" y=\"{base}\">{stamp}</text>\n"
    )
}

/// How many fifth stamps stand above the first row.
fn count_passed(frame: &Frame) -> u32
    ensures value { result ≡ passed_ticks frame.now }
    ensures within { result ≤ 200000 }
{
    top(frame) / 5
}

/// How many stamps are numbered.
fn count_ticks(frame: &Frame) -> u32
    ensures value { result ≡ tick_count frame.now }
    ensures within { result ≤ 8000 }
{
    (frame.bottom / 5)
        .saturating_sub(count_passed(frame))
        .min(MAX_TICKS)
}

/// Writes the axis.
pub fn push_axis(out: &mut String, frame: &Frame) -> Result<(), AllocError>
    ensures ok { OnOk result (string_bytes out.new ≡ string_bytes out.old ++ axis_text frame.now) }
{
    let passed = count_passed(frame);
    let count = count_ticks(frame);
    for k in 0..count {
        push_tick(out, frame, passed + (k + 1))?;
    }
    Ok(())
}
