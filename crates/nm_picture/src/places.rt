//! Where things stand: how far from the left and from the top.

ghost use Rattle.std.specs.Prelude.{◌≡◌, ◌≤◌, count_by, length, not, take};
ghost use Rattle.nm_picture.specs.Pictures.{column_of as column_of_lem, foot_y, has_room, lane_gap, lane_x, row_y, short, stamp_y};
ghost use Rattle.nm_picture.specs.Pictures.{top_of, width_of};

use nm_diagram::Frame;

/// The most rows that a picture has a place for, and one more.
const MAX_ROW: u64 = 1_000_001;

/// The greatest stamp before the first one of a picture.
const MAX_TOP: u64 = 1_000_000;

/// How many of these ranks are chosen.
fn count_chosen(ranks: &[bool]) -> usize
    ensures value { result ≡ count_by (λ chosen. chosen) ranks.now }
    ensures within { result ≤ length ranks.now }
{
    let mut count = 0usize;
    for chosen in ranks {
        if *chosen {
            count += 1;
        }
    }
    count
}

/// The first so many of these ranks or rows, or all.
fn front(ranks: &[bool], most: usize) -> &[bool]
    ensures value { result.now ≡ take most ranks.now }
    ensures within { length result.now ≤ length ranks.now }
{
    &ranks[..most.min(ranks.len())]
}

/// How many lines stand before that of a rank.
fn column_of(frame: &Frame, rank: u16) -> u64
    ensures value { result ≡ column_of_lem frame.now rank }
    ensures within { result ≤ 256 }
{
    count_chosen(front(&frame.chosen, rank as usize)) as u64
}

/// How far apart the lines of ranks stand.
pub fn gap_of(frame: &Frame) -> u64
    ensures value { result ≡ lane_gap frame.now }
    ensures within { result ≤ 150 }
{
    (1240 / (column_of(frame, frame.lanes) + 1)).min(150)
}

/// Whether the names of ranks have room between their lines, with a word before each number.
fn is_roomy(frame: &Frame) -> bool
    ensures { result ≡ has_room frame.now }
{
    gap_of(frame) >= 50
}

/// A word, or nothing where there is no room for it.
pub fn shortened(frame: &Frame, word: &'static str) -> &'static str
    ensures { result.now ≡ short frame.now word.now }
{
    if is_roomy(frame) { word } else { "" }
}

/// How far from the left the line of a rank stands.
pub fn x_of(frame: &Frame, rank: u8) -> u64
    ensures value { result ≡ lane_x frame.now rank }
    ensures within { (340 ≤ result) × (result ≤ 38740) }
{
    340 + gap_of(frame) * column_of(frame, rank as u16)
}

/// How many of these rows are pressed: have no event that tells more than a start.
fn count_pressed(rows: &[bool]) -> usize
    ensures value { result ≡ count_by (λ full. not full) rows.now }
    ensures within { result ≤ length rows.now }
{
    let mut count = 0usize;
    for full in rows {
        if !*full {
            count += 1;
        }
    }
    count
}

/// How far from the top a row stands.
pub fn row_of(frame: &Frame, row: u64) -> u64
    ensures value { result ≡ row_y frame.now row }
    ensures within { (70 ≤ result) × (result ≤ 17000000) }
{
    let row = row.min(MAX_ROW);
    let pressed = count_pressed(front(&frame.full, row as usize)) as u64;
    (70 + 16 * row + 30 * (row / 40))
        .saturating_sub(6 * pressed)
        .max(70)
}

/// The stamp before the first one of a picture, where the lines of the ranks begin.
pub fn top(frame: &Frame) -> u32
    ensures value { result ≡ top_of frame.now }
    ensures within { result ≤ 1000000 }
{
    frame.span.first.saturating_sub(1).min(MAX_TOP) as u32
}

/// How far from the top a stamp stands.
pub fn y_of(frame: &Frame, stamp: u64) -> u64
    ensures value { result ≡ stamp_y frame.now stamp }
    ensures within { (70 ≤ result) × (result ≤ 17000000) }
{
    row_of(frame, stamp.saturating_sub(top(frame) as u64))
}

/// Where the lines of the ranks end.
pub fn foot(frame: &Frame) -> u64
    ensures value { result ≡ foot_y frame.now }
    ensures within { result ≤ 20000000 }
{
    y_of(frame, frame.bottom as u64) + 16
}

/// How wide the picture is.
pub fn width(frame: &Frame) -> u64
    ensures { result ≡ width_of frame.now }
{
    (340 + gap_of(frame) * column_of(frame, frame.lanes)).max(560)
}
