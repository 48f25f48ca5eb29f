//! What fits a picture: how many lanes it has, and which events it shows.

ghost use Rattle.std.specs.Prelude.{◌≡◌, ◌≤◌, ◌<◌, ◌+◌, ◌-◌, ◌^◌, ◌⊎◌, ◌↔◌, [], ◌∷◌, IsTrue};
ghost use Rattle.std.specs.Prelude.{count_by, drop, false, length, replicate};
ghost use Rattle.std.specs.Prelude.{min, sum_by, nat_le};
ghost use Rattle.std.specs.List.{AllByRecursion};
ghost use Rattle.nm_diagram.specs.Frames.{IsFrame, IsIn, IsSilent, is_later, is_shown, later_count, latest};
ghost use Rattle.nm_diagram.specs.Frames.{full_rows, latest_of_all, tells_more as tells_more_lem};
ghost use Rattle.nm_diagram.specs.Frames.{with_row, with_rows};
ghost use Rattle.nm_diagram.specs.Frames.{shown_count, shown_of, up_to, whole};

use nm_history::{Event, Happened};
use nm_report::RankAccount;
use nm_types::Answer;

/// The most events that a picture shows.
const MAX_EVENTS: usize = 20000;

/// The greatest stamp that a picture has a place for, and one more.
const ALL_STAMPS: u64 = 1000001;

/// How many ranks a number of 8 bits can name.
const NAMES: usize = 256;

/// How many rows are looked at for what they have.
const ROWS: usize = 1024;

/// The stamps whose events are shown.
#[derive(Clone, Copy)]
pub struct Span {
    /// The first one.
    pub first: u64,
    /// The one behind the last.
    pub end: u64,
}

impl Span {
    /// Whether an event is shown.
    pub fn shows(self, event: &Event) -> bool
        ensures value { result ≡ is_shown self event.now }
        ensures within { IsTrue result → IsIn self event.now.stamp }
    {
        self.first <= event.stamp && event.stamp < self.end
    }

    /// The stamps from the first one on, below this end.
    fn up_to(self, end: u64) -> Span
        ensures { result ≡ up_to self end }
    {
        Span {
            first: self.first,
            end,
        }
    }
}

/// The part of a trace that a picture is asked to show.
#[derive(Clone, Copy)]
pub struct Part {
    /// The stamps, of which the first is at most 1,000,000.
    pub span: Span,
    /// Up to which rank there are lanes at least, this one not among them.
    pub lanes: u16,
    /// Whether a rank is chosen to have a lane, by its number.
    pub chosen: [bool; NAMES],
}

impl Part {
    /// The whole of a trace, with a lane for each rank up to the last of which it says something.
    pub fn whole() -> Part
        ensures { result ≡ whole }
    {
        let chosen = [true; NAMES];
        Part {
            span: Span {
                first: 0,
                end: ALL_STAMPS,
            },
            lanes: 0,
            chosen,
        }
    }
}

/// The frame of a picture.
#[derive(Clone, Copy)]
pub struct Frame {
    /// Up to which rank there are lanes, this one not among them.
    pub lanes: u16,
    /// Whether a rank is chosen to have a lane, by its number.
    pub chosen: [bool; NAMES],
    /// The stamps whose events are shown.
    pub span: Span,
    /// The greatest stamp of an event that is shown, or else the first one asked for.
    pub bottom: u32,
    /// How many later events there are.
    pub left_out: u64,
    /// Whether a row has an event that tells more than that a command was started, from the row below
    /// the stamp before the first one on.
    pub full: [bool; ROWS],
}

/// How many events of a rank are shown.
fn count_shown(events: &[Event], span: Span) -> usize
    ensures value { result ≡ count_by (is_shown span) events.now }
    ensures within { result ≤ length events.now }
{
    let mut count = 0usize;
    for event in events {
        if span.shows(event) {
            count += 1;
        }
    }
    count
}

/// Whether a picture has room for all events of a span.
fn fits(ranks: &[RankAccount], span: Span) -> bool
    ensures { result ≡ nat_le (shown_count span ranks.now) 20000 }
{
    let mut room = MAX_EVENTS;
    for account in ranks {
        let count = count_shown(account.history.as_slice(), span);
        if count > room {
            return false;
        }
        room -= count;
    }
    true
}

/// The greatest end of a span such that a picture has room for all its events below it.
fn find_end(ranks: &[RankAccount], asked: Span) -> u64
    requires { asked.end ≤ 1000001 }
    ensures within { result ≤ asked.end }
    ensures few { shown_count (up_to asked result) ranks.now ≤ 20000 }
    ensures most { (result ≡ asked.end)
        ⊎ ((result < asked.end) × (20000 < shown_count (up_to asked (result + 1)) ranks.now)) }
{
    let mut end = 0u64;
    let mut beyond = asked.end + 1;
    while beyond - end > 1 {
        let middle = end + (beyond - end) / 2;
        if fits(ranks, asked.up_to(middle)) {
            end = middle;
        } else {
            beyond = middle;
        }
    }
    end
}

/// How many events of a rank are later than those that are shown.
fn count_later(events: &[Event], end: u64) -> usize
    ensures { result ≡ count_by (is_later end) events.now }
{
    let mut count = 0usize;
    for event in events {
        if end <= event.stamp {
            count += 1;
        }
    }
    count
}

/// How many events are later than those that are shown.
fn count_left_out(ranks: &[RankAccount], end: u64) -> u64
    ensures { result ≡ min (sum_by (later_count end) ranks.now) (2 ^ 64 - 1) }
{
    let mut count = 0u64;
    for account in ranks {
        let later = count_later(account.history.as_slice(), end);
        count = count.saturating_add(later as u64);
    }
    count
}

/// The greater of a stamp and that of an event, if it is shown.
fn later_of(event: &Event, span: Span, found: u64) -> u64
    requires { (found ≤ 1000000) × (span.end ≤ 1000001) }
    ensures value { result ≡ latest span found (event.now ∷ []) }
    ensures within { result ≤ 1000000 }
{
    if span.shows(event) {
        found.max(event.stamp)
    } else {
        found
    }
}

/// The greatest stamp of a rank's events that are shown, and of what was found before.
fn bottom_of_rank(events: &[Event], span: Span, found: u64) -> u64
    requires { (found ≤ 1000000) × (span.end ≤ 1000001) }
    ensures value { result ≡ latest span found events.now }
    ensures within { result ≤ 1000000 }
{
    let mut bottom = found;
    for event in events {
        bottom = later_of(event, span, bottom);
    }
    bottom
}

/// The greatest stamp of an event that is shown, or else the first one.
fn find_bottom(ranks: &[RankAccount], span: Span) -> u64
    requires { (span.first ≤ 1000000) × (span.end ≤ 1000001) }
    ensures value { result ≡ latest_of_all span span.first ranks.now }
    ensures within { result ≤ 1000000 }
{
    let mut bottom = span.first;
    for account in ranks {
        bottom = bottom_of_rank(account.history.as_slice(), span, bottom);
    }
    bottom
}

/// Whether an event tells more than that a command was started.
fn tells_more(what: &Happened) -> bool
    ensures { result ≡ tells_more_lem what.now }
{
    match what {
        Happened::Ran {
            answer: Answer::Started,
            ..
        } => false,
        _ => true,
    }
}

/// Sees that the row of an event is full, if it tells more than a start.
fn fill(rows: &mut [bool; ROWS], top: u64, event: &Event)
    ensures { rows.new ≡ with_row top rows.old event.now }
{
    if tells_more(&event.what) && top < event.stamp && event.stamp - top <= 1024 {
        rows[(event.stamp - top - 1) as usize] = true;
    }
}

/// The same of all these events.
fn fill_all(rows: &mut [bool; ROWS], top: u64, events: &[Event])
    ensures { rows.new ≡ with_rows top rows.old events.now }
{
    for event in events {
        fill(rows, top, event);
    }
}

/// Which rows are full.
fn find_full(ranks: &[RankAccount], top: u64) -> [bool; ROWS]
    ensures { result ≡ full_rows top (replicate 1024 false) ranks.now }
{
    let mut rows = [false; ROWS];
    for account in ranks {
        fill_all(&mut rows, top, account.history.as_slice());
    }
    rows
}

/// Whether a trace says nothing of a rank.
fn is_silent(account: &RankAccount) -> bool
    ensures { IsTrue result ↔ IsSilent account.now }
{
    account.history.is_empty() && account.waits.is_none()
}

/// How many ranks have a lane: so many at least, and all up to the last one of which the trace says
/// something.
fn count_lanes(ranks: &[RankAccount], least: usize) -> usize
    requires { least ≤ length ranks.now }
    ensures within { result ≤ length ranks.now }
    ensures asked { least ≤ result }
    ensures beyond { AllByRecursion IsSilent (drop result ranks.now) }
    ensures spoken { least < result → ¬ (AllByRecursion IsSilent (drop (result - 1) ranks.now)) }
{
    let mut lanes = ranks.len();
    while lanes > least && is_silent(&ranks[lanes - 1]) {
        lanes -= 1;
    }
    lanes
}

impl Frame {
    /// The frame of a picture of a part of these ranks.
    pub fn of(ranks: &[RankAccount], part: Part) -> Frame
        requires few { length ranks.now ≤ 256 }
        requires in_range { (part.span.first ≤ 1000000) × (part.span.end ≤ 1000001) }
        requires lanes { part.lanes ≤ length ranks.now }
        ensures frame { IsFrame part ranks.now result }
        ensures lanes { result.lanes ≤ length ranks.now }
    {
        let end = find_end(ranks, part.span);
        let span = part.span.up_to(end);
        let chosen = part.chosen;
        Frame {
            lanes: count_lanes(ranks, part.lanes as usize) as u16,
            chosen,
            span,
            bottom: find_bottom(ranks, span) as u32,
            left_out: count_left_out(ranks, end),
            full: find_full(ranks, part.span.first.saturating_sub(1)),
        }
    }
}
