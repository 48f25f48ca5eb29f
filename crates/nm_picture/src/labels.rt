//! What is written beside the marks: what each event tells, in short.

ghost use Rattle.std.specs.Prelude.{◌≡◌, ◌≤◌, ◌++◌, IfOk, OnOk, codes, decimal, flat_map, length};
ghost use Rattle.std.specs.Prelude.{string_bytes};
ghost use Rattle.nm_types.specs.Text.{peer_word, tag_word};
ghost use Rattle.nm_report.specs.Events.{done_word};
ghost use Rattle.nm_diagram.specs.Labels.{all_labels, answer_label, label_of, labelled, labels_at};
ghost use Rattle.nm_diagram.specs.Labels.{context_words, drop_of as drop_of_lem, labels_of, message_words};
ghost use Rattle.nm_diagram.specs.Labels.{receive_words};
ghost use Rattle.nm_picture.specs.Pictures.{drawn_text, is_drawn as is_drawn_lem, label_text, tag_text};
ghost use Rattle.nm_picture.specs.Pictures.{words_width};

use crate::places::{gap_of, x_of, y_of};
use crate::words::push_escaped;
use nm_diagram::Frame;
use nm_history::{Event, Happened};
use nm_report::RankAccount;
use nm_types::{Answer, Peer, Post, TagPick};
use std::alloc::{AllocError, Global};

/// Writes a context, where it is another than 0.
fn push_context(out: &mut String, ctx: u8) -> Result<(), AllocError>
    ensures ok { OnOk result (string_bytes out.new ≡ string_bytes out.old ++ context_words ctx) }
{
    if ctx == 0 {
        Ok(())
    } else {
        write!(out, " c{ctx}")
    }
}

/// Writes a message by its number, its tag and how many bytes it has, and its context.
fn push_message(out: &mut String, n: u64, tag: u16, len: u32, ctx: u8) -> Result<(), AllocError>
    ensures ok { OnOk result
        (string_bytes out.new ≡ string_bytes out.old ++ (message_words n tag len ++ context_words ctx)) }
{
    write!(out, "m{n} t{tag} {len}b")?;
    push_context(out, ctx)
}

/// The first word of an answer.
fn word_of_answer(answer: &Answer) -> &'static str
    ensures { result.now ≡ answer_label answer.now }
{
    match answer {
        Answer::Started => "started",
        Answer::Busy => "busy",
        Answer::Null => "null",
        Answer::No => "no",
        Answer::Nothing => "none",
        Answer::Sent => "sent",
        Answer::Got { .. } => "got",
        Answer::Cut { .. } => "cut",
        Answer::Cancelled => "cancelled",
        Answer::Seen(_) => "seen",
        Answer::Done => "done",
        Answer::Late => "late",
        Answer::Asked => "asked",
    }
}

/// Whether something was done, or too late.
fn word_of_done(done: bool) -> &'static str
    ensures { result.now ≡ done_word done }
{
    if done { "done" } else { "late" }
}

/// Writes the source that a receive names.
fn push_source(out: &mut String, from: Peer) -> Result<(), AllocError>
    ensures ok { OnOk result (string_bytes out.new ≡ string_bytes out.old ++ peer_word from) }
{
    match from {
        Peer::Any => out.push_str("any"),
        Peer::One(rank) => write!(out, "{rank}"),
    }
}

/// Writes the tag that a receive names.
fn push_tag_pick(out: &mut String, tag: TagPick) -> Result<(), AllocError>
    ensures ok { OnOk result (string_bytes out.new ≡ string_bytes out.old ++ tag_word tag) }
{
    match tag {
        TagPick::Any => out.push_str("any"),
        TagPick::One(tag) => write!(out, "{tag}"),
    }
}

/// Writes what a receive is, by its number, its source and its tag, and its context.
fn push_receive(out: &mut String, post: &Post) -> Result<(), AllocError>
    ensures ok { OnOk result (string_bytes out.new ≡ string_bytes out.old
        ++ (receive_words post.now ++ context_words post.now.ctx)) }
{
    write!(out, "r{} <", post.number)?;
    push_source(out, post.from)?;
    out.push_str(" t")?;
    push_tag_pick(out, post.tag)?;
    push_context(out, post.ctx)
}

/// Writes a message, or what a receive takes, by a letter and a number, and what it is of.
fn push_joined(
    out: &mut String,
    letter: &'static str,
    number: u64,
    word: &'static str,
    other: u64,
) -> Result<(), AllocError>
    ensures ok { OnOk result (string_bytes out.new ≡ string_bytes out.old
        ++ (letter.now ++ (decimal number ++ (word.now ++ decimal other)))) }
{
    write!(out, "{letter}{number}{word}{other}")
}

/// Writes whether something was done, or too late.
fn push_done(out: &mut String, done: bool) -> Result<(), AllocError>
    ensures ok { OnOk result
        (string_bytes out.new ≡ string_bytes out.old ++ (codes " " ++ done_word done)) }
{
    write!(out, " {}", word_of_done(done))
}

/// Writes a message of or to a rank, and whether its withdrawal was done.
fn push_withdrawal(
    out: &mut String,
    n: u64,
    word: &'static str,
    other: u64,
    done: bool,
) -> Result<(), AllocError>
    ensures ok { OnOk result (string_bytes out.new ≡ string_bytes out.old
        ++ ((codes "m" ++ (decimal n ++ (word.now ++ decimal other))) ++ (codes " " ++ done_word done))) }
{
    push_joined(out, "m", n, word, other)?;
    push_done(out, done)
}

/// Writes a receive that was to be cancelled.
fn push_cancel(out: &mut String, number: u64, done: bool) -> Result<(), AllocError>
    ensures ok { OnOk result (string_bytes out.new ≡ string_bytes out.old
        ++ (codes "r" ++ (decimal number ++ (codes " " ++ done_word done)))) }
{
    write!(out, "r{number} {}", word_of_done(done))
}

/// Writes a line of the script, and its answer.
fn push_answer(out: &mut String, line: u64, answer: &Answer) -> Result<(), AllocError>
    ensures ok { OnOk result (string_bytes out.new ≡ string_bytes out.old
        ++ (decimal line ++ (codes " " ++ answer_label answer.now))) }
{
    write!(out, "{line} {}", word_of_answer(answer))
}

/// Writes what an event tells in short.
fn push_short(out: &mut String, what: &Happened) -> Result<(), AllocError>
    ensures ok { OnOk result
        (string_bytes out.new ≡ string_bytes out.old ++ label_of what.now) }
{
    match what {
        Happened::Send {
            n,
            tag,
            ctx,
            len,
            ..
        } => push_message(out, *n, *tag, *len, *ctx),
        Happened::Post { post, .. } => push_receive(out, post),
        Happened::Arrive { a } => push_message(out, a.n, a.env.tag, a.env.len, a.env.ctx),
        Happened::Whole { from, n } => push_joined(out, "m", *n, " of ", u64::from(*from)),
        Happened::Out { to, n } => push_joined(out, "m", *n, " to ", u64::from(*to)),
        Happened::Cancel { number, done } => push_cancel(out, *number, *done),
        Happened::Recall { to, n } => push_joined(out, "m", *n, " to ", u64::from(*to)),
        Happened::Withdraw { from, n, done } => {
            push_withdrawal(out, *n, " of ", u64::from(*from), *done)
        }
        Happened::Undone { to, n, done } => {
            push_withdrawal(out, *n, " to ", u64::from(*to), *done)
        }
        Happened::Claim { from, n, .. } => push_joined(out, "m", *n, " of ", u64::from(*from)),
        Happened::Match { number, n, .. } => push_joined(out, "r", *number, " m", *n),
        Happened::Ran { line, answer } => push_answer(out, *line, answer),
    }
}

/// How far down the label of an event stands: clear of the arrow that leaves or comes.
fn drop_of(what: &Happened) -> u64
    ensures value { result ≡ drop_of_lem what.now }
    ensures within { result ≤ 8 }
{
    match what {
        Happened::Send { .. } => 0,
        Happened::Arrive { .. } => 8,
        _ => 4,
    }
}

/// How wide the words of a label are.
fn width_of_words(frame: &Frame, words: &str) -> u64
    ensures { result ≡ words_width frame.now words.now }
{
    let room = gap_of(frame) / 2 + 2;
    (words.len() as u64).saturating_mul(5).min(room)
}

/// Writes the start tag of a label.
#[tactic(auto, unfolding(crate::specs::Pictures::tag_text))]
fn push_tag(
    out: &mut String,
    frame: &Frame,
    rank: u8,
    event: &Event,
    words: &str,
) -> Result<(), AllocError>
    requires told { words.now ≡ label_of event.now.what }
    ensures ok { OnOk result (string_bytes out.new
        ≡ string_bytes out.old ++ tag_text frame.now (labelled rank event.now)) }
{
    let x = x_of(frame, rank) + 13;
    let y = y_of(frame, event.stamp) + drop_of(&event.what) - 1;
    let width = width_of_words(frame, words);
    write!(
        out,
        "<text class=\"label\" lengthAdjust=\"spacingAndGlyphs\" x=\"{x}\" y=\"{y}\" textLength=\"{width}\">"
    )
}

/// Whether a label is drawn: whether its letters have room.
fn is_drawn(frame: &Frame, words: &str) -> bool
    ensures { result ≡ is_drawn_lem frame.now words.now }
{
    let gap = gap_of(frame);
    gap >= 70 || gap >= 30 && words.len() as u64 <= (gap / 2 + 2) / 3
}

/// Writes a label with its words.
#[tactic(auto, unfolding(crate::specs::Pictures::drawn_text))]
fn push_drawn(
    out: &mut String,
    frame: &Frame,
    rank: u8,
    event: &Event,
    words: &str,
) -> Result<(), AllocError>
    requires told { words.now ≡ label_of event.now.what }
    ensures ok { OnOk result (string_bytes out.new
        ≡ string_bytes out.old ++ drawn_text frame.now (labelled rank event.now)) }
{
    push_tag(out, frame, rank, event, words)?;
    push_escaped(out, words)?;
    out.push_str("</text>\n")
}

/// Writes the label of an event, where it has room.
#[tactic(auto, unfolding(crate::specs::Pictures::label_text))]
fn push_label(
    alloc: Global,
    out: &mut String,
    frame: &Frame,
    rank: u8,
    event: &Event,
) -> Result<(), AllocError>
    ensures ok { OnOk result (string_bytes out.new
        ≡ string_bytes out.old ++ label_text frame.now (labelled rank event.now)) }
{
    let words = short_words(alloc, event)?;
    if is_drawn(frame, words.as_str()) {
        push_drawn(out, frame, rank, event, words.as_str())
    } else {
        Ok(())
    }
}

/// What an event tells in short.
fn short_words(alloc: Global, event: &Event) -> Result<String, AllocError>
    ensures { IfOk result (λ words. string_bytes words ≡ label_of event.now.what) }
{
    let mut words = String::new(alloc);
    push_short(&mut words, &event.what)?;
    Ok(words)
}

/// Writes the label of an event, if it is shown.
fn push_if_shown(
    alloc: Global,
    out: &mut String,
    frame: &Frame,
    rank: u8,
    event: &Event,
) -> Result<(), AllocError>
    ensures ok { OnOk result (string_bytes out.new ≡ string_bytes out.old
        ++ flat_map (label_text frame.now) (labels_at frame.now.span rank event.now)) }
{
    if frame.span.shows(event) {
        push_label(alloc, out, frame, rank, event)
    } else {
        Ok(())
    }
}

/// Writes the labels of a rank.
fn push_labels_of_rank(
    alloc: Global,
    out: &mut String,
    frame: &Frame,
    rank: u8,
    account: &RankAccount,
) -> Result<(), AllocError>
    ensures ok { OnOk result (string_bytes out.new ≡ string_bytes out.old
        ++ flat_map (label_text frame.now) (labels_of frame.now.span rank account.now)) }
{
    for event in account.history.as_slice() {
        push_if_shown(alloc, out, frame, rank, event)?;
    }
    Ok(())
}

/// Writes the labels of all events that are shown, rank by rank, where they have room.
pub fn push_labels(
    alloc: Global,
    out: &mut String,
    frame: &Frame,
    ranks: &[RankAccount],
) -> Result<(), AllocError>
    requires few { length ranks.now ≤ 256 }
    ensures ok { OnOk result (string_bytes out.new ≡ string_bytes out.old
        ++ flat_map (label_text frame.now) (all_labels frame.now.span ranks.now)) }
{
    for (rank, account) in ranks.iter().enumerate() {
        push_labels_of_rank(alloc, out, frame, rank as u8, account)?;
    }
    Ok(())
}
