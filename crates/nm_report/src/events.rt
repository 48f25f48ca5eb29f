//! Events and counts of packets as the lines of a trace.

ghost use Rattle.std.specs.Prelude.{◌≡◌, [], ◌∷◌, ◌++◌, OnOk, decimal, string_bytes, flat_map};
ghost use Rattle.std.specs.List.{join_with_byte};
ghost use Rattle.nm_types.specs.Text.{peer_word, tag_word};
ghost use Rattle.nm_report.specs.Layout.{by_rank};
ghost use Rattle.nm_report.specs.Events.{how_word, done_word, event_words, event_line};
ghost use Rattle.nm_report.specs.Events.{event_lines, pair_line};

use crate::answers::push_answer;
use crate::{PairCount, RankAccount};
use nm_history::{Event, Happened};
use nm_types::{Answer, Arrival, How, Peer, Post, TagPick};
use std::alloc::AllocError;

/// The word of how a message is sent: `eager`, or `ask`.
pub fn word_of_how(how: How) -> &'static str
    ensures { result.now ≡ how_word how }
{
    match how {
        How::Eager => "eager",
        How::Ask => "ask",
    }
}

/// Whether something was done, or too late.
fn done_or_late(done: bool) -> &'static str
    ensures { result.now ≡ done_word done }
{
    if done { "done" } else { "late" }
}

/// Writes the source that a receive names.
fn push_peer(out: &mut String, peer: Peer) -> Result<(), AllocError>
    ensures ok { OnOk result (string_bytes out.new ≡ string_bytes out.old ++ peer_word peer) }
{
    match peer {
        Peer::Any => out.push_str("any"),
        Peer::One(rank) => write!(out, "{rank}"),
    }
}

/// Writes the tag that a receive names.
fn push_tag(out: &mut String, tag: TagPick) -> Result<(), AllocError>
    ensures ok { OnOk result (string_bytes out.new ≡ string_bytes out.old ++ tag_word tag) }
{
    match tag {
        TagPick::Any => out.push_str("any"),
        TagPick::One(tag) => write!(out, "{tag}"),
    }
}

/// Writes the words of a receive that was posted.
fn push_post(out: &mut String, post: &Post, line: u64) -> Result<(), AllocError>
    ensures ok { OnOk result (string_bytes out.new ≡ string_bytes out.old
        ++ join_with_byte 32 (event_words (Happened.Post post.now line))) }
{
    write!(out, "post {} ", post.number)?;
    push_peer(out, post.from)?;
    out.push_str(" ")?;
    push_tag(out, post.tag)?;
    write!(out, " {} {} {line}", post.ctx, post.cap)
}

/// Writes the words of an arrival.
fn push_arrival(out: &mut String, a: &Arrival) -> Result<(), AllocError>
    ensures ok { OnOk result (string_bytes out.new ≡ string_bytes out.old
        ++ join_with_byte 32 (event_words (Happened.Arrive a.now))) }
{
    let how = word_of_how(a.env.how);
    write!(
        out,
        "arrive {} {} {} {} {} {how}",
        a.env.from, a.n, a.env.tag, a.env.ctx, a.env.len
    )
}

/// Writes the words of a send.
fn push_send(
    out: &mut String,
    to: u8,
    n: u64,
    tag: u16,
    ctx: u8,
    len: u32,
    how: How,
    line: u64,
) -> Result<(), AllocError>
    ensures ok { OnOk result (string_bytes out.new ≡ string_bytes out.old
        ++ join_with_byte 32 (event_words (Happened.Send to n tag ctx len how line))) }
{
    let how = word_of_how(how);
    write!(out, "send {to} {n} {tag} {ctx} {len} {how} {line}")
}

/// Writes a name, a rank, and the number of a message.
fn push_message(out: &mut String, name: &str, rank: u8, n: u64) -> Result<(), AllocError>
    ensures ok { OnOk result (string_bytes out.new ≡ string_bytes out.old
        ++ join_with_byte 32 (name.now ∷ decimal rank ∷ decimal n ∷ [])) }
{
    write!(out, "{name} {rank} {n}")
}

/// Writes a name, a rank, the number of a message, and whether something was done.
fn push_attempt(
    out: &mut String,
    name: &str,
    rank: u8,
    n: u64,
    done: bool,
) -> Result<(), AllocError>
    ensures ok { OnOk result (string_bytes out.new ≡ string_bytes out.old
        ++ join_with_byte 32 (name.now ∷ decimal rank ∷ decimal n ∷ done_word done ∷ [])) }
{
    let done = done_or_late(done);
    write!(out, "{name} {rank} {n} {done}")
}

/// Writes the words of a cancel.
fn push_cancel(out: &mut String, number: u64, done: bool) -> Result<(), AllocError>
    ensures ok { OnOk result (string_bytes out.new ≡ string_bytes out.old
        ++ join_with_byte 32 (event_words (Happened.Cancel number done))) }
{
    let done = done_or_late(done);
    write!(out, "cancel {number} {done}")
}

/// Writes the words of a claim.
fn push_claim(out: &mut String, from: u8, n: u64, line: u64) -> Result<(), AllocError>
    ensures ok { OnOk result (string_bytes out.new ≡ string_bytes out.old
        ++ join_with_byte 32 (event_words (Happened.Claim from n line))) }
{
    write!(out, "claim {from} {n} {line}")
}

/// Writes the words of a receive of a claimed message.
fn push_match(
    out: &mut String,
    number: u64,
    from: u8,
    n: u64,
    cap: u32,
    line: u64,
) -> Result<(), AllocError>
    ensures ok { OnOk result (string_bytes out.new ≡ string_bytes out.old
        ++ join_with_byte 32 (event_words (Happened.Match number from n cap line))) }
{
    write!(out, "match {number} {from} {n} {cap} {line}")
}

/// Writes the words of a command that ran.
fn push_ran(out: &mut String, line: u64, answer: &Answer) -> Result<(), AllocError>
    ensures ok { OnOk result (string_bytes out.new ≡ string_bytes out.old
        ++ join_with_byte 32 (event_words (Happened.Ran line answer.now))) }
{
    write!(out, "ran {line} ")?;
    push_answer(out, answer)
}

/// Writes the words of an event, as its line in the trace has them behind its rank and its stamp.
pub fn push_happened(out: &mut String, what: &Happened) -> Result<(), AllocError>
    ensures ok { OnOk result (string_bytes out.new ≡ string_bytes out.old
        ++ join_with_byte 32 (event_words what.now)) }
{
    match what {
        Happened::Send {
            to,
            n,
            tag,
            ctx,
            len,
            how,
            line,
        } => push_send(out, *to, *n, *tag, *ctx, *len, *how, *line),
        Happened::Post { post, line } => push_post(out, post, *line),
        Happened::Arrive { a } => push_arrival(out, a),
        Happened::Whole { from, n } => push_message(out, "whole", *from, *n),
        Happened::Out { to, n } => push_message(out, "out", *to, *n),
        Happened::Cancel { number, done } => push_cancel(out, *number, *done),
        Happened::Recall { to, n } => push_message(out, "recall", *to, *n),
        Happened::Withdraw { from, n, done } => push_attempt(out, "withdraw", *from, *n, *done),
        Happened::Undone { to, n, done } => push_attempt(out, "undone", *to, *n, *done),
        Happened::Claim { from, n, line } => push_claim(out, *from, *n, *line),
        Happened::Match {
            number,
            from,
            n,
            cap,
            line,
        } => push_match(out, *number, *from, *n, *cap, *line),
        Happened::Ran { line, answer } => push_ran(out, *line, answer),
    }
}

/// Writes the line of an event.
fn push_event(out: &mut String, rank: usize, event: &Event) -> Result<(), AllocError>
    ensures ok { OnOk result
        (string_bytes out.new ≡ string_bytes out.old ++ event_line rank event.now) }
{
    write!(out, "@ {rank} {} ", event.stamp)?;
    push_happened(out, &event.what)?;
    out.push_str("\n")
}

/// Writes a line for each event of a rank.
fn push_events(out: &mut String, rank: usize, account: &RankAccount) -> Result<(), AllocError>
    ensures ok { OnOk result
        (string_bytes out.new ≡ string_bytes out.old ++ event_lines rank account.now) }
{
    for event in account.history.as_slice() {
        push_event(out, rank, event)?;
    }
    Ok(())
}

/// Writes a line for each event, rank by rank.
pub(crate) fn push_all_events(out: &mut String, ranks: &[RankAccount]) -> Result<(), AllocError>
    ensures ok { OnOk result
        (string_bytes out.new ≡ string_bytes out.old ++ by_rank event_lines ranks.now) }
{
    for (rank, account) in ranks.iter().enumerate() {
        push_events(out, rank, account)?;
    }
    Ok(())
}

/// Writes a line for each count of packets.
pub(crate) fn push_pairs(out: &mut String, pairs: &[PairCount]) -> Result<(), AllocError>
    ensures ok { OnOk result
        (string_bytes out.new ≡ string_bytes out.old ++ flat_map pair_line pairs.now) }
{
    for pair in pairs {
        write!(out, "pair {} {} {}\n", pair.from, pair.to, pair.packets)?;
    }
    Ok(())
}
