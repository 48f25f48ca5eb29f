//! What is said of a state in which ranks wait and nothing can happen any more.

ghost use Rattle.std.specs.Prelude.{◌≡◌, ◌++◌, [], OnOk, codes, decimal, flat_map, if◌then◌else◌, string_bytes};
ghost use Rattle.nm_types.specs.Text.{peer_word, tag_word};
ghost use Rattle.nm_waits.specs.Near.{near_messages as near_messages_lem};
ghost use Rattle.nm_why_texts.specs.Waiting.{against, against_message, against_send, chain_line, claimed_line};
ghost use Rattle.nm_why_texts.specs.Waiting.{fits as fits_lem, line_words, message_words, misfit_words, rank_words};
ghost use Rattle.nm_why_texts.specs.Waiting.{near_message_line, near_receive_line, need_words, selection_words};
ghost use Rattle.nm_why_texts.specs.Waiting.{sent_in as sent_in_lem, standing_words, wait_line, wait_text};

use nm_outcomes::spots::ranks::Rank;
use nm_types::{Arrival, Memory, Peer, TagPick};
use nm_waits::near::{
    Fit, NearMessage, NearReceive, Standing, line_of_send, near_messages, near_receives,
    standing_at,
};
use nm_waits::waits::{Need, Wait};
use std::alloc::{AllocError, Global};

/// Writes a source.
fn push_peer(out: &mut String, from: Peer) -> Result<(), AllocError>
    ensures { OnOk result (string_bytes out.new ≡ string_bytes out.old ++ peer_word from) }
{
    match from {
        Peer::Any => out.push_str("any"),
        Peer::One(rank) => write!(out, "{rank}"),
    }
}

/// Writes a tag.
fn push_tag(out: &mut String, tag: TagPick) -> Result<(), AllocError>
    ensures { OnOk result (string_bytes out.new ≡ string_bytes out.old ++ tag_word tag) }
{
    match tag {
        TagPick::Any => out.push_str("any"),
        TagPick::One(tag) => write!(out, "{tag}"),
    }
}

/// Writes what is selected.
fn push_selection(out: &mut String, from: Peer, tag: TagPick, ctx: u8) -> Result<(), AllocError>
    ensures { OnOk result (string_bytes out.new ≡ string_bytes out.old ++ selection_words from tag ctx) }
{
    out.push_str("source ")?;
    push_peer(out, from)?;
    out.push_str(" tag ")?;
    push_tag(out, tag)?;
    write!(out, " context {ctx}")
}

/// Writes words, unless a field fits.
fn push_unless(out: &mut String, fits: bool, words: &str) -> Result<(), AllocError>
    ensures { OnOk result (string_bytes out.new ≡ string_bytes out.old ++ (if fits then [] else words.now)) }
{
    if fits { Ok(()) } else { out.push_str(words) }
}

/// Writes the fields that do not fit.
fn push_misfit(out: &mut String, fit: Fit) -> Result<(), AllocError>
    ensures { OnOk result (string_bytes out.new ≡ string_bytes out.old ++ misfit_words fit) }
{
    push_unless(out, fit.source, ", other source")?;
    push_unless(out, fit.tag, ", other tag")?;
    push_unless(out, fit.context, ", other context")
}

/// Writes what a receive needs.
fn push_needs_message(
    out: &mut String,
    from: Peer,
    tag: TagPick,
    ctx: u8,
    line: u64,
) -> Result<(), AllocError>
    ensures { OnOk result
        (string_bytes out.new ≡ string_bytes out.old ++ need_words (Need.Message from tag ctx line)) }
{
    write!(out, "line {line} needs a message, ")?;
    push_selection(out, from, tag, ctx)?;
    out.push_str("\n")
}

/// Writes what is needed.
fn push_need(out: &mut String, need: Need) -> Result<(), AllocError>
    ensures { OnOk result (string_bytes out.new ≡ string_bytes out.old ++ need_words need) }
{
    match need {
        Need::Receiver {
            to,
            tag,
            ctx,
            line,
            ..
        } => write!(
            out,
            "line {line} needs a receive at rank {to}, tag {tag} context {ctx}\n"
        ),
        Need::Message {
            from,
            tag,
            ctx,
            line,
        } => push_needs_message(out, from, tag, ctx, line),
    }
}

/// Writes where a rank waits.
fn push_wait_head(out: &mut String, rank: u8, line: u64) -> Result<(), AllocError>
    ensures { OnOk result (string_bytes out.new ≡ string_bytes out.old ++ (codes "rank "
        ++ (decimal rank ++ (codes " waits in line " ++ (decimal line ++ codes ": "))))) }
{
    write!(out, "rank {rank} waits in line {line}: ")
}

/// Writes the line of a rank that waits, and what it needs.
fn push_wait(out: &mut String, wait: Wait) -> Result<(), AllocError>
    ensures { OnOk result (string_bytes out.new ≡ string_bytes out.old ++ wait_line wait) }
{
    let Wait { rank, line, need } = wait;
    push_wait_head(out, rank, line)?;
    push_need(out, need)
}

/// Writes the number of a line, if there is one.
fn push_line_of(out: &mut String, line: Option<u64>) -> Result<(), AllocError>
    ensures { OnOk result (string_bytes out.new ≡ string_bytes out.old ++ line_words line) }
{
    match line {
        Some(line) => write!(out, "line {line}"),
        None => out.push_str("no line"),
    }
}

/// The line that sent a message to a rank.
fn sent_in(states: &[Rank], i: u8, a: &Arrival) -> Option<u64>
    ensures { result ≡ sent_in_lem states.now i a.now }
{
    let sender = states.get(usize::from(a.env.from))?;
    line_of_send(sender.deeds(), i, a.n)
}

/// Writes a message to a rank: who sent it, by which line, with which tag and context.
fn push_message(out: &mut String, states: &[Rank], i: u8, a: &Arrival) -> Result<(), AllocError>
    ensures { OnOk result (string_bytes out.new ≡ string_bytes out.old ++ message_words states.now i a.now) }
{
    write!(out, "    message of rank {}, ", a.env.from)?;
    push_line_of(out, sent_in(states, i, a))?;
    write!(out, ", tag {} context {}", a.env.tag, a.env.ctx)
}

/// Writes which receive took a message.
fn push_taken(out: &mut String, line: Option<u64>) -> Result<(), AllocError>
    ensures { OnOk result (string_bytes out.new ≡ string_bytes out.old ++ standing_words (Standing.Taken line)) }
{
    out.push_str(", taken by the receive of ")?;
    push_line_of(out, line)?;
    out.push_str("\n")
}

/// Writes where a message stands.
fn push_standing(out: &mut String, standing: Standing) -> Result<(), AllocError>
    ensures { OnOk result (string_bytes out.new ≡ string_bytes out.old ++ standing_words standing) }
{
    match standing {
        Standing::Free => out.push_str(", fits\n"),
        Standing::Taken { line } => push_taken(out, line),
        Standing::Claimed { line } => {
            write!(out, ", claimed by the matched probe of line {line}\n")
        }
        Standing::Withdrawn => out.push_str(", withdrawn\n"),
    }
}

/// Writes a message that fits, and where it stands.
fn push_fitting(
    out: &mut String,
    states: &[Rank],
    i: u8,
    near: &NearMessage,
) -> Result<(), AllocError>
    ensures { OnOk result (string_bytes out.new ≡ string_bytes out.old
        ++ (message_words states.now i near.now.message ++ standing_words near.now.standing)) }
{
    push_message(out, states, i, &near.message)?;
    push_standing(out, near.standing)
}

/// Writes a message that does not fit, and in which fields.
fn push_other(
    out: &mut String,
    states: &[Rank],
    i: u8,
    near: &NearMessage,
) -> Result<(), AllocError>
    ensures { OnOk result (string_bytes out.new ≡ string_bytes out.old
        ++ (message_words states.now i near.now.message ++ (misfit_words near.now.fit ++ codes "\n"))) }
{
    push_message(out, states, i, &near.message)?;
    push_misfit(out, near.fit)?;
    out.push_str("\n")
}

/// Whether a message has all fields that are selected.
fn fits(fit: Fit) -> bool
    ensures { result ≡ fits_lem fit }
{
    fit.source && fit.tag && fit.context
}

/// Writes a message that came: one that fits, or one that is free.
fn push_near(out: &mut String, states: &[Rank], i: u8, near: &NearMessage) -> Result<(), AllocError>
    ensures { OnOk result (string_bytes out.new ≡ string_bytes out.old ++ near_message_line states.now i near.now) }
{
    if fits(near.fit) {
        return push_fitting(out, states, i, near);
    }
    match near.standing {
        Standing::Free => push_other(out, states, i, near),
        _ => Ok(()),
    }
}

/// Writes the messages that came to a rank.
fn push_nears(
    out: &mut String,
    states: &[Rank],
    i: u8,
    nears: &[NearMessage],
) -> Result<(), AllocError>
    ensures { OnOk result
        (string_bytes out.new ≡ string_bytes out.old ++ flat_map (near_message_line states.now i) nears.now) }
{
    for near in nears {
        push_near(out, states, i, near)?;
    }
    Ok(())
}

/// Writes an open receive, with the fields that do not fit.
fn push_receive(out: &mut String, to: u8, near: &NearReceive) -> Result<(), AllocError>
    ensures { OnOk result (string_bytes out.new ≡ string_bytes out.old ++ near_receive_line to near.now) }
{
    write!(out, "    receive of rank {to}, line {}, ", near.line)?;
    push_selection(out, near.receive.from, near.receive.tag, near.receive.ctx)?;
    push_misfit(out, near.fit)?;
    out.push_str("\n")
}

/// Writes the open receives of a rank.
fn push_receives(out: &mut String, to: u8, nears: &[NearReceive]) -> Result<(), AllocError>
    ensures { OnOk result
        (string_bytes out.new ≡ string_bytes out.old ++ flat_map (near_receive_line to) nears.now) }
{
    for near in nears {
        push_receive(out, to, near)?;
    }
    Ok(())
}

/// Writes that a message is claimed, where it is.
fn push_claimed(out: &mut String, standing: Standing) -> Result<(), AllocError>
    ensures { OnOk result (string_bytes out.new ≡ string_bytes out.old ++ claimed_line standing) }
{
    match standing {
        Standing::Claimed { line } => write!(
            out,
            "    it is claimed by the matched probe of line {line}\n"
        ),
        _ => Ok(()),
    }
}

/// Writes what stands against the receive of a message that came to a rank.
fn push_against_message(
    alloc: Global,
    out: &mut String,
    to: u8,
    rank: &Rank,
    a: &Arrival,
) -> Result<(), Memory>
    ensures { OnOk result (string_bytes out.new ≡ string_bytes out.old ++ against_message to rank.now a.now) }
{
    push_claimed(out, standing_at(rank, a))?;
    let receives = near_receives(alloc, rank, a)?;
    push_receives(out, to, receives.as_slice())?;
    Ok(())
}

/// Writes what stands against the receive of message `n` at a rank.
fn push_against_send(
    alloc: Global,
    out: &mut String,
    i: u8,
    to: u8,
    n: u64,
    rank: &Rank,
) -> Result<(), Memory>
    ensures { OnOk result (string_bytes out.new ≡ string_bytes out.old ++ against_send i to n rank.now) }
{
    match rank.message(i, n) {
        Some(a) => push_against_message(alloc, out, to, rank, &a),
        None => Ok(()),
    }
}

/// Writes what stands against a message that a rank needs.
fn push_against_receive(
    alloc: Global,
    out: &mut String,
    states: &[Rank],
    i: u8,
    rank: &Rank,
    from: Peer,
    tag: TagPick,
    ctx: u8,
) -> Result<(), Memory>
    ensures { OnOk result (string_bytes out.new ≡ string_bytes out.old
        ++ flat_map (near_message_line states.now i) (near_messages_lem rank.now from tag ctx)) }
{
    let nears = near_messages(alloc, rank, from, tag, ctx)?;
    push_nears(out, states, i, nears.as_slice())?;
    Ok(())
}

/// Writes what stands against a need of a rank.
fn push_against(
    alloc: Global,
    out: &mut String,
    states: &[Rank],
    i: u8,
    need: Need,
) -> Result<(), Memory>
    ensures { OnOk result (string_bytes out.new ≡ string_bytes out.old ++ against states.now i need) }
{
    match need {
        Need::Receiver { to, n, .. } => match states.get(usize::from(to)) {
            Some(rank) => push_against_send(alloc, out, i, to, n, rank),
            None => Ok(()),
        },
        Need::Message { from, tag, ctx, .. } => match states.get(usize::from(i)) {
            Some(rank) => push_against_receive(alloc, out, states, i, rank, from, tag, ctx),
            None => Ok(()),
        },
    }
}

/// Writes that a rank waits, for what, and what stands against it.
fn push_wait_text(
    alloc: Global,
    out: &mut String,
    states: &[Rank],
    wait: Wait,
) -> Result<(), Memory>
    ensures { OnOk result (string_bytes out.new ≡ string_bytes out.old ++ wait_text states.now wait) }
{
    push_wait(out, wait)?;
    push_against(alloc, out, states, wait.rank, wait.need)
}

/// Writes ranks, each behind a space.
fn push_ranks(out: &mut String, ranks: &[u8]) -> Result<(), AllocError>
    ensures { OnOk result
        (string_bytes out.new ≡ string_bytes out.old ++ flat_map rank_words ranks.now) }
{
    for rank in ranks {
        write!(out, " {rank}")?;
    }
    Ok(())
}

/// Writes which rank waits for which.
pub fn push_chain(out: &mut String, ranks: &[u8]) -> Result<(), AllocError>
    ensures { OnOk result (string_bytes out.new ≡ string_bytes out.old ++ chain_line ranks.now) }
{
    out.push_str("waits for")?;
    push_ranks(out, ranks)?;
    out.push_str("\n")
}

/// Writes of each rank that waits for what, and what stands against it.
pub fn push_waits(
    alloc: Global,
    out: &mut String,
    states: &[Rank],
    waits: &[Wait],
) -> Result<(), Memory>
    ensures { OnOk result (string_bytes out.new ≡ string_bytes out.old ++ flat_map (wait_text states.now) waits.now) }
{
    for wait in waits {
        push_wait_text(alloc, out, states, *wait)?;
    }
    Ok(())
}
