//! The limits of a script, asked of its lines.

ghost use Rattle.std.specs.Prelude.{◌≡◌, ◌≤◌, ◌<◌, ◌^◌, ◌&&◌, ◌↔◌, [], ◌∷◌, IfSome, IsTrue, None, codes, decimal};
ghost use Rattle.std.specs.Prelude.{length, nat_le, nat_lt, sum_by};
ghost use Rattle.std.specs.List.{list_all};
ghost use Rattle.nm_types.specs.Bodies.{body_len};
ghost use Rattle.nm_types.specs.Limits.{IsScript, is_in_range as is_in_range_lem, is_peer as is_peer_lem};
ghost use Rattle.nm_types.specs.Limits.{is_pick as is_pick_lem, sent_len};
ghost use Rattle.nm_types.specs.Text.{command_line, text_line};
ghost use Rattle.nm_why.specs.Parts.{AreShort, DoFit};

use nm_script::command_len;
use nm_script::words::decimal_len;
use nm_types::{
    Body, Command, Line, Lines, MAX_BODIES, MAX_BODY, MAX_CAPACITY, MAX_CONTEXT, MAX_LINES,
    MAX_NAME, MAX_RANKS, MAX_TAG, MAX_TEXT, Peer, Script, TagPick,
};

/// Whether a source is any, or a rank of the run.
fn is_peer(ranks: u8, peer: Peer) -> bool
    ensures { result ≡ is_peer_lem ranks peer }
{
    match peer {
        Peer::Any => true,
        Peer::One(rank) => rank < ranks,
    }
}

/// Whether a tag is any, or in range.
fn is_pick(tag: TagPick) -> bool
    ensures { result ≡ is_pick_lem tag }
{
    match tag {
        TagPick::Any => true,
        TagPick::One(tag) => tag <= MAX_TAG,
    }
}

/// Whether a body is not too long.
fn is_short(body: &Body) -> bool
    ensures { result ≡ nat_le (body_len body.now) MAX_BODY }
{
    match body {
        Body::Hex(bytes) => bytes.len() <= MAX_BODY as usize,
        Body::Gen(len) => *len <= MAX_BODY,
    }
}

/// Whether a source, a tag and a context are in range.
fn is_selection(ranks: u8, from: Peer, tag: TagPick, ctx: u8) -> bool
    ensures { result ≡ (is_peer_lem ranks from && is_pick_lem tag && nat_le ctx MAX_CONTEXT) }
{
    is_peer(ranks, from) && is_pick(tag) && ctx <= MAX_CONTEXT
}

/// Whether a command's arguments are in range.
fn is_in_range(ranks: u8, command: &Command) -> bool
    ensures { result ≡ is_in_range_lem ranks command.now }
{
    match command {
        Command::Send {
            to,
            q,
            tag,
            ctx,
            body,
            ..
        } => {
            *q <= MAX_NAME
                && *to < ranks
                && *tag <= MAX_TAG
                && *ctx <= MAX_CONTEXT
                && is_short(body)
        }
        Command::Recv {
            q,
            from,
            tag,
            ctx,
            cap,
        } => {
            *q <= MAX_NAME
                && is_peer(ranks, *from)
                && is_pick(*tag)
                && *ctx <= MAX_CONTEXT
                && *cap <= MAX_CAPACITY
        }
        Command::Wait { q } => *q <= MAX_NAME,
        Command::Test { q } => *q <= MAX_NAME,
        Command::Probe { from, tag, ctx } => is_selection(ranks, *from, *tag, *ctx),
        Command::Await { from, tag, ctx } => is_selection(ranks, *from, *tag, *ctx),
        Command::Cancel { q } => *q <= MAX_NAME,
        Command::Mprobe { m, from, tag, ctx } => {
            *m <= MAX_NAME && is_peer(ranks, *from) && is_pick(*tag) && *ctx <= MAX_CONTEXT
        }
        Command::Mrecv { q, m, cap } => { *q <= MAX_NAME && *m <= MAX_NAME && *cap <= MAX_CAPACITY }
    }
}

/// Whether all lines are of these ranks, with arguments in range.
fn are_in_range(ranks: u8, lines: &[Line]) -> bool
    ensures { result ≡ list_all (λ line. nat_lt line.rank ranks && is_in_range_lem ranks line.command)
        lines.now }
{
    lines.iter().all(|line| line.rank < ranks && is_in_range(ranks, &line.command))
}

/// How many bytes a command sends.
fn sent_by(command: &Command) -> u64
    requires { sent_len command.now < 2 ^ 32 }
    ensures { result ≡ sent_len command.now }
{
    match command {
        Command::Send { body, .. } => u64::from(body.len()),
        _ => 0,
    }
}

/// Whether these lines together send at most so many bytes.
fn do_bodies_fit(lines: &[Line], most: u64) -> bool
    requires { AreShort lines.now }
    ensures { IsTrue result ↔ (sum_by (λ line. sent_len line.command) lines.now ≤ most) }
{
    let mut room = most;
    for line in lines {
        let len = sent_by(&line.command);
        if len > room {
            return false;
        }
        room -= len;
    }
    true
}

/// Whether the text of these lines has at most so many bytes.
fn does_text_fit(lines: &[Line], most: u64) -> bool
    requires { AreShort lines.now }
    ensures { IsTrue result ↔ (sum_by (λ line. length (command_line line)) lines.now ≤ most) }
{
    let mut room = most;
    for line in lines {
        let len = command_len(line);
        if len > room {
            return false;
        }
        room -= len;
    }
    true
}

/// How long the line of the ranks is, with its line feed.
fn head_len(ranks: u8) -> u64
    ensures exact { result ≡ length (text_line (codes "ranks" ∷ decimal ranks ∷ [])) }
    ensures few { result ≤ 27 }
{
    7 + decimal_len(u64::from(ranks))
}

/// Whether lines with arguments in range keep the limits of bodies and of the text.
fn do_fit(ranks: u8, lines: &[Line]) -> bool
    requires { IsTrue (list_all (λ line. nat_lt line.rank ranks && is_in_range_lem ranks line.command)
        lines.now) }
    ensures { IsTrue result ↔ DoFit ranks lines.now }
{
    let room = u64::from(MAX_TEXT) - head_len(ranks);
    do_bodies_fit(lines, u64::from(MAX_BODIES)) && does_text_fit(lines, room)
}

/// Whether they keep all limits of a script.
fn is_script(ranks: u8, lines: &[Line]) -> bool
    ensures { IsTrue result ↔ IsScript ranks lines.now }
{
    ranks >= 1
        && ranks <= MAX_RANKS
        && lines.len() < MAX_LINES as usize
        && are_in_range(ranks, lines)
        && do_fit(ranks, lines)
}

/// The script of these lines, if they keep its limits.
pub fn script_of(ranks: u8, lines: Lines) -> Option<Script>
    ensures some { IfSome result (λ script. (script.ranks ≡ ranks) × (script.lines ≡ lines)) }
    ensures none { result ≡ None → ¬ (IsScript ranks lines) }
{
    if is_script(ranks, lines.as_slice()) {
        Some(Script { ranks, lines })
    } else {
        None
    }
}
