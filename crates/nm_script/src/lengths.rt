//! How long a text is, and how many bytes a command's line has.

ghost use Rattle.std.specs.Prelude.{◌≡◌, ◌≤◌, ◌<◌, ◌^◌, ◌+◌, [], ◌∷◌, length, decimal, nat_lt};
ghost use Rattle.nm_types.specs.Bodies.{body_len};
ghost use Rattle.nm_types.specs.Limits.{sent_len};
ghost use Rattle.nm_types.specs.Text.{body_word, command_line, peer_word, tag_word};
ghost use Rattle.nm_types.specs.Text.{words as words_lem};
ghost use Rattle.nm_script.specs.Lines.{text_len};
ghost use Rattle.nm_script.specs.Lengths.{ended_len};

use crate::words::{decimal_len, is_fed};
use nm_types::{Body, Command, Line, MAX_TEXT, Peer, TagPick};

/// The text is longer than a script may be. A line feed that its last line lacks counts as a byte.
pub fn is_too_long(bytes: &[u8]) -> bool
    ensures { result ≡ nat_lt MAX_TEXT (text_len bytes.now) }
{
    let most = MAX_TEXT as usize;
    if is_fed(bytes) {
        bytes.len() > most
    } else {
        bytes.len() >= most
    }
}

fn peer_len(peer: Peer) -> u64
    ensures exact { result ≡ length (peer_word peer) }
    ensures few { result ≤ 20 }
{
    match peer {
        Peer::Any => 3,
        Peer::One(rank) => decimal_len(u64::from(rank)),
    }
}

fn tag_len(tag: TagPick) -> u64
    ensures exact { result ≡ length (tag_word tag) }
    ensures few { result ≤ 20 }
{
    match tag {
        TagPick::Any => 3,
        TagPick::One(tag) => decimal_len(u64::from(tag)),
    }
}

#[tactic(auto, using(crate::proofs::LengthLemmas::hex_len))]
fn body_word_len(body: &Body) -> u64
    requires { body_len body.now < 2 ^ 32 }
    ensures exact { result ≡ length (body_word body.now) }
    ensures few { result ≤ 2 ^ 34 }
{
    match body {
        Body::Hex(bytes) => 1 + 2 * bytes.len() as u64,
        Body::Gen(len) => 1 + decimal_len(u64::from(*len)),
    }
}

/// The length of a number, and of what ends it.
fn number_len(n: u64) -> u64
    ensures exact { result ≡ 1 + length (decimal n) }
    ensures few { result ≤ 21 }
{
    1 + decimal_len(n)
}

fn selection_len(from: Peer, tag: TagPick, ctx: u8) -> u64
    ensures exact { result ≡ ended_len (peer_word from ∷ tag_word tag ∷ decimal ctx ∷ []) }
    ensures few { result ≤ 63 }
{
    (1 + peer_len(from)) + (1 + tag_len(tag)) + number_len(u64::from(ctx))
}

fn send_len(q: u16, to: u8, tag: u16, ctx: u8, body: &Body) -> u64
    requires { body_len body.now < 2 ^ 32 }
    ensures exact { result
        ≡ ended_len (decimal q ∷ decimal to ∷ decimal tag ∷ decimal ctx ∷ body_word body.now ∷ []) }
    ensures few { result ≤ 2 ^ 35 }
{
    let numbers = number_len(u64::from(q))
        + number_len(u64::from(to))
        + number_len(u64::from(tag))
        + number_len(u64::from(ctx));
    numbers + (1 + body_word_len(body))
}

fn words_len(command: &Command) -> u64
    requires { sent_len command.now < 2 ^ 32 }
    ensures exact { result ≡ ended_len (words_lem command.now) }
    ensures few { result ≤ 2 ^ 36 }
{
    match command {
        Command::Send {
            q,
            to,
            tag,
            ctx,
            body,
            sync,
        } => {
            let arguments = send_len(*q, *to, *tag, *ctx, body);
            if *sync { 7 + arguments } else { 6 + arguments }
        }
        Command::Recv {
            q,
            from,
            tag,
            ctx,
            cap,
        } => {
            let q = number_len(u64::from(*q));
            let selection = selection_len(*from, *tag, *ctx);
            6 + q + selection + number_len(u64::from(*cap))
        }
        Command::Wait { q } => 5 + number_len(u64::from(*q)),
        Command::Test { q } => 5 + number_len(u64::from(*q)),
        Command::Probe { from, tag, ctx } => 6 + selection_len(*from, *tag, *ctx),
        Command::Await { from, tag, ctx } => 6 + selection_len(*from, *tag, *ctx),
        Command::Cancel { q } => 7 + number_len(u64::from(*q)),
        Command::Mprobe { m, from, tag, ctx } => {
            let m = number_len(u64::from(*m));
            7 + m + selection_len(*from, *tag, *ctx)
        }
        Command::Mrecv { q, m, cap } => {
            let q = number_len(u64::from(*q));
            let m = number_len(u64::from(*m));
            6 + q + m + number_len(u64::from(*cap))
        }
    }
}

/// How many bytes a command's line has, with its line feed.
#[tactic(auto, using(crate::proofs::LengthLemmas::command_line_len))]
pub fn command_len(line: &Line) -> u64
    requires { sent_len line.now.command < 2 ^ 32 }
    ensures { result ≡ length (command_line line.now) }
{
    (1 + number_len(u64::from(line.rank))) + words_len(&line.command)
}
