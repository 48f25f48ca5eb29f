//! The one text of a script.
//!
//! # What a contract sees
//! The text of a script (`Text.script_text` of `nm_types`) and its limits (`Spelled.IsTextOf` of `nm_script`).
//! # What is proved
//! What is written is the script's one text (`exact`), and spells it (`spelled`). The laws of `nm_script` say that
//! it is read as the same script.
//! # What is only tested
//! That `write` succeeds with ample memory.
#![tactic(auto)]

ghost use Rattle.std.specs.Prelude.{◌≡◌, true, ◌++◌, IfOk, OnOk, string_bytes, flat_map, decimal, [], ◌∷◌};
ghost use Rattle.std.specs.List.{join_with_byte, list_all};
ghost use Rattle.nm_types.specs.declared.scripts.Body.TheVariants.{Hex};
ghost use Rattle.nm_types.specs.Text.{body_word, command_line, peer_word, script_text, tag_word};
ghost use Rattle.nm_types.specs.Text.{words as words_lem};
ghost use Rattle.nm_script.specs.Spelled.{IsTextOf, are_bytes, has_bytes};

use nm_types::{Body, Command, Line, Memory, Peer, Script, TagPick};
use std::alloc::{AllocError, Global};

fn push_peer(out: &mut String, peer: Peer) -> Result<(), AllocError>
    ensures ok { OnOk result (string_bytes out.new ≡ string_bytes out.old ++ peer_word peer) }
{
    match peer {
        Peer::Any => out.push_str("any"),
        Peer::One(rank) => write!(out, "{rank}"),
    }
}

fn push_tag(out: &mut String, tag: TagPick) -> Result<(), AllocError>
    ensures ok { OnOk result (string_bytes out.new ≡ string_bytes out.old ++ tag_word tag) }
{
    match tag {
        TagPick::Any => out.push_str("any"),
        TagPick::One(tag) => write!(out, "{tag}"),
    }
}

/// Writes a body that is written out, in hex digits.
fn push_hex(alloc: Global, out: &mut String, bytes: &[u8]) -> Result<(), AllocError>
    ensures ok { OnOk result
        (string_bytes out.new ≡ string_bytes out.old ++ body_word (Hex bytes.now)) }
    ensures of_bytes { OnOk result (are_bytes (Hex bytes.now) ≡ true) }
{
    let digits = hex::encode(alloc, bytes)?;
    out.push_str("x")?;
    out.push_str(&digits)?;
    Ok(())
}

fn push_body(alloc: Global, out: &mut String, body: &Body) -> Result<(), AllocError>
    ensures ok { OnOk result (string_bytes out.new ≡ string_bytes out.old ++ body_word body.now) }
    ensures of_bytes { OnOk result (are_bytes body.now ≡ true) }
{
    match body {
        Body::Hex(bytes) => push_hex(alloc, out, bytes.as_slice()),
        Body::Gen(len) => write!(out, "g{len}"),
    }
}

fn push_selection(out: &mut String, from: Peer, tag: TagPick, ctx: u8) -> Result<(), AllocError>
    ensures ok { OnOk result (string_bytes out.new ≡ string_bytes out.old
        ++ join_with_byte 32 (peer_word from ∷ tag_word tag ∷ decimal ctx ∷ [])) }
{
    push_peer(out, from)?;
    out.push_str(" ")?;
    push_tag(out, tag)?;
    write!(out, " {ctx}")
}

/// Writes a probe: its name and what it looks for.
fn push_probe(
    out: &mut String,
    name: &str,
    from: Peer,
    tag: TagPick,
    ctx: u8,
) -> Result<(), AllocError>
    ensures ok { OnOk result (string_bytes out.new ≡ string_bytes out.old
        ++ join_with_byte 32 (name.now ∷ peer_word from ∷ tag_word tag ∷ decimal ctx ∷ [])) }
{
    out.push_str(name)?;
    out.push_str(" ")?;
    push_selection(out, from, tag, ctx)
}

/// Writes a send: its name and its arguments.
fn push_send(
    alloc: Global,
    out: &mut String,
    q: u16,
    to: u8,
    tag: u16,
    ctx: u8,
    body: &Body,
    sync: bool,
) -> Result<(), AllocError>
    ensures ok { OnOk result (string_bytes out.new ≡ string_bytes out.old
        ++ join_with_byte 32 (words_lem (Command.Send to q tag ctx sync body.now))) }
    ensures of_bytes { OnOk result (are_bytes body.now ≡ true) }
{
    out.push_str(if sync { "issend" } else { "isend" })?;
    write!(out, " {q} {to} {tag} {ctx} ")?;
    push_body(alloc, out, body)
}

/// Writes a receive: its name and its arguments.
fn push_recv(
    out: &mut String,
    q: u16,
    from: Peer,
    tag: TagPick,
    ctx: u8,
    cap: u32,
) -> Result<(), AllocError>
    ensures ok { OnOk result (string_bytes out.new ≡ string_bytes out.old
        ++ join_with_byte 32 (words_lem (Command.Recv q from tag ctx cap))) }
{
    write!(out, "irecv {q} ")?;
    push_selection(out, from, tag, ctx)?;
    write!(out, " {cap}")
}

/// Writes a command about a request: its name and the request.
fn push_lone(out: &mut String, name: &str, q: u16) -> Result<(), AllocError>
    ensures ok { OnOk result (string_bytes out.new ≡ string_bytes out.old
        ++ join_with_byte 32 (name.now ∷ decimal q ∷ [])) }
{
    write!(out, "{name} {q}")
}

/// Writes a probe that takes its message out of matching: its name and its arguments.
fn push_mprobe(
    out: &mut String,
    m: u16,
    from: Peer,
    tag: TagPick,
    ctx: u8,
) -> Result<(), AllocError>
    ensures ok { OnOk result (string_bytes out.new ≡ string_bytes out.old
        ++ join_with_byte 32 (words_lem (Command.Mprobe m from tag ctx))) }
{
    write!(out, "mprobe {m} ")?;
    push_selection(out, from, tag, ctx)
}

/// Writes a receive of a handle's message: its name and its arguments.
fn push_mrecv(out: &mut String, q: u16, m: u16, cap: u32) -> Result<(), AllocError>
    ensures ok { OnOk result (string_bytes out.new ≡ string_bytes out.old
        ++ join_with_byte 32 (words_lem (Command.Mrecv q m cap))) }
{
    write!(out, "mrecv {q} {m} {cap}")
}

/// Writes a command: its name and its arguments.
fn push_command(alloc: Global, out: &mut String, command: &Command) -> Result<(), AllocError>
    ensures ok { OnOk result (string_bytes out.new
        ≡ string_bytes out.old ++ join_with_byte 32 (words_lem command.now)) }
    ensures of_bytes { OnOk result (has_bytes command.now ≡ true) }
{
    match command {
        Command::Send {
            q,
            to,
            tag,
            ctx,
            body,
            sync,
        } => push_send(alloc, out, *q, *to, *tag, *ctx, body, *sync),
        Command::Recv {
            q,
            from,
            tag,
            ctx,
            cap,
        } => push_recv(out, *q, *from, *tag, *ctx, *cap),
        Command::Wait { q } => push_lone(out, "wait", *q),
        Command::Test { q } => push_lone(out, "test", *q),
        Command::Probe { from, tag, ctx } => push_probe(out, "probe", *from, *tag, *ctx),
        Command::Await { from, tag, ctx } => push_probe(out, "await", *from, *tag, *ctx),
        Command::Cancel { q } => push_lone(out, "cancel", *q),
        Command::Mprobe { m, from, tag, ctx } => push_mprobe(out, *m, *from, *tag, *ctx),
        Command::Mrecv { q, m, cap } => push_mrecv(out, *q, *m, *cap),
    }
}

fn push_line(alloc: Global, out: &mut String, line: &Line) -> Result<(), AllocError>
    ensures ok { OnOk result
        (string_bytes out.new ≡ string_bytes out.old ++ command_line line.now) }
    ensures of_bytes { OnOk result (has_bytes line.now.command ≡ true) }
{
    write!(out, "{}: ", line.rank)?;
    push_command(alloc, out, &line.command)?;
    out.push_str("\n")
}

fn push_lines(alloc: Global, out: &mut String, lines: &[Line]) -> Result<(), AllocError>
    ensures ok { OnOk result
        (string_bytes out.new ≡ string_bytes out.old ++ flat_map command_line lines.now) }
    ensures of_bytes { OnOk result
        (list_all (λ line. has_bytes line.command) lines.now ≡ true) }
{
    for line in lines {
        push_line(alloc, out, line)?;
    }
    Ok(())
}

/// The one text of a script, each line ended.
pub fn write(alloc: Global, script: &Script) -> Result<String, Memory>
    ensures exact { IfOk result
        (λ text. string_bytes text ≡ script_text script.now.ranks script.now.lines) }
    ensures spelled { IfOk result
        (λ text. IsTextOf (string_bytes text) script.now.ranks script.now.lines) }
{
    let mut out = String::new(alloc);
    write!(out, "ranks {}\n", script.ranks)?;
    push_lines(alloc, &mut out, script.lines.as_slice())?;
    Ok(out)
}
