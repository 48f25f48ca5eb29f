//! Commands by numbers and bytes of C.

ghost use Rattle.std.specs.Prelude.{◌≡◌, ◌⊎◌, true, IfErr, IfOk};
ghost use Rattle.nm_types.specs.declared.scripts.Body.TheVariants as body_is;
ghost use Rattle.nm_types.specs.declared.scripts.Command.TheVariants as command;
ghost use Rattle.nm_c.specs.Causes.{IsAbove};
ghost use Rattle.nm_c.specs.Codes.{is_refusal, peer_of, pick_of};
ghost use Rattle.nm_c.specs.declared.codes.Code.TheVariants as code;

use crate::codes::Code;
use crate::words::{check_length, context, name, peer, pick, rank, tag};
use nm_types::{Body, BoxedBytes, Bytes, Command, Memory};
use std::alloc::Global;

// A body of these bytes.
fn body_of(alloc: Global, bytes: &[u8]) -> Result<Body, Memory>
    ensures { IfOk result (λ body. body ≡ body_is.Hex bytes.now) }
{
    let copy = bytes.to_vec(alloc)?;
    Ok(Body::Hex(BoxedBytes::of(alloc, Bytes::from_vec(copy))?))
}

/// A send of these bytes.
pub(crate) fn send(
    alloc: Global,
    request: u32,
    to: u32,
    label: u32,
    group: u32,
    sync: bool,
    bytes: &[u8],
) -> Result<Command, Code>
    ensures ok { IfOk result (λ x.
        x ≡ command.Send to request label group sync (body_is.Hex bytes.now)) }
    ensures err { IfErr result (λ e. is_refusal e ≡ true) }
    ensures cause { IfErr result (λ e.
        IsAbove (command.Send to request label group sync (body_is.Hex bytes.now)) e ⊎ (e ≡ code.Memory)) }
{
    let q = name(request)?;
    let to = rank(to)?;
    let tag = tag(label)?;
    let ctx = context(group)?;
    check_length(bytes)?;
    let body = body_of(alloc, bytes)?;
    Ok(Command::Send {
        to,
        q,
        tag,
        ctx,
        sync,
        body,
    })
}

/// A receive.
pub(crate) fn receive(
    request: u32,
    from: u32,
    label: u32,
    group: u32,
    cap: u32,
) -> Result<Command, Code>
    ensures ok { IfOk result (λ x.
        x ≡ command.Recv request (peer_of from) (pick_of label) group cap) }
    ensures err { IfErr result (λ e. is_refusal e ≡ true) }
    ensures cause { IfErr result (IsAbove (command.Recv request (peer_of from) (pick_of label) group cap)) }
{
    let q = name(request)?;
    let from = peer(from)?;
    let tag = pick(label)?;
    let ctx = context(group)?;
    Ok(Command::Recv {
        q,
        from,
        tag,
        ctx,
        cap,
    })
}

/// A probe.
pub(crate) fn probe(from: u32, label: u32, group: u32) -> Result<Command, Code>
    ensures ok { IfOk result (λ x. x ≡ command.Probe (peer_of from) (pick_of label) group) }
    ensures err { IfErr result (λ e. is_refusal e ≡ true) }
    ensures cause { IfErr result (IsAbove (command.Probe (peer_of from) (pick_of label) group)) }
{
    let from = peer(from)?;
    let tag = pick(label)?;
    let ctx = context(group)?;
    Ok(Command::Probe { from, tag, ctx })
}

/// A matched probe.
pub(crate) fn claim(message: u32, from: u32, label: u32, group: u32) -> Result<Command, Code>
    ensures ok { IfOk result (λ x.
        x ≡ command.Mprobe message (peer_of from) (pick_of label) group) }
    ensures err { IfErr result (λ e. is_refusal e ≡ true) }
    ensures cause { IfErr result (IsAbove (command.Mprobe message (peer_of from) (pick_of label) group)) }
{
    let m = name(message)?;
    let from = peer(from)?;
    let tag = pick(label)?;
    let ctx = context(group)?;
    Ok(Command::Mprobe { m, from, tag, ctx })
}

/// A receive of a claimed message.
pub(crate) fn receive_claimed(request: u32, message: u32, cap: u32) -> Result<Command, Code>
    ensures ok { IfOk result (λ x. x ≡ command.Mrecv request message cap) }
    ensures err { IfErr result (λ e. is_refusal e ≡ true) }
    ensures cause { IfErr result (IsAbove (command.Mrecv request message cap)) }
{
    let q = name(request)?;
    let m = name(message)?;
    Ok(Command::Mrecv { q, m, cap })
}

/// A test.
pub(crate) fn test(request: u32) -> Result<Command, Code>
    ensures ok { IfOk result (λ x. x ≡ command.Test request) }
    ensures err { IfErr result (λ e. is_refusal e ≡ true) }
    ensures cause { IfErr result (IsAbove (command.Test request)) }
{
    let q = name(request)?;
    Ok(Command::Test { q })
}

/// A wait.
pub(crate) fn wait(request: u32) -> Result<Command, Code>
    ensures ok { IfOk result (λ x. x ≡ command.Wait request) }
    ensures err { IfErr result (λ e. is_refusal e ≡ true) }
    ensures cause { IfErr result (IsAbove (command.Wait request)) }
{
    let q = name(request)?;
    Ok(Command::Wait { q })
}

/// A cancel.
pub(crate) fn cancel(request: u32) -> Result<Command, Code>
    ensures ok { IfOk result (λ x. x ≡ command.Cancel request) }
    ensures err { IfErr result (λ e. is_refusal e ≡ true) }
    ensures cause { IfErr result (IsAbove (command.Cancel request)) }
{
    let q = name(request)?;
    Ok(Command::Cancel { q })
}
