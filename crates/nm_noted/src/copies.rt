//! Copies of calls.

ghost use Rattle.std.specs.Prelude.{◌≡◌, IfOk};

use nm_types::{Body, Command, Memory};

// An equal send.
fn copy_send(to: u8, q: u16, tag: u16, ctx: u8, sync: bool, body: &Body) -> Result<Command, Memory>
    ensures { IfOk result (λ copy. copy ≡ Command.Send to q tag ctx sync body.now) }
{
    let body = body.copy()?;
    Ok(Command::Send {
        to,
        q,
        tag,
        ctx,
        sync,
        body,
    })
}

/// An equal command.
pub fn copy_command(command: &Command) -> Result<Command, Memory>
    ensures { IfOk result (λ copy. copy ≡ command.now) }
{
    match command {
        Command::Send {
            to,
            q,
            tag,
            ctx,
            sync,
            body,
        } => copy_send(*to, *q, *tag, *ctx, *sync, body),
        Command::Recv {
            q,
            from,
            tag,
            ctx,
            cap,
        } => Ok(Command::Recv {
            q: *q,
            from: *from,
            tag: *tag,
            ctx: *ctx,
            cap: *cap,
        }),
        Command::Wait { q } => Ok(Command::Wait { q: *q }),
        Command::Test { q } => Ok(Command::Test { q: *q }),
        Command::Probe { from, tag, ctx } => Ok(Command::Probe {
            from: *from,
            tag: *tag,
            ctx: *ctx,
        }),
        Command::Await { from, tag, ctx } => Ok(Command::Await {
            from: *from,
            tag: *tag,
            ctx: *ctx,
        }),
        Command::Cancel { q } => Ok(Command::Cancel { q: *q }),
        Command::Mprobe { m, from, tag, ctx } => Ok(Command::Mprobe {
            m: *m,
            from: *from,
            tag: *tag,
            ctx: *ctx,
        }),
        Command::Mrecv { q, m, cap } => Ok(Command::Mrecv {
            q: *q,
            m: *m,
            cap: *cap,
        }),
    }
}
