//! Parts of a script: copies of some of its lines.

ghost use Rattle.std.specs.Prelude.{◌≡◌, ◌++◌, [], IfOk, OnOk, option_copied};
ghost use Rattle.std.specs.List.{cons_option, range_with_len, slice_get};
ghost use Rattle.nm_why.specs.Parts.{lines_at as lines_at_lem};

use nm_types::{Body, Command, Line, Memory};
use std::alloc::Global;

/// An equal send.
fn copy_send(to: u8, q: u16, tag: u16, ctx: u8, sync: bool, body: &Body) -> Result<Command, Memory>
    ensures { IfOk result (λ copy. copy ≡ Command.Send to q tag ctx sync body.now) }
{
    let body = body.copy()?;
    Ok(Command::Send {
        to,
        q,
        tag,
        ctx,
        sync,
        body,
    })
}

/// An equal command.
fn copy_command(command: &Command) -> Result<Command, Memory>
    ensures { IfOk result (λ copy. copy ≡ command.now) }
{
    match command {
        Command::Send {
            to,
            q,
            tag,
            ctx,
            sync,
            body,
        } => copy_send(*to, *q, *tag, *ctx, *sync, body),
        Command::Recv {
            q,
            from,
            tag,
            ctx,
            cap,
        } => Ok(Command::Recv {
            q: *q,
            from: *from,
            tag: *tag,
            ctx: *ctx,
            cap: *cap,
        }),
        Command::Wait { q } => Ok(Command::Wait { q: *q }),
        Command::Test { q } => Ok(Command::Test { q: *q }),
        Command::Probe { from, tag, ctx } => Ok(Command::Probe {
            from: *from,
            tag: *tag,
            ctx: *ctx,
        }),
        Command::Await { from, tag, ctx } => Ok(Command::Await {
            from: *from,
            tag: *tag,
            ctx: *ctx,
        }),
        Command::Cancel { q } => Ok(Command::Cancel { q: *q }),
        Command::Mprobe { m, from, tag, ctx } => Ok(Command::Mprobe {
            m: *m,
            from: *from,
            tag: *tag,
            ctx: *ctx,
        }),
        Command::Mrecv { q, m, cap } => Ok(Command::Mrecv {
            q: *q,
            m: *m,
            cap: *cap,
        }),
    }
}

/// An equal line.
pub fn copy_line(line: &Line) -> Result<Line, Memory>
    ensures { IfOk result (λ copy. copy ≡ line.now) }
{
    Ok(Line {
        rank: line.rank,
        command: copy_command(&line.command)?,
    })
}

/// Adds an equal line, if there is one.
fn push_copy(lines: &mut Vec<Line>, line: Option<&Line>) -> Result<(), Memory>
    ensures { OnOk result (lines.new.items ≡ lines.old.items ++ cons_option (option_copied line.entry) []) }
{
    if let Some(line) = line {
        lines.push(copy_line(line)?)?;
    }
    Ok(())
}

/// The line at a place, if there is one.
fn at(lines: &[Line], place: usize) -> Option<&Line>
    ensures { option_copied result ≡ slice_get lines.now place }
{
    lines.get(place)
}

/// The lines at these places.
pub fn lines_at(alloc: Global, lines: &[Line], places: &[usize]) -> Result<Vec<Line>, Memory>
    ensures { IfOk result (λ part. part.items ≡ lines_at_lem lines.now places.now) }
{
    let mut part = Vec::new(alloc);
    for place in places {
        push_copy(&mut part, at(lines, *place))?;
    }
    Ok(part)
}

/// Equal lines.
pub fn copy_lines(alloc: Global, lines: &[Line]) -> Result<Vec<Line>, Memory>
    ensures { IfOk result (λ copy. copy.items ≡ lines.now) }
{
    let mut copy = Vec::new(alloc);
    for line in lines {
        copy.push(copy_line(line)?)?;
    }
    Ok(copy)
}

/// The places of a script.
pub fn all_places(alloc: Global, count: usize) -> Result<Vec<usize>, Memory>
    ensures { IfOk result (λ places. places.items ≡ range_with_len 0 count) }
{
    let mut places = Vec::new(alloc);
    for place in 0..count {
        places.push(place)?;
    }
    Ok(places)
}
