//! Single changes of a script.

ghost use Rattle.std.specs.Prelude.{◌≡◌, ◌<◌, IfOk, Some, length, option_map, remove, slice_set};
ghost use Rattle.std.specs.List.{range_with_len};
ghost use Rattle.nm_types.specs.Commands.{rank_line};
ghost use Rattle.nm_why.specs.Changes.{changed as changed_lem, edited as edited_lem, selected, swapped_places};
ghost use Rattle.nm_why.specs.Parts.{lines_at as lines_at_lem};

use crate::parts::{all_places, copy_lines, lines_at};
use nm_types::{Body, Command, Line, Memory, Peer, TagPick};
use std::alloc::Global;

/// What is changed of a command.
#[derive(Clone, Copy)]
pub enum Edit {
    /// The source that it names.
    Source(Peer),
    /// The tag.
    Tag(TagPick),
    /// The context.
    Context(u8),
    /// A standard send is a synchronous one.
    Synchronous,
}

/// A single change of a script. Places are those of its lines, from 0.
#[derive(Clone, Copy)]
pub enum Change {
    /// The command of a line is edited.
    Edited { place: usize, edit: Edit },
    /// Two commands change their places.
    Swapped { place: usize, other: usize },
    /// A command is left out.
    LeftOut { place: usize },
}

/// What a receive or a probe selects.
#[derive(Clone, Copy)]
struct Selection {
    from: Peer,
    tag: TagPick,
    ctx: u8,
}

/// What a receive or a probe selects after an edit.
fn select(from: Peer, tag: TagPick, ctx: u8, edit: Edit) -> Option<Selection>
    ensures { result ≡ selected from tag ctx edit }
{
    match edit {
        Edit::Source(from) => Some(Selection { from, tag, ctx }),
        Edit::Tag(tag) => Some(Selection { from, tag, ctx }),
        Edit::Context(ctx) => Some(Selection { from, tag, ctx }),
        Edit::Synchronous => None,
    }
}

/// A send with this tag and context, or a synchronous one.
fn send(
    to: u8,
    q: u16,
    tag: u16,
    ctx: u8,
    sync: bool,
    body: &Body,
) -> Result<Option<Command>, Memory>
    ensures { IfOk result (λ send. send ≡ Some (Command.Send to q tag ctx sync body.now)) }
{
    let body = body.copy()?;
    Ok(Some(Command::Send {
        to,
        q,
        tag,
        ctx,
        sync,
        body,
    }))
}

/// A send after an edit.
fn edited_send(
    to: u8,
    q: u16,
    tag: u16,
    ctx: u8,
    sync: bool,
    body: &Body,
    edit: Edit,
) -> Result<Option<Command>, Memory>
    ensures { IfOk result (λ other. other ≡ edited_lem (Command.Send to q tag ctx sync body.now) edit) }
{
    match edit {
        Edit::Tag(TagPick::One(other)) => send(to, q, other, ctx, sync, body),
        Edit::Context(other) => send(to, q, tag, other, sync, body),
        Edit::Synchronous if !sync => send(to, q, tag, ctx, true, body),
        _ => Ok(None),
    }
}

/// A receive of what is selected.
fn receive(q: u16, cap: u32, selection: Option<Selection>) -> Option<Command>
    ensures { result ≡ option_map (λ s. Command.Recv q s.from s.tag s.ctx cap) selection }
{
    let Selection { from, tag, ctx } = selection?;
    Some(Command::Recv {
        q,
        from,
        tag,
        ctx,
        cap,
    })
}

/// A probe for what is selected.
fn probe(selection: Option<Selection>) -> Option<Command>
    ensures { result ≡ option_map (λ s. Command.Probe s.from s.tag s.ctx) selection }
{
    let Selection { from, tag, ctx } = selection?;
    Some(Command::Probe { from, tag, ctx })
}

/// A blocking probe for what is selected.
fn awaiting(selection: Option<Selection>) -> Option<Command>
    ensures { result ≡ option_map (λ s. Command.Await s.from s.tag s.ctx) selection }
{
    let Selection { from, tag, ctx } = selection?;
    Some(Command::Await { from, tag, ctx })
}

/// A matched probe for what is selected.
fn matched_probe(m: u16, selection: Option<Selection>) -> Option<Command>
    ensures { result ≡ option_map (λ s. Command.Mprobe m s.from s.tag s.ctx) selection }
{
    let Selection { from, tag, ctx } = selection?;
    Some(Command::Mprobe { m, from, tag, ctx })
}

/// A command after an edit, if it has what is edited.
pub fn edited(command: &Command, edit: Edit) -> Result<Option<Command>, Memory>
    ensures { IfOk result (λ other. other ≡ edited_lem command.now edit) }
{
    match command {
        Command::Send {
            to,
            q,
            tag,
            ctx,
            sync,
            body,
        } => edited_send(*to, *q, *tag, *ctx, *sync, body, edit),
        Command::Recv {
            q,
            from,
            tag,
            ctx,
            cap,
        } => Ok(receive(*q, *cap, select(*from, *tag, *ctx, edit))),
        Command::Probe { from, tag, ctx } => Ok(probe(select(*from, *tag, *ctx, edit))),
        Command::Await { from, tag, ctx } => Ok(awaiting(select(*from, *tag, *ctx, edit))),
        Command::Mprobe { m, from, tag, ctx } => Ok(matched_probe(
            *m,
            select(*from, *tag, *ctx, edit),
        )),
        _ => Ok(None),
    }
}

/// The lines with another command at a place.
fn with_command(
    alloc: Global,
    lines: &[Line],
    place: usize,
    rank: u8,
    command: Command,
) -> Result<Vec<Line>, Memory>
    requires { place < length lines.now }
    ensures { IfOk result (λ others. others.items ≡ slice_set lines.now place (rank_line rank command)) }
{
    let mut others = copy_lines(alloc, lines)?;
    others[place] = Line { rank, command };
    Ok(others)
}

/// The lines where the command at a place is edited.
fn with_edit(
    alloc: Global,
    lines: &[Line],
    place: usize,
    edit: Edit,
) -> Result<Option<Vec<Line>>, Memory>
    ensures { IfOk result (λ others. option_map (λ v. v.items) others
        ≡ changed_lem lines.now (Change.Edited place edit)) }
{
    let Some(line) = lines.get(place) else {
        return Ok(None);
    };
    match edited(&line.command, edit)? {
        Some(command) => Ok(Some(with_command(alloc, lines, place, line.rank, command)?)),
        None => Ok(None),
    }
}

/// The places of a script, with two exchanged, if it has both.
fn swapped(alloc: Global, count: usize, place: usize, other: usize) -> Result<Vec<usize>, Memory>
    ensures { IfOk result (λ places. places.items ≡ swapped_places count place other) }
{
    let mut places = all_places(alloc, count)?;
    if place >= count {
        return Ok(places);
    }
    if other >= count {
        return Ok(places);
    }
    places[place] = other;
    places[other] = place;
    Ok(places)
}

/// The lines where two change their places.
fn with_swap(alloc: Global, lines: &[Line], place: usize, other: usize) -> Result<Vec<Line>, Memory>
    ensures { IfOk result (λ others.
        others.items ≡ lines_at_lem lines.now (swapped_places (length lines.now) place other)) }
{
    let places = swapped(alloc, lines.len(), place, other)?;
    lines_at(alloc, lines, places.as_slice())
}

/// The lines without one.
fn with_less(alloc: Global, lines: &[Line], place: usize) -> Result<Vec<Line>, Memory>
    ensures { IfOk result (λ others.
        others.items ≡ lines_at_lem lines.now (remove (range_with_len 0 (length lines.now)) place)) }
{
    let mut places = all_places(alloc, lines.len())?;
    if place < places.len() {
        places.remove(place);
    }
    lines_at(alloc, lines, places.as_slice())
}

/// The lines after a change, if they have what is changed.
pub fn changed(alloc: Global, lines: &[Line], change: Change) -> Result<Option<Vec<Line>>, Memory>
    ensures { IfOk result (λ others. option_map (λ v. v.items) others ≡ changed_lem lines.now change) }
{
    match change {
        Change::Edited { place, edit } => with_edit(alloc, lines, place, edit),
        Change::Swapped { place, other } => Ok(Some(with_swap(alloc, lines, place, other)?)),
        Change::LeftOut { place } => Ok(Some(with_less(alloc, lines, place)?)),
    }
}
