//! All single changes of a script that are tried.

ghost use Rattle.std.specs.Prelude.{◌≡◌, ◌≢◌, ℕ, ◌<◌, Contains, IfOk, IsTrue, OnOk, Some, length, true};
ghost use Rattle.nm_types.specs.declared.messages.TagPick as pick;
ghost use Rattle.nm_types.specs.declared.scripts.Command as the_command;
ghost use Rattle.nm_why.specs.declared.changes.Change as the_change;
ghost use Rattle.nm_why.specs.declared.changes.Edit as the_edit;
ghost use Rattle.nm_why.specs.Candidates.{AreNext, IsEdit, IsNamed, IsSingle};
ghost use Rattle.nm_why.specs.Candidates.{context_of as context_of_lem, may_go as may_go_lem, tag_of as tag_of_lem};
ghost use Rattle.nm_why.specs.Changes.{edited as edited_lem};
ghost use Rattle.nm_why.specs.Lists.{Keeps};

use crate::changes::{Change, Edit};
use nm_types::{Command, Line, Memory, Peer, TagPick};
use std::alloc::Global;

/// The tag that a command names.
fn tag_of(command: &Command) -> Option<TagPick>
    ensures { result ≡ tag_of_lem command.now }
{
    match command {
        Command::Send { tag, .. } => Some(TagPick::One(*tag)),
        Command::Recv { tag, .. }
        | Command::Probe { tag, .. }
        | Command::Await { tag, .. }
        | Command::Mprobe { tag, .. } => Some(*tag),
        _ => None,
    }
}

/// The context that it names.
fn context_of(command: &Command) -> Option<u8>
    ensures { result ≡ context_of_lem command.now }
{
    match command {
        Command::Send { ctx, .. }
        | Command::Recv { ctx, .. }
        | Command::Probe { ctx, .. }
        | Command::Await { ctx, .. }
        | Command::Mprobe { ctx, .. } => Some(*ctx),
        _ => None,
    }
}

/// Whether two sources are the same.
fn is_source(one: Peer, other: Peer) -> bool
    ensures { IsTrue result → one ≡ other }
{
    match one {
        Peer::Any => matches!(other, Peer::Any),
        Peer::One(rank) => match other {
            Peer::Any => false,
            Peer::One(own) => own == rank,
        },
    }
}

/// Whether two tags are the same.
fn is_tag(one: TagPick, other: TagPick) -> bool
    ensures { IsTrue result → one ≡ other }
{
    match one {
        TagPick::Any => matches!(other, TagPick::Any),
        TagPick::One(tag) => match other {
            TagPick::Any => false,
            TagPick::One(own) => own == tag,
        },
    }
}

/// Whether two edits are to the same tag, or to the same context.
fn is_same(one: Edit, other: Edit) -> bool
    ensures { IsTrue result → one ≡ other }
{
    match one {
        Edit::Tag(tag) => match other {
            Edit::Tag(own) => is_tag(tag, own),
            _ => false,
        },
        Edit::Context(ctx) => match other {
            Edit::Context(own) => ctx == own,
            _ => false,
        },
        _ => false,
    }
}

/// Whether such an edit is there.
fn has(edits: &[Edit], edit: Edit) -> bool
    ensures { IsTrue result → Contains edits.now edit }
{
    for own in edits {
        if is_same(*own, edit) {
            return true;
        }
    }
    false
}

/// Adds an edit, unless it is there.
fn push_new(edits: &mut Vec<Edit>, edit: Edit) -> Result<(), Memory>
    ensures kept { OnOk result (Keeps edits.old.items edits.new.items) }
    ensures there { OnOk result (Contains edits.new.items edit) }
{
    if has(edits.as_slice(), edit) {
        return Ok(());
    }
    edits.push(edit)?;
    Ok(())
}

/// Adds the edit to a tag, if there is one.
fn push_tag(edits: &mut Vec<Edit>, tag: Option<TagPick>) -> Result<(), Memory>
    ensures kept { OnOk result (Keeps edits.old.items edits.new.items) }
    ensures there { OnOk result ((own : pick.TagPick) → tag ≡ Some own →
        Contains edits.new.items (Edit.Tag own)) }
{
    match tag {
        Some(tag) => push_new(edits, Edit::Tag(tag)),
        None => Ok(()),
    }
}

/// Adds the edit to a context, if there is one.
fn push_context(edits: &mut Vec<Edit>, ctx: Option<u8>) -> Result<(), Memory>
    ensures kept { OnOk result (Keeps edits.old.items edits.new.items) }
    ensures there { OnOk result ((own : ℕ) → ctx ≡ Some own → Contains edits.new.items (Edit.Context own)) }
{
    match ctx {
        Some(ctx) => push_new(edits, Edit::Context(ctx)),
        None => Ok(()),
    }
}

/// Adds the edits to the tag and to the context that a command names.
fn push_named(edits: &mut Vec<Edit>, command: &Command) -> Result<(), Memory>
    ensures kept { OnOk result (Keeps edits.old.items edits.new.items) }
    ensures tag { OnOk result ((tag : pick.TagPick) → tag_of_lem command.now ≡ Some tag →
        Contains edits.new.items (Edit.Tag tag)) }
    ensures context { OnOk result ((ctx : ℕ) → context_of_lem command.now ≡ Some ctx →
        Contains edits.new.items (Edit.Context ctx)) }
{
    push_tag(edits, tag_of(command))?;
    push_context(edits, context_of(command))?;
    Ok(())
}

/// Adds the edits to a tag and a context that a line names.
fn push_all_named(edits: &mut Vec<Edit>, lines: &[Line]) -> Result<(), Memory>
    ensures kept { OnOk result (Keeps edits.old.items edits.new.items) }
    ensures tags { OnOk result ((tag : pick.TagPick) → IsNamed tag_of_lem lines.now tag →
        Contains edits.new.items (Edit.Tag tag)) }
    ensures contexts { OnOk result ((ctx : ℕ) → IsNamed context_of_lem lines.now ctx →
        Contains edits.new.items (Edit.Context ctx)) }
{
    for line in lines {
        push_named(edits, &line.command)?;
    }
    Ok(())
}

/// Adds the edits to a source.
fn push_sources(edits: &mut Vec<Edit>, ranks: u8) -> Result<(), Memory>
    ensures kept { OnOk result (Keeps edits.old.items edits.new.items) }
    ensures sources { OnOk result ((rank : ℕ) → rank < ranks →
        Contains edits.new.items (Edit.Source (Peer.One rank))) }
{
    for rank in 0..ranks {
        edits.push(Edit::Source(Peer::One(rank)))?;
    }
    Ok(())
}

/// All edits that are tried.
fn all_edits(alloc: Global, ranks: u8, lines: &[Line]) -> Result<Vec<Edit>, Memory>
    ensures { IfOk result (λ edits. (edit : the_edit.Edit) → IsEdit ranks lines.now edit →
        Contains edits.items edit) }
{
    let mut edits = Vec::new(alloc);
    edits.push(Edit::Source(Peer::Any))?;
    push_sources(&mut edits, ranks)?;
    push_new(&mut edits, Edit::Tag(TagPick::Any))?;
    push_all_named(&mut edits, lines)?;
    edits.push(Edit::Synchronous)?;
    Ok(edits)
}

/// Whether a command names a source, and not this one.
fn names_other(command: &Command, peer: Peer) -> bool
    ensures { (other : the_command.Command) → edited_lem command.now (Edit.Source peer) ≡ Some other →
        other ≢ command.now → IsTrue result }
{
    match command {
        Command::Recv { from, .. }
        | Command::Probe { from, .. }
        | Command::Await { from, .. }
        | Command::Mprobe { from, .. } => !is_source(*from, peer),
        _ => false,
    }
}

/// Whether it names a tag, and not this one.
fn has_other_tag(command: &Command, tag: TagPick) -> bool
    ensures { (other : the_command.Command) → edited_lem command.now (Edit.Tag tag) ≡ Some other →
        other ≢ command.now → IsTrue result }
{
    match command {
        Command::Send { tag: own, .. } => match tag {
            TagPick::One(other) => *own != other,
            TagPick::Any => false,
        },
        Command::Recv { tag: own, .. }
        | Command::Probe { tag: own, .. }
        | Command::Await { tag: own, .. }
        | Command::Mprobe { tag: own, .. } => !is_tag(*own, tag),
        _ => false,
    }
}

/// Whether it names a context, and not this one.
fn has_other_context(command: &Command, ctx: u8) -> bool
    ensures { (other : the_command.Command) → edited_lem command.now (Edit.Context ctx) ≡ Some other →
        other ≢ command.now → IsTrue result }
{
    match command {
        Command::Send { ctx: own, .. }
        | Command::Recv { ctx: own, .. }
        | Command::Probe { ctx: own, .. }
        | Command::Await { ctx: own, .. }
        | Command::Mprobe { ctx: own, .. } => *own != ctx,
        _ => false,
    }
}

/// Whether a command has what is edited, and another one.
fn differs(command: &Command, edit: Edit) -> bool
    ensures { (other : the_command.Command) → edited_lem command.now edit ≡ Some other → other ≢ command.now →
        IsTrue result }
{
    match edit {
        Edit::Source(peer) => names_other(command, peer),
        Edit::Tag(tag) => has_other_tag(command, tag),
        Edit::Context(ctx) => has_other_context(command, ctx),
        Edit::Synchronous => matches!(command, Command::Send { sync: false, .. }),
    }
}

/// Adds a change.
fn push(changes: &mut Vec<Change>, change: Change) -> Result<(), Memory>
    ensures kept { OnOk result (Keeps changes.old.items changes.new.items) }
    ensures there { OnOk result (Contains changes.new.items change) }
{
    changes.push(change)?;
    Ok(())
}

/// Adds an edit of a line, if the command is another one after it.
fn push_edit(
    changes: &mut Vec<Change>,
    place: usize,
    command: &Command,
    edit: Edit,
) -> Result<(), Memory>
    ensures kept { OnOk result (Keeps changes.old.items changes.new.items) }
    ensures added { OnOk result ((other : the_command.Command) → edited_lem command.now edit ≡ Some other →
        other ≢ command.now → Contains changes.new.items (Change.Edited place edit)) }
{
    if !differs(command, edit) {
        return Ok(());
    }
    push(changes, Change::Edited { place, edit })?;
    Ok(())
}

/// Adds the edits of a line.
fn push_edits(
    changes: &mut Vec<Change>,
    place: usize,
    command: &Command,
    edits: &[Edit],
) -> Result<(), Memory>
    ensures kept { OnOk result (Keeps changes.old.items changes.new.items) }
    ensures added { OnOk result ((edit : the_edit.Edit) (other : the_command.Command) → Contains edits.now edit →
        edited_lem command.now edit ≡ Some other → other ≢ command.now →
        Contains changes.new.items (Change.Edited place edit)) }
{
    for edit in edits {
        push_edit(changes, place, command, *edit)?;
    }
    Ok(())
}

/// Whether a command may be left out.
fn may_go(command: &Command) -> bool
    ensures { result ≡ may_go_lem command.now }
{
    !matches!(
        command,
        Command::Wait { .. } | Command::Test { .. } | Command::Await { .. }
    )
}

/// The place of the next command of a rank after a place.
fn next_of(lines: &[Line], rank: u8, place: usize) -> Option<usize>
    requires { place < length lines.now }
    ensures { (other : ℕ) → AreNext lines.now rank place other → result ≡ Some other }
{
    for k in place + 1..lines.len() {
        let own = lines[k].rank;
        if own == rank {
            return Some(k);
        }
    }
    None
}

/// Adds that a command changes its place with another one, if there is one.
fn push_swap(changes: &mut Vec<Change>, place: usize, next: Option<usize>) -> Result<(), Memory>
    ensures kept { OnOk result (Keeps changes.old.items changes.new.items) }
    ensures swapped { OnOk result ((other : ℕ) → next ≡ Some other →
        Contains changes.new.items (Change.Swapped place other)) }
{
    match next {
        Some(other) => push(changes, Change::Swapped { place, other }),
        None => Ok(()),
    }
}

/// Adds that a command is left out, if it may be.
fn push_absence(changes: &mut Vec<Change>, place: usize, command: &Command) -> Result<(), Memory>
    ensures kept { OnOk result (Keeps changes.old.items changes.new.items) }
    ensures left_out { OnOk result (may_go_lem command.now ≡ true →
        Contains changes.new.items (Change.LeftOut place)) }
{
    if !may_go(command) {
        return Ok(());
    }
    push(changes, Change::LeftOut { place })?;
    Ok(())
}

/// Adds that the command of a line changes its place with the next one of its rank, and that it is left out.
fn push_others(
    changes: &mut Vec<Change>,
    place: usize,
    line: &Line,
    lines: &[Line],
) -> Result<(), Memory>
    requires { place < length lines.now }
    ensures kept { OnOk result (Keeps changes.old.items changes.new.items) }
    ensures swapped { OnOk result ((other : ℕ) → AreNext lines.now line.now.rank place other →
        Contains changes.new.items (Change.Swapped place other)) }
    ensures left_out { OnOk result (may_go_lem line.now.command ≡ true →
        Contains changes.new.items (Change.LeftOut place)) }
{
    push_swap(changes, place, next_of(lines, line.rank, place))?;
    push_absence(changes, place, &line.command)?;
    Ok(())
}

/// All single changes of a script that are tried.
pub fn single_changes(alloc: Global, ranks: u8, lines: &[Line]) -> Result<Vec<Change>, Memory>
    ensures { IfOk result (λ changes. (change : the_change.Change) → IsSingle ranks lines.now change →
        Contains changes.items change) }
{
    let edits = all_edits(alloc, ranks, lines)?;
    let mut changes = Vec::new(alloc);
    for (place, line) in lines.iter().enumerate() {
        push_edits(&mut changes, place, &line.command, edits.as_slice())?;
        push_others(&mut changes, place, line, lines)?;
    }
    Ok(changes)
}
