//! Which moves are enough at a state.

ghost use Rattle.std.specs.Prelude.{◌≡◌, ℕ, ◌<◌, ◌==◌, ◌&&◌, ◌||◌, ◌∷◌, [], IfOk, IfSome, IsTrue, Some, length, not};
ghost use Rattle.std.specs.List.{list_all, list_any};
ghost use Rattle.nm_outcomes.specs.declared.spots.deeds.Deed as deed;
ghost use Rattle.nm_outcomes.specs.declared.spots.deeds.Receive as receive;
ghost use Rattle.nm_outcomes.specs.RankStates as spots;
ghost use Rattle.nm_outcomes.specs.RankStates.{receive_of_spot};
ghost use Rattle.nm_history.specs.Selection.{matches_tag as matches_tag_lem};
ghost use Rattle.nm_match.specs.Picks.{same_peer as same_peer_lem, same_tag as same_tag_lem};
ghost use Rattle.nm_explored.specs.declared.choices.moves.Move.TheVariants.{Act};
ghost use Rattle.nm_explored.specs.declared.choices.moves.Turn as the_turn;
ghost use Rattle.nm_explored.specs.Successors.{message_next, spot_in};
ghost use Rattle.nm_search.specs.Lists.{Has};
ghost use Rattle.nm_explored.specs.Moves.{AreSendsShort, IsAct, IsTurn};
ghost use Rattle.nm_explored.specs.Chosen.{IsSettled, IsSettledBy};
ghost use Rattle.nm_explored.specs.Ends.{AreShort};
ghost use Rattle.nm_explored.specs.Coming.{AreEnoughTurns, IsNamed, IsNamedTurn};
ghost use Rattle.nm_explored.specs.Coming.{TakesOnlyFrom, TakesSurely, may_send as may_send_lem};
ghost use Rattle.nm_explored.specs.Orderly.{is_claiming as is_claiming_lem};
ghost use Rattle.nm_explored.specs.Started.{HasNoRecall, any_of, may_cancel as may_cancel_lem};
ghost use Rattle.nm_explored.specs.Started.{may_recall as may_recall_lem, posts_as as posts_as_lem};
ghost use Rattle.nm_explored.specs.Started.{sends_as as sends_as_lem};

use crate::apart::part;
use crate::choices::choices::{View, answer, line_at, next_message};
use crate::choices::moves::{Move, Turn, push_deeds};
use nm_lookups::asked::commands::command_of_line;
use nm_outcomes::spots::deeds::Receive;
use nm_outcomes::spots::looks::ran;
use nm_outcomes::spots::ranks::Rank;
use nm_types::{Arrival, Command, Line, Memory, Peer, TagPick};
use std::alloc::Global;

/// Whether a command starts a send under this name.
fn sends_as(q: u16, command: &Command) -> bool
    ensures { result ≡ sends_as_lem q command.now }
{
    match command {
        Command::Send { q: own, .. } => *own == q,
        _ => false,
    }
}

/// Whether a line is a rank's, and starts such a send.
fn is_send_as(line: &Line, i: u8, q: u16) -> bool
    ensures { result ≡ (line.now.rank == i && sends_as_lem q line.now.command) }
{
    if line.rank == i {
        sends_as(q, &line.command)
    } else {
        false
    }
}

/// Whether a rank has such a send.
fn has_send_as(lines: &[Line], i: u8, q: u16) -> bool
    ensures { result ≡ any_of lines.now i (sends_as_lem q) }
{
    lines.iter().any(|line| is_send_as(line, i, q))
}

/// Whether a command of a rank is a cancel of a name that a send of the rank has.
fn may_recall(lines: &[Line], i: u8, command: &Command) -> bool
    ensures { result ≡ may_recall_lem lines.now i command.now }
{
    match command {
        Command::Cancel { q } => has_send_as(lines, i, *q),
        _ => false,
    }
}

/// Whether a command of a script is one.
fn has_recall(lines: &[Line]) -> bool
    ensures { result ≡ list_any (λ line. may_recall_lem lines.now line.rank line.command) lines.now }
{
    lines
        .iter()
        .any(|line| may_recall(lines, line.rank, &line.command))
}

/// Whether a command is a matched probe or a matched receive.
fn is_claiming(command: &Command) -> bool
    ensures { result ≡ is_claiming_lem command.now }
{
    matches!(command, Command::Mprobe { .. } | Command::Mrecv { .. })
}

/// Whether a line is a rank's, and its command is one of these.
fn is_claim_of(line: &Line, i: u8) -> bool
    ensures { result ≡ (line.now.rank == i && is_claiming_lem line.now.command) }
{
    if line.rank == i {
        is_claiming(&line.command)
    } else {
        false
    }
}

/// Whether a command of a rank is one of these.
fn has_claim(lines: &[Line], i: u8) -> bool
    ensures { result ≡ any_of lines.now i is_claiming_lem }
{
    lines.iter().any(|line| is_claim_of(line, i))
}

/// Whether no move of others changes what a command does or answers.
fn is_settled_by(view: View, i: u8, rank: &Rank, line: u64, command: &Command) -> bool
    ensures { IsTrue result → IsSettledBy (spot_in view.entry.table.now view.entry.ids.now)
        view.entry.lines.now i rank.now line command.now }
{
    match command {
        Command::Send { .. } => true,
        Command::Recv { .. } => !has_claim(view.lines, i),
        Command::Wait { .. } => answer(view, i, rank, line, command).is_some(),
        _ => false,
    }
}

/// Whether no move of others changes what the next command of a rank does or answers.
fn is_settled(view: View, i: u8, rank: &Rank) -> bool
    ensures { length view.entry.lines.now < 4294967293 → IsTrue result →
        IsSettled view.entry.lines.now (spot_in view.entry.table.now view.entry.ids.now) i rank.now }
{
    let Some(line) = line_at(view.lines, i, ran(rank.deeds())) else {
        return false;
    };
    match command_of_line(view.lines, i, line) {
        Some(command) => is_settled_by(view, i, rank, line, command),
        None => false,
    }
}

/// Whether a rank of a state may make the moves of its next command, and the others wait.
fn may_lead(view: View, i: u8) -> bool
    ensures { length view.entry.lines.now < 4294967293 → IsTrue result → (spot : spots.Spot)
        × (spot_in view.entry.table.now view.entry.ids.now i ≡ Some spot)
        × IsSettled view.entry.lines.now (spot_in view.entry.table.now view.entry.ids.now) i spot }
{
    match view.rank(i) {
        Some(rank) => is_settled(view, i, rank),
        None => false,
    }
}

/// The first rank that may make the moves of its next command, and the others wait.
fn leader(view: View, ranks: u8) -> Option<u8>
    ensures { length view.entry.lines.now < 4294967293 → IfSome result (λ i. (i < ranks)
        × (spot : spots.Spot) × (spot_in view.entry.table.now view.entry.ids.now i ≡ Some spot)
        × IsSettled view.entry.lines.now (spot_in view.entry.table.now view.entry.ids.now) i spot) }
{
    for i in 0..ranks {
        if may_lead(view, i) {
            return Some(i);
        }
    }
    None
}

/// The moves of the next command of a rank.
fn acts(alloc: Global, view: View, i: u8, rank: &Rank) -> Result<Vec<Turn>, Memory>
    ensures all { length view.entry.lines.now < 4294967293 → IfOk result (λ turns. (d : deed.Deed) →
        IsAct view.entry.eager view.entry.lines.now
        (spot_in view.entry.table.now view.entry.ids.now) i rank.now d →
        Has turns.items (record { rank = i; by = Act d })) }
    ensures only { length view.entry.lines.now < 4294967293 → AreSendsShort view.entry.lines.now →
        IfOk result (λ turns. (t : the_turn.Turn) → Has turns.items t → (d : deed.Deed)
        × (record { rank = i; by = Act d } ≡ t) × IsAct view.entry.eager view.entry.lines.now
        (spot_in view.entry.table.now view.entry.ids.now) i rank.now d) }
{
    let mut turns = Vec::new(alloc);
    push_deeds(view, i, rank, &mut turns)?;
    Ok(turns)
}

/// Whether a receive of this peer names a rank.
fn names(peer: Peer, from: u8) -> bool
    ensures { IsTrue result → peer ≡ Peer.One from }
{
    match peer {
        Peer::One(rank) => rank == from,
        Peer::Any => false,
    }
}

/// Whether a tag is any or this one.
fn matches_tag(pick: TagPick, tag: u16) -> bool
    ensures { result ≡ matches_tag_lem pick tag }
{
    match pick {
        TagPick::Any => true,
        TagPick::One(named) => named == tag,
    }
}

/// Whether a command sends a message to a rank that a receive there selects, whatever rank the receive names.
fn may_send(i: u8, r: Receive, command: &Command) -> bool
    ensures { result ≡ may_send_lem i r command.now }
{
    match command {
        Command::Send { to, tag, ctx, .. } => *to == i
            && (r.ctx == *ctx && matches_tag(r.tag, *tag)),
        _ => false,
    }
}

/// Whether a line is this rank's, or sends no such message.
fn is_no_other_sender(line: &Line, i: u8, from: u8, r: Receive) -> bool
    ensures { result ≡ (line.now.rank == from || not (may_send_lem i r line.now.command)) }
{
    if line.rank == from {
        return true;
    }
    !may_send(i, r, &line.command)
}

/// Whether no line of a rank but this one sends such a message.
fn has_no_other_sender(lines: &[Line], i: u8, from: u8, r: Receive) -> bool
    ensures { result ≡ list_all (λ line. line.rank == from || not (may_send_lem i r line.command)) lines.now }
{
    lines
        .iter()
        .all(|line| is_no_other_sender(line, i, from, r))
}

/// Whether a receive of a rank takes messages of this rank alone.
fn takes_only(lines: &[Line], i: u8, from: u8, r: Receive) -> bool
    ensures { IsTrue result → TakesOnlyFrom lines.now i from r }
{
    if names(r.from, from) {
        return true;
    }
    has_no_other_sender(lines, i, from, r)
}

/// Whether two receives name the same source.
fn is_same_peer(a: Peer, b: Peer) -> bool
    ensures { result ≡ same_peer_lem a b }
{
    match a {
        Peer::Any => matches!(b, Peer::Any),
        Peer::One(one) => match b {
            Peer::One(other) => one == other,
            _ => false,
        },
    }
}

/// Whether they name the same tag.
fn is_same_tag(a: TagPick, b: TagPick) -> bool
    ensures { result ≡ same_tag_lem a b }
{
    match a {
        TagPick::Any => matches!(b, TagPick::Any),
        TagPick::One(one) => match b {
            TagPick::One(other) => one == other,
            _ => false,
        },
    }
}

/// Whether a command posts a receive under this name, which selects as this one does.
fn posts_as(q: u16, r: Receive, command: &Command) -> bool
    ensures { result ≡ posts_as_lem q r command.now }
{
    match command {
        Command::Recv {
            q: own,
            from,
            tag,
            ctx,
            ..
        } => *own == q
            && (r.ctx == *ctx && (is_same_peer(r.from, *from) && is_same_tag(r.tag, *tag))),
        _ => false,
    }
}

/// Whether a line is a rank's, and posts such a receive.
fn is_post_as(line: &Line, i: u8, q: u16, r: Receive) -> bool
    ensures { result ≡ (line.now.rank == i && posts_as_lem q r line.now.command) }
{
    if line.rank == i {
        posts_as(q, r, &line.command)
    } else {
        false
    }
}

/// Whether a rank posts such a receive.
fn has_post_as(lines: &[Line], i: u8, q: u16, r: Receive) -> bool
    ensures { result ≡ any_of lines.now i (posts_as_lem q r) }
{
    lines.iter().any(|line| is_post_as(line, i, q, r))
}

/// Whether a command of a rank is a cancel of a name under which it posts one.
fn may_cancel(lines: &[Line], i: u8, r: Receive, command: &Command) -> bool
    ensures { result ≡ may_cancel_lem lines.now i r command.now }
{
    match command {
        Command::Cancel { q } => has_post_as(lines, i, *q, r),
        _ => false,
    }
}

/// Whether a line is a rank's, and its command is such a cancel.
fn is_cancel_of(lines: &[Line], line: &Line, i: u8, r: Receive) -> bool
    ensures { result ≡ (line.now.rank == i && may_cancel_lem lines.now i r line.now.command) }
{
    if line.rank == i {
        may_cancel(lines, i, r, &line.command)
    } else {
        false
    }
}

/// Whether a rank has such a cancel.
fn has_cancel_of(lines: &[Line], i: u8, r: Receive) -> bool
    ensures { result ≡ any_of lines.now i (may_cancel_lem lines.now i r) }
{
    lines.iter().any(|line| is_cancel_of(lines, line, i, r))
}

/// Whether a receive of a rank takes messages of another rank alone, and no command of its rank is in their way.
fn takes_surely(lines: &[Line], i: u8, from: u8, r: Receive) -> bool
    ensures { IsTrue result → TakesSurely lines.now i from r }
{
    if !takes_only(lines, i, from, r) {
        return false;
    }
    if has_claim(lines, i) {
        return false;
    }
    !has_cancel_of(lines, i, r)
}

/// The receive that takes a message, if it is such a one.
fn only_receive(lines: &[Line], i: u8, rank: &Rank, a: &Arrival, from: u8) -> Option<Receive>
    ensures { IfSome result (λ r. (receive_of_spot rank.now a.now ≡ Some r) × TakesSurely lines.now i from r) }
{
    match rank.receive_for(a) {
        Some(r) => if takes_surely(lines, i, from, r) {
            Some(r)
        } else {
            None
        },
        None => None,
    }
}

/// The next message from a rank to a rank in this state, if it goes to such a receive.
fn named_next(view: View, i: u8, rank: &Rank, from: u8) -> Option<Arrival>
    ensures { IfSome result (λ a. (message_next (spot_in view.entry.table.now view.entry.ids.now) i from ≡ Some a)
        × (r : receive.Receive) × (receive_of_spot rank.now a ≡ Some r)
        × TakesSurely view.entry.lines.now i from r) }
{
    match next_message(view, i, from) {
        Some(a) => match only_receive(view.lines, i, rank, &a, from) {
            Some(_) => Some(a),
            None => None,
        },
        None => None,
    }
}

/// The next message from a rank to a rank, if it goes to such a receive.
fn named_arrival(view: View, i: u8, from: u8, ranks: u8) -> Option<Arrival>
    ensures { i < ranks → from < ranks → IfSome result
        (λ a. IsNamed ranks view.entry.lines.now (spot_in view.entry.table.now view.entry.ids.now) i from a) }
{
    match view.rank(i) {
        Some(rank) => named_next(view, i, rank, from),
        None => None,
    }
}

/// The first message to a rank that goes to such a receive.
fn first_named(view: View, i: u8, ranks: u8) -> Option<Arrival>
    ensures { i < ranks → IfSome result (λ a. (from : ℕ)
        × IsNamed ranks view.entry.lines.now (spot_in view.entry.table.now view.entry.ids.now) i from a) }
{
    for from in 0..ranks {
        if let Some(a) = named_arrival(view, i, from, ranks) {
            return Some(a);
        }
    }
    None
}

/// The arrival of the first message that goes to such a receive.
fn coming(view: View, ranks: u8) -> Option<Turn>
    ensures { IfSome result (IsNamedTurn ranks view.entry.lines.now
        (spot_in view.entry.table.now view.entry.ids.now)) }
{
    for i in 0..ranks {
        if let Some(a) = first_named(view, i, ranks) {
            return Some(Turn {
                rank: i,
                by: Move::Arrive(a),
            });
        }
    }
    None
}

/// The one move.
fn only(alloc: Global, turn: Turn) -> Result<Vec<Turn>, Memory>
    ensures { IfOk result (λ turns. turns.items ≡ turn ∷ []) }
{
    let mut turns = Vec::new(alloc);
    turns.push(turn)?;
    Ok(turns)
}

/// The arrival of a message that goes to a receive which can take no other rank's, or all moves of a group.
fn arrivals(alloc: Global, view: View, ranks: u8) -> Result<Vec<Turn>, Memory>
    requires { AreShort view.lines.now }
    ensures enough { HasNoRecall view.entry.lines.now → length view.entry.lines.now < 4294967293 →
        IfOk result (λ turns. AreEnoughTurns view.entry.eager ranks view.entry.lines.now
        (spot_in view.entry.table.now view.entry.ids.now) turns.items) }
    ensures only { length view.entry.lines.now < 4294967293 → AreSendsShort view.entry.lines.now →
        IfOk result (λ turns. (t : the_turn.Turn) → Has turns.items t →
        IsTurn view.entry.eager ranks view.entry.lines.now
        (spot_in view.entry.table.now view.entry.ids.now) t) }
{
    match coming(view, ranks) {
        Some(turn) => only(alloc, turn),
        None => part(alloc, view, ranks),
    }
}

/// Moves that are enough at a state: those of the next command of one rank, where no other move changes
/// which they are, or all moves of a group of ranks that no other rank speaks to.
pub fn enough(alloc: Global, view: View, ranks: u8) -> Result<Vec<Turn>, Memory>
    requires { AreShort view.lines.now }
    ensures enough { length view.entry.lines.now < 4294967293 →
        IfOk result (λ turns. AreEnoughTurns view.entry.eager ranks view.entry.lines.now
        (spot_in view.entry.table.now view.entry.ids.now) turns.items) }
    ensures only { length view.entry.lines.now < 4294967293 → AreSendsShort view.entry.lines.now →
        IfOk result (λ turns. (t : the_turn.Turn) → Has turns.items t →
        IsTurn view.entry.eager ranks view.entry.lines.now
        (spot_in view.entry.table.now view.entry.ids.now) t) }
{
    if has_recall(view.lines) {
        return part(alloc, view, ranks);
    }
    match leader(view, ranks) {
        Some(i) => match view.rank(i) {
            Some(rank) => acts(alloc, view, i, rank),
            None => part(alloc, view, ranks),
        },
        None => arrivals(alloc, view, ranks),
    }
}
