//! The moves of a script's ranks.

ghost use Rattle.std.specs.Prelude.{◌≡◌, ℕ, ◌<◌, ◌++◌, ◌∷◌, [], if◌then◌else◌, None, Some, IfOk, IfSome, IsTrue, OnOk};
ghost use Rattle.std.specs.Prelude.{length, option_map};
ghost use Rattle.std.specs.List.{cons_option};
ghost use Rattle.nm_types.specs.Limits.{sent_len};
ghost use Rattle.nm_types.specs.declared.messages.Arrival as arrival;
ghost use Rattle.nm_outcomes.specs.declared.spots.deeds.Deed as deed;
ghost use Rattle.nm_match.specs.declared.names.Message as message;
ghost use Rattle.nm_explored.specs.declared.choices.moves.Move as the_move;
ghost use Rattle.nm_explored.specs.declared.choices.moves.Turn as the_turn;
ghost use Rattle.nm_explored.specs.Successors.{spot_in};
ghost use Rattle.nm_search.specs.Lists.{AddsOnly, Has, Extends};
ghost use Rattle.nm_explored.specs.Moves.{AreMovesOf, AreSendsShort, IsAct, IsChoiceOf, IsDeedOf};
ghost use Rattle.nm_explored.specs.Moves.{IsNextMessage, IsRecalled, IsTurn, IsTurnOf, moved_at, no_in};

use crate::choices::choices::{
    View, answer, begin, line_at, may_say_no, may_withdraw, next_message,
};
use nm_lookups::asked::commands::command_of_line;
use nm_outcomes::spots::deeds::{Deed, Message, Reply};
use nm_outcomes::spots::looks::ran;
use nm_outcomes::spots::ranks::Rank;
use nm_types::{Arrival, Command, Line, Memory};
use std::alloc::Global;

/// What happens at a rank.
#[derive(Clone, Copy)]
pub enum Move {
    /// It does something by a command.
    Act(Deed),
    /// A message arrives.
    Arrive(Arrival),
    /// A message is withdrawn.
    Withdraw(Message),
}

/// A move of a rank.
#[derive(Clone, Copy)]
pub struct Turn {
    pub rank: u8,
    pub by: Move,
}

/// A rank makes a move.
pub fn make(rank: &mut Rank, by: Move) -> Result<(), Memory>
    ensures { OnOk result (rank.new ≡ moved_at rank.old by) }
{
    match by {
        Move::Act(deed) => rank.act(deed),
        Move::Arrive(a) => rank.arrive(a),
        Move::Withdraw(message) => rank.withdraw(message.rank, message.n),
    }
}

/// A rank's state after a move.
pub fn made(rank: Rank, by: Move) -> Result<Rank, Memory>
    ensures { IfOk result (λ after. after ≡ moved_at rank by) }
{
    let mut after = rank;
    make(&mut after, by)?;
    Ok(after)
}

/// Adds a deed, if there is one.
fn push_deed(turns: &mut Vec<Turn>, rank: u8, deed: Option<Deed>) -> Result<(), Memory>
    ensures kept { OnOk result (Extends turns.old.items turns.new.items) }
    ensures added { OnOk result (IfSome deed (λ d.
        Has turns.new.items (record { rank = rank; by = Move.Act d }))) }
    ensures only { OnOk result (turns.new.items ≡ turns.old.items
        ++ cons_option (option_map (λ d. record { rank = rank; by = Move.Act d }) deed) []) }
{
    if let Some(d) = deed {
        turns.push(Turn {
            rank,
            by: Move::Act(d),
        })?;
    }
    Ok(())
}

/// The answer of a command, as a deed.
fn replied(line: u64, reply: Option<Reply>) -> Option<Deed>
    ensures { result ≡ option_map (λ r. Deed.Ran line r) reply }
{
    match reply {
        Some(reply) => Some(Deed::Ran { line, reply }),
        None => None,
    }
}

/// The answer of a test that its request is not complete.
fn denied(lines: &[Line], i: u8, rank: &Rank, line: u64, command: &Command) -> Option<Deed>
    ensures { result ≡ no_in lines.now i rank.now line command.now }
{
    if may_say_no(lines, i, rank, command) {
        Some(Deed::Ran {
            line,
            reply: Reply::No,
        })
    } else {
        None
    }
}

/// Adds what the command of a line may do, and the answers that it may have.
fn push_command(
    view: View,
    i: u8,
    rank: &Rank,
    line: u64,
    command: &Command,
    turns: &mut Vec<Turn>,
) -> Result<(), Memory>
    ensures kept { OnOk result (Extends turns.old.items turns.new.items) }
    ensures added { OnOk result ((d : deed.Deed) → IsDeedOf view.entry.eager view.entry.lines.now
        (spot_in view.entry.table.now view.entry.ids.now) i rank.now line command.now d →
        Has turns.new.items (record { rank = i; by = Move.Act d })) }
    ensures only { sent_len command.now < 4294967296 → OnOk result (AddsOnly (λ t. (d : deed.Deed)
        × (record { rank = i; by = Move.Act d } ≡ t) × IsDeedOf view.entry.eager view.entry.lines.now
        (spot_in view.entry.table.now view.entry.ids.now) i rank.now line command.now d)
        turns.old.items turns.new.items) }
{
    push_deed(
        turns,
        i,
        begin(view.lines, view.eager, i, rank, line, command),
    )?;
    push_deed(
        turns,
        i,
        replied(line, answer(view, i, rank, line, command)),
    )?;
    push_deed(turns, i, denied(view.lines, i, rank, line, command))?;
    Ok(())
}

/// Adds what the next command of a rank may do, and the answers that it may have.
#[tactic(auto, using(nm_search::proofs::ListLemmas::only_all))]
pub fn push_deeds(view: View, i: u8, rank: &Rank, turns: &mut Vec<Turn>) -> Result<(), Memory>
    ensures kept { OnOk result (Extends turns.old.items turns.new.items) }
    ensures added { length view.entry.lines.now < 4294967293 → OnOk result ((d : deed.Deed) →
        IsAct view.entry.eager view.entry.lines.now
        (spot_in view.entry.table.now view.entry.ids.now) i rank.now d →
        Has turns.new.items (record { rank = i; by = Move.Act d })) }
    ensures only { length view.entry.lines.now < 4294967293 → AreSendsShort view.entry.lines.now →
        OnOk result (AddsOnly (λ t. (d : deed.Deed) × (record { rank = i; by = Move.Act d } ≡ t)
        × IsAct view.entry.eager view.entry.lines.now
        (spot_in view.entry.table.now view.entry.ids.now) i rank.now d)
        turns.old.items turns.new.items) }
{
    let Some(line) = line_at(view.lines, i, ran(rank.deeds())) else {
        return Ok(());
    };
    let Some(command) = command_of_line(view.lines, i, line) else {
        return Ok(());
    };
    push_command(view, i, rank, line, command, turns)?;
    Ok(())
}

/// Adds the arrival of a message, if there is one.
fn push_arrival(turns: &mut Vec<Turn>, rank: u8, next: Option<Arrival>) -> Result<(), Memory>
    ensures kept { OnOk result (Extends turns.old.items turns.new.items) }
    ensures added { OnOk result (IfSome next (λ a.
        Has turns.new.items (record { rank = rank; by = Move.Arrive a }))) }
    ensures only { OnOk result (turns.new.items ≡ turns.old.items
        ++ cons_option (option_map (λ a. record { rank = rank; by = Move.Arrive a }) next) []) }
{
    if let Some(a) = next {
        turns.push(Turn {
            rank,
            by: Move::Arrive(a),
        })?;
    }
    Ok(())
}

/// Adds the messages that may arrive at a rank.
#[tactic(auto, using(nm_search::proofs::ListLemmas::only_all))]
fn push_arrivals(view: View, i: u8, ranks: u8, turns: &mut Vec<Turn>) -> Result<(), Memory>
    ensures kept { OnOk result (Extends turns.old.items turns.new.items) }
    ensures added { OnOk result ((a : arrival.Arrival) →
        IsNextMessage ranks (spot_in view.entry.table.now view.entry.ids.now) i a →
        Has turns.new.items (record { rank = i; by = Move.Arrive a })) }
    ensures only { OnOk result (AddsOnly (λ t. (a : arrival.Arrival)
        × (record { rank = i; by = Move.Arrive a } ≡ t)
        × IsNextMessage ranks (spot_in view.entry.table.now view.entry.ids.now) i a)
        turns.old.items turns.new.items) }
{
    for from in 0..ranks {
        push_arrival(turns, i, next_message(view, i, from))?;
    }
    Ok(())
}

/// Adds the withdrawal of a message, if it may be withdrawn.
fn push_withdrawal(
    turns: &mut Vec<Turn>,
    rank: u8,
    message: Message,
    may: bool,
) -> Result<(), Memory>
    ensures kept { OnOk result (Extends turns.old.items turns.new.items) }
    ensures added { OnOk result (IsTrue may →
        Has turns.new.items (record { rank = rank; by = Move.Withdraw message })) }
    ensures only { OnOk result (turns.new.items ≡ turns.old.items ++ cons_option
        (if may then Some (record { rank = rank; by = Move.Withdraw message }) else None) []) }
{
    if may {
        turns.push(Turn {
            rank,
            by: Move::Withdraw(message),
        })?;
    }
    Ok(())
}

/// Adds the messages that may be withdrawn at a rank.
#[tactic(auto, using(nm_search::proofs::ListLemmas::only_all))]
fn push_withdrawals(view: View, i: u8, rank: &Rank, turns: &mut Vec<Turn>) -> Result<(), Memory>
    ensures kept { OnOk result (Extends turns.old.items turns.new.items) }
    ensures added { OnOk result ((m : message.Message) →
        IsRecalled (spot_in view.entry.table.now view.entry.ids.now) i rank.now m →
        Has turns.new.items (record { rank = i; by = Move.Withdraw m })) }
    ensures only { OnOk result (AddsOnly (λ t. (m : message.Message)
        × (record { rank = i; by = Move.Withdraw m } ≡ t)
        × IsRecalled (spot_in view.entry.table.now view.entry.ids.now) i rank.now m)
        turns.old.items turns.new.items) }
{
    for a in rank.came() {
        let may = may_withdraw(view, i, a.env.from, a.n);
        let message = Message {
            rank: a.env.from,
            n: a.n,
        };
        push_withdrawal(turns, i, message, may)?;
    }
    Ok(())
}

/// Adds the moves of a rank in this state.
fn push_moves(
    view: View,
    i: u8,
    rank: &Rank,
    ranks: u8,
    turns: &mut Vec<Turn>,
) -> Result<(), Memory>
    ensures kept { OnOk result (Extends turns.old.items turns.new.items) }
    ensures added { length view.entry.lines.now < 4294967293 → OnOk result ((by : the_move.Move) →
        IsChoiceOf view.entry.eager ranks view.entry.lines.now
        (spot_in view.entry.table.now view.entry.ids.now) i rank.now by →
        Has turns.new.items (record { rank = i; by = by })) }
    ensures only { length view.entry.lines.now < 4294967293 → AreSendsShort view.entry.lines.now →
        OnOk result (AddsOnly (IsTurnOf view.entry.eager ranks view.entry.lines.now
        (spot_in view.entry.table.now view.entry.ids.now) i rank.now)
        turns.old.items turns.new.items) }
{
    push_deeds(view, i, rank, turns)?;
    push_arrivals(view, i, ranks, turns)?;
    push_withdrawals(view, i, rank, turns)?;
    Ok(())
}

/// Adds the moves of a rank.
#[tactic(auto, using(nm_search::proofs::ListLemmas::only_all))]
pub fn push_rank(view: View, i: u8, ranks: u8, turns: &mut Vec<Turn>) -> Result<(), Memory>
    ensures kept { OnOk result (Extends turns.old.items turns.new.items) }
    ensures added { length view.entry.lines.now < 4294967293 →
        OnOk result (AreMovesOf view.entry.eager ranks view.entry.lines.now
        (spot_in view.entry.table.now view.entry.ids.now) i turns.new.items) }
    ensures only { length view.entry.lines.now < 4294967293 → AreSendsShort view.entry.lines.now →
        OnOk result (AddsOnly (IsTurn view.entry.eager ranks view.entry.lines.now
        (spot_in view.entry.table.now view.entry.ids.now)) turns.old.items turns.new.items) }
{
    if let Some(rank) = view.rank(i) {
        push_moves(view, i, rank, ranks, turns)?;
    }
    Ok(())
}

/// All moves of the ranks of a state.
pub fn turns(alloc: Global, view: View, ranks: u8) -> Result<Vec<Turn>, Memory>
    ensures all { length view.entry.lines.now < 4294967293 → IfOk result (λ turns. (i : ℕ) → i < ranks →
        AreMovesOf view.entry.eager ranks view.entry.lines.now
        (spot_in view.entry.table.now view.entry.ids.now) i turns.items) }
    ensures only { length view.entry.lines.now < 4294967293 → AreSendsShort view.entry.lines.now →
        IfOk result (λ turns. (t : the_turn.Turn) → Has turns.items t →
        IsTurn view.entry.eager ranks view.entry.lines.now
        (spot_in view.entry.table.now view.entry.ids.now) t) }
{
    let mut turns = Vec::new(alloc);
    for i in 0..ranks {
        push_rank(view, i, ranks, &mut turns)?;
    }
    Ok(turns)
}
