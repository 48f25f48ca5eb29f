//! What there is to tell of players at rest.

ghost use Rattle.std.specs.Prelude.{◌≡◌, ◌<◌, ◌≤◌, [], ◌∷◌, ◌++◌, ◌+◌, ℕ, List, length, map, slice_get, IfOk, OnOk};
ghost use Rattle.std.specs.Prelude.{is_some, option_map};
ghost use Rattle.std.specs.List.{AllByRecursion, AllZip};
ghost use Rattle.nm_types.specs.Commands.{Numbered};
ghost use Rattle.nm_cells.specs.Ports.{knows};
ghost use Rattle.nm_history.specs.Recorded.{Recorded};
ghost use Rattle.nm_history.specs.Totals.{answers_given};
ghost use Rattle.nm_report.specs.Ends.{are_done, ends_of, packets_of};
ghost use Rattle.nm_world.specs.Players.{IsAtWork, WasTold};
ghost use Rattle.nm_world.specs.Records.{AreAtWork, AreKnown, HasHeard, HasStopped, counts_of, counts_to};
ghost use Rattle.nm_world.specs.Records.{end_by, ended_from, ended_of, ends_by};

use crate::{Actor, Player};
use nm_copyring::RingPort;
use nm_history::History;
use nm_port::Port;
use nm_process::{Leavings, Process, Source};
use nm_rank::journal::Recorder;
use nm_report::{Accounts, PairCount, Pairs, RankAccount};
use nm_types::{Memory, Packet};
use std::alloc::Global;

/// What became of a rank.
#[derive(Drop)]
pub struct RankEnd<H> {
    /// What recorded its events.
    pub history: H,
    /// How many of its commands ran.
    pub at: u64,
    /// The line of the command that can't go on. There is none where all of its commands ran.
    pub waits: Option<u64>,
}

/// The ports of the players of a run, what gave them their commands, what there is to tell of them, and what
/// their processes kept beside that.
#[derive(Drop)]
pub(crate) struct Parts<S, H> {
    pub ports: Vec<Port<Packet>>,
    pub rings: Vec<RingPort>,
    pub sources: Vec<S>,
    pub ranks: Vec<RankEnd<H>>,
    pub pairs: Pairs,
    pub kept: Vec<Leavings>,
    pub done: bool,
}

// The line of the next command, if there is one.
fn next_line<S: Source>(source: &S) -> Option<u64>
    ensures some { is_some result ≡ is_some (S.shows source.now).next }
    ensures line { (commands : List Numbered) (last : ℕ) → S.gives source.now commands last →
        result ≡ option_map (λ c. c.line) (slice_get commands (S.shows source.now).at) }
{
    match source.next() {
        Some((line, _)) => Some(line),
        None => None,
    }
}

// What became of a rank, and what its process kept beside that.
fn account<S: Source, H: Recorder>(process: Process<H>, source: &S) -> (RankEnd<H>, Leavings)
    ensures ended { (commands : List Numbered) (last : ℕ) → S.gives source.now commands last →
        (S.shows source.now).at ≡ process.at →
        ends_by H.events (result.0 ∷ []) ≡ ended_of commands process ∷ [] }
    ensures stopped { (S.shows source.now).at ≡ process.at →
        WasTold (S.shows source.now) (answers_given process.rank.events) →
        HasStopped S.shows S.gives source.now (end_by H.events result.0) }
{
    let at = process.at();
    let waits = next_line(source);
    let (history, left) = process.into_parts();
    let account = RankEnd { history, at, waits };
    (account, left)
}

// The packets that a port sent to each of so many ranks, where there are some.
fn push_counts(pairs: &mut Pairs, ranks: u8, port: &Port<Packet>) -> Result<(), Memory>
    requires { ranks ≤ (knows port.now).ranks }
    ensures { OnOk result (packets_of pairs.new
        ≡ packets_of pairs.old ++ counts_to ranks port.now) }
{
    let from = port.rank();
    for to in 0..ranks {
        let packets = port.sent(to);
        if packets > 0 {
            pairs.push(PairCount { from, to, packets })?;
        }
    }
    Ok(())
}

// Puts one more at the end.
pub(crate) fn add<T: Drop>(list: &mut Vec<T>, x: T) -> Result<(), Memory>
    ensures { IfOk result (λ _. list.new.items ≡ list.old.items ++ x ∷ []) }
{
    match list.push(x) {
        Ok(()) => Ok(()),
        Err(_) => Err(Memory),
    }
}

// The parts of one player more. Its process goes first, so that a way out has little to let go.
fn tell<S: Source, H: Recorder>(
    parts: &mut Parts<S, H>,
    player: Player<S, H>,
    ranks: u8,
) -> Result<(), Memory>
    requires known { ranks ≤ (knows player.actor.port).ranks }
    requires heard { HasHeard S.shows player }
    ensures ports { OnOk result
        (parts.new.ports.items ≡ parts.old.ports.items ++ player.actor.port ∷ []) }
    ensures rings { OnOk result
        (parts.new.rings.items ≡ parts.old.rings.items ++ player.actor.ring ∷ []) }
    ensures sources { OnOk result
        (parts.new.sources.items ≡ parts.old.sources.items ++ player.source ∷ []) }
    ensures many { OnOk result (length parts.new.ranks.items ≡ length parts.old.ranks.items + 1) }
    ensures ends { OnOk result ((commands : List Numbered) →
        IsAtWork S.shows S.gives player commands →
        ends_by H.events parts.new.ranks.items
        ≡ ends_by H.events parts.old.ranks.items ++ ended_of commands player.actor.process ∷ []) }
    ensures stopped { OnOk result (
        AllZip (HasStopped S.shows S.gives) parts.old.sources.items (ends_by H.events parts.old.ranks.items) →
        AllZip (HasStopped S.shows S.gives) parts.new.sources.items (ends_by H.events parts.new.ranks.items)) }
    ensures packets { OnOk result (packets_of parts.new.pairs
        ≡ packets_of parts.old.pairs ++ counts_to ranks player.actor.port) }
    ensures done { OnOk result (parts.old.done ≡ are_done (ends_by H.events parts.old.ranks.items) →
        parts.new.done ≡ are_done (ends_by H.events parts.new.ranks.items)) }
{
    push_counts(&mut parts.pairs, ranks, &player.actor.port)?;
    let Player { actor, source } = player;
    let Actor {
        process,
        port,
        ring,
        places: _,
    } = actor;
    let (account, left) = account(process, &source);
    parts.done = parts.done & account.waits.is_none();
    add(&mut parts.kept, left)?;
    add(&mut parts.ports, port)?;
    add(&mut parts.rings, ring)?;
    add(&mut parts.sources, source)?;
    add(&mut parts.ranks, account)?;
    Ok(())
}

/// The parts of players.
pub(crate) fn parts_of<S: Source, H: Recorder>(
    alloc: Global,
    players: Vec<Player<S, H>>,
    ranks: u8,
) -> Result<Parts<S, H>, Memory>
    requires known { AreKnown ranks players.items }
    requires heard { AllByRecursion (HasHeard S.shows) players.items }
    ensures ports { IfOk result (λ x. x.ports.items ≡ map (λ p. p.actor.port) players.items) }
    ensures rings { IfOk result (λ x. x.rings.items ≡ map (λ p. p.actor.ring) players.items) }
    ensures sources { IfOk result (λ x. x.sources.items ≡ map (λ p. p.source) players.items) }
    ensures ends { IfOk result (λ x. (commands : ℕ → List Numbered) →
        AreAtWork S.shows S.gives commands 0 players.items →
        ends_by H.events x.ranks.items ≡ ended_from commands 0 players.items) }
    ensures stopped { IfOk result (λ x.
        AllZip (HasStopped S.shows S.gives) x.sources.items (ends_by H.events x.ranks.items)) }
    ensures packets { IfOk result (λ x. packets_of x.pairs ≡ counts_of ranks players.items) }
    ensures done { IfOk result (λ x. x.done ≡ are_done (ends_by H.events x.ranks.items)) }
{
    let mut parts = Parts {
        ports: Vec::new(alloc),
        rings: Vec::new(alloc),
        sources: Vec::new(alloc),
        ranks: Vec::new(alloc),
        pairs: Pairs::new(alloc),
        kept: Vec::new(alloc),
        done: true,
    };
    for player in players {
        tell(&mut parts, player, ranks)?;
    }
    Ok(parts)
}

/// The accounts of ranks whose histories are in memory.
pub(crate) fn accounts_of(alloc: Global, ends: Vec<RankEnd<History>>) -> Result<Accounts, Memory>
    ensures { IfOk result (λ ranks. ends_of ranks ≡ ends_by (λ (h : Recorded). h.events) ends.items) }
{
    let mut ranks = Accounts::new(alloc);
    for end in ends {
        let RankEnd { history, at, waits } = end;
        ranks.push(RankAccount { history, at, waits })?;
    }
    Ok(ranks)
}
