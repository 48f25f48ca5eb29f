//! Turns of many players at once.

ghost use Rattle.std.specs.Prelude.{◌≡◌, ◌<◌, ◌↔◌, length, true, false, IfOk};
ghost use Rattle.std.specs.List.{All};
ghost use Rattle.nm_rank.specs.Ranks.{IsFresh};
ghost use Rattle.nm_world.specs.Actors.{did};
ghost use Rattle.nm_world.specs.Idle.{AllRest, Rests};
ghost use Rattle.nm_world.specs.Players.{AllPlayOn, PlayerInvariant, PlaysOn, SomeGrew, did_any};
ghost use Rattle.nm_world.specs.Sweeps.{HasSwept, Swept};

use crate::Player;
use nm_chain::seats::Steps;
use nm_copyring::Rings;
use nm_crews::bells::{Bells, Crews, Ranked, Rung, place_of};
use nm_crews::blocks::ask_for_crew;
use nm_crews::{Work, turns_by};
use nm_outside::Gate;
use nm_port::Fabric;
use nm_process::Source;
use nm_rank::journal::Recorder;
use nm_types::{Memory, Packet};
use std::marker::Brand;
use std::sync::Wait;
use std::sync::ledger::{Blank, Ledger};
use std::thread::{Threads, available_parallelism};

// How often a player with nothing to do polls before its turn.
const POLLS: u32 = 16;

// A crew that waits takes what was rung in one of so many turns.
const AWAITED: u32 = 64;

// And one with a stream of packets.
const STREAMED: u32 = 256;

// How a crew meets what is rung for it.
#[derive(Clone, Copy)]
enum Pace {
    // it has one player, with few calls under way, so that each packet is awaited
    Waits,
    // it has one player, with many calls under way: one ring brings what many of them wait for
    Streams,
    // it has several players
    Shares,
}

// A turn of a player, if its place is due or all make one: first so many polls, where it has nothing else to
// do. It answers whether that moved anything, and which places of its crew are due then.
fn visit<S: Source, H: Recorder, G: Gate, L: Ledger>(
    player: &mut Player<S, H>,
    all: bool,
    due: u64,
    f: &Fabric<Packet>,
    r: &Rings,
    gate: &G,
    bells: &Bells,
    polls: u32,
    steps: &mut Steps<L>,
) -> Result<(bool, u64), Memory>
    requires stands { PlayerInvariant S.shows S.gives f.now r.now player.old }
    ensures kept { IfOk result (λ _. PlaysOn S.shows S.gives f.now r.now player.old player.new) }
    ensures moved { IfOk result (λ x. x.0 ≡ did f.now.ranks player.old.actor player.new.actor) }
    ensures still { IfOk result (λ x. x.0 ≡ false → IsFresh player.old.actor.process.rank →
        player.new.actor.process ≡ player.old.actor.process) }
    ensures idle { IfOk result (λ x. x.0 ≡ false → all ≡ true →
        IsFresh player.old.actor.process.rank → Rests S.gives player.old player.new) }
{
    let place = place_of(player.actor.port.rank());
    if !all && due & place == 0 {
        return Ok((false, 0));
    }
    gate.turn(player.actor.process.me());
    let moved = match player.reply_and_move(f, r, bells, polls, steps) {
        Ok(moved) => moved,
        Err(Memory) => {
            bells.end();
            return Err(Memory);
        }
    };
    let due = player.actor.places.take_due();
    if !moved {
        return Ok((false, due));
    }
    Ok((true, place | due))
}

// A turn of each player of a crew whose place is due, or of all, with a count of their word steps.
fn sweep_on<S: Source, H: Recorder, G: Gate, L: Ledger>(
    players: &mut [Player<S, H>],
    all: bool,
    due: u64,
    f: &Fabric<Packet>,
    r: &Rings,
    gate: &G,
    bells: &Bells,
    polls: u32,
    blank: Blank,
) -> Result<(bool, u64), Memory>
    requires stands { All (PlayerInvariant S.shows S.gives f.now r.now) players.old }
    requires name { (blank.name ≡ L.name) × (blank.parts ≡ L.parts) × (0 < L.parts) }
    ensures swept { IfOk result (λ x.
        Swept f.now.ranks S.shows S.gives f.now r.now all x.0 players.old players.new) }
{
    let mut steps = Steps::<L>::new(blank);
    let mut moved = false;
    let mut next = 0;
    for player in players.iter_mut() {
        let (one, then) = visit(player, all, due, f, r, gate, bells, polls, &mut steps)?;
        moved = moved | one;
        next = next | then;
    }
    Ok((moved, next))
}

// A turn of each player of a crew whose place is due, or of all. It answers whether that moved anything,
// and which places are due then.
fn sweep<S: Source, H: Recorder, G: Gate>(
    players: &mut [Player<S, H>],
    all: bool,
    due: u64,
    f: &Fabric<Packet>,
    r: &Rings,
    gate: &G,
    bells: &Bells,
    polls: u32,
) -> Result<(bool, u64), Memory>
    requires stands { All (PlayerInvariant S.shows S.gives f.now r.now) players.old }
    ensures swept { IfOk result (λ x.
        Swept f.now.ranks S.shows S.gives f.now r.now all x.0 players.old players.new) }
{
    sweep_on::<S, H, G, Brand>(players, all, due, f, r, gate, bells, polls, Blank::new(1))
}

// How these players meet what is rung.
fn pace_of<S: Source, H: Recorder>(players: &[Player<S, H>]) -> Pace {
    if players.len() != 1 {
        return Pace::Shares;
    }
    match players.first() {
        Some(one) if one.actor.places.is_stream() => Pace::Streams,
        Some(_) => Pace::Waits,
        None => Pace::Shares,
    }
}

// What becomes of what is rung for a crew that made so many turns.
fn rung_after(made: u32, pace: Pace) -> Rung {
    match pace {
        Pace::Waits if made % AWAITED != 0 => Rung::Kept,
        Pace::Streams if made % STREAMED != 0 => Rung::KeptAtWork,
        _ => Rung::Taken,
    }
}

// How often the player of a crew polls before its turn, with these places due: once after a turn that moved
// something, and else for a while.
fn polls_before(pace: Pace, due: u64) -> u32 {
    match pace {
        Pace::Waits if due == 0 => POLLS,
        Pace::Waits => 1,
        Pace::Streams | Pace::Shares => 0,
    }
}

// Turns of the players of a crew, of each at least one and at most so many, until no player of the round
// has anything to do.
fn turns_of<R: Wait, S: Source, H: Recorder, G: Gate>(
    rt: &R,
    players: &mut [Player<S, H>],
    f: &Fabric<Packet>,
    r: &Rings,
    gate: &G,
    turns: u32,
    bells: &Bells,
    crew: usize,
) -> Result<bool, Memory>
    requires stands { All (PlayerInvariant S.shows S.gives f.now r.now) players.old }
    ensures swept { IfOk result (λ moved.
        HasSwept f.now.ranks S.shows S.gives f.now r.now moved players.old players.new) }
{
    bells.begin();
    if let Some(one) = players.first() {
        ask_for_crew(one.actor.places.allocator());
    }
    let (mut moved, mut next) = sweep(players, true, 0, f, r, gate, bells, 0)?;
    for made in 1..turns {
        let pace = pace_of(players);
        let Some(due) = bells.next(rt, crew, next, rung_after(made, pace)) else {
            return Ok(moved);
        };
        let polls = polls_before(pace, next);
        let (one, then) = sweep(players, false, due, f, r, gate, bells, polls)?;
        moved = moved | one;
        next = then;
    }
    bells.leave();
    Ok(moved)
}

impl<S: Source, H: Recorder> Ranked for Player<S, H> {
    fn rank(&self) -> u8 {
        self.actor.port.rank()
    }
}

// What the crews of a round share.
#[derive(Drop)]
struct Turns<'a, R, G> {
    rt: &'a R,
    fabric: &'a Fabric<Packet>,
    rings: &'a Rings,
    gate: &'a G,
    // how many turns a player makes at most
    turns: u32,
    bells: &'a Bells,
}

impl<'a, R: Wait, S: Source, H: Recorder, G: Gate> Work<Player<S, H>> for Turns<'a, R, G> {
    ghost stands = { λ w x. PlayerInvariant S.shows S.gives w.fabric.now w.rings.now x };

    ghost told = { λ w some old new.
        HasSwept w.fabric.now.ranks S.shows S.gives w.fabric.now w.rings.now some old new };

    fn count(&self, first: usize, crews: usize) -> usize {
        self.bells.items_of(first, crews)
    }

    fn turns(&self, crew: usize, players: &mut [Player<S, H>]) -> Result<bool, Memory> {
        turns_of(
            self.rt,
            players,
            self.fabric,
            self.rings,
            self.gate,
            self.turns,
            self.bells,
            crew,
        )
    }
}

// In how many threads the turns of so many players are made: as many as there are processors, at least
// two, and at most one for each player.
pub(crate) fn crews_for<R: Threads>(rt: &R, players: usize) -> usize {
    match available_parallelism(rt) {
        Ok(count) => count.get().max(2).min(players),
        Err(_) => players.min(2),
    }
}

/// Turns of all the players, in as many threads as there are processors where they can be made, until
/// none of them has anything to do. Each makes at least one turn and at most so many, which no clause
/// counts. It answers whether anything grew of any player; where nothing did, each player's turn moved
/// nothing since nothing could, or its rank is worn.
pub fn round<R: Threads + Wait + Sync, S: Source + Send, H: Recorder + Send, G: Gate + Sync>(
    rt: &R,
    players: &mut [Player<S, H>],
    f: &Fabric<Packet>,
    r: &Rings,
    gate: &G,
    turns: u32,
) -> Result<bool, Memory>
    requires stands { All (PlayerInvariant S.shows S.gives f.now r.now) players.old }
    requires turns { 0 < turns }
    ensures kept { IfOk result (λ _. AllPlayOn S.shows S.gives f.now r.now players.old players.new) }
    ensures moved { IfOk result (λ moved. moved ≡ did_any f.now.ranks players.old players.new) }
    ensures grew { IfOk result (λ moved.
        (moved ≡ true) ↔ SomeGrew f.now.ranks players.old players.new) }
    ensures idle { IfOk result (λ moved. moved ≡ false →
        AllRest S.gives players.old players.new) }
{
    let mut crews = Crews::new(crews_for(rt, players.len()));
    round_in(rt, players, f, r, gate, turns, &mut crews)
}

/// The same in so many crews, and from then on in fewer where not all of their threads could be had, or
/// where other work has the processors.
pub(crate) fn round_in<
    R: Threads + Wait + Sync,
    S: Source + Send,
    H: Recorder + Send,
    G: Gate + Sync,
>(
    rt: &R,
    players: &mut [Player<S, H>],
    f: &Fabric<Packet>,
    r: &Rings,
    gate: &G,
    turns: u32,
    crews: &mut Crews,
) -> Result<bool, Memory>
    requires stands { All (PlayerInvariant S.shows S.gives f.now r.now) players.old }
    requires turns { 0 < turns }
    ensures kept { IfOk result (λ _. AllPlayOn S.shows S.gives f.now r.now players.old players.new) }
    ensures moved { IfOk result (λ moved. moved ≡ did_any f.now.ranks players.old players.new) }
    ensures idle { IfOk result (λ moved. moved ≡ false →
        AllRest S.gives players.old players.new) }
{
    let Some(one) = players.first() else {
        return Ok(false);
    };
    let count = crews.count();
    let turns = crews.turns(turns);
    let bells = Bells::new(one.actor.places.allocator(), players, count)?;
    let work = Turns {
        rt,
        fabric: f,
        rings: r,
        gate,
        turns,
        bells: &bells,
    };
    let moved = turns_by(rt, &work, 0, count, players)?;
    crews.learn(&bells);
    Ok(moved)
}
