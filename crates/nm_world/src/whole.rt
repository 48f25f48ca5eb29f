//! A run of all ranks, to rest.

ghost use Rattle.nm_types.specs.declared.packets.Packet.{Packet};
ghost use Rattle.std.specs.Prelude.{◌≡◌, ◌↔◌, ◌⊎◌, ◌<◌, ◌*◌, ℕ, true, false, List, length, map, IfOk};
ghost use Rattle.std.specs.List.{All, AllZip};
ghost use Rattle.nm_types.specs.Commands.{Numbered};
ghost use Rattle.nm_types.specs.Limits.{IsScript};
ghost use Rattle.nm_channels.specs.Finished.{AreInRange};
ghost use Rattle.nm_report.specs.Cells.{AllCellsFree};
ghost use Rattle.nm_report.specs.Ends.{are_done, ends_of, packets_of};
ghost use Rattle.nm_cells.specs.declared.port.Fabric.{Fabric};
ghost use Rattle.nm_cells.specs.Ports.{knows};
ghost use Rattle.nm_copyring.specs.declared.port.Rings.{Rings};
ghost use Rattle.nm_copyring.specs.Ports as ring_port;
ghost use Rattle.nm_process.specs.Lines.{AreLines};
ghost use Rattle.nm_world.specs.Players.{AllPlayOn, AreGiven, BeginsAt, GoesOn, PlayerInvariant};
ghost use Rattle.nm_world.specs.Records.{HasStopped, ended_from, ends_by};
ghost use Rattle.nm_world.specs.Rest.{Each};
ghost use Rattle.nm_world.specs.Runs.{AllAgree, AreAtRest, AreRanked, InPlace};
ghost use Rattle.nm_world.specs.Runs.{IsStillAt, IsWhole, IsWholeBy, IsWholeOf, NewInOrder, PairAgrees, RowAgrees, SomeMoves};

use crate::by_rank::scripts_by_rank;
use crate::laws::{a_still_actor_ends, actors_at_rest_make_a_run};
use crate::records::{Parts, RankEnd, accounts_of, add, parts_of};
use crate::rounds::{crews_for, round_in};
use crate::{Actor, Player};
use nm_copyring::{RingAccount, RingPort, Rings};
use nm_crews::bells::Crews;
use nm_crews::blocks::ask_for_run;
use nm_history::History;
use nm_outside::Gate;
use nm_port::{Closed, Fabric, Port};
use nm_process::{Leavings, Source};
use nm_rank::journal::Recorder;
use nm_report::{Pairs, RunRecord};
use nm_types::{Account, Line, Memory, Packet, Script, Shape};
use std::alloc::Global;
use std::mem;
use std::sync::Wait;
use std::thread::Threads;

/// What the closed fabric and the closed rings keep.
pub struct Ways {
    pub cells: Closed<Packet>,
    pub rings: RingAccount,
}

impl Drop for Ways {
    fn drop(self) {
        let Ways { cells: _, rings: _ } = self;
    }
}

/// What is left of a run: what gave the commands, what became of each rank, the packets of each ordered pair
/// that had any, the account of the cells, whether every rank is at its end, what the closed ways keep, and what
/// the processes kept beside their histories.
#[derive(Drop)]
pub struct Rested<S, H> {
    pub sources: Vec<S>,
    pub ranks: Vec<RankEnd<H>>,
    pub pairs: Pairs,
    pub cells: Account,
    pub done: bool,
    pub ways: Ways,
    pub kept: Vec<Leavings>,
}

/// What is left of a run: what gave the commands, the record, what the closed ways keep, and what the processes
/// kept beside their histories.
#[derive(Drop)]
pub struct Left<S> {
    pub sources: Vec<S>,
    pub record: RunRecord,
    pub ways: Ways,
    pub kept: Vec<Leavings>,
}

// How many turns each player of a round makes at most.
const TURNS: u32 = 1000000;

// Whether no player can move.
fn are_still<S: Source, H: Recorder>(players: &[Player<S, H>]) -> bool
    ensures still { result ≡ true → Each (λ i x. IsStillAt S.shows S.gives x) players.now }
    ensures moves { result ≡ false → SomeMoves S.shows S.gives players.now }
{
    let mut all = true;
    for i in 0..players.len() {
        let moves = players[i].can_move();
        all = all & !moves;
    }
    all
}

// Whether what the actor of rank i sent to that of rank j was taken there.
fn pair_agrees<H: Recorder>(a: &Actor<H>, b: &Actor<H>, i: u8, j: u8) -> bool
    requires { (j < (knows a.now.port).ranks) × (i < (knows b.now.port).ranks)
        × (j < (ring_port.knows a.now.ring).ranks) × (i < (ring_port.knows b.now.ring).ranks) }
    ensures { (result ≡ true) ↔ PairAgrees i j a.now b.now }
{
    a.port.sent(j) == b.port.taken(i) && a.ring.pushed(j) == b.ring.pulled(i)
}

// Whether what the player of rank i sent to each was taken there.
fn row_agrees<S: Source, H: Recorder>(players: &[Player<S, H>], f: &Fabric<Packet>, i: u8) -> bool
    requires many { (length players.now ≡ f.now.ranks) × (i < f.now.ranks) }
    requires ranked { AreRanked f.now.ranks players.now }
    ensures { (result ≡ true) ↔ RowAgrees i players.now }
{
    let mut all = true;
    for j in 0..f.ranks() {
        let one = pair_agrees(&players[i as usize].actor, &players[j as usize].actor, i, j);
        all = all & one;
    }
    all
}

// Whether what each player sent to each was taken there.
fn all_agree<S: Source, H: Recorder>(players: &[Player<S, H>], f: &Fabric<Packet>) -> bool
    requires many { length players.now ≡ f.now.ranks }
    requires ranked { AreRanked f.now.ranks players.now }
    ensures { (result ≡ true) ↔ AllAgree players.now }
{
    let mut all = true;
    for i in 0..f.ranks() {
        let one = row_agrees(players, f, i);
        all = all & one;
    }
    all
}

/// Whether players of all ranks are at rest: none can move, and what each sent to each was taken there.
pub fn are_at_rest<S: Source, H: Recorder>(players: &[Player<S, H>], f: &Fabric<Packet>) -> bool
    requires many { length players.now ≡ f.now.ranks }
    requires ranked { AreRanked f.now.ranks players.now }
    ensures rest { result ≡ true → AreAtRest S.shows S.gives players.now }
    ensures moves { result ≡ false →
        SomeMoves S.shows S.gives players.now ⊎ (¬ AllAgree players.now) }
{
    let still = are_still(players);
    let agree = all_agree(players, f);
    still & agree
}

// Rounds until rest.
fn settle<R: Threads + Wait + Sync, S: Source + Send, H: Recorder + Send, G: Gate + Sync>(
    rt: &R,
    players: &mut [Player<S, H>],
    f: &Fabric<Packet>,
    r: &Rings,
    gate: &G,
) -> Result<(), Memory>
    requires stands { All (PlayerInvariant S.shows S.gives f.now r.now) players.old }
    requires many { length players.old ≡ f.now.ranks }
    ensures kept { IfOk result (λ _.
        AllPlayOn S.shows S.gives f.now r.now players.old players.new) }
    ensures rest { IfOk result (λ _. AreAtRest S.shows S.gives players.new) }
{
    let mut crews = Crews::new(crews_for(rt, players.len()));
    for _ in rt.forever() {
        round_in(rt, players, f, r, gate, TURNS, &mut crews)?;
        let rest = are_at_rest(players, f);
        if rest {
            return Ok(());
        }
    }
    unreachable!()
}

// The same of a list of players.
fn settle_all<R: Threads + Wait + Sync, S: Source + Send, H: Recorder + Send, G: Gate + Sync>(
    rt: &R,
    players: &mut Vec<Player<S, H>>,
    f: &Fabric<Packet>,
    r: &Rings,
    gate: &G,
) -> Result<(), Memory>
    requires stands { All (PlayerInvariant S.shows S.gives f.now r.now) players.old.items }
    requires many { length players.old.items ≡ f.now.ranks }
    ensures kept { IfOk result (λ _.
        AllPlayOn S.shows S.gives f.now r.now players.old.items players.new.items) }
    ensures rest { IfOk result (λ _. AreAtRest S.shows S.gives players.new.items) }
{
    settle(rt, players.as_mut_slice(), f, r, gate)?;
    Ok(())
}

// A player for each rank.
fn cast<S: Source, H: Recorder>(
    alloc: Global,
    shape: Shape,
    ports: Vec<Port<Packet>>,
    rings: Vec<RingPort>,
    sources: Vec<S>,
) -> Result<Vec<Player<S, H>>, Memory>
    requires ranks { All (λ p. p.rank < shape.ranks) ports.items }
    requires pairs { length rings.items ≡ length ports.items }
    requires owns { length sources.items ≡ length ports.items }
    requires begins { All (BeginsAt S.shows S.gives shape.ranks) sources.items }
    ensures place { IfOk result (λ v. (f : Fabric Packet) (r : Rings) →
        (f.ranks ≡ shape.ranks) × (r.ranks ≡ shape.ranks) →
        NewInOrder f r 0 ports.items rings.items →
        InPlace S.shows S.gives shape f r 0 v.items) }
    ensures many { IfOk result (λ v. length v.items ≡ length ports.items) }
    ensures sources { IfOk result (λ v. map (λ x. x.source) v.items ≡ sources.items) }
{
    let mut players = Vec::new(alloc);
    let mut rings = rings.into_iter();
    let mut sources = sources.into_iter();
    for port in ports {
        let Some(ring) = rings.next() else {
            unreachable!()
        };
        let Some(source) = sources.next() else {
            unreachable!()
        };
        let player = Player::new(alloc, shape, port, ring, source)?;
        add(&mut players, player)?;
    }
    Ok(players)
}

/// Closes what the players of all ranks share, once they are at rest, and tells what became of each rank.
///
/// Whatever commands the sources are left with, the histories are a lawful run of them, what went from rank to
/// rank is what they call for, all cells are home, and `done` tells whether no rank waits.
pub fn close_at_rest<S: Source, H: Recorder>(
    alloc: Global,
    shape: Shape,
    fabric: Fabric<Packet>,
    rings: Rings,
    players: Vec<Player<S, H>>,
) -> Result<Rested<S, H>, Memory>
    requires many { length players.items ≡ shape.ranks }
    requires sizes { (fabric.ranks ≡ shape.ranks) × (rings.ranks ≡ shape.ranks)
        × (fabric.each ≡ shape.cells) }
    requires place { InPlace S.shows S.gives shape fabric rings 0 players.items }
    requires rest { AreAtRest S.shows S.gives players.items }
    ensures run { IfOk result (λ x. (commands : ℕ → List Numbered) →
        AreInRange shape.ranks commands → AreGiven S.gives commands 0 x.sources.items →
        IsWholeOf shape commands (ends_by H.events x.ranks.items) (packets_of x.pairs) x.cells
        x.ways.cells x.ways.rings) }
    ensures sources { IfOk result (λ x. x.sources.items ≡ map (λ p. p.source) players.items) }
    ensures ends { IfOk result (λ x. (commands : ℕ → List Numbered) →
        AreGiven S.gives commands 0 x.sources.items →
        ends_by H.events x.ranks.items ≡ ended_from commands 0 players.items) }
    ensures stopped { IfOk result (λ x.
        AllZip (HasStopped S.shows S.gives) x.sources.items (ends_by H.events x.ranks.items)) }
    ensures all { IfOk result (λ x. x.cells.total ≡ shape.ranks * shape.cells) }
    ensures home { IfOk result (λ x. x.cells.home ≡ x.cells.total) }
    ensures account { IfOk result (λ x. x.cells ≡ x.ways.cells.cells) }
    ensures done { IfOk result (λ x. x.done ≡ are_done (ends_by H.events x.ranks.items)) }
{
    let parts = parts_of(alloc, players, shape.ranks())?;
    let Parts {
        ports,
        rings: ring_ports,
        sources,
        ranks,
        pairs,
        kept,
        done,
    } = parts;
    // no step: the laws of the end of a run
    a_still_actor_ends::<H>();
    actors_at_rest_make_a_run::<H>();
    let closed = fabric.close(ports);
    let rings = rings.close(ring_ports);
    let cells = closed.account();
    let ways = Ways {
        cells: closed,
        rings,
    };
    Ok(Rested {
        sources,
        ranks,
        pairs,
        cells,
        done,
        ways,
        kept,
    })
}

/// Runs what these sources give, one for each rank, in as many threads as there are processors where they
/// can be had, until it is at rest. What records the histories is a parameter: with `Erased` they exist in
/// proofs alone, and memory keeps the last event of each rank.
///
/// It calls `gate.turn(rank)` before each turn of a rank. Whatever commands the sources are left with, the
/// histories are a lawful run of them that is at rest, what went from rank to rank is what they call for, all
/// cells are home, and `done` tells whether no rank waits. Each source was told exactly the answers of its
/// rank's history, if it is told any, and its next command is that in which its rank waits.
pub fn run_to_rest<R: Threads + Wait + Sync, S: Source + Send, H: Recorder + Send, G: Gate + Sync>(
    rt: &R,
    alloc: Global,
    shape: Shape,
    sources: Vec<S>,
    gate: &G,
) -> Result<Rested<S, H>, Memory>
    requires many { length sources.items ≡ shape.ranks }
    requires begins { All (BeginsAt S.shows S.gives shape.ranks) sources.items }
    ensures run { IfOk result (λ x. (commands : ℕ → List Numbered) →
        AreInRange shape.ranks commands → AreGiven S.gives commands 0 x.sources.items →
        IsWholeOf shape commands (ends_by H.events x.ranks.items) (packets_of x.pairs) x.cells
        x.ways.cells x.ways.rings) }
    ensures goes_on { IfOk result (λ x.
        AllZip (GoesOn S.shows S.gives) sources.items x.sources.items) }
    ensures stopped { IfOk result (λ x.
        AllZip (HasStopped S.shows S.gives) x.sources.items (ends_by H.events x.ranks.items)) }
    ensures all { IfOk result (λ x. x.cells.total ≡ shape.ranks * shape.cells) }
    ensures home { IfOk result (λ x. x.cells.home ≡ x.cells.total) }
    ensures account { IfOk result (λ x. x.cells ≡ x.ways.cells.cells) }
    ensures done { IfOk result (λ x. x.done ≡ are_done (ends_by H.events x.ranks.items)) }
{
    let (fabric, ports) = Fabric::<Packet>::build(alloc, shape)?;
    let (rings, ring_ports) = Rings::build(alloc, shape)?;
    let mut players = cast::<S, H>(alloc, shape, ports, ring_ports, sources)?;
    settle_all(rt, &mut players, &fabric, &rings, gate)?;
    let rested = close_at_rest(alloc, shape, fabric, rings, players)?;
    Ok(rested)
}

/// Runs what these sources give, one for each rank, in as many threads as there are processors where they
/// can be had, until it is at rest, with their histories in memory.
///
/// It calls `gate.turn(rank)` before each turn of a rank. Whatever commands the sources are left with, the
/// record tells a lawful run of them that is at rest, what went from rank to rank is what its histories
/// call for, all cells are home, and `done` tells whether no rank waits. Each source was told exactly the
/// answers of its rank's history, if it is told any, and its next command is that in which its rank waits.
pub fn run_sources<R: Threads + Wait + Sync, S: Source + Send, G: Gate + Sync>(
    rt: &R,
    alloc: Global,
    shape: Shape,
    sources: Vec<S>,
    gate: &G,
) -> Result<Left<S>, Memory>
    requires many { length sources.items ≡ shape.ranks }
    requires begins { All (BeginsAt S.shows S.gives shape.ranks) sources.items }
    ensures shaped { IfOk result (λ x. x.record.shape ≡ shape) }
    ensures run { IfOk result (λ x. (commands : ℕ → List Numbered) →
        AreInRange shape.ranks commands → AreGiven S.gives commands 0 x.sources.items →
        IsWholeBy shape commands x.record x.ways.cells x.ways.rings) }
    ensures goes_on { IfOk result (λ x.
        AllZip (GoesOn S.shows S.gives) sources.items x.sources.items) }
    ensures stopped { IfOk result (λ x.
        AllZip (HasStopped S.shows S.gives) x.sources.items (ends_of x.record.ranks)) }
    ensures home { IfOk result (λ x. AllCellsFree x.record) }
    ensures account { IfOk result (λ x. x.record.cells ≡ x.ways.cells.cells) }
    ensures done { IfOk result (λ x. x.record.done ≡ are_done (ends_of x.record.ranks)) }
{
    let rested = run_to_rest::<R, S, History, G>(rt, alloc, shape, sources, gate)?;
    let Rested {
        sources,
        ranks,
        pairs,
        cells,
        done,
        ways,
        kept,
    } = rested;
    let ranks = accounts_of(alloc, ranks)?;
    let record = RunRecord {
        shape,
        ranks,
        pairs,
        cells,
        done,
    };
    Ok(Left {
        sources,
        record,
        ways,
        kept,
    })
}

// Runs lines.
fn run_lines<R: Threads + Wait + Sync, G: Gate + Sync>(
    rt: &R,
    alloc: Global,
    shape: Shape,
    lines: &[Line],
    gate: &G,
) -> Result<(RunRecord, Ways), Memory>
    requires script { IsScript shape.ranks lines.now }
    requires lines { AreLines shape.ranks lines.now }
    ensures shaped { IfOk result (λ x. x.0.shape ≡ shape) }
    ensures run { IfOk result (λ x. IsWhole shape lines.now x.0 x.1.cells x.1.rings) }
    ensures home { IfOk result (λ x. AllCellsFree x.0) }
    ensures account { IfOk result (λ x. x.0.cells ≡ x.1.cells.cells) }
    ensures done { IfOk result (λ x. x.0.done ≡ are_done (ends_of x.0.ranks)) }
{
    ask_for_run(alloc);
    let scripts = scripts_by_rank(alloc, shape.ranks(), lines)?;
    let left = run_sources(rt, alloc, shape, scripts, gate)?;
    let Left {
        sources: _,
        record,
        ways,
        kept,
    } = left;
    // it goes with the process, and not table by table
    mem::forget(kept);
    Ok((record, ways))
}

/// Runs a script, in as many threads as there are processors where they can be had, until it is at rest. It is for
/// a program that ends soon: what the processes kept beside their histories stays in memory.
///
/// It calls `gate.turn(rank)` before each turn of a rank. The record tells a lawful run that is at
/// rest, what went from rank to rank is what its histories call for, all cells are home, and `done`
/// tells whether no rank waits.
pub fn run<R: Threads + Wait + Sync, G: Gate + Sync>(
    rt: &R,
    alloc: Global,
    script: &Script,
    shape: Shape,
    gate: &G,
) -> Result<(RunRecord, Ways), Memory>
    requires ranks { shape.ranks ≡ script.now.ranks }
    ensures shaped { IfOk result (λ x. x.0.shape ≡ shape) }
    ensures run { IfOk result (λ x. IsWhole shape script.now.lines x.0 x.1.cells x.1.rings) }
    ensures home { IfOk result (λ x. AllCellsFree x.0) }
    ensures account { IfOk result (λ x. x.0.cells ≡ x.1.cells.cells) }
    ensures done { IfOk result (λ x. x.0.done ≡ are_done (ends_of x.0.ranks)) }
{
    run_lines(rt, alloc, shape, script.lines.as_slice(), gate)
}
