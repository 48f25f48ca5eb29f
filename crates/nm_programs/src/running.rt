//! A run of programs.

ghost use Rattle.std.specs.Prelude.{◌≡◌, ◌*◌, ◌<◌, ◌≤◌, [], ◌∷◌, ◌++◌, ℕ, IfErr, IfOk, List, length};
ghost use Rattle.std.specs.List.{All, AllZip};
ghost use Rattle.nm_process.specs.Playing.{gives_on, shown_by};
ghost use Rattle.nm_programs.specs.HasRun.{HasRun, HasRunTo, HasRunUnrecorded, IsStopped};
ghost use Rattle.nm_programs.specs.Turns.{BeginsWith, IsLeft, IsStray};
ghost use Rattle.nm_report.specs.Cells.{AllCellsFree};
ghost use Rattle.nm_report.specs.Ends.{are_done, ends_of, packets_of};
ghost use Rattle.nm_world.specs.Players.{BeginsAt};
ghost use Rattle.nm_world.specs.Records.{ends_by};

use crate::given::{Given, Played};
use crate::programs::Program;
use crate::stops::Stop;
use nm_outside::Gate;
use nm_rank::journal::{Erased, Recorder};
use nm_report::{Pairs, RunRecord};
use nm_types::{Account, Command, Memory, Shape};
use nm_world::{Left, RankEnd, Rested, Ways, run_sources, run_to_rest};
use std::alloc::Global;
use std::sync::Wait;
use std::thread::Threads;

/// A program at the end of a run.
#[derive(Drop)]
pub struct Finished<P> {
    /// The program as it was left.
    pub program: P,
    /// The command in which its rank waits for good. There is none where the program is at its end.
    pub waits: Option<Command>,
}

/// What became of a run of programs.
#[derive(Drop)]
pub struct Outcome<P> {
    /// What became of each program, by rank.
    pub ranks: Vec<Finished<P>>,
    /// What happened at each rank. Its k-th command, from 0, has line k + 2.
    pub record: RunRecord,
    /// What the closed ways between ranks keep.
    pub ways: Ways,
}

/// What became of a run of programs whose histories a recorder keeps.
#[derive(Drop)]
pub struct Kept<P, H> {
    /// What became of each program, by rank.
    pub ranks: Vec<Finished<P>>,
    /// What the recorders keep of each rank, by rank. Its k-th command, from 0, has line k + 2.
    pub ends: Vec<RankEnd<H>>,
    /// The packets of each ordered pair that had any.
    pub pairs: Pairs,
    /// The account of the cells.
    pub cells: Account,
    /// Whether every program is at its end.
    pub done: bool,
    /// What the closed ways between ranks keep.
    pub ways: Ways,
}

/// What became of a run of programs of which no history is kept.
#[derive(Drop)]
pub struct Unrecorded<P> {
    /// What became of each program, by rank.
    pub ranks: Vec<Finished<P>>,
    /// Whether every program is at its end.
    pub done: bool,
    /// The account of the cells.
    pub cells: Account,
    /// What the closed ways between ranks keep.
    pub ways: Ways,
}

// Puts one more at the end.
fn add<T: Drop>(list: &mut Vec<T>, x: T) -> Result<(), Memory>
    ensures { IfOk result (λ _. list.new.items ≡ list.old.items ++ x ∷ []) }
{
    match list.push(x) {
        Ok(()) => Ok(()),
        Err(_) => Err(Memory),
    }
}

// What gives the commands of each rank: its program, which gave its first one.
fn begin<P: Program>(alloc: Global, ranks: u8, programs: Vec<P>) -> Result<Vec<Given<P>>, Memory>
    ensures begins { IfOk result (λ v. AllZip (BeginsWith ranks) programs.items v.items) }
{
    let mut sources = Vec::new(alloc);
    for program in programs {
        let source = Given::new(program, ranks)?;
        add(&mut sources, source)?;
    }
    Ok(sources)
}

// What became of these programs, of which none gave a command that never ran.
fn finish<P: Program>(alloc: Global, sources: Vec<Given<P>>) -> Result<Vec<Finished<P>>, Stop>
    requires few { length sources.items < 256 }
    ensures left { IfOk result (λ v. AllZip (IsLeft P.says) sources.items v.items) }
    ensures stray { IfErr result (IsStray P.says sources.items) }
{
    let mut ranks = Vec::new(alloc);
    for source in sources {
        let rank = ranks.len() as u8;
        let Played {
            program,
            next,
            stray,
        } = source.into_parts();
        if let Some(command) = stray {
            return Err(Stop::Range { rank, command });
        }
        let finished = Finished {
            program,
            waits: next,
        };
        add(&mut ranks, finished)?;
    }
    Ok(ranks)
}

/// Runs these programs, one for each rank of the shape, in as many threads as there are processors where they
/// can be had, until all are at rest. MPI 3.1, 2.7: each process executes its own code.
///
/// It calls `gate.turn(rank)` before each turn of a rank. Each program was told exactly the answers of its
/// rank's history and gave exactly its commands, and the record tells a lawful run of these that is at rest,
/// whatever the threads did. All cells are home. `record.done` tells whether each program is at its end; where
/// one is not, `waits` has the command that can't go on.
pub fn run_programs<R: Threads + Wait + Sync, P: Program + Send, G: Gate + Sync>(
    rt: &R,
    alloc: Global,
    shape: Shape,
    programs: Vec<P>,
    gate: &G,
) -> Result<Outcome<P>, Stop>
    requires many { length programs.items ≡ shape.ranks }
    ensures shaped { IfOk result (λ x. x.record.shape ≡ shape) }
    ensures run { IfOk result (λ x.
        HasRun P.says shape programs.items x.ranks.items x.record x.ways.cells x.ways.rings) }
    ensures home { IfOk result (λ x. AllCellsFree x.record) }
    ensures done { IfOk result (λ x. x.record.done ≡ are_done (ends_of x.record.ranks)) }
    ensures stopped { IfErr result (IsStopped P.says shape.ranks programs.items) }
{
    let begun = begin(alloc, shape.ranks(), programs)?;
    let left = run_sources(rt, alloc, shape, begun, gate)?;
    let Left {
        sources,
        record,
        ways,
        kept: _,
    } = left;
    let finished = finish(alloc, sources)?;
    Ok(Outcome {
        ranks: finished,
        record,
        ways,
    })
}

/// The same with any recorder: with that of `nm_recent` memory keeps the last events of each rank, and the histories of
/// which the run is one exist in proofs alone.
pub fn run_kept<R: Threads + Wait + Sync, P: Program + Send, H: Recorder + Send, G: Gate + Sync>(
    rt: &R,
    alloc: Global,
    shape: Shape,
    programs: Vec<P>,
    gate: &G,
) -> Result<Kept<P, H>, Stop>
    requires many { length programs.items ≡ shape.ranks }
    ensures run { IfOk result (λ x. HasRunTo P.says shape programs.items x.ranks.items (ends_by H.events x.ends.items)
        (packets_of x.pairs) x.cells x.ways.cells x.ways.rings) }
    ensures all { IfOk result (λ x. x.cells.total ≡ shape.ranks * shape.cells) }
    ensures home { IfOk result (λ x. x.cells.home ≡ x.cells.total) }
    ensures done { IfOk result (λ x. x.done ≡ are_done (ends_by H.events x.ends.items)) }
    ensures stopped { IfErr result (IsStopped P.says shape.ranks programs.items) }
{
    let begun = begin(alloc, shape.ranks(), programs)?;
    let left = run_to_rest::<R, Given<P>, H, G>(rt, alloc, shape, begun, gate)?;
    let Rested {
        sources,
        ranks: ends,
        pairs,
        cells,
        done,
        ways,
        kept: _,
    } = left;
    let ranks = finish(alloc, sources)?;
    Ok(Kept {
        ranks,
        ends,
        pairs,
        cells,
        done,
        ways,
    })
}

/// The same of programs that run long: their histories exist in proofs alone, and memory keeps the last event of
/// each rank.
pub fn run_unrecorded<R: Threads + Wait + Sync, P: Program + Send, G: Gate + Sync>(
    rt: &R,
    alloc: Global,
    shape: Shape,
    programs: Vec<P>,
    gate: &G,
) -> Result<Unrecorded<P>, Stop>
    requires many { length programs.items ≡ shape.ranks }
    ensures run { IfOk result (λ x.
        HasRunUnrecorded P.says shape programs.items x.ranks.items x.done x.cells x.ways.cells x.ways.rings) }
    ensures all { IfOk result (λ x. x.cells.total ≡ shape.ranks * shape.cells) }
    ensures home { IfOk result (λ x. x.cells.home ≡ x.cells.total) }
    ensures stopped { IfErr result (IsStopped P.says shape.ranks programs.items) }
{
    let kept = run_kept::<R, P, Erased, G>(rt, alloc, shape, programs, gate)?;
    let Kept {
        ranks,
        ends: _,
        pairs: _,
        cells,
        done,
        ways,
    } = kept;
    Ok(Unrecorded {
        ranks,
        done,
        cells,
        ways,
    })
}
