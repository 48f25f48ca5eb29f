//! Runs of programs whose calls are noted.

ghost use Rattle.std.specs.Prelude.{◌≡◌, ◌++◌, ◌∷◌, [], IfErr, IfOk, OnOk, length, map};
ghost use Rattle.std.specs.List.{AllZip};
ghost use Rattle.nm_programs.specs.HasRun.{IsStopped};
ghost use Rattle.nm_transcript.specs.Transcripts.{IsRecordOf};
ghost use Rattle.nm_noted.specs.Noted.{HasRunNoted, IsFresh, IsParted, bare, noted_calls};
ghost use Rattle.nm_noted.specs.Recent.{HasRunRecent};

use crate::accounts::accounts_of;
use crate::keepers::Keeper;
use crate::noted::Noted;
use nm_outside::Gate;
use nm_programs::{Finished, Kept, Outcome, Program, Stop, run_kept, run_programs};
use nm_recent::Recent;
use nm_report::RunRecord;
use nm_transcript::{Calls, LastCalls};
use nm_types::{Memory, Shape};
use nm_world::Ways;
use std::alloc::Global;
use std::sync::Wait;
use std::thread::Threads;

/// What became of a run of programs whose calls are noted: all of them, or the last ones.
#[derive(Drop)]
pub struct NotedRun<P, C = Calls> {
    /// What became of each program, by rank.
    pub ranks: Vec<Finished<P>>,
    /// The calls of each rank, in order.
    pub calls: Vec<C>,
    /// What happened at each rank. Its k-th call, from 0, has line k + 2.
    pub record: RunRecord,
    /// What the closed ways between ranks keep.
    pub ways: Ways,
}

// The calls of the ranks apart from the programs.
#[derive(Drop)]
struct Parted<P, C> {
    ranks: Vec<Finished<P>>,
    calls: Vec<C>,
}

// Puts one more at the end.
fn add<T: Drop>(list: &mut Vec<T>, x: T) -> Result<(), Memory>
    ensures { IfOk result (λ _. list.new.items ≡ list.old.items ++ x ∷ []) }
{
    match list.push(x) {
        Ok(()) => Ok(()),
        Err(_) => Err(Memory),
    }
}

// These programs, of which no call is noted.
fn begin<P: Program, C: Keeper>(alloc: Global, programs: Vec<P>) -> Result<Vec<Noted<P, C>>, Memory>
    ensures { IfOk result (λ v. AllZip (IsFresh C.calls) programs.items v.items) }
{
    let mut all = Vec::new(alloc);
    for program in programs {
        let noted = Noted::<P, C>::new(alloc, program);
        add(&mut all, noted)?;
    }
    Ok(all)
}

// Puts the program and its calls behind the others.
fn put<P: Program, C: Keeper>(
    parted: &mut Parted<P, C>,
    finished: Finished<Noted<P, C>>,
) -> Result<(), Memory>
    ensures { OnOk result (IsParted parted.old finished parted.new) }
{
    let Finished { program, waits } = finished;
    let (program, calls) = program.into_parts();
    add(&mut parted.ranks, Finished { program, waits })?;
    add(&mut parted.calls, calls)
}

// Parts the calls from the programs.
fn part<P: Program, C: Keeper>(
    alloc: Global,
    noted: Vec<Finished<Noted<P, C>>>,
) -> Result<Parted<P, C>, Memory>
    ensures ranks { IfOk result (λ x. x.ranks.items ≡ map bare noted.items) }
    ensures calls { IfOk result (λ x. x.calls.items ≡ noted_calls noted.items) }
{
    let mut parted = Parted {
        ranks: Vec::new(alloc),
        calls: Vec::new(alloc),
    };
    for finished in noted {
        put(&mut parted, finished)?;
    }
    Ok(parted)
}

/// Runs these programs as `run_programs` does, and notes the calls of each. With them the record can be written as a
/// script and its trace (`nm_transcript::transcribe`).
pub fn run_noted<R: Threads + Wait + Sync, P: Program + Send, G: Gate + Sync>(
    rt: &R,
    alloc: Global,
    shape: Shape,
    programs: Vec<P>,
    gate: &G,
) -> Result<NotedRun<P>, Stop>
    requires many { length programs.items ≡ shape.ranks }
    ensures shaped { IfOk result (λ x. x.record.shape ≡ shape) }
    ensures run { IfOk result (λ x. HasRunNoted P.says shape programs.items x.ranks.items x.calls.items x.record
        x.ways.cells x.ways.rings) }
    ensures told { IfOk result (λ x. IsRecordOf x.calls.items x.record) }
    ensures stopped { IfErr result (IsStopped P.says shape.ranks programs.items) }
{
    let noted = begin::<P, Calls>(alloc, programs)?;
    let outcome = run_programs(rt, alloc, shape, noted, gate)?;
    let Outcome {
        ranks,
        record,
        ways,
    } = outcome;
    let parted = part(alloc, ranks)?;
    let Parted { ranks, calls } = parted;
    Ok(NotedRun {
        ranks,
        calls,
        record,
        ways,
    })
}

/// Runs programs that run long: of the calls and the events of each rank memory keeps the last ones alone, and those
/// before them that were pending. With them the end of the run can be written as a script and a trace
/// (`nm_transcript::excerpt`).
pub fn run_recent<R: Threads + Wait + Sync, P: Program + Send, G: Gate + Sync>(
    rt: &R,
    alloc: Global,
    shape: Shape,
    programs: Vec<P>,
    gate: &G,
) -> Result<NotedRun<P, LastCalls>, Stop>
    requires many { length programs.items ≡ shape.ranks }
    ensures shaped { IfOk result (λ x. x.record.shape ≡ shape) }
    ensures run { IfOk result (λ x. HasRunRecent P.says shape programs.items x.ranks.items x.calls.items x.record
        x.ways.cells x.ways.rings) }
    ensures calls { IfOk result (λ x. length x.calls.items ≡ shape.ranks) }
    ensures ranks { IfOk result (λ x. length x.record.ranks ≡ shape.ranks) }
    ensures stopped { IfErr result (IsStopped P.says shape.ranks programs.items) }
{
    let noted = begin::<P, LastCalls>(alloc, programs)?;
    let kept = run_kept::<R, Noted<P, LastCalls>, Recent, G>(rt, alloc, shape, noted, gate)?;
    let Kept {
        ranks,
        ends,
        pairs,
        cells,
        done,
        ways,
    } = kept;
    let accounts = accounts_of(alloc, ends)?;
    let parted = part(alloc, ranks)?;
    let Parted { ranks, calls } = parted;
    Ok(NotedRun {
        ranks,
        calls,
        record: RunRecord {
            shape,
            ranks: accounts,
            pairs,
            cells,
            done,
        },
        ways,
    })
}
