//! Whole programs over `nm_programs`: two ranks that send a message to and fro, a sum round a ring, a master with
//! workers, and a rod whose ranks exchange the values at the ends of their parts. Take the module that is nearest
//! to yours as a beginning. Each runs with a record of what happened, and with none. `ends` shows runs that come to
//! another end.
//!
//! With two words, a length and a number of batches, it runs a flood of messages of that length, with no record
//! (`flood`); with `mix` and a number of rounds, 16 ranks that send and take in every way (`mix`). With one word, the
//! name of a program, it prints the script and the trace of its run (`transcripts`); with `stuck`, those of the end of
//! a run that got stuck after a million messages (`stuck`); with `dice:` and five numbers, those of ranks that throw
//! dice (`dice`).
#![tactic(auto)]

ghost use Rattle.std.specs.Prelude.{◌≡◌, ◌<◌, IfOk, length};

mod dice;
mod ends;
mod farm;
mod flood;
mod mix;
mod ping_pong;
mod ring;
mod rod;
mod stuck;
mod transcripts;

use dice::Dice;
use ends::Rank;
use farm::{Hand, Role};
use flood::Flooded;
use mix::Mixed;
use nm_outside::OpenGate;
use nm_programs::{Finished, Program, Stop, run_programs, run_unrecorded};
use nm_transcript::Transcript;
use nm_types::{Command, Shape};
use ping_pong::Player;
use ring::{Link, run_ring, run_ring_unrecorded};
use rod::Part;
use std::alloc::Global;
use std::env;
use std::sync::Wait;
use std::test::Fail;
use std::thread::Threads;
use stuck::{FEW, MANY, talkers};
use transcripts::{holds, print, transcribe, transcribe_end};

// How many ranks mix.
const MIXED: u8 = 16;

// Whether a run keeps a record.
#[derive(Clone, Copy)]
enum Keeps {
    Record,
    Nothing,
}

// The shape of a run of so many ranks, with 8 cells each, where messages of up to 1,024 bytes are eager.
fn shape_of(ranks: u8) -> Result<Shape, Fail>
    ensures { IfOk result (λ shape. shape.ranks ≡ ranks) }
{
    match Shape::new(ranks, 8, 1024) {
        Ok(shape) => Ok(shape),
        Err(_) => Err(Fail::new("no run has so many ranks")),
    }
}

// The programs as they are left by a run.
fn run<R: Threads + Wait + Sync, P: Program + Send>(
    rt: &R,
    alloc: Global,
    shape: Shape,
    programs: Vec<P>,
    keeps: Keeps,
) -> Result<Vec<Finished<P>>, Stop>
    requires { length programs.items ≡ shape.ranks }
{
    match keeps {
        Keeps::Record => Ok(run_programs(rt, alloc, shape, programs, &OpenGate)?.ranks),
        Keeps::Nothing => Ok(run_unrecorded(rt, alloc, shape, programs, &OpenGate)?.ranks),
    }
}

// The ring at its end.
fn summed<R: Threads + Wait + Sync>(
    rt: &R,
    alloc: Global,
    keeps: Keeps,
) -> Result<Vec<Finished<Link>>, Fail> {
    let links = ring::links(alloc)?;
    let shape = shape_of(5)?;
    match keeps {
        Keeps::Record => Ok(run_ring(rt, alloc, shape, links)?.ranks),
        Keeps::Nothing => Ok(run_ring_unrecorded(rt, alloc, shape, links)?.ranks),
    }
}

fn show_ping_pong(rt: &HostRuntime, ranks: &[Finished<Player>]) -> Result<(), Fail> {
    for (rank, finished) in ranks.iter().enumerate() {
        println!(rt;
            "ping-pong: {} bytes came to rank {rank}",
            finished.program.bytes
        )?;
    }
    Ok(())
}

fn show_ring(rt: &HostRuntime, ranks: &[Finished<Link>]) -> Result<(), Fail> {
    for (rank, finished) in ranks.iter().enumerate() {
        println!(rt; "ring: the sum at rank {rank} is {}", finished.program.sum)?;
    }
    Ok(())
}

fn show_farm(rt: &HostRuntime, ranks: &[Finished<Hand>]) -> Result<(), Fail> {
    let mut all: u64 = 0;
    for finished in ranks {
        let total = finished.program.total;
        match finished.program.role {
            Role::Master(_) => println!(rt; "farm: the results add up to {total}")?,
            Role::Worker => all = all.saturating_add(total),
        }
    }
    println!(rt; "farm: the workers did {all} tasks")?;
    Ok(())
}

// The values of the whole rod.
fn values(alloc: Global, parts: &[Finished<Part>]) -> Result<Vec<u64>, Fail> {
    let mut values = Vec::new(alloc);
    for finished in parts {
        values.extend_from_slice(finished.program.cells.as_slice())?;
    }
    Ok(values)
}

// The same of a rod of which so many ranks have parts.
fn rod_of<R: Threads + Wait + Sync>(
    rt: &R,
    alloc: Global,
    ranks: u8,
    keeps: Keeps,
) -> Result<Vec<u64>, Fail>
    requires { 0 < ranks }
{
    let parts = run(
        rt,
        alloc,
        shape_of(ranks)?,
        rod::parts(alloc, ranks)?,
        keeps,
    )?;
    values(alloc, parts.as_slice())
}

fn show_rod<R: Threads + Wait + Sync>(
    rt: &HostRuntime,
    threads: &R,
    alloc: Global,
    keeps: Keeps,
) -> Result<(), Fail> {
    let four = rod_of(threads, alloc, 4, keeps)?;
    println!(rt; "rod: {:?}", four.as_slice())?;
    let one = rod_of(threads, alloc, 1, keeps)?;
    println!(rt;
        "rod: the same by one rank: {}",
        one.as_slice() == four.as_slice()
    )?;
    Ok(())
}

// Who waits for good.
fn show_waits(rt: &HostRuntime, ranks: &[Finished<Rank>]) -> Result<(), Fail> {
    for (rank, finished) in ranks.iter().enumerate() {
        let waits = finished.waits.is_some();
        println!(rt; "ends: rank {rank} waits for good: {waits}")?;
    }
    Ok(())
}

// Why a run came to no end.
fn show_stop(rt: &HostRuntime, stop: &Stop) -> Result<(), Fail> {
    match stop {
        Stop::Range {
            rank,
            command: Command::Send { to, .. },
        } => println!(rt; "ends: rank {rank} gave a send to rank {to}, which never ran")?,
        _ => println!(rt; "ends: {stop:?}")?,
    }
    Ok(())
}

// How a run ends whose rank 0 is at its end at once.
fn show_end<R: Threads + Wait + Sync>(
    rt: &HostRuntime,
    threads: &R,
    alloc: Global,
    other: Rank,
    keeps: Keeps,
) -> Result<(), Fail> {
    let two = shape_of(2)?;
    match run(threads, alloc, two, ends::beside(alloc, other)?, keeps) {
        Err(stop) => show_stop(rt, &stop),
        Ok(ranks) => show_waits(rt, ranks.as_slice()),
    }
}

fn show_flood(rt: &HostRuntime, ranks: &[Finished<Flooded>]) -> Result<(), Fail> {
    for (rank, finished) in ranks.iter().enumerate() {
        println!(rt;
            "flood: {} messages came to rank {rank}",
            finished.program.came
        )?;
    }
    Ok(())
}

// The four programs, and the runs that come to another end.
fn show<R: Threads + Wait + Sync>(
    rt: &HostRuntime,
    threads: &R,
    alloc: Global,
    keeps: Keeps,
) -> Result<(), Fail> {
    let two = shape_of(2)?;
    let four = shape_of(4)?;
    show_ping_pong(
        rt,
        &run(threads, alloc, two, ping_pong::players(alloc)?, keeps)?,
    )?;
    show_ring(rt, &summed(threads, alloc, keeps)?)?;
    show_farm(rt, &run(threads, alloc, four, farm::hands(alloc)?, keeps)?)?;
    show_rod(rt, threads, alloc, keeps)?;
    show_end(rt, threads, alloc, Rank::Waits, keeps)?;
    show_end(rt, threads, alloc, Rank::Strays, keeps)?;
    show_end(rt, threads, alloc, Rank::Refused, keeps)
}

// The run of the program of this name, as a script and a record.
fn transcript_of<R: Threads + Wait + Sync>(
    rt: &R,
    alloc: Global,
    name: &str,
) -> Result<Transcript, Fail> {
    match name {
        "ping_pong" => transcribe(rt, alloc, shape_of(2)?, ping_pong::players(alloc)?),
        "ring" => transcribe(rt, alloc, shape_of(5)?, ring::links(alloc)?),
        "farm" => transcribe(rt, alloc, shape_of(4)?, farm::hands(alloc)?),
        "rod" => transcribe(rt, alloc, shape_of(4)?, rod::parts(alloc, 4)?),
        "stuck" => transcribe_end(rt, alloc, shape_of(2)?, talkers(alloc, MANY)?),
        _ => match Dice::read(name) {
            Some(dice) => transcribe(rt, alloc, dice.shape, dice.throwers(alloc)?),
            None => Err(Fail::new("no program has this name")),
        },
    }
}

fn show_judged<R: Threads + Wait + Sync>(
    rt: &HostRuntime,
    threads: &R,
    alloc: Global,
    name: &str,
) -> Result<(), Fail> {
    let told = transcript_of(threads, alloc, name)?;
    let holds = holds(alloc, &told)?;
    println!(rt; "{name}: the trace of its script holds: {holds}")?;
    Ok(())
}

// A shorter run that gets stuck, as text.
fn show_stuck<R: Threads + Wait + Sync>(
    rt: &HostRuntime,
    threads: &R,
    alloc: Global,
) -> Result<(), Fail> {
    let told = transcribe_end(threads, alloc, shape_of(2)?, talkers(alloc, FEW)?)?;
    let holds = holds(alloc, &told)?;
    println!(rt; "stuck: the trace of its script holds: {holds}")?;
    print(rt, alloc, told)
}

fn show_all<R: Threads + Wait + Sync>(
    rt: &HostRuntime,
    threads: &R,
    alloc: Global,
) -> Result<(), Fail> {
    show(rt, threads, alloc, Keeps::Record)?;
    println!(rt; "with no record:")?;
    show(rt, threads, alloc, Keeps::Nothing)?;
    show_judged(rt, threads, alloc, "ring")?;
    show_judged(rt, threads, alloc, "farm")?;
    show_stuck(rt, threads, alloc)
}

fn run_flood<R: Threads + Wait + Sync>(
    rt: &HostRuntime,
    threads: &R,
    alloc: Global,
    bytes: &str,
    batches: &str,
) -> Result<(), Fail> {
    let ranks = flood::ranks(alloc, bytes.parse::<u32>()?, batches.parse::<u64>()?)?;
    let left = run(threads, alloc, shape_of(2)?, ranks, Keeps::Nothing)?;
    show_flood(rt, left.as_slice())
}

fn show_mix(rt: &HostRuntime, ranks: &[Finished<Mixed>]) -> Result<(), Fail> {
    let mut came: u64 = 0;
    let mut cancelled: u64 = 0;
    for finished in ranks {
        came = came.saturating_add(finished.program.came);
        cancelled = cancelled.saturating_add(finished.program.cancelled);
    }
    println!(rt; "mix: {came} messages came, and {cancelled} requests were cancelled")?;
    Ok(())
}

fn run_mix<R: Threads + Wait + Sync>(
    rt: &HostRuntime,
    threads: &R,
    alloc: Global,
    rounds: &str,
) -> Result<(), Fail> {
    let ranks = mix::ranks(alloc, MIXED, rounds.parse::<u64>()?)?;
    let left = run(threads, alloc, shape_of(MIXED)?, ranks, Keeps::Nothing)?;
    show_mix(rt, left.as_slice())
}

// A run of many messages, by two words.
fn run_many<R: Threads + Wait + Sync>(
    rt: &HostRuntime,
    threads: &R,
    alloc: Global,
    first: &str,
    second: &str,
) -> Result<(), Fail> {
    match first {
        "mix" => run_mix(rt, threads, alloc, second),
        bytes => run_flood(rt, threads, alloc, bytes, second),
    }
}

fn main(rt: HostRuntime) -> Result<(), Fail> {
    let alloc = rt.alloc();
    let mut words = env::args(&rt)?.skip(1);
    match (words.next(), words.next()) {
        (Some(first), Some(second)) => {
            run_many(&rt, &rt, alloc, first.as_str(), second.as_str())
        }
        (Some(name), None) => print(&rt, alloc, transcript_of(&rt, alloc, name.as_str())?),
        _ => show_all(&rt, &rt, alloc),
    }
}
