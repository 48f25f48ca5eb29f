//! The programs of all threads, each in a thread of its own.

ghost use Rattle.std.specs.Prelude.{◌≡◌, ◌<◌, ◌≤◌, ◌^◌, ℕ, true, IfOk, OnOk};
ghost use Rattle.std.specs.List.{list_any};
ghost use Rattle.nm_multi.specs.declared.turns.TheConstants.{MAX_ROUNDS, MAX_THREADS};
ghost use Rattle.nm_multi.specs.Acts.{is_short as is_short_lem};
ghost use Rattle.nm_multi.specs.Programs.{AllStayMade, AreOf, HasMadeAll, IsWhole, SameTurns};
ghost use Rattle.nm_multi.specs.Programs.{one_rank as one_rank_lem};
ghost use Rattle.nm_multi.specs.Text.{bytes_got};

use crate::turns::Turns;
use crate::{CallLog, Reply};
use nm_outside::Gate;
use nm_types::{Memory, Shape};
use std::alloc::Global;
use std::sync::{Mutex, Wait};
use std::thread::{Threads, join};

/// Makes the calls of one thread.
fn run_one<R: Wait, G: Gate>(
    rt: &R,
    turns: &Mutex<Turns>,
    who: u8,
    gate: &G,
) -> Result<(), Memory> {
    for _ in rt.forever() {
        gate.turn(who);
        if !turns.lock(rt).next_of(who)? {
            break;
        }
    }
    Ok(())
}

/// Makes the calls of the threads from one number on up to another, each in a thread of its own
/// where one can be made.
fn run_all<R: Threads + Wait + Sync, G: Gate + Sync>(
    rt: &R,
    turns: &Mutex<Turns>,
    first: u8,
    last: u8,
    gate: &G,
) -> Result<(), Memory> {
    if first >= last {
        return Ok(());
    }
    if last - first == 1 {
        return run_one(rt, turns, first, gate);
    }
    let middle = first + (last - first) / 2;
    let (one, other) = join(
        rt,
        || -> Result<(), Memory> { run_all(rt, turns, first, middle, gate) },
        || -> Result<(), Memory> { run_all(rt, turns, middle, last, gate) },
    );
    one?;
    other
}

/// Makes the calls that are left of the program of a thread.
fn complete_one(turns: &mut Turns, who: u8) -> Result<(), Memory>
    requires who { who < turns.old.threads }
    ensures all { OnOk result (HasMadeAll turns.new who) }
    ensures kept { OnOk result (AllStayMade turns.old turns.new) }
    ensures same { OnOk result (SameTurns turns.old turns.new) }
{
    loop {
        if !turns.next(who)? {
            return Ok(());
        }
    }
}

/// Makes the calls that are left of all programs.
fn complete(turns: &mut Turns) -> Result<(), Memory>
    ensures all { OnOk result ((t : ℕ) → t < turns.new.threads → HasMadeAll turns.new t) }
    ensures same { OnOk result (SameTurns turns.old turns.new) }
{
    for who in 0..turns.threads() {
        complete_one(turns, who)?;
    }
    Ok(())
}

/// Whether a call was cut short.
fn is_short(reply: &Reply) -> bool
    ensures { result ≡ is_short_lem reply.now }
{
    matches!(reply, Reply::Short(_))
}

/// Whether one of the calls was cut short.
fn has_short(log: &CallLog) -> bool
    ensures { result ≡ list_any (λ e. is_short_lem e.reply) log.now.entries }
{
    let mut found = false;
    for entry in log.as_slice() {
        let one = is_short(&entry.reply);
        found = found | one;
    }
    found
}

/// The shape of the one rank.
fn one_rank() -> Shape
    ensures { result ≡ one_rank_lem }
{
    Shape::new(1, 8, 1024).unwrap()
}

/// Whether these are the turns of so many threads and rounds on the one rank.
fn are_of(turns: &Turns, threads: u8, rounds: u16) -> bool
    ensures { result ≡ true → AreOf threads rounds turns.now }
{
    let shape = turns.shape();
    let is_one = shape.ranks() == 1 && shape.cells() == 8 && shape.eager() == 1024;
    is_one && turns.threads() == threads && turns.rounds() == rounds
}

/// The turns that the threads left, or where they are not those of so many threads and rounds on the
/// one rank, new ones.
fn settled(alloc: Global, turns: Turns, threads: u8, rounds: u16) -> Result<Turns, Memory>
    requires threads { (1 ≤ threads) × (threads ≤ MAX_THREADS) }
    requires rounds { rounds ≤ MAX_ROUNDS }
    ensures { IfOk result (AreOf threads rounds) }
{
    if are_of(&turns, threads, rounds) {
        return Ok(turns);
    }
    Turns::new(alloc, one_rank(), threads, rounds)
}

/// Runs the programs of so many threads, of so many rounds each, on one rank that they share. The
/// answer is the log of all their calls. The bytes of the messages that it shows can be counted in
/// 64 bits.
pub fn multi<R: Threads + Wait + Sync, G: Gate + Sync>(
    rt: &R,
    alloc: Global,
    threads: u8,
    rounds: u16,
    gate: &G,
) -> Result<CallLog, Memory>
    requires threads { (1 ≤ threads) × (threads ≤ MAX_THREADS) }
    requires rounds { rounds ≤ MAX_ROUNDS }
    ensures whole { IfOk result (λ log. IsWhole threads rounds log.entries) }
    ensures countable { IfOk result (λ log. bytes_got log.entries < 2 ^ 64) }
{
    let turns = Mutex::new(Turns::new(alloc, one_rank(), threads, rounds)?);
    run_all(rt, &turns, 0, threads, gate)?;
    let mut turns = settled(alloc, turns.into_inner(), threads, rounds)?;
    complete(&mut turns)?;
    let log = turns.into_log();
    if has_short(&log) {
        Err(Memory)
    } else {
        Ok(log)
    }
}
