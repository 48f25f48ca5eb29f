//! The whole trace: its events, its counts of packets, its answers, its cells and its end.

ghost use Rattle.std.specs.Prelude.{◌≡◌, ◌≤◌, ◌+◌, ◌⊎◌, ℕ, [], ◌∷◌, ◌++◌, filter};
ghost use Rattle.std.specs.Prelude.{IfErr, IfOk, MatchOption, MatchResult, List, Ok, length, false};
ghost use Rattle.nm_history.specs.declared.events.Event.{Event};
ghost use Rattle.nm_history.specs.Quiescence.{Ended};
ghost use Rattle.nm_history.specs.Underway.{is_answer};
ghost use Rattle.nm_report.specs.declared.pairs.PairCount.{PairCount};
ghost use Rattle.nm_report.specs.declared.records.RunRecord.{RunRecord};
ghost use Rattle.nm_report.specs.Ends.{end_of_account, ends_of};
ghost use Rattle.nm_report.specs.Lawful.{SameRun};
ghost use Rattle.nm_trace.specs.declared.faults.TraceFault.TheVariants.{Bad, Memory};
ghost use Rattle.nm_trace.specs.declared.notes.Note.{Note};
ghost use Rattle.nm_trace.specs.Machine.{Closing, Counting, Part, Telling, is_next, start};
ghost use Rattle.nm_trace.specs.Outcome.{AnswerPlace, Stops, tells, tells_next, told};
ghost use Rattle.nm_trace.specs.Texts.{trace_of};
ghost use Rattle.nm_trace.specs.Traces.{IsFirstBad, IsTraceOf, Names};

use crate::answers::{is_due, is_ran};
use crate::faults::TraceFault;
use crate::notes::Note;
use crate::texts::{Text, next_cells, next_end, next_given, next_note, next_pair, next_waits};
use nm_history::{Event, History};
use nm_report::{Accounts, Pairs, RankAccount, RunRecord};
use nm_types::{Account, Shape};
use std::alloc::{AllocError, Global};
use std::collections::VecDeque;

/// The events, each with its rank.
fn read_notes<'a>(
    alloc: Global,
    ranks: u8,
    mut text: Text<'a>,
) -> Result<(VecDeque<Note>, Text<'a>), AllocError>
    ensures told { IfOk result (λ read. told ranks start text.entry.rest.now text.entry.number
        ≡ told ranks (Counting read.0.items []) read.1.rest.now read.1.number) }
    ensures few { IfOk result (λ read. length read.0.items + text.entry.number ≤ read.1.number) }
{
    let mut notes = VecDeque::new(alloc);
    let mut last = 0u8;
    while let Some((note, after)) = next_note(alloc, ranks, last, text)? {
        last = note.rank;
        notes.push_back(note)?;
        text = after;
    }
    Ok((notes, text))
}

/// The counts of packets.
fn read_pairs<'a>(alloc: Global, mut text: Text<'a>) -> Result<(Pairs, Text<'a>), TraceFault>
    ensures told { IfOk result (λ read. (ranks : ℕ) (notes : List Note) →
        told ranks (Counting notes []) text.entry.rest.now text.entry.number
        ≡ told ranks (Telling read.0 (record { ends = []; events = []; due = notes }))
        read.1.rest.now read.1.number) }
    ensures memory { IfErr result (λ fault. fault ≡ Memory) }
{
    let mut pairs = Pairs::new(alloc);
    while let Some((pair, after)) = next_pair(alloc, text)? {
        pairs.push(pair)?;
        text = after;
    }
    Ok((pairs, text))
}

/// The first note, if it is of this rank.
fn next_of(notes: &mut VecDeque<Note>, rank: u8) -> Option<Note>
    ensures { MatchOption result
        ((notes.new.items ≡ notes.old.items) × (is_next rank notes.old.items ≡ false))
        (λ note. (notes.old.items ≡ note ∷ notes.new.items) × (note.rank ≡ rank)) }
{
    match notes.front() {
        Some(note) => {
            if note.rank != rank {
                return None;
            }
        }
        None => return None,
    }
    notes.pop_front()
}

/// The event of a note, with its answer's line where it has one.
fn read_event<'a>(
    alloc: Global,
    note: Note,
    text: Text<'a>,
) -> Result<(Event, Text<'a>), TraceFault>
    ensures told { IfOk result (λ read. (p : AnswerPlace) (events : List Event) (due : List Note) →
        note.rank ≡ length p.ends →
        told p.ranks (tells p events (note ∷ due)) text.entry.rest.now text.entry.number
        ≡ told p.ranks (tells p (events ++ read.0 ∷ []) due) read.1.rest.now read.1.number) }
    ensures stops { IfErr result (λ fault. (p : AnswerPlace) (events : List Event) (due : List Note) →
        note.rank ≡ length p.ends →
        Stops (told p.ranks (tells p events (note ∷ due)) text.entry.rest.now
        text.entry.number) fault) }
{
    if !is_due(&note.event.what) {
        return Ok((note.event, text));
    }
    match next_given(alloc, note, text)? {
        Some(read) => Ok(read),
        None => Err(text.fault()),
    }
}

/// What a rank's commands did.
#[derive(Drop)]
struct Deeds {
    events: Vec<Event>,
    /// How many of the events are answers.
    at: u64,
}

/// The events of a rank, with the lines of their answers.
fn read_events<'a>(
    alloc: Global,
    rank: u8,
    notes: &mut VecDeque<Note>,
    mut text: Text<'a>,
) -> Result<(Deeds, Text<'a>), TraceFault>
    requires { length notes.old.items ≤ 67108864 }
    ensures told { IfOk result (λ read. (p : AnswerPlace) → rank ≡ length p.ends →
        told p.ranks (tells p [] notes.old.items) text.entry.rest.now text.entry.number
        ≡ told p.ranks (tells p read.0.events.items notes.new.items)
        read.1.rest.now read.1.number) }
    ensures at { IfOk result (λ read.
        read.0.at ≡ length (filter (λ event. is_answer event.what) read.0.events.items)) }
    ensures others { IfOk result (λ read. is_next rank notes.new.items ≡ false) }
    ensures fewer { IfOk result (λ read. length notes.new.items ≤ length notes.old.items) }
    ensures stops { IfErr result (λ fault. (p : AnswerPlace) → rank ≡ length p.ends →
        Stops (told p.ranks (tells p [] notes.old.items) text.entry.rest.now
        text.entry.number) fault) }
{
    let mut events = Vec::new(alloc);
    let mut at = 0u64;
    while let Some(note) = next_of(notes, rank) {
        let (event, after) = read_event(alloc, note, text)?;
        if is_ran(&event.what) {
            at += 1;
        }
        events.push(event)?;
        text = after;
    }
    Ok((Deeds { events, at }, text))
}

/// What became of a rank.
fn read_rank<'a>(
    alloc: Global,
    rank: u8,
    notes: &mut VecDeque<Note>,
    text: Text<'a>,
) -> Result<(RankAccount, Text<'a>), TraceFault>
    requires { length notes.old.items ≤ 67108864 }
    ensures told { IfOk result (λ read. (p : AnswerPlace) → rank ≡ length p.ends →
        told p.ranks (tells p [] notes.old.items) text.entry.rest.now text.entry.number
        ≡ told p.ranks (tells_next p (end_of_account read.0) notes.new.items)
        read.1.rest.now read.1.number) }
    ensures fewer { IfOk result (λ read. length notes.new.items ≤ length notes.old.items) }
    ensures stops { IfErr result (λ fault. (p : AnswerPlace) → rank ≡ length p.ends →
        Stops (told p.ranks (tells p [] notes.old.items) text.entry.rest.now
        text.entry.number) fault) }
{
    let (deeds, text) = read_events(alloc, rank, notes, text)?;
    let Deeds { events, at } = deeds;
    let history = History::from_vec(events);
    match next_waits(alloc, rank, text)? {
        Some((line, after)) => {
            let waits = Some(line);
            Ok((RankAccount { history, at, waits }, after))
        }
        None => {
            let waits = None;
            Ok((RankAccount { history, at, waits }, text))
        }
    }
}

/// What became of the ranks.
fn read_ranks<'a>(
    alloc: Global,
    ranks: u8,
    mut notes: VecDeque<Note>,
    mut text: Text<'a>,
) -> Result<(Accounts, Text<'a>), TraceFault>
    requires { length notes.items ≤ 67108864 }
    ensures whole { IfOk result (λ read. length read.0 ≡ ranks) }
    ensures told { IfOk result (λ read. (pairs : List PairCount) →
        told ranks (Telling pairs (record { ends = []; events = []; due = notes.items }))
        text.entry.rest.now text.entry.number
        ≡ told ranks (Telling pairs (record { ends = ends_of read.0; events = []; due = [] }))
        read.1.rest.now read.1.number) }
    ensures stops { IfErr result (λ fault. (pairs : List PairCount) →
        Stops (told ranks (Telling pairs (record { ends = []; events = []; due = notes.items }))
        text.entry.rest.now
        text.entry.number) fault) }
{
    let mut accounts = Accounts::new(alloc);
    for rank in 0..ranks {
        let (account, after) = read_rank(alloc, rank, &mut notes, text)?;
        accounts.push(account)?;
        text = after;
    }
    Ok((accounts, text))
}

/// The account of the cells.
fn read_cells<'a>(alloc: Global, text: Text<'a>) -> Result<(Account, Text<'a>), TraceFault>
    ensures told { IfOk result (λ read. (pairs : List PairCount) (ends : List Ended) →
        told (length ends) (Telling pairs (record { ends = ends; events = []; due = [] }))
        text.entry.rest.now text.entry.number
        ≡ told (length ends) (Closing pairs ends read.0) read.1.rest.now read.1.number) }
    ensures stops { IfErr result (λ fault. (pairs : List PairCount) (ends : List Ended) →
        Stops (told (length ends) (Telling pairs (record { ends = ends; events = []; due = [] }))
        text.entry.rest.now
        text.entry.number) fault) }
{
    match next_cells(alloc, text)? {
        Some(read) => Ok(read),
        None => Err(text.fault()),
    }
}

/// Whether every rank is at its end, by the last line, behind which nothing stands.
fn read_end(text: Text) -> Result<bool, TraceFault>
    ensures told { IfOk result (λ done. (ranks : ℕ) (pairs : List PairCount) (ends : List Ended)
        (cells : Account) →
        told ranks (Closing pairs ends cells) text.entry.rest.now text.entry.number
        ≡ Ok (record { ends = ends; pairs = pairs; cells = cells; done = done })) }
    ensures stops { IfErr result (λ fault. (ranks : ℕ) (pairs : List PairCount) (ends : List Ended)
        (cells : Account) →
        Stops (told ranks (Closing pairs ends cells) text.entry.rest.now
        text.entry.number) fault) }
{
    let Some((done, after)) = next_end(text) else {
        return Err(text.fault());
    };
    if after.rest.is_empty() {
        Ok(done)
    } else {
        Err(after.fault())
    }
}

/// The record that the lines tell, one by one, or the first line that they stop at.
fn read_record(alloc: Global, bytes: &[u8], shape: Shape) -> Result<RunRecord, TraceFault>
    requires { length bytes.now ≤ 67108864 }
    ensures told { IfOk result (λ run. told shape.ranks start bytes.now 1 ≡ Ok (trace_of run)) }
    ensures shaped { IfOk result (λ run. run.shape ≡ shape) }
    ensures whole { IfOk result (λ run. length run.ranks ≡ shape.ranks) }
    ensures stops { IfErr result (λ fault. Stops (told shape.ranks start bytes.now 1) fault) }
    ensures few { shape.ranks ≤ 256 }
{
    let text = Text {
        rest: bytes,
        number: 1,
    };
    let count = shape.ranks();
    let (notes, text) = read_notes(alloc, count, text)?;
    let (pairs, text) = read_pairs(alloc, text)?;
    let (ranks, text) = read_ranks(alloc, count, notes, text)?;
    let (cells, text) = read_cells(alloc, text)?;
    let done = read_end(text)?;
    Ok(RunRecord {
        shape,
        ranks,
        pairs,
        cells,
        done,
    })
}

/// The record whose trace the bytes are: the text that `nm_report::trace` writes of it.
/// The record has this shape, an account for each of its ranks, and counts in each the answers that
/// its events have. `bytes` are at most 64 MiB, 67,108,864 bytes.
///
/// # Errors
/// `Bad` names the first line, counted from 1, such that the lines up to it begin no trace of this
/// shape, or the line behind the last one where the text ends too soon. A last line without its
/// line feed begins no trace. `Memory` is want of memory, and says nothing of the bytes.
pub fn read_trace(alloc: Global, bytes: &[u8], shape: Shape) -> Result<RunRecord, TraceFault>
    requires { length bytes.now ≤ 67108864 }
    ensures taken { IfOk result (λ run. IsTraceOf shape bytes.now run) }
    ensures takes { (run : RunRecord) → IsTraceOf shape bytes.now run →
        MatchResult result (λ read. SameRun read run) (λ fault. fault ≡ Memory) }
    ensures bad { IfErr result (λ fault. Names shape bytes.now fault) }
    ensures named { (line : ℕ) → IsFirstBad shape bytes.now line →
        MatchResult result (λ run. ⊥) (λ fault. (fault ≡ Bad line) ⊎ (fault ≡ Memory)) }
{
    read_record(alloc, bytes, shape)
}
