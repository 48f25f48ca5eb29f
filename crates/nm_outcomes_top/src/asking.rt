//! What is asked of the reports of a script.

ghost use Rattle.std.specs.Prelude.{◌≡◌, ◌≤◌, ℕ, List, IfOk};
ghost use Rattle.nm_explored.specs.Ends.{AreEndsByWay, TellsAll, TellsOnly};
ghost use Rattle.nm_outcomes_top.specs.Answers.{IsAnswerFor, IsFinding, IsOfReports};
ghost use Rattle.nm_outcomes_top.specs.declared.words.Question.TheVariants as asks;
ghost use Rattle.nm_outcomes_top.specs.OptionWords.{InRange, IsQuestion, sizes_for};

use crate::answers::Response;
use crate::tellings::Telling;
use crate::words::{Asked, Question};
use nm_explored::{End, Explored, explore};
use nm_hangs::{Hang, find_hang};
use nm_listed::{Found, Traced, place_of, reports, trace_of};
use nm_types::{Memory, Script, Shape};
use nm_variants::{Union, all_reports};
use std::alloc::Global;

/// What was found out of the reports of a script.
#[derive(Drop)]
pub enum Finding {
    /// What was asked of them.
    Told { telling: Telling },
    /// They have more than 134,217,728 bytes.
    TooLong,
}

// All reports of a script whose search found these ends.
fn tell_all(alloc: Global, script: &Script, shape: Shape, ends: Vec<End>) -> Result<Finding, Memory>
    requires equal { shape.ranks ≡ script.now.ranks }
    requires tells { TellsAll shape script.now.lines ends.items }
    requires only { TellsOnly shape script.now.lines ends.items }
    ensures { (report : List ℕ) → IfOk result
        (IsFinding asks.All shape script.now.lines report) }
{
    match reports(alloc, script, shape, ends)? {
        Found::All(texts) => Ok(Finding::Told {
            telling: Telling::Listed { texts },
        }),
        Found::TooLong => Ok(Finding::TooLong),
    }
}

// A trace of the one with this number.
fn tell_trace(
    alloc: Global,
    script: &Script,
    shape: Shape,
    ends: Vec<End>,
    number: u32,
) -> Result<Finding, Memory>
    requires equal { shape.ranks ≡ script.now.ranks }
    requires tells { TellsAll shape script.now.lines ends.items }
    requires ways { AreEndsByWay shape script.now.lines ends.items }
    requires some { 1 ≤ number }
    ensures { (report : List ℕ) → IfOk result
        (IsFinding (asks.Trace number) shape script.now.lines report) }
{
    match trace_of(alloc, script, shape, ends, number)? {
        Traced::Trace(trace) => Ok(Finding::Told {
            telling: Telling::Traced { trace },
        }),
        Traced::Fewer { count } => Ok(Finding::Told {
            telling: Telling::Fewer { number, count },
        }),
        Traced::TooLong => Ok(Finding::TooLong),
    }
}

// Where a given report stands among them.
fn tell_place(
    alloc: Global,
    script: &Script,
    shape: Shape,
    ends: Vec<End>,
    report: &[u8],
) -> Result<Finding, Memory>
    requires equal { shape.ranks ≡ script.now.ranks }
    requires tells { TellsAll shape script.now.lines ends.items }
    requires only { TellsOnly shape script.now.lines ends.items }
    ensures { IfOk result (IsFinding asks.Among shape script.now.lines report.now) }
{
    match reports(alloc, script, shape, ends)? {
        Found::All(texts) => Ok(Finding::Told {
            telling: Telling::Placed {
                place: place_of(&texts, report),
            },
        }),
        Found::TooLong => Ok(Finding::TooLong),
    }
}

// What is asked of the reports of a script whose search found these ends.
fn tell(
    alloc: Global,
    question: Question,
    script: &Script,
    shape: Shape,
    ends: Vec<End>,
    report: &[u8],
) -> Result<Finding, Memory>
    requires equal { shape.ranks ≡ script.now.ranks }
    requires tells { TellsAll shape script.now.lines ends.items }
    requires only { TellsOnly shape script.now.lines ends.items }
    requires ways { AreEndsByWay shape script.now.lines ends.items }
    requires number { IsQuestion question }
    requires listed { IsOfReports question }
    ensures { IfOk result (IsFinding question shape script.now.lines report.now) }
{
    match question {
        Question::All => tell_all(alloc, script, shape, ends),
        Question::Trace { number } => tell_trace(alloc, script, shape, ends, number),
        Question::Among => tell_place(alloc, script, shape, ends, report),
        Question::Either => unreachable!(),
        Question::Hangs => unreachable!(),
    }
}

// The answer for a script whose search found these ends.
#[tactic(auto, using(crate::proofs::InputLemmas::outgrown_long))]
fn answer_ends(
    alloc: Global,
    asked: Asked,
    script: &Script,
    shape: Shape,
    ends: Vec<End>,
    report: &[u8],
) -> Result<Response, Memory>
    requires range { InRange asked }
    requires listed { IsOfReports asked.question }
    requires sizes { shape ≡ sizes_for asked script.now.ranks }
    requires tells { TellsAll shape script.now.lines ends.items }
    requires only { TellsOnly shape script.now.lines ends.items }
    requires ways { AreEndsByWay shape script.now.lines ends.items }
    ensures { IfOk result (IsAnswerFor asked script.now.ranks script.now.lines report.now) }
{
    match tell(alloc, asked.question, script, shape, ends, report)? {
        Finding::Told { telling } => Ok(Response::Told { telling }),
        Finding::TooLong => Ok(Response::Outgrown {
            question: asked.question,
            states: asked.states,
        }),
    }
}

// Whether a script can hang.
#[tactic(auto, using(crate::proofs::InputLemmas::hangs_told, crate::proofs::InputLemmas::hangs_many))]
fn answer_hangs(
    alloc: Global,
    asked: Asked,
    script: &Script,
    shape: Shape,
) -> Result<Response, Memory>
    requires hangs { asked.question ≡ asks.Hangs }
    requires sizes { shape ≡ sizes_for asked script.now.ranks }
    ensures { (report : List ℕ) → IfOk result (IsAnswerFor asked script.now.ranks script.now.lines report) }
{
    match find_hang(alloc, script, shape, asked.states)? {
        Hang::Found { trace } => Ok(Response::Told {
            telling: Telling::Hung { trace },
        }),
        Hang::Never => Ok(Response::Told {
            telling: Telling::NoHang,
        }),
        Hang::Open => Ok(Response::Outgrown {
            question: asked.question,
            states: asked.states,
        }),
    }
}

// What is asked of the reports of a script, at its eager limit.
#[tactic(auto, using(crate::proofs::InputLemmas::outgrown_many))]
fn answer_reports(
    alloc: Global,
    asked: Asked,
    script: &Script,
    shape: Shape,
    report: &[u8],
) -> Result<Response, Memory>
    requires range { InRange asked }
    requires listed { IsOfReports asked.question }
    requires sizes { shape ≡ sizes_for asked script.now.ranks }
    ensures { IfOk result (IsAnswerFor asked script.now.ranks script.now.lines report.now) }
{
    match explore(alloc, script, shape, asked.states)? {
        Explored::All(ends) => answer_ends(alloc, asked, script, shape, ends.into_vec(), report),
        Explored::TooMany => Ok(Response::Outgrown {
            question: asked.question,
            states: asked.states,
        }),
    }
}

// The reports of a script where each standard send may wait.
#[tactic(auto, using(crate::proofs::InputLemmas::joined_told, crate::proofs::InputLemmas::joined_many, crate::proofs::InputLemmas::joined_long))]
fn answer_either(
    alloc: Global,
    asked: Asked,
    script: &Script,
    shape: Shape,
) -> Result<Response, Memory>
    requires range { InRange asked }
    requires either { asked.question ≡ asks.Either }
    requires sizes { shape ≡ sizes_for asked script.now.ranks }
    ensures { (report : List ℕ) → IfOk result (IsAnswerFor asked script.now.ranks script.now.lines report) }
{
    match all_reports(alloc, script, shape, asked.states)? {
        Union::All { texts, count } => Ok(Response::Told {
            telling: Telling::Joined { texts, count },
        }),
        Union::TooMany => Ok(Response::Outgrown {
            question: asked.question,
            states: asked.states,
        }),
        Union::TooLong => Ok(Response::Outgrown {
            question: asked.question,
            states: asked.states,
        }),
    }
}

/// The answer for a script, with the report that is asked of.
pub fn answer_script(
    alloc: Global,
    asked: Asked,
    script: &Script,
    report: &[u8],
) -> Result<Response, Memory>
    requires { InRange asked }
    ensures { IfOk result (IsAnswerFor asked script.now.ranks script.now.lines report.now) }
{
    let shape = Shape::new(script.ranks, asked.cells, asked.eager).unwrap();
    match asked.question {
        Question::Either => answer_either(alloc, asked, script, shape),
        Question::Hangs => answer_hangs(alloc, asked, script, shape),
        _ => answer_reports(alloc, asked, script, shape, report),
    }
}
