//! What there is to say of a script: how many of its reports are stuck, the least part of it that can hang, and the
//! single changes after which it can't.

ghost use Rattle.std.specs.Prelude.{◌≡◌, IfOk, IfSome, List, None, count_by, length};
ghost use Rattle.nm_types.specs.declared.scripts.Line as the_line;
ghost use Rattle.nm_types.specs.Limits.{IsScript};
ghost use Rattle.nm_types.specs.Sizes.{Sizes};
ghost use Rattle.nm_explored.specs.Ends.{AreEndsByWay, TellsAll, TellsOnly};
ghost use Rattle.nm_hangs.specs.Found.{IsHang};
ghost use Rattle.nm_listed.specs.Texts.{bytes_of};
ghost use Rattle.nm_outcomes_top.specs.Answers.{IsOutgrowing};
ghost use Rattle.nm_outcomes_top.specs.OptionWords.{InRange, sizes_for};
ghost use Rattle.nm_outcomes_top.specs.Texts.{is_stuck as is_stuck_lem, stuck_count};
ghost use Rattle.nm_why.specs.Hangs.{CanHang, Does};
ghost use Rattle.nm_why.specs.Least.{IsLeast};
ghost use Rattle.nm_why_top.specs.declared.answers.Count.TheVariants.{All as AllCounted};
ghost use Rattle.nm_why_top.specs.declared.answers.Response.TheVariants.{Told};
ghost use Rattle.nm_why_top.specs.declared.seeking.Sought.TheVariants as sought;
ghost use Rattle.nm_why_top.specs.Seeking.{IsSeen, IsWayTo};
ghost use Rattle.nm_why_top.specs.Answers.{IsAnswerFor, IsChainOf, IsExplained, IsStuck, IsWhy, NoneHangs};

use crate::answers::{Count, Response};
use crate::searching::{Hunt, Hunts, does_one_end, is_hung};
use crate::seeking::{Seen, Sought, seek};
use nm_explored::choices::moves::Turn;
use nm_explored::{End, Explored, explore};
use nm_hangs::{Hang, find_hang};
use nm_listed::lawful::ends_are_runs;
use nm_listed::{Found, Texts, reports};
use nm_outcomes::spots::ranks::Rank;
use nm_outcomes_top::words::Asked;
use nm_types::{Memory, Script, Shape};
use nm_waits::chains::chain;
use nm_waits::states::states_after;
use nm_waits::waits::{Wait, waits_of};
use nm_why::candidates::single_changes;
use nm_why::cures::cures_among;
use nm_why::hangs::Aim;
use nm_why::least::{Least, Task, least_part};
use nm_why_texts::Why;
use std::alloc::Global;

/// How many of some reports are stuck.
fn count_among(texts: &[Vec<u8>]) -> usize
    ensures { result ≡ count_by (λ text. is_stuck_lem (bytes_of text)) texts.now }
{
    texts
        .iter()
        .filter(|text| text.as_slice().ends_with(b"stuck\n".as_slice()))
        .count()
}

/// .. of the reports of a script.
fn count_stuck(texts: &Texts) -> usize
    ensures { result ≡ stuck_count texts.now }
{
    count_among(texts.as_slice())
}

/// How many reports a script has.
fn count_all(texts: &Texts) -> usize
    ensures { result ≡ length texts.now }
{
    texts.as_slice().len()
}

/// .. and how many of them are stuck.
fn count_of(texts: &Texts) -> Count
    ensures { result ≡ AllCounted (length texts.now) (stuck_count texts.now) }
{
    Count::All {
        reports: count_all(texts),
        stuck: count_stuck(texts),
    }
}

/// What is told of a script.
fn told_of(script: &Script, count: Count, why: Option<Why>) -> Response
    ensures { result ≡ Told count (length script.now.lines) why }
{
    Response::Told {
        count,
        commands: script.lines.len(),
        why,
    }
}

/// The states of the ranks at the first end where one waits, if there is one.
fn stuck_states(alloc: Global, shape: Shape, ends: &[End]) -> Result<Option<Vec<Rank>>, Memory>
    ensures some { (lines : List the_line.Line) → AreEndsByWay shape lines ends.now →
        IfOk result (λ found. IfSome found (λ states. IsStuck shape lines states.items)) }
    ensures none { IfOk result (λ found. found ≡ None → NoneHangs ends.now) }
{
    for end in ends {
        if is_hung(end) {
            return Ok(Some(states_after(alloc, shape.ranks(), end.path.as_slice())?));
        }
    }
    Ok(None)
}

/// Which of these ranks waits for which, from the first on.
fn chain_of(alloc: Global, waits: &[Wait]) -> Result<Vec<u8>, Memory>
    ensures { IfOk result (λ ranks. IsChainOf waits.now ranks.items) }
{
    match waits.first() {
        Some(wait) => chain(alloc, waits, wait.rank),
        None => Ok(Vec::new(alloc)),
    }
}

/// What the least part of a script is to do still that has such ends, of which one hangs.
fn aim_of(ends: &[End]) -> Aim
    ensures { (shape : Sizes) (lines : List the_line.Line) → IsScript shape.ranks lines →
        TellsOnly shape lines ends.now → CanHang shape lines → Does result shape lines }
{
    ends_are_runs();
    if does_one_end(ends) {
        return Aim::Both;
    }
    Aim::Hang
}

/// The least part of a script that still does what it does.
fn least_of(alloc: Global, limit: u32, of: &Task) -> Result<Least, Memory>
    requires { Does of.now.aim of.now.shape of.now.lines.now }
    ensures { IfOk result (IsLeast of.now.aim of.now.shape of.now.lines.now) }
{
    match of.aim {
        Aim::Hang => least_part(alloc, &Hunt { states: limit }, of),
        Aim::Both => least_part(alloc, &Hunts { states: limit }, of),
    }
}

/// Why a script hangs: where the ranks wait in these states, its least part, and its cures.
fn explain(
    alloc: Global,
    script: &Script,
    shape: Shape,
    limit: u32,
    aim: Aim,
    states: Vec<Rank>,
) -> Result<Why, Memory>
    requires equal { shape.ranks ≡ script.now.ranks }
    requires does { Does aim shape script.now.lines }
    requires stuck { IsStuck shape script.now.lines states.items }
    ensures { IfOk result (IsWhy shape script.now.lines) }
{
    let search = Hunt { states: limit };
    let lines = script.lines.as_slice();
    let waits = waits_of(alloc, lines, states.as_slice())?;
    let chain = chain_of(alloc, waits.as_slice())?;
    let least = least_of(alloc, limit, &Task { lines, shape, aim })?;
    let tried = single_changes(alloc, shape.ranks(), lines)?;
    let cures = cures_among(alloc, &search, shape, lines, tried.as_slice())?;
    Ok(Why {
        states,
        waits,
        chain,
        aim,
        least,
        tried,
        cures,
    })
}

/// .. if it has an end that hangs.
fn explain_ends(
    alloc: Global,
    script: &Script,
    shape: Shape,
    limit: u32,
    ends: &[End],
) -> Result<Option<Why>, Memory>
    requires equal { shape.ranks ≡ script.now.ranks }
    requires tells { TellsAll shape script.now.lines ends.now }
    requires only { TellsOnly shape script.now.lines ends.now }
    requires ways { AreEndsByWay shape script.now.lines ends.now }
    ensures { IfOk result (IsExplained shape script.now.lines) }
{
    ends_are_runs();
    let aim = aim_of(ends);
    match stuck_states(alloc, shape, ends)? {
        Some(states) => Ok(Some(explain(alloc, script, shape, limit, aim, states)?)),
        None => Ok(None),
    }
}

/// The answer for a script whose search found these ends.
fn answer_ends(
    alloc: Global,
    asked: Asked,
    script: &Script,
    shape: Shape,
    ends: Vec<End>,
) -> Result<Response, Memory>
    requires range { InRange asked }
    requires sizes { shape ≡ sizes_for asked script.now.ranks }
    requires tells { TellsAll shape script.now.lines ends.items }
    requires only { TellsOnly shape script.now.lines ends.items }
    requires ways { AreEndsByWay shape script.now.lines ends.items }
    ensures { IfOk result (IsAnswerFor asked script.now.ranks script.now.lines) }
{
    let why = explain_ends(alloc, script, shape, asked.states, ends.as_slice())?;
    match reports(alloc, script, shape, ends)? {
        Found::All(texts) => Ok(told_of(script, count_of(&texts), why)),
        Found::TooLong => Ok(told_of(script, Count::Many, why)),
    }
}

/// What the least part of a script is to do still that can hang: it can end, too, if a run was found that does.
fn aim_with(end: &Seen) -> Aim
    ensures { (shape : Sizes) (lines : List the_line.Line) → IsScript shape.ranks lines →
        IsSeen sought.End shape lines end.now → CanHang shape lines → Does result shape lines }
{
    ends_are_runs();
    match end {
        Seen::By { .. } => Aim::Both,
        Seen::Never => Aim::Hang,
        Seen::Open => Aim::Hang,
    }
}

/// .. of this script.
fn aim_found(alloc: Global, script: &Script, shape: Shape, limit: u32) -> Result<Aim, Memory>
    requires { shape.ranks ≡ script.now.ranks }
    ensures { IfOk result (λ aim. CanHang shape script.now.lines → Does aim shape script.now.lines) }
{
    let end = seek(alloc, script, shape, limit, Sought::End)?;
    Ok(aim_with(&end))
}

/// Why a script hangs, by the moves to the end of a run that does.
fn explain_way(
    alloc: Global,
    script: &Script,
    shape: Shape,
    limit: u32,
    path: &[Turn],
) -> Result<Why, Memory>
    requires equal { shape.ranks ≡ script.now.ranks }
    requires way { IsWayTo sought.Hang shape script.now.lines path.now }
    ensures { IfOk result (IsWhy shape script.now.lines) }
{
    ends_are_runs();
    let aim = aim_found(alloc, script, shape, limit)?;
    let states = states_after(alloc, shape.ranks(), path)?;
    explain(alloc, script, shape, limit, aim, states)
}

/// The answer for a script that can hang, and whose reports outgrow the list.
#[tactic(auto, using(crate::proofs::AnswerLemmas::outgrown_right))]
fn answer_hanging(
    alloc: Global,
    asked: Asked,
    script: &Script,
    shape: Shape,
) -> Result<Response, Memory>
    requires range { InRange asked }
    requires sizes { shape ≡ sizes_for asked script.now.ranks }
    requires outgrowing { IsOutgrowing asked shape script.now.lines }
    ensures { IfOk result (IsAnswerFor asked script.now.ranks script.now.lines) }
{
    match seek(alloc, script, shape, asked.states, Sought::Hang)? {
        Seen::By { path } => {
            let why = explain_way(alloc, script, shape, asked.states, path.as_slice())?;
            Ok(told_of(script, Count::Many, Some(why)))
        }
        Seen::Never => Ok(told_of(script, Count::Many, None)),
        Seen::Open => Ok(Response::Outgrown {
            states: asked.states,
        }),
    }
}

/// The answer for a script whose reports outgrow the list, by what was found of it.
#[tactic(auto, using(crate::proofs::AnswerLemmas::outgrown_right))]
fn answer_found(
    alloc: Global,
    asked: Asked,
    script: &Script,
    shape: Shape,
    found: &Hang,
) -> Result<Response, Memory>
    requires range { InRange asked }
    requires sizes { shape ≡ sizes_for asked script.now.ranks }
    requires outgrowing { IsOutgrowing asked shape script.now.lines }
    requires found { IsHang shape script.now.lines asked.states found.now }
    ensures { IfOk result (IsAnswerFor asked script.now.ranks script.now.lines) }
{
    match found {
        Hang::Found { .. } => answer_hanging(alloc, asked, script, shape),
        Hang::Never => Ok(told_of(script, Count::Many, None)),
        Hang::Open => Ok(Response::Outgrown {
            states: asked.states,
        }),
    }
}

/// The answer for a script whose reports outgrow the list.
fn answer_many(
    alloc: Global,
    asked: Asked,
    script: &Script,
    shape: Shape,
) -> Result<Response, Memory>
    requires range { InRange asked }
    requires sizes { shape ≡ sizes_for asked script.now.ranks }
    requires outgrowing { IsOutgrowing asked shape script.now.lines }
    ensures { IfOk result (IsAnswerFor asked script.now.ranks script.now.lines) }
{
    let found = find_hang(alloc, script, shape, asked.states)?;
    answer_found(alloc, asked, script, shape, &found)
}

/// The answer for a script.
pub fn answer_script(alloc: Global, asked: Asked, script: &Script) -> Result<Response, Memory>
    requires { InRange asked }
    ensures { IfOk result (IsAnswerFor asked script.now.ranks script.now.lines) }
{
    let shape = Shape::new(script.ranks, asked.cells, asked.eager).unwrap();
    match explore(alloc, script, shape, asked.states)? {
        Explored::All(ends) => answer_ends(alloc, asked, script, shape, ends.into_vec()),
        Explored::TooMany => answer_many(alloc, asked, script, shape),
    }
}
