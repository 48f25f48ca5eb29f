//! What each line of a plan asks of the script's run, and shows of it.

ghost use Rattle.std.specs.Prelude.{◌≡◌, ◌<◌, ◌^◌, ◌++◌, ◌∷◌, [], List, IfOk, OnOk, length};
ghost use Rattle.std.specs.Prelude.{option_copied};
ghost use Rattle.nm_types.specs.declared.limits.TheConstants.{MAX_LINES};
ghost use Rattle.nm_persist.specs.Plans.{AreReady};
ghost use Rattle.nm_plans.specs.Expansion.{commands_for};
ghost use Rattle.nm_persist.specs.Report.{asked_behind, asked_by as asked_by_lem};
ghost use Rattle.nm_persist.specs.declared.asked.Asked as questions;
ghost use Rattle.nm_persist.specs.Results.{AreRows};
ghost use Rattle.nm_persist.specs.Report.{first_name as first_name_lem, shows as shows_lem};

use nm_plans::requests::{Request, Requests};
use nm_plans::{PlanCommand, PlanLine};
use nm_types::Memory;
use std::alloc::Global;

/// What a line shows.
#[derive(Clone, Copy)]
pub enum Show {
    Nothing,
    /// Whether a part is here.
    Arrived,
    /// That a send is complete.
    Sent,
    /// What a receive took.
    Received { from: u8, tag: u16 },
}

/// A line of a plan, by what it asks of the script's run.
#[derive(Clone, Copy)]
pub struct Asked {
    pub rank: u8,
    /// The line's number.
    pub line: u32,
    /// The name that its first command is about. The others are about the names behind it.
    pub name: u16,
    /// How many commands it stands for.
    pub count: u8,
    pub show: Show,
}

/// The name that a command's first command is about.
fn first_name(command: &PlanCommand) -> u16
    requires { first_name_lem command.now < 2 ^ 16 }
    ensures { result ≡ first_name_lem command.now }
{
    match command {
        PlanCommand::Ready { p, k } | PlanCommand::Arrived { p, k } => 16 * *p + u16::from(*k),
        _ => 16 * command.request(),
    }
}

/// How many commands a command stands for, by the request that it is about.
#[tactic(auto, using(std::proofs::lemmas::Grind::common_steps, nm_plans::proofs::PartLemmas::part_lengths))]
fn count(command: &PlanCommand, request: &Request) -> u8
    ensures { result ≡ length (commands_for command.now request.now) }
{
    match command {
        PlanCommand::Start { .. } => {
            if request.is_split_send() {
                0
            } else {
                request.part_count()
            }
        }
        PlanCommand::Wait { .. } => request.part_count(),
        PlanCommand::Ready { .. } | PlanCommand::Arrived { .. } => 1,
        _ => 0,
    }
}

/// What a command shows of the request that it is about.
fn shows(command: &PlanCommand, request: &Request) -> Show
    ensures { result ≡ shows_lem command.now request.now }
{
    match command {
        PlanCommand::Arrived { .. } => Show::Arrived,
        PlanCommand::Wait { .. } => {
            if request.is_sending() {
                Show::Sent
            } else {
                Show::Received {
                    from: request.peer,
                    tag: request.tag,
                }
            }
        }
        _ => Show::Nothing,
    }
}

/// What a line asks, by its number and the request that it is about.
fn asked_by(number: u32, line: &PlanLine, request: Option<&Request>) -> Asked
    requires { first_name_lem line.now.command < 2 ^ 16 }
    ensures { result ≡ asked_by_lem number line.now (option_copied request.entry) }
{
    let (count, show) = match request {
        Some(request) => (count(&line.command, request), shows(&line.command, request)),
        None => (0, Show::Nothing),
    };
    Asked {
        rank: line.rank,
        line: number,
        name: first_name(&line.command),
        count,
        show,
    }
}

/// Puts what a line asks behind what its rank's lines before it ask.
fn put(all: &mut Vec<Vec<Asked>>, asked: Asked) -> Result<(), Memory>
    requires { asked.rank < length all.old.items }
    ensures rows { OnOk result ((before : List questions.Asked) → AreRows before all.old.items →
        AreRows (before ++ asked ∷ []) all.new.items) }
    ensures len { OnOk result (length all.new.items ≡ length all.old.items) }
{
    all[usize::from(asked.rank)].push(asked)?;
    Ok(())
}

/// An empty row for each rank.
fn no_rows(alloc: Global, ranks: u8) -> Result<Vec<Vec<Asked>>, Memory>
    ensures rows { IfOk result (λ all. AreRows [] all.items) }
    ensures len { IfOk result (λ all. length all.items ≡ ranks) }
{
    let mut all = Vec::new(alloc);
    for _ in 0..ranks {
        all.push(Vec::new(alloc))?;
    }
    Ok(all)
}

/// What each line asks, by its rank.
pub fn asked_of(alloc: Global, ranks: u8, lines: &[PlanLine]) -> Result<Vec<Vec<Asked>>, Memory>
    requires ready { AreReady ranks lines.now }
    requires few { length lines.now < MAX_LINES }
    ensures rows { IfOk result (λ all. AreRows (asked_behind [] lines.now) all.items) }
    ensures len { IfOk result (λ all. length all.items ≡ ranks) }
{
    let mut requests = Requests::new(alloc);
    let mut all = no_rows(alloc, ranks)?;
    for (place, line) in lines.iter().enumerate() {
        put(
            &mut all,
            asked_by(place as u32 + 2, line, requests.of_line(line)),
        )?;
        requests.note(line)?;
    }
    Ok(all)
}
