//! The run of a plan.

ghost use Rattle.std.specs.Prelude.{◌≡◌, IfErr, IfOk};
ghost use Rattle.nm_script.specs.CommandWords.{InRange};
ghost use Rattle.nm_script.specs.declared.command_line.Mode.TheVariants.{Parts};
ghost use Rattle.nm_persist.specs.Rules.{IsTextOf};
ghost use Rattle.nm_cli.specs.Answers.{IsAnswerForBytes, IsAnswerForPlan};
ghost use Rattle.nm_cli.specs.Plans.{PlanRefuses};

use crate::answers::Response;
use crate::runs::run;
use nm_outside::Gate;
use nm_persist::{Plan, PlanFault};
use nm_script::command_line::CommandLine;
use nm_types::Memory;
use std::alloc::Global;
use std::sync::Wait;
use std::thread::Threads;

// The plan that the bytes spell, or their first fault.
fn read_plan(alloc: Global, bytes: &[u8]) -> Result<Plan, PlanFault>
    ensures taken { IfOk result (λ plan. IsTextOf bytes.now plan.ranks plan.lines) }
    ensures refused { IfErr result (PlanRefuses bytes.now) }
{
    match nm_persist::read(alloc, bytes) {
        Ok(plan) => Ok(plan),
        Err(PlanFault::Memory) => Err(PlanFault::Memory),
        Err(PlanFault::Bad { line, kind }) => Err(PlanFault::Bad { line, kind }),
    }
}

// Runs the script of a plan.
fn run_plan<R: Threads + Wait + Sync, G: Gate + Sync>(
    rt: &R,
    alloc: Global,
    line: &CommandLine,
    plan: Plan,
    gate: &G,
) -> Result<Response, Memory>
    requires { InRange line.now }
    ensures { IfOk result (IsAnswerForPlan line.now plan.ranks plan.lines) }
{
    let script = plan.expand(alloc)?;
    let (run, ways) = run(rt, alloc, line, &script, gate)?;
    Ok(Response::Planned { plan, run, ways })
}

/// Runs the script of the plan that the bytes spell, or has their first fault.
pub fn answer_plan<R: Threads + Wait + Sync, G: Gate + Sync>(
    rt: &R,
    alloc: Global,
    line: &CommandLine,
    bytes: &[u8],
    gate: &G,
) -> Result<Response, Memory>
    requires range { InRange line.now }
    requires parts { line.now.mode ≡ Parts }
    ensures { IfOk result (IsAnswerForBytes line.now bytes.now) }
{
    match read_plan(alloc, bytes) {
        Ok(plan) => run_plan(rt, alloc, line, plan, gate),
        Err(PlanFault::Bad { line, kind }) => Ok(Response::NoPlan { line, kind }),
        Err(PlanFault::Memory) => Err(Memory),
    }
}
