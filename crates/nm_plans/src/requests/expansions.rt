//! The commands that a line of a plan stands for.

ghost use Rattle.std.specs.Prelude.{◌≡◌, ◌++◌, ◌<◌, ◌≤◌, map, IfOk, IfSome, OnOk, Some, true};
ghost use Rattle.indexmap.specs.IndexMap.{get};
ghost use Rattle.nm_plans.specs.Expansion as spec;
ghost use Rattle.nm_plans.specs.PlanRequests.{IsSmall, owner_of, part_count, same_owner};
ghost use Rattle.nm_plans.specs.Grammar.{request_in};
ghost use Rattle.nm_plans.specs.States.{allows};

use crate::requests::parts::part_body;
use crate::requests::requests::{Request, Requests, Side};
use crate::{PlanCommand, PlanLine};
use nm_types::{Command, Line, Memory, Peer, TagPick};
use std::alloc::Global;

/// The name of part k of a request.
fn name_of(p: u16, k: u8) -> u16
    requires name { p ≤ 4095 }
    requires part { k ≤ 15 }
    ensures { result ≡ spec.name_of p k }
{
    16 * p + u16::from(k)
}

impl Request {
    /// A request that sends in parts.
    pub fn is_split_send(&self) -> bool
        ensures { result ≡ spec.is_split_send self.now }
    {
        self.parts.is_some() && self.is_sending()
    }

    /// The context of its messages.
    fn context(&self) -> u8
        requires { IsSmall self.now }
        ensures { result ≡ spec.context_of self.now }
    {
        2 * self.ctx + u8::from(self.parts.is_some())
    }

    /// The command that starts its part k.
    fn start_of(&self, alloc: Global, p: u16, k: u8) -> Result<Command, Memory>
        requires small { IsSmall self.now }
        requires name { p ≤ 4095 }
        requires part { k < part_count self.now }
        ensures { IfOk result (λ command. command ≡ spec.start_of p self.now k self.now.side) }
    {
        let q = name_of(p, k);
        let tag = 16 * self.tag + u16::from(k);
        let ctx = self.context();
        match &self.side {
            Side::Sends(body) => Ok(Command::Send {
                q,
                to: self.peer,
                tag,
                ctx,
                body: part_body(alloc, self.parts, k, body)?,
                sync: false,
            }),
            Side::Receives(cap) => Ok(Command::Recv {
                q,
                from: Peer::One(self.peer),
                tag: TagPick::One(tag),
                ctx,
                cap: *cap,
            }),
        }
    }
}

/// Puts a start of each part.
fn push_starts(
    alloc: Global,
    out: &mut Vec<Line>,
    rank: u8,
    p: u16,
    request: &Request,
) -> Result<(), Memory>
    requires small { IsSmall request.now }
    requires name { p ≤ 4095 }
    ensures { OnOk result (out.new.items ≡ out.old.items ++ map (spec.line_at rank)
        (spec.each_part request.now (λ k. spec.start_of p request.now k request.now.side))) }
{
    for k in 0..request.part_count() {
        let command = request.start_of(alloc, p, k)?;
        out.push(Line { rank, command })?;
    }
    Ok(())
}

/// Puts a wait for each part.
fn push_waits(out: &mut Vec<Line>, rank: u8, p: u16, request: &Request) -> Result<(), Memory>
    requires small { IsSmall request.now }
    requires name { p ≤ 4095 }
    ensures { OnOk result (out.new.items ≡ out.old.items ++ map (spec.line_at rank)
        (spec.each_part request.now (λ k. spec.wait_of p k))) }
{
    for k in 0..request.part_count() {
        let q = name_of(p, k);
        out.push(Line {
            rank,
            command: Command::Wait { q },
        })?;
    }
    Ok(())
}

/// Puts the lines that a line stands for, by the request that it is about.
fn push_lines_of(
    alloc: Global,
    out: &mut Vec<Line>,
    line: &PlanLine,
    request: &Request,
) -> Result<(), Memory>
    requires small { IsSmall request.now }
    requires name { request_in line.now.command ≤ 4095 }
    requires allowed { allows line.now.command request.now ≡ true }
    ensures { OnOk result (out.new.items
        ≡ out.old.items ++ spec.lines_for line.now (Some request.now)) }
{
    let rank = line.rank;
    match &line.command {
        PlanCommand::Start { p } => {
            if request.is_split_send() {
                Ok(())
            } else {
                push_starts(alloc, out, rank, *p, request)
            }
        }
        PlanCommand::Ready { p, k } => {
            let command = request.start_of(alloc, *p, *k)?;
            out.push(Line { rank, command })?;
            Ok(())
        }
        PlanCommand::Arrived { p, k } => {
            let q = name_of(*p, *k);
            out.push(Line {
                rank,
                command: Command::Test { q },
            })?;
            Ok(())
        }
        PlanCommand::Wait { p } => push_waits(out, rank, *p, request),
        _ => Ok(()),
    }
}

/// Puts the lines that a line stands for, behind the lines whose requests these are.
pub fn push_lines_for(
    alloc: Global,
    out: &mut Vec<Line>,
    requests: &Requests,
    line: &PlanLine,
) -> Result<(), Memory>
    requires small { IfSome (get same_owner requests.now.map (owner_of line.now)) IsSmall }
    requires name { request_in line.now.command ≤ 4095 }
    requires allowed { IfSome (get same_owner requests.now.map (owner_of line.now))
        (λ request. allows line.now.command request ≡ true) }
    ensures { OnOk result (out.new.items ≡ out.old.items
        ++ spec.lines_for line.now (get same_owner requests.now.map (owner_of line.now))) }
{
    match requests.of_line(line) {
        Some(request) => push_lines_of(alloc, out, line, request),
        None => Ok(()),
    }
}
