//! The requests of a plan, and the state that they are in.

ghost use Rattle.std.specs.Prelude.{◌≡◌, None, option_copied, IfOk, OnOk};
ghost use Rattle.indexmap.specs.IndexMap.{get};
ghost use Rattle.nm_plans.specs.PlanRequests.{changed_by, is_sending, owner_of, part_count};
ghost use Rattle.nm_plans.specs.PlanRequests.{request_behind, same_owner};
ghost use Rattle.nm_plans.specs.PlanRequests.{inactive as inactive_lem, made_by as made_by_lem};

use crate::{PlanCommand, PlanLine};
use indexmap::IndexMap;
use nm_types::{Body, Memory};
use std::alloc::Global;

/// The name of a request, which is the rank's own.
#[derive(Clone, Copy, Eq, Hash)]
pub struct Owner {
    pub rank: u8,
    pub p: u16,
}

impl PartialEq for Owner {
    ghost use Rattle.std.proofs.Common.{rules};
    ghost use Rattle.std.specs.Cmp.Rules.{comparing};
    ghost use Rattle.nm_plans.specs.PlanRequests.{same_owner};

    ghost eq = { λ a b. same_owner a b };

    ghost laws = { Prim.search (comparing, rules) };

    fn eq(&self, other: &Owner) -> bool {
        self.rank == other.rank && self.p == other.p
    }
}

/// What a request does when it is started.
#[derive(Drop)]
pub enum Side {
    /// It sends this body.
    Sends(Body),
    /// It receives at most so many bytes, in each part.
    Receives(u32),
}

/// A request.
#[derive(Drop)]
pub struct Request {
    pub peer: u8,
    pub tag: u16,
    pub ctx: u8,
    /// How many parts it has. There is no number where it isn't partitioned.
    pub parts: Option<u8>,
    pub side: Side,
    pub active: bool,
    /// Which parts are ready since its start.
    pub ready: [bool; 16],
}

impl Request {
    /// How many parts it has, one that isn't partitioned 1.
    pub fn part_count(&self) -> u8
        ensures { result ≡ part_count self.now }
    {
        self.parts.unwrap_or(1)
    }

    /// Whether it is a send.
    pub fn is_sending(&self) -> bool
        ensures { result ≡ is_sending self.now.side }
    {
        match self.side {
            Side::Sends(_) => true,
            Side::Receives(_) => false,
        }
    }

    /// What a command that makes no request makes of this one.
    fn change(&mut self, command: &PlanCommand) -> Result<(), Memory>
        ensures { OnOk result (self.new ≡ changed_by command.now self.old) }
    {
        match command {
            PlanCommand::Fill { body, .. } => self.side = Side::Sends(body.copy()?),
            PlanCommand::Start { .. } => {
                self.active = true;
                self.ready = [false; 16];
            }
            PlanCommand::Ready { k, .. } => {
                let part = usize::from(*k);
                if part < self.ready.len() {
                    self.ready[part] = true;
                }
            }
            PlanCommand::Wait { .. } => self.active = false,
            _ => {}
        }
        Ok(())
    }
}

/// A request that isn't active.
fn inactive(peer: u8, tag: u16, ctx: u8, parts: Option<u8>, side: Side) -> Request
    ensures { result ≡ inactive_lem peer tag ctx parts side }
{
    Request {
        peer,
        tag,
        ctx,
        parts,
        side,
        active: false,
        ready: [false; 16],
    }
}

/// The request that a command makes.
fn made_by(command: &PlanCommand) -> Result<Option<Request>, Memory>
    ensures { IfOk result (λ request. request ≡ made_by_lem command.now) }
{
    let made = match command {
        PlanCommand::SendInit {
            to,
            tag,
            ctx,
            body,
            ..
        } => inactive(*to, *tag, *ctx, None, Side::Sends(body.copy()?)),
        PlanCommand::RecvInit {
            from,
            tag,
            ctx,
            cap,
            ..
        } => inactive(*from, *tag, *ctx, None, Side::Receives(*cap)),
        PlanCommand::PsendInit {
            to,
            tag,
            ctx,
            parts,
            body,
            ..
        } => inactive(*to, *tag, *ctx, Some(*parts), Side::Sends(body.copy()?)),
        PlanCommand::PrecvInit {
            from,
            tag,
            ctx,
            parts,
            cap,
            ..
        } => inactive(*from, *tag, *ctx, Some(*parts), Side::Receives(*cap)),
        _ => return Ok(None),
    };
    Ok(Some(made))
}

/// The requests of a plan so far.
#[derive(Drop)]
pub struct Requests {
    pub map: IndexMap<Owner, Request>,
}

impl Requests {
    ghost use Rattle.nm_plans.specs.declared.requests.requests.Owner as owner;

    /// No request yet.
    pub fn new(alloc: Global) -> Self
        ensures { (owner : owner.Owner) → get same_owner result.map owner ≡ None }
    {
        Requests {
            map: IndexMap::new(alloc),
        }
    }

    /// The request of a line.
    pub fn of_line(&self, line: &PlanLine) -> Option<&Request>
        ensures { option_copied result ≡ get same_owner self.now.map (owner_of line.now) }
    {
        self.map.get(&Owner {
            rank: line.rank,
            p: line.command.request(),
        })
    }

    /// Makes what a line makes, and changes what it changes.
    pub fn note(&mut self, line: &PlanLine) -> Result<(), Memory>
        ensures { OnOk result ((owner : owner.Owner) → get same_owner self.new.map owner
            ≡ request_behind owner (get same_owner self.old.map owner) line.now) }
    {
        let owner = Owner {
            rank: line.rank,
            p: line.command.request(),
        };
        match made_by(&line.command)? {
            Some(request) => {
                self.map.insert(owner, request)?;
            }
            None => {
                if let Some(request) = self.map.get_mut(&owner) {
                    request.change(&line.command)?;
                }
            }
        }
        Ok(())
    }
}
