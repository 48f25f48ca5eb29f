//! The lines of a plan: commands on persistent and partitioned requests.

ghost use Rattle.std.specs.Prelude.{◌≡◌, ◌≤◌, ◌↔◌, [], ◌∷◌, ◌++◌, length, IsNone, IsTrue};
ghost use Rattle.std.specs.Prelude.{OnOk, OnErr, slice_get, option_copied};

use nm_types::{Body, Memory};
use std::alloc::Global;
use std::marker::Model;

/// A command of a rank on one of its requests, which has the name `p`.
#[derive(Drop)]
pub enum PlanCommand {
    /// Makes a persistent request that sends (MPI 3.1, section 3.9).
    SendInit {
        p: u16,
        to: u8,
        tag: u16,
        ctx: u8,
        body: Body,
    },
    /// Makes a persistent request that receives at most `cap` bytes (MPI 3.1, section 3.9).
    RecvInit {
        p: u16,
        from: u8,
        tag: u16,
        ctx: u8,
        cap: u32,
    },
    /// Makes a request that sends in so many parts (MPI 4.0, section 4.2.1).
    PsendInit {
        p: u16,
        to: u8,
        tag: u16,
        ctx: u8,
        parts: u8,
        body: Body,
    },
    /// Makes a request that receives in so many parts of at most `cap` bytes each (MPI 4.0, section
    /// 4.2.1).
    PrecvInit {
        p: u16,
        from: u8,
        tag: u16,
        ctx: u8,
        parts: u8,
        cap: u32,
    },
    /// Puts another body into a request that sends: its later starts send this one.
    Fill {
        p: u16,
        body: Body,
    },
    /// Starts a request, which is active from then on (MPI 3.1, section 3.9).
    Start {
        p: u16,
    },
    /// Says that part `k` may be sent (MPI 4.0, section 4.2.1).
    Ready {
        p: u16,
        k: u8,
    },
    /// Asks whether part `k` is here (MPI 4.0, section 4.2.2).
    Arrived {
        p: u16,
        k: u8,
    },
    /// Goes on until the request is complete, which is inactive from then on (MPI 3.1,
    /// section 3.7.3).
    Wait {
        p: u16,
    },
}

/// A command with the rank that runs it.
#[derive(Drop)]
pub struct PlanLine {
    pub rank: u8,
    pub command: PlanCommand,
}

/// A list of a plan's lines.
#[derive(Drop)]
pub struct PlanLines {
    items: Vec<PlanLine>,
}

impl Model for PlanLines {
    ghost use Rattle.std.specs.Prelude.{List};
    ghost use Rattle.nm_plans.specs.declared.lines.PlanLine.{PlanLine};

    ghost Value = { List PlanLine };

    ghost view = { λ a. a.items.items };
}

impl PlanLines {
    /// The empty list.
    pub fn new(alloc: Global) -> Self
        ensures { result ≡ [] }
    {
        PlanLines {
            items: Vec::new(alloc),
        }
    }

    /// The list of these lines.
    pub fn from_vec(items: Vec<PlanLine>) -> Self
        ensures { result ≡ items.items }
    {
        PlanLines { items }
    }

    /// The lines, given away.
    pub fn into_vec(self) -> Vec<PlanLine>
        ensures { result.items ≡ self }
    {
        self.items
    }

    /// Puts a line at the end.
    pub fn push(&mut self, line: PlanLine) -> Result<(), Memory>
        ensures ok { OnOk result (self.new ≡ self.old ++ line ∷ []) }
        ensures err { OnErr result (self.new ≡ self.old) }
    {
        self.items.push(line)?;
        Ok(())
    }

    /// How many lines there are.
    pub fn len(&self) -> usize
        ensures { result ≡ length self.now }
    {
        self.items.len()
    }

    /// Whether there is none.
    pub fn is_empty(&self) -> bool
        ensures { IsTrue result ↔ (self.now ≡ []) }
    {
        self.items.is_empty()
    }

    /// The lines, in order.
    pub fn as_slice(&self) -> &[PlanLine]
        ensures { result.now ≡ self.now }
    {
        self.items.as_slice()
    }

    /// The line at place k, from 0; `None` where there are at most k.
    pub fn get(&self, k: usize) -> Option<&PlanLine>
        ensures value { option_copied result ≡ slice_get self.now k }
        ensures none { IsNone result ↔ (length self.now ≤ k) }
    {
        self.items.get(k)
    }
}

impl PlanCommand {
    ghost use Rattle.nm_plans.specs.Grammar.{request_in};

    /// The name of the request that it is about.
    pub fn request(&self) -> u16
        ensures { result ≡ request_in self.now }
    {
        match self {
            PlanCommand::SendInit { p, .. }
            | PlanCommand::RecvInit { p, .. }
            | PlanCommand::PsendInit { p, .. }
            | PlanCommand::PrecvInit { p, .. }
            | PlanCommand::Fill { p, .. }
            | PlanCommand::Start { p }
            | PlanCommand::Ready { p, .. }
            | PlanCommand::Arrived { p, .. }
            | PlanCommand::Wait { p } => *p,
        }
    }
}
