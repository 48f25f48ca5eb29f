//! The two ends of requests, by which the requests of two ranks belong together.

ghost use Rattle.std.specs.Prelude.{◌≡◌, None, OnOk};
ghost use Rattle.indexmap.specs.IndexMap.{get};
ghost use Rattle.nm_plans.specs.Ends.{end_in, other_end, parts_behind, same_end};
ghost use Rattle.nm_plans.specs.Ends.{end as end_lem, parts_in as parts_in_lem};

use crate::{PlanCommand, PlanLine};
use indexmap::IndexMap;
use nm_types::Memory;
use std::alloc::Global;

/// Which way a request goes, and whether it is partitioned.
#[derive(Clone, Copy, Eq, Hash)]
pub struct Sort {
    pub sends: bool,
    pub split: bool,
}

impl PartialEq for Sort {
    ghost use Rattle.std.proofs.Common.{rules};
    ghost use Rattle.std.specs.Cmp.Rules.{comparing};
    ghost use Rattle.nm_plans.specs.Ends.{same_sort};

    ghost eq = { λ a b. same_sort a b };

    ghost laws = { Prim.search (comparing, rules) };

    fn eq(&self, other: &Sort) -> bool {
        self.sends == other.sends && self.split == other.split
    }
}

/// A tag and a context, which way a request goes and whether it is in parts.
#[derive(Clone, Copy, Hash)]
pub struct Channel {
    pub tag: u16,
    pub ctx: u8,
    pub sort: Sort,
}

impl PartialEq for Channel {
    ghost use Rattle.nm_plans.specs.Ends.{channel_partial_laws, same_channel};

    ghost eq = { λ a b. same_channel a b };

    ghost laws = { channel_partial_laws };

    fn eq(&self, other: &Channel) -> bool {
        self.tag == other.tag && self.ctx == other.ctx && self.sort == other.sort
    }
}

impl Eq for Channel {
    ghost use Rattle.nm_plans.specs.Ends.{channel_laws};

    ghost laws = { channel_laws };
}

/// One end of a request: its rank, the other rank, and its channel.
#[derive(Clone, Copy, Hash)]
pub struct End {
    pub rank: u8,
    pub peer: u8,
    pub channel: Channel,
}

impl Eq for End {
    ghost use Rattle.nm_plans.specs.Ends.{end_laws};

    ghost laws = { end_laws };
}

impl PartialEq for End {
    ghost use Rattle.nm_plans.specs.Ends.{end_partial_laws, same_end};

    ghost eq = { λ a b. same_end a b };

    ghost laws = { end_partial_laws };

    fn eq(&self, other: &End) -> bool {
        self.rank == other.rank && self.peer == other.peer && self.channel == other.channel
    }
}

/// The end of a rank.
fn end_at(rank: u8, peer: u8, tag: u16, ctx: u8, sort: Sort) -> End
    ensures { result ≡ end_lem rank peer tag ctx sort.sends sort.split }
{
    let channel = Channel { tag, ctx, sort };
    End {
        rank,
        peer,
        channel,
    }
}

impl End {
    /// The end of the request that a line makes.
    pub fn of_line(line: &PlanLine) -> Option<End>
        ensures { result ≡ end_in line.now.rank line.now.command }
    {
        let rank = line.rank;
        match &line.command {
            PlanCommand::SendInit { to, tag, ctx, .. } => {
                let (sends, split) = (true, false);
                Some(end_at(rank, *to, *tag, *ctx, Sort { sends, split }))
            }
            PlanCommand::RecvInit { from, tag, ctx, .. } => {
                let (sends, split) = (false, false);
                Some(end_at(rank, *from, *tag, *ctx, Sort { sends, split }))
            }
            PlanCommand::PsendInit { to, tag, ctx, .. } => {
                let (sends, split) = (true, true);
                Some(end_at(rank, *to, *tag, *ctx, Sort { sends, split }))
            }
            PlanCommand::PrecvInit { from, tag, ctx, .. } => {
                let (sends, split) = (false, true);
                Some(end_at(rank, *from, *tag, *ctx, Sort { sends, split }))
            }
            _ => None,
        }
    }

    /// The end at the other rank.
    pub fn other(self) -> End
        ensures { result ≡ other_end self }
    {
        let Channel { tag, ctx, sort } = self.channel;
        let sort = Sort {
            sends: !sort.sends,
            split: sort.split,
        };
        end_at(self.peer, self.rank, tag, ctx, sort)
    }
}

/// The number of parts of the request that a command makes, 1 where it isn't partitioned.
pub fn parts_in(command: &PlanCommand) -> u8
    ensures { result ≡ parts_in_lem command.now }
{
    match command {
        PlanCommand::PsendInit { parts, .. } | PlanCommand::PrecvInit { parts, .. } => *parts,
        _ => 1,
    }
}

/// The ends of all requests so far, each with its number of parts.
#[derive(Drop)]
pub struct Ends {
    pub map: IndexMap<End, u8>,
}

impl Ends {
    ghost use Rattle.nm_plans.specs.declared.requests.ends.End as end;

    /// No end yet.
    pub fn new(alloc: Global) -> Self
        ensures { (e : end.End) → get same_end result.map e ≡ None }
    {
        Ends {
            map: IndexMap::new(alloc),
        }
    }

    /// How many parts the request with this end has, if there is one.
    pub fn parts(&self, end: End) -> Option<u8>
        ensures { result ≡ get same_end self.now.map end }
    {
        self.map.get(&end).copied()
    }

    /// Takes the end of the request that a line makes.
    pub fn note(&mut self, line: &PlanLine) -> Result<(), Memory>
        ensures { OnOk result ((e : end.End) → get same_end self.new.map e
            ≡ parts_behind e (get same_end self.old.map e) line.now) }
    {
        if let Some(end) = End::of_line(line) {
            self.map.insert(end, parts_in(&line.command))?;
        }
        Ok(())
    }
}
