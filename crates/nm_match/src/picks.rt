//! The keys of the buckets.

ghost use Rattle.std.specs.Prelude.{◌≡◌};
ghost use Rattle.std.specs.Hash as fed;
ghost use Rattle.nm_match.specs.Picks.{code_of, names_both, picks_of_arrival, picks_of_post};
ghost use Rattle.nm_match.specs.Wildcards.{with_any_message as any_message_lem, with_any_source as any_source_lem};
ghost use Rattle.nm_match.specs.Wildcards.{with_any_tag as any_tag_lem};

use nm_types::{Arrival, Peer, Post, TagPick};
use std::hash::{Hash, Hasher};

/// What a receive names: a source, a tag and a context. What waits in one bucket has the same.
#[derive(Clone, Copy, Eq)]
pub struct Picks {
    pub from: Peer,
    pub tag: TagPick,
    pub ctx: u8,
}

impl PartialEq for Picks {
    ghost use Rattle.std.proofs.Common.{rules};
    ghost use Rattle.std.specs.Cmp.Rules.{comparing};
    ghost use Rattle.nm_match.specs.Picks.{same_picks};

    ghost eq = { λ a b. same_picks a b };

    ghost laws = { Prim.search (comparing, rules) };

    fn eq(&self, other: &Picks) -> bool {
        self.from == other.from && self.tag == other.tag && self.ctx == other.ctx
    }
}

/// A source, a tag and a context as one number.
fn code(from: Peer, tag: TagPick, ctx: u8) -> u64
    ensures { result ≡ code_of (record { from = from; tag = tag; ctx = ctx }) }
{
    let from = match from {
        Peer::Any => 0,
        Peer::One(rank) => 1 + u64::from(rank),
    };
    let tag = match tag {
        TagPick::Any => 0,
        TagPick::One(tag) => 1 + u64::from(tag),
    };
    from + 512 * tag + 67108864 * u64::from(ctx)
}

impl Hash for Picks {
    ghost use Rattle.nm_match.specs.SameKeys.{picks_alike};

    ghost hash_input = { λ a. fed.u64 (code_of a) };

    ghost respects_eq = { picks_alike.fed };

    fn hash<H: Hasher>(&self, state: &mut H) {
        state.write_u64(code(self.from, self.tag, self.ctx));
    }
}

/// Whether a source and a tag are named.
pub(crate) fn is_named(key: &Picks) -> bool
    ensures { result ≡ names_both key.now }
{
    key.from != Peer::Any && key.tag != TagPick::Any
}

/// What a posted receive names.
pub(crate) fn of_post(p: &Post) -> Picks
    ensures { result ≡ picks_of_post p.now }
{
    Picks {
        from: p.from,
        tag: p.tag,
        ctx: p.ctx,
    }
}

/// What names the source, the tag and the context of a message.
pub(crate) fn of_arrival(a: &Arrival) -> Picks
    ensures { result ≡ picks_of_arrival a.now }
{
    Picks {
        from: Peer::One(a.env.from),
        tag: TagPick::One(a.env.tag),
        ctx: a.env.ctx,
    }
}

/// The same source in the same context, and any tag.
pub(crate) fn with_any_tag(key: Picks) -> Picks
    ensures { result ≡ any_tag_lem key }
{
    Picks {
        from: key.from,
        tag: TagPick::Any,
        ctx: key.ctx,
    }
}

/// The same tag in the same context, and any source.
pub(crate) fn with_any_source(key: Picks) -> Picks
    ensures { result ≡ any_source_lem key }
{
    Picks {
        from: Peer::Any,
        tag: key.tag,
        ctx: key.ctx,
    }
}

/// Any source and any tag in the same context.
pub(crate) fn with_any_message(key: Picks) -> Picks
    ensures { result ≡ any_message_lem key }
{
    Picks {
        from: Peer::Any,
        tag: TagPick::Any,
        ctx: key.ctx,
    }
}
