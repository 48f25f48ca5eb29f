//! The starts of messages and receives.

ghost use Rattle.std.specs.Prelude.{◌≡◌};
ghost use Rattle.nm_types.specs.Bodies.{body_len};
ghost use Rattle.nm_lookups.specs.Deciding.{Decides};

use nm_history::Happened;
use nm_lookups::asked::since::Called;
use nm_types::{Body, Peer, TagPick};

/// A send or a receive.
pub(crate) struct Starting;

impl Called for Starting {
    ghost use Rattle.nm_history.specs.RankRun.{is_start};

    ghost counts = { is_start };

    fn is_called(what: &Happened) -> bool {
        matches!(
            what,
            Happened::Send { .. } | Happened::Post { .. } | Happened::Match { .. }
        )
    }
}

pub(crate) fn is_same_peer(a: Peer, b: Peer) -> bool
    ensures { Decides result (a ≡ b) }
{
    a == b
}

pub(crate) fn is_same_pick(a: TagPick, b: TagPick) -> bool
    ensures { Decides result (a ≡ b) }
{
    a == b
}

/// The length of a body.
pub(crate) fn length_of(body: &Body) -> u64
    ensures { result ≡ body_len body.now }
{
    match body {
        Body::Hex(bytes) => bytes.len() as u64,
        Body::Gen(len) => u64::from(*len),
    }
}
