//! Which packets continue a stream.

ghost use Rattle.std.specs.Prelude.{◌≡◌, min};
ghost use Rattle.nm_types.specs.declared.limits.TheConstants.{MAX_PAYLOAD};
ghost use Rattle.nm_eager.specs.Streams.{continues as continues_lem, is_eager as is_eager_lem};

use nm_types::{MAX_BODY, MAX_PAYLOAD, MAX_TAG, What};

/// How many bytes the next packet carries of a message that lacks so many.
fn part_of(missing: u32) -> usize
    ensures { result ≡ min MAX_PAYLOAD missing }
{
    u32::from(MAX_PAYLOAD).min(missing) as usize
}

/// Whether a packet belongs to an eager message.
pub(crate) fn is_eager(what: What) -> bool
    ensures { result ≡ is_eager_lem what }
{
    match what {
        What::Head { .. } | What::More { .. } => true,
        What::Ask { .. } | What::Clear { .. } | What::Withdraw { .. } | What::Withdrawn { .. } =>
            false,
    }
}

/// Whether a packet begins a message, announces one, or goes on with one, and continues a stream of
/// so many messages, of which so many bytes are missing, at a rank with this eager limit, in bytes.
/// Its payload has this size.
pub fn continues(eager: u16, count: u64, missing: u32, what: What, size: usize) -> bool
    ensures { result ≡ continues_lem eager count missing what size }
{
    match what {
        What::Head { tag, len, .. } => {
            missing == 0 && len <= u32::from(eager) && tag <= MAX_TAG && size == part_of(len)
        }
        What::More { n } => {
            0 < missing && n < count && n + 1 == count && size == part_of(missing)
        }
        What::Ask { tag, len, .. } => {
            missing == 0 && len <= MAX_BODY && tag <= MAX_TAG && size == 0
        }
        What::Clear { .. } | What::Withdraw { .. } | What::Withdrawn { .. } => false,
    }
}
