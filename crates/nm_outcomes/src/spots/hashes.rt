//! Numbers that tell parts of states apart, mostly.

ghost use Rattle.std.specs.Prelude.{◌≡◌};
ghost use Rattle.nm_outcomes.specs.Numbers.{arrival_number, deed_number, pair_number, part_number, reply_number};

use crate::spots::deeds::{Deed, Part, Reply};
use nm_history::plain::Pair;
use nm_search::mixed;
use nm_types::Arrival;

/// A number of an answer.
fn of_reply(reply: Reply) -> u64
    ensures { result ≡ reply_number reply }
{
    match reply {
        Reply::Started => 1,
        Reply::Busy => 2,
        Reply::Null => 3,
        Reply::No => 4,
        Reply::Nothing => 5,
        Reply::Sent => 6,
        Reply::Got { from, line, .. } => mixed(mixed(7, u64::from(from)), line),
        Reply::Cut { from, .. } => mixed(8, u64::from(from)),
        Reply::Cancelled => 9,
        Reply::Seen(seen) => mixed(mixed(10, u64::from(seen.from)), u64::from(seen.tag)),
        Reply::Done => 11,
        Reply::Late => 12,
        Reply::Asked => 13,
    }
}

/// A number of a deed.
fn of_deed(deed: &Deed) -> u64
    ensures { result ≡ deed_number deed.now }
{
    match deed {
        Deed::Send { line, .. } => mixed(1, *line),
        Deed::Post { line, .. } => mixed(2, *line),
        Deed::Match { from, n, .. } => mixed(mixed(3, u64::from(*from)), *n),
        Deed::Cancel { number, .. } => mixed(4, *number),
        Deed::Recall { to, n } => mixed(mixed(5, u64::from(*to)), *n),
        Deed::Claim { from, n, .. } => mixed(mixed(6, u64::from(*from)), *n),
        Deed::Ran { line, reply } => mixed(mixed(7, *line), of_reply(*reply)),
    }
}

/// A number of a message.
fn of_arrival(a: &Arrival) -> u64
    ensures { result ≡ arrival_number a.now }
{
    mixed(u64::from(a.env.from), a.n)
}

/// A number of a receive with its message.
fn of_pair(p: &Pair) -> u64
    ensures { result ≡ pair_number p.now }
{
    mixed(p.number, of_arrival(&p.arrival))
}

/// A number of a part of a rank's state.
pub fn of_part(part: &Part) -> u64
    ensures { result ≡ part_number part.now }
{
    match part {
        Part::Did(deed) => mixed(1, of_deed(deed)),
        Part::Open(receive) => mixed(2, receive.number),
        Part::Free(a) => mixed(3, of_arrival(a)),
        Part::Paired(p) => mixed(4, of_pair(p)),
        Part::Came(a) => mixed(5, of_arrival(a)),
        Part::Gone(message) => mixed(6, mixed(u64::from(message.rank), message.n)),
    }
}
