//! Numbers that tell states apart, mostly.

ghost use Rattle.std.specs.Prelude.{◌≡◌, fold};
ghost use Rattle.nm_search.specs.Numbers.{mixed_lem};
ghost use Rattle.nm_lawful.specs.Numbers.{rank_number, request_number, standing_number, state_number};

use crate::messages::{Message, Request, Standing};
use crate::ranks::Rank;
use nm_search::mixed;

/// A number of how a request stands.
fn of_standing(standing: &Standing) -> u64
    ensures { result ≡ standing_number standing.now }
{
    match standing {
        Standing::Send { .. } => 1,
        Standing::Recalled { .. } => 2,
        Standing::Withdrawn => 3,
        Standing::Open { .. } => 4,
        Standing::Marked { .. } => 5,
        Standing::Off => 6,
        Standing::Taken { message, .. } => mixed(7, message.place as u64),
    }
}

/// A number of a request.
fn of_request(r: &Request) -> u64
    ensures { result ≡ request_number r.now }
{
    mixed(r.place as u64, of_standing(&r.standing))
}

/// A number of requests, in order.
fn of_requests(requests: &[Request]) -> u64
    ensures { result ≡ fold (λ sum r. mixed_lem sum (request_number r)) 1 requests.now }
{
    requests.iter().fold(1, |sum, r| mixed(sum, of_request(r)))
}

/// A number of messages, in order.
fn of_messages(messages: &[Message]) -> u64
    ensures { result ≡ fold (λ sum m. mixed_lem sum m.place) 2 messages.now }
{
    messages.iter().fold(2, |sum, m| mixed(sum, m.place as u64))
}

/// A number of a rank.
pub fn of_rank(rank: &Rank) -> u64
    ensures { result ≡ rank_number rank.now }
{
    mixed(
        mixed(rank.at() as u64, of_requests(rank.requests())),
        of_messages(rank.outgoing()),
    )
}

/// A number of a state.
pub fn of_state(ranks: &[Rank]) -> u64
    ensures { result ≡ state_number ranks.now }
{
    ranks.iter().fold(3, |sum, rank| mixed(sum, of_rank(rank)))
}
