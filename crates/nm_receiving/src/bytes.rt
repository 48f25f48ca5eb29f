//! The bytes of messages that receives took.

ghost use Rattle.std.specs.Prelude.{◌≡◌, ◌<◌, ◌≤◌, if◌then◌else◌, nat_lt, IfSome, IsSome, true, false, ℕ};
ghost use Rattle.std.specs.Prelude.{IsSomeAnd, None, OnOk, Some, length, slice_set};
ghost use Rattle.std.specs.List.{slice_get};
ghost use Rattle.std.specs.Option.{option_map_or};
ghost use Rattle.nm_types.specs.declared.answers.Answer.TheVariants as answer;
ghost use Rattle.nm_history.specs.Selection.{matches_source};
ghost use Rattle.nm_history.specs.Sends.{is_ask};
ghost use Rattle.nm_eager.specs.Joining.{ChangesStream, stream_from};
ghost use Rattle.nm_eager.specs.Streams.{message_of, missing, without};
ghost use Rattle.nm_rndv.specs.Grants.{IsReadyFor, grant_in, grants_from, is_whole_in, taken_in};
ghost use Rattle.nm_receiving.specs.Steps.{IsThere, bytes_there, grants_with, rows_from, rows_with};

use crate::receipts::Receipts;
use nm_eager::Joiner;
use nm_rndv::Grants;
use nm_types::{Answer, Arrival, Bytes, Envelope, How, Memory, Peer};

/// Makes room for a grant of a message that a receive from this source takes, among so many ranks.
pub(crate) fn reserve_from(grants: &mut Grants, from: Peer, ranks: usize) -> Result<(), Memory>
    requires { ranks ≡ length grants.old.grants }
    ensures ready { OnOk result ((rank : ℕ) → rank < length grants.old.grants
        → matches_source from rank ≡ true → IsReadyFor grants.new rank) }
    ensures same { grants.new.grants ≡ grants.old.grants }
{
    match from {
        Peer::Any => grants.reserve(),
        Peer::One(source) if (source as usize) < ranks => grants.reserve_for(source),
        Peer::One(_) => Ok(()),
    }
}

/// What follows where a receive takes a message, if it takes one: a message that was sent by asking is
/// granted, and one without bytes is here. There is room for the grant.
#[inline(always)]
pub(crate) fn grant_taken(grants: &mut Grants, receipts: &mut Receipts, taken: &Option<Arrival>)
    requires ready { IfSome taken.now (λ a. IsReadyFor grants.old a.env.from) }
    requires sender { IfSome taken.now (λ a. a.env.from < length grants.old.grants) }
    requires new { IfSome taken.now (λ a.
        grant_in (grants_from grants.old a.env.from) a.n ≡ None) }
    requires came { IfSome taken.now (λ a.
        IsSome (slice_get (rows_from receipts.old.rows a.env.from) a.n)) }
    ensures grants { grants.new.grants ≡ grants_with grants.old.grants taken.now }
    ensures receipts { receipts.new.rows ≡ rows_with receipts.old.rows taken.now }
{
    let Some(a) = taken else {
        return;
    };
    if a.env.how == How::Ask {
        grants.grant(a.env.from, a.n, a.env.len).unwrap();
        receipts.make_whole_if(a.env.len == 0, a.env.from, a.n);
    }
}

/// Whether the message that a live receive took is here whole. Of one that was sent by asking its grant tells it.
#[inline(always)]
pub(crate) fn is_here(grants: &Grants, receipts: &Receipts, a: &Arrival) -> bool
    requires sender { a.now.env.from < length grants.now.grants }
    requires came { IsSomeAnd (slice_get (rows_from receipts.now.rows a.now.env.from) a.now.n)
        (λ r. r.arrival ≡ a.now) }
    requires asked { is_ask a.now.env.how ≡ true
        → is_whole_in (grants_from grants.now a.now.env.from) a.now.n
        ≡ option_map_or (λ r. r.whole)
        (slice_get (rows_from receipts.now.rows a.now.env.from) a.now.n) false }
    ensures { result
        ≡ option_map_or (λ r. r.whole)
        (slice_get (rows_from receipts.now.rows a.now.env.from) a.now.n) false }
{
    match a.env.how {
        How::Ask => grants.is_whole(a.env.from, a.n),
        How::Eager => receipts.eager_is_whole(a.env.from, a.n),
    }
}

/// The bytes of a message that is here whole, which are gone then.
#[inline(always)]
pub(crate) fn take_bytes(joiner: &mut Joiner, grants: &mut Grants, a: &Arrival) -> Bytes
    requires sender { a.now.env.from < joiner.old.sizes.ranks }
    requires granted { a.now.env.from < length grants.old.grants }
    requires here { IsThere (stream_from joiner.old a.now.env.from)
        (grants_from grants.old a.now.env.from) a.now }
    ensures bytes { bytes_there (stream_from joiner.old a.now.env.from)
        (grants_from grants.old a.now.env.from) a.now ≡ Some result }
    ensures len { length result ≡ a.now.env.len }
    ensures joined { let stream = stream_from joiner.old a.now.env.from in
        ChangesStream joiner.old joiner.new a.now.env.from
        (if is_ask a.now.env.how then stream else without stream a.now.n) }
    ensures grants { grants.new.grants ≡ (if is_ask a.now.env.how
        then slice_set grants.old.grants a.now.env.from
        (taken_in (grants_from grants.old a.now.env.from) a.now.n)
        else grants.old.grants) }
    ensures missing { missing (stream_from joiner.new a.now.env.from)
        ≡ missing (stream_from joiner.old a.now.env.from) }
{
    match a.env.how {
        How::Ask => grants.take(a.env.from, a.n),
        How::Eager => take_joined(joiner, a.env.from, a.n),
    }
}

/// The bytes of an eager message of which none is missing.
fn take_joined(joiner: &mut Joiner, from: u8, n: u64) -> Bytes
    requires sender { from < joiner.old.sizes.ranks }
    requires here { IsSomeAnd (message_of (stream_from joiner.old from) n)
        (λ m. m.len ≤ length m.bytes) }
    ensures bytes { IsSomeAnd (message_of (stream_from joiner.old from) n)
        (λ m. (result ≡ m.bytes) × (length m.bytes ≡ m.len)) }
    ensures others { ChangesStream joiner.old joiner.new from
        (without (stream_from joiner.old from) n) }
    ensures missing { missing (stream_from joiner.new from)
        ≡ missing (stream_from joiner.old from) }
{
    let missing = joiner.missing(from);
    let bytes = joiner.take(from, n);
    prove!(joiner.missing(from) == missing);
    bytes
}

/// What a receive shows of a message: its bytes, or where these are more than it takes, their number
/// (MPI 3.1, section 3.2.4).
pub(crate) fn shown(a: &Arrival, cap: u32, body: Bytes) -> Answer
    ensures { result
        ≡ (if nat_lt cap a.now.env.len
        then answer.Cut a.now.env.from a.now.env.tag a.now.env.len
        else answer.Got a.now.env.from a.now.env.tag body) }
{
    let Envelope { from, tag, len, .. } = a.env;
    if cap < len {
        Answer::Cut { from, tag, len }
    } else {
        Answer::Got { from, tag, body }
    }
}
