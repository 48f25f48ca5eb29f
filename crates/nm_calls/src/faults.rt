//! Why a call is refused.

ghost use Rattle.std.specs.Prelude.{◌≡◌, true, false, nat_le, nat_lt, ◌&&◌, IfErr, IfOk};
ghost use Rattle.nm_types.specs.declared.limits.TheConstants.{MAX_BODY, MAX_CAPACITY, MAX_TAG};
ghost use Rattle.nm_types.specs.Bodies.{body_len};
ghost use Rattle.nm_types.specs.Limits.{is_in_range, is_peer, is_pick};
ghost use Rattle.nm_calls.specs.Refusing.{IsOutOfRange, is_of_range};

use nm_types::{
    Body, Command, MAX_BODY, MAX_CAPACITY, MAX_CONTEXT, MAX_NAME, MAX_TAG, Memory, Peer, TagPick,
};

/// Why a call is refused, or was broken off.
#[derive(Clone, Copy, Debug, PartialEq)]
pub enum Fault {
    /// The name of a request or of a handle is above its limit.
    Name,
    /// The rank is none of the world.
    Rank,
    /// The tag is above its limit.
    Tag,
    /// The context is above its limit.
    Context,
    /// The body, or the capacity of a receive, is above its limit.
    Length,
    /// A command that was given has still to run.
    Waits,
    /// The rank is closed.
    Closed,
    /// The rank has used up its numbers.
    Worn,
    /// Memory was refused: the rank has failed.
    Memory,
    /// The rank failed before.
    Failed,
}

impl From<Memory> for Fault {
    ghost use Rattle.std.specs.Prelude.{◌≡◌};
    ghost use Rattle.nm_calls.specs.declared.faults.Fault.TheVariants as fault;

    ghost from_gives = { λ _ e. e ≡ fault.Memory };

    fn from(_memory: Memory) -> Fault {
        Fault::Memory
    }
}

// That this holds, or this fault.
fn check(holds: bool, fault: Fault) -> Result<(), Fault>
    ensures ok { IfOk result (λ _. holds ≡ true) }
    ensures err { IfErr result (λ e. (holds ≡ false) × (e ≡ fault)) }
{
    if holds { Ok(()) } else { Err(fault) }
}

// That a source is a rank of so many, or any.
fn check_peer(ranks: u8, from: Peer) -> Result<(), Fault>
    ensures ok { IfOk result (λ _. is_peer ranks from ≡ true) }
    ensures err { IfErr result (λ e. (is_of_range e ≡ true) × (is_peer ranks from ≡ false)) }
{
    match from {
        Peer::Any => Ok(()),
        Peer::One(rank) => check(rank < ranks, Fault::Rank),
    }
}

// That a tag is within its limit, or any.
fn check_pick(tag: TagPick) -> Result<(), Fault>
    ensures ok { IfOk result (λ _. is_pick tag ≡ true) }
    ensures err { IfErr result (λ e. (is_of_range e ≡ true) × (is_pick tag ≡ false)) }
{
    match tag {
        TagPick::Any => Ok(()),
        TagPick::One(tag) => check(tag <= MAX_TAG, Fault::Tag),
    }
}

// That a body is within its limit.
fn check_body(body: &Body) -> Result<(), Fault>
    ensures ok { IfOk result (λ _. nat_le (body_len body.now) MAX_BODY ≡ true) }
    ensures err { IfErr result (λ e. (is_of_range e ≡ true)
        × (nat_le (body_len body.now) MAX_BODY ≡ false)) }
{
    match body {
        Body::Hex(bytes) => check(bytes.len() <= MAX_BODY as usize, Fault::Length),
        Body::Gen(len) => check(*len <= MAX_BODY, Fault::Length),
    }
}

// That the source and the tag of a receive or a probe are in range.
fn check_wanted(ranks: u8, from: Peer, tag: TagPick, context: u8) -> Result<(), Fault>
    ensures ok { IfOk result (λ _. (is_peer ranks from ≡ true) × (is_pick tag ≡ true)
        × (nat_le context MAX_CONTEXT ≡ true)) }
    ensures err { IfErr result (λ e. (is_of_range e ≡ true)
        × ((is_peer ranks from && is_pick tag && nat_le context MAX_CONTEXT) ≡ false)) }
{
    check_peer(ranks, from)?;
    check_pick(tag)?;
    check(context <= MAX_CONTEXT, Fault::Context)
}

/// That the arguments of a command are in range, or which are not.
pub fn check_range(ranks: u8, command: &Command) -> Result<(), Fault>
    ensures ok { IfOk result (λ _. is_in_range ranks command.now ≡ true) }
    ensures err { IfErr result (IsOutOfRange ranks command.now) }
{
    match command {
        Command::Send {
            to,
            q,
            tag,
            ctx,
            sync: _,
            body,
        } => {
            check(*q <= MAX_NAME, Fault::Name)?;
            check(*to < ranks, Fault::Rank)?;
            check(*tag <= MAX_TAG, Fault::Tag)?;
            check(*ctx <= MAX_CONTEXT, Fault::Context)?;
            check_body(body)
        }
        Command::Recv {
            q,
            from,
            tag,
            ctx,
            cap,
        } => {
            check(*q <= MAX_NAME, Fault::Name)?;
            check_wanted(ranks, *from, *tag, *ctx)?;
            check(*cap <= MAX_CAPACITY, Fault::Length)
        }
        Command::Wait { q } => check(*q <= MAX_NAME, Fault::Name),
        Command::Test { q } => check(*q <= MAX_NAME, Fault::Name),
        Command::Probe { from, tag, ctx } => check_wanted(ranks, *from, *tag, *ctx),
        Command::Await { from, tag, ctx } => check_wanted(ranks, *from, *tag, *ctx),
        Command::Cancel { q } => check(*q <= MAX_NAME, Fault::Name),
        Command::Mprobe { m, from, tag, ctx } => {
            check(*m <= MAX_NAME, Fault::Name)?;
            check_wanted(ranks, *from, *tag, *ctx)
        }
        Command::Mrecv { q, m, cap } => {
            check(*q <= MAX_NAME, Fault::Name)?;
            check(*m <= MAX_NAME, Fault::Name)?;
            check(*cap <= MAX_CAPACITY, Fault::Length)
        }
    }
}
