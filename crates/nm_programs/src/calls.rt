//! MPI's calls as commands, for programs.
//!
//! A request has a name, which its program chooses: a number that no live request of the rank has. A call
//! whose arguments are out of range makes a command too; the run ends where a program gives it
//! (`Stop::Range`). All messages are in context 0 but for those of a call that is put in another (`within`).

ghost use Rattle.std.specs.Prelude.{◌≡◌, true, false};
ghost use Rattle.nm_types.specs.declared.messages.Peer.TheVariants as peer;
ghost use Rattle.nm_types.specs.declared.messages.TagPick.TheVariants as pick;
ghost use Rattle.nm_types.specs.declared.scripts.Command.TheVariants as command;
ghost use Rattle.nm_programs.specs.Calls.{in_context};

use nm_types::{Body, Command, Peer, TagPick};

/// `MPI_Isend` (MPI 3.1, 3.7.2): starts a standard send. It is answered `Started`, or `Busy` where the name has
/// a live request, as each start is.
pub fn send(name: u16, to: u8, tag: u16, body: Body) -> Command
    ensures { result ≡ command.Send to name tag 0 false body }
{
    Command::Send {
        to,
        q: name,
        tag,
        ctx: 0,
        sync: false,
        body,
    }
}

/// `MPI_Issend` (3.7.2): starts a synchronous send, which completes only when a receive has matched it (3.4).
pub fn send_synchronous(name: u16, to: u8, tag: u16, body: Body) -> Command
    ensures { result ≡ command.Send to name tag 0 true body }
{
    Command::Send {
        to,
        q: name,
        tag,
        ctx: 0,
        sync: true,
        body,
    }
}

/// `MPI_Irecv` (3.7.2): starts a receive of a message of this rank with this tag, of at most so many bytes.
pub fn receive(name: u16, from: u8, tag: u16, capacity: u32) -> Command
    ensures { result ≡ command.Recv name (peer.One from) (pick.One tag) 0 capacity }
{
    receive_of(name, Peer::One(from), TagPick::One(tag), capacity)
}

/// `MPI_Irecv` with `MPI_ANY_SOURCE` and `MPI_ANY_TAG` (3.2.4): starts a receive of any message.
pub fn receive_any(name: u16, capacity: u32) -> Command
    ensures { result ≡ command.Recv name peer.Any pick.Any 0 capacity }
{
    receive_of(name, Peer::Any, TagPick::Any, capacity)
}

/// `MPI_Irecv` with or without wildcards.
pub fn receive_of(name: u16, from: Peer, tag: TagPick, capacity: u32) -> Command
    ensures { result ≡ command.Recv name from tag 0 capacity }
{
    Command::Recv {
        q: name,
        from,
        tag,
        ctx: 0,
        cap: capacity,
    }
}

/// `MPI_Wait` (3.7.3): blocks until the request is complete. It is answered `Sent`, `Got`, `Cut` where the
/// message was longer than the capacity (3.2.2), `Cancelled`, or `Null` where the name has no live request.
pub fn wait(name: u16) -> Command
    ensures { result ≡ command.Wait name }
{
    Command::Wait { q: name }
}

/// `MPI_Test` (3.7.3): it is answered as a wait, or `No` where the request is not complete.
pub fn test(name: u16) -> Command
    ensures { result ≡ command.Test name }
{
    Command::Test { q: name }
}

/// `MPI_Iprobe` (3.8.1): it is answered `Seen` with the envelope of the message that such a receive would
/// match, or `Nothing`.
pub fn probe(from: Peer, tag: TagPick) -> Command
    ensures { result ≡ command.Probe from tag 0 }
{
    Command::Probe { from, tag, ctx: 0 }
}

/// `MPI_Probe` (3.8.1): blocks until there is such a message.
pub fn probe_blocking(from: Peer, tag: TagPick) -> Command
    ensures { result ≡ command.Await from tag 0 }
{
    Command::Await { from, tag, ctx: 0 }
}

/// `MPI_Improbe` (3.8.2): as `probe`, and the message is this handle's from then on. It is answered `Busy` where
/// the handle has a message.
pub fn probe_matched(handle: u16, from: Peer, tag: TagPick) -> Command
    ensures { result ≡ command.Mprobe handle from tag 0 }
{
    Command::Mprobe {
        m: handle,
        from,
        tag,
        ctx: 0,
    }
}

/// `MPI_Imrecv` (3.8.3): starts a receive of a handle's message.
pub fn receive_matched(name: u16, handle: u16, capacity: u32) -> Command
    ensures { result ≡ command.Mrecv name handle capacity }
{
    Command::Mrecv {
        q: name,
        m: handle,
        cap: capacity,
    }
}

/// `MPI_Cancel` (3.8.4): it is answered `Done` or `Late` of a receive, and `Asked` of a send. The wait that
/// follows tells whether the request was cancelled.
pub fn cancel(name: u16) -> Command
    ensures { result ≡ command.Cancel name }
{
    Command::Cancel { q: name }
}

/// The call in another context (3.2.3), if it has one.
pub fn within(context: u8, call: Command) -> Command
    ensures { result ≡ in_context context call }
{
    match call {
        Command::Send {
            to,
            q,
            tag,
            ctx: _,
            sync,
            body,
        } => Command::Send {
            to,
            q,
            tag,
            ctx: context,
            sync,
            body,
        },
        Command::Recv {
            q,
            from,
            tag,
            ctx: _,
            cap,
        } => Command::Recv {
            q,
            from,
            tag,
            ctx: context,
            cap,
        },
        Command::Probe { from, tag, ctx: _ } => Command::Probe {
            from,
            tag,
            ctx: context,
        },
        Command::Await { from, tag, ctx: _ } => Command::Await {
            from,
            tag,
            ctx: context,
        },
        Command::Mprobe {
            m,
            from,
            tag,
            ctx: _,
        } => Command::Mprobe {
            m,
            from,
            tag,
            ctx: context,
        },
        call => call,
    }
}
