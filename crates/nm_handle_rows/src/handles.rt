//! One rank that sends to itself.

ghost use Rattle.std.specs.Prelude.{IfOk};
ghost use Rattle.nm_handle.specs.Standing.{AreNew, Stands};

use nm_calls::Fault;
use nm_handle::{Handle, State, world};
use nm_types::{Answer, Body, Command, Memory, Peer, Shape, TagPick};
use std::test::Fail;

// What a call answered.
#[derive(Clone, Copy, Debug, PartialEq)]
enum Told {
    Started,
    Pending,
    Null,
    Sent,
    Got(u16, usize),
    Nothing,
    Else,
}

fn say(answer: Option<&Answer>) -> Told {
    match answer {
        Some(Answer::Started) => Told::Started,
        Some(Answer::No) => Told::Pending,
        Some(Answer::Null) => Told::Null,
        Some(Answer::Sent) => Told::Sent,
        Some(Answer::Got { from: _, tag, body }) => Told::Got(*tag, body.len()),
        Some(Answer::Nothing) => Told::Nothing,
        _ => Told::Else,
    }
}

fn send(to: u8, tag: u16, len: u32) -> Command {
    Command::Send {
        to,
        q: 0,
        tag,
        ctx: 0,
        sync: false,
        body: Body::Gen(len),
    }
}

fn receive(from: Peer, tag: TagPick, cap: u32) -> Command {
    Command::Recv {
        q: 1,
        from,
        tag,
        ctx: 0,
        cap,
    }
}

fn probe() -> Command {
    Command::Probe {
        from: Peer::Any,
        tag: TagPick::Any,
        ctx: 0,
    }
}

// The first of these handles.
fn first_of(shape: Shape, handles: Vec<Handle>) -> Result<Handle, Memory>
    requires { AreNew shape 0 handles.items }
    ensures { IfOk result Stands }
{
    let mut handles = handles.into_iter();
    let Some(handle) = handles.next() else {
        return Err(Memory);
    };
    Ok(handle)
}

// What a call of this command answers.
fn answer_of(handle: &mut Handle, command: &Command) -> Result<Told, Fault>
    requires { Stands handle.old }
    ensures { Stands handle.new }
{
    handle.call(command)?;
    Ok(say(handle.answer()))
}

// By what calls with a number out of range are refused.
fn out_of_range(handle: &mut Handle) -> [Result<Told, Fault>; 6]
    requires { Stands handle.old }
    ensures { Stands handle.new }
{
    let any = (Peer::Any, TagPick::Any);
    let rank = answer_of(handle, &send(1, 0, 0));
    let tag = answer_of(handle, &send(0, 32768, 0));
    let length = answer_of(handle, &send(0, 0, 1048577));
    let from = answer_of(handle, &receive(Peer::One(1), any.1, 0));
    let label = answer_of(handle, &receive(any.0, TagPick::One(32768), 0));
    let capacity = answer_of(handle, &receive(any.0, any.1, 1048577));
    [rank, tag, length, from, label, capacity]
}

// A message to itself: what its send and its receive answer before and after two turns, and a probe after that.
fn own_message(handle: &mut Handle) -> Result<[Told; 6], Fault>
    requires { Stands handle.old }
    ensures { Stands handle.new }
{
    let received = answer_of(handle, &receive(Peer::Any, TagPick::Any, 8))?;
    let sent = answer_of(handle, &send(0, 7, 3))?;
    let pending = answer_of(handle, &Command::Test { q: 1 })?;
    handle.progress()?;
    handle.progress()?;
    let got = answer_of(handle, &Command::Test { q: 1 })?;
    let left = answer_of(handle, &Command::Test { q: 0 })?;
    let nothing = answer_of(handle, &probe())?;
    Ok([received, sent, pending, got, left, nothing])
}

// A wait that is given: by what a call meanwhile is refused, whether it waits then and after a turn, and its answer.
fn given_wait(handle: &mut Handle) -> Result<(Result<Told, Fault>, bool, bool, Told), Fault>
    requires { Stands handle.old }
    ensures { Stands handle.new }
{
    handle.give(Command::Wait { q: 9 })?;
    let meanwhile = answer_of(handle, &probe());
    let before = handle.waits();
    handle.progress()?;
    Ok((meanwhile, before, handle.waits(), say(handle.answer())))
}

// What is left with a receive that is open and waited for in vain, and once it is cancelled; then by what calls after the close are refused.
fn closed(handle: &mut Handle) -> Result<(u32, u32, Result<Told, Fault>, Result<(), Fault>), Fault>
    requires { Stands handle.old }
    ensures { Stands handle.new }
{
    answer_of(handle, &receive(Peer::Any, TagPick::Any, 8))?;
    answer_of(handle, &Command::Wait { q: 1 })?;
    let open = handle.live();
    answer_of(handle, &Command::Cancel { q: 1 })?;
    answer_of(handle, &Command::Test { q: 1 })?;
    let ended = handle.live();
    handle.close()?;
    let later = answer_of(handle, &probe());
    let again = handle.close();
    Ok((open, ended, later, again))
}

#[test]
fn a_rank_that_its_caller_drives(rt: HostRuntime) -> Result<(), Fail> {
    let shape = Shape::new(1, 4, 64).unwrap();
    let mut handle = first_of(shape, world(rt.alloc(), shape)?)?;
    assert_eq!(rt;
        (handle.me(), handle.ranks(), handle.has_to_send()),
        (0, 1, false)
    );
    let range = out_of_range(&mut handle);
    let (rank, tag, length) = (Err(Fault::Rank), Err(Fault::Tag), Err(Fault::Length));
    assert_eq!(rt; range, [rank, tag, length, rank, tag, length]);
    let own = own_message(&mut handle)?;
    let (started, nothing) = (Told::Started, Told::Nothing);
    assert_eq!(rt;
        own,
        [
            started,
            started,
            Told::Pending,
            Told::Got(7, 3),
            Told::Sent,
            nothing
        ]
    );
    let wait = given_wait(&mut handle)?;
    assert_eq!(rt; wait, (Err(Fault::Waits), true, false, Told::Null));
    let end = closed(&mut handle)?;
    assert_eq!(rt; end, (1, 0, Err(Fault::Closed), Err(Fault::Closed)));
    assert_eq!(rt; handle.state(), State::Closed);
    Ok(())
}
