//! The calls of C on a handle.

ghost use Rattle.std.specs.Prelude.{◌≡◌, false, IfErr, IfOk, Some, is_some, option_map};
ghost use Rattle.nm_types.specs.declared.scripts.Body.TheVariants as body_is;
ghost use Rattle.nm_types.specs.declared.scripts.Command.TheVariants as command_is;
ghost use Rattle.nm_process.specs.LastAnswer.{last_answer};
ghost use Rattle.nm_handle.specs.Standing.{Stands, calls_of, process_of};
ghost use Rattle.nm_c.specs.Asked.{after_asked, after_whole, asked, asked_whole, bytes_in};
ghost use Rattle.nm_c.specs.Asked.{ended_so, to_tell, unless, whole_of};
ghost use Rattle.nm_c.specs.Causes.{IsReason, IsReasonOfTurn};
ghost use Rattle.nm_c.specs.Codes.{HasAnswered, IsAhead, IsRefused, IsTurn};
ghost use Rattle.nm_c.specs.Codes.{code_of_turn, peer_of, pick_of};
ghost use Rattle.nm_c.specs.Leaves.{HasLeft, LeavesLeft, left_came, left_of as left_of_lem, left_told};
ghost use Rattle.nm_c.specs.Told.{HasShown, HasTold, LeavesBoth, LeavesStatus, body_said, status_said};

use crate::codes::{Code, code_of, said};
use crate::told::{bytes_of, copy, show, tell};
use crate::{Left, Status, commands};
use nm_handle::{Handle, State};
use nm_types::{Answer, Command};
use std::alloc::Global;

// Runs a command, and answers its code.
fn run(handle: &mut Handle, command: &Command) -> Result<Code, Code>
    requires stands { Stands handle.old }
    ensures kept { Stands handle.new }
    ensures ran { IfOk result (HasAnswered command.now handle.old handle.new) }
    ensures refused { IfErr result (IsRefused handle.old handle.new) }
    ensures cause { IfErr result (IsReason command.now handle.old) }
{
    let _step = handle.call(command)?;
    Ok(said(handle.answer()))
}

/// Starts a send.
pub(crate) fn send(
    alloc: Global,
    handle: &mut Handle,
    request: u32,
    to: u32,
    label: u32,
    group: u32,
    sync: bool,
    bytes: &[u8],
) -> Result<Code, Code>
    requires stands { Stands handle.old }
    ensures kept { Stands handle.new }
    ensures ran { IfOk result (HasAnswered
        (command_is.Send to request label group sync (body_is.Hex bytes.now))
        handle.old handle.new) }
    ensures refused { IfErr result (IsRefused handle.old handle.new) }
    ensures cause { IfErr result (IsReason
        (command_is.Send to request label group sync (body_is.Hex bytes.now))
        handle.old) }
{
    let command = commands::send(alloc, request, to, label, group, sync, bytes)?;
    run(handle, &command)
}

/// Starts a receive.
pub(crate) fn receive(
    handle: &mut Handle,
    request: u32,
    from: u32,
    label: u32,
    group: u32,
    cap: u32,
) -> Result<Code, Code>
    requires stands { Stands handle.old }
    ensures kept { Stands handle.new }
    ensures ran { IfOk result (HasAnswered
        (command_is.Recv request (peer_of from) (pick_of label) group cap)
        handle.old handle.new) }
    ensures refused { IfErr result (IsRefused handle.old handle.new) }
    ensures cause { IfErr result (IsReason
        (command_is.Recv request (peer_of from) (pick_of label) group cap)
        handle.old) }
{
    let command = commands::receive(request, from, label, group, cap)?;
    run(handle, &command)
}

/// Whether a request is complete.
pub(crate) fn test(
    handle: &mut Handle,
    request: u32,
    status: &mut Status,
    body: &mut [u8],
) -> Result<Code, Code>
    requires stands { Stands handle.old }
    ensures kept { Stands handle.new }
    ensures ran { IfOk result (HasTold (command_is.Test request)
        status.old status.new body.old body.new handle.old handle.new) }
    ensures refused { IfErr result (IsRefused handle.old handle.new) }
    ensures cause { IfErr result (LeavesBoth (command_is.Test request)
        status.old status.new body.old body.new handle.old) }
{
    let command = commands::test(request)?;
    let code = run(handle, &command)?;
    tell(handle, status, body);
    Ok(code)
}

/// Gives a wait, which turns run as soon as the request is complete.
pub(crate) fn wait(handle: &mut Handle, request: u32) -> Result<Code, Code>
    requires stands { Stands handle.old }
    ensures kept { Stands handle.new }
    ensures ran { IfOk result (IsAhead (command_is.Wait request) handle.old handle.new) }
    ensures refused { IfErr result (IsRefused handle.old handle.new) }
    ensures cause { IfErr result (IsReason (command_is.Wait request) handle.old) }
{
    let command = commands::wait(request)?;
    handle.give(command)?;
    Ok(Code::Done)
}

// What the last command came to, where none waits.
fn came_to(answer: Option<&Answer>) -> Result<Code, Code>
    ensures { result ≡ ended_so false (option_map (λ a. a.now) answer.entry) }
{
    match answer {
        Some(answer) => Ok(code_of(answer)),
        None => Err(Code::NoSuch),
    }
}

// What the last command came to, of a rank that has not failed.
fn ended(handle: &Handle, status: &mut Status, body: &mut [u8]) -> Result<Code, Code>
    ensures came { result ≡ ended_so (is_some (calls_of handle.now).next)
        (last_answer (process_of handle.now).rank.events) }
    ensures status { status.new ≡ status_said (unless (is_some (calls_of handle.now).next)
        (last_answer (process_of handle.now).rank.events)) status.old }
    ensures body { body.new ≡ body_said (unless (is_some (calls_of handle.now).next)
        (last_answer (process_of handle.now).rank.events)) body.old }
{
    let waits = handle.waits();
    if waits {
        return Ok(Code::Pending);
    }
    tell(handle, status, body);
    came_to(handle.answer())
}

/// What the last command came to.
pub(crate) fn answer(handle: &Handle, status: &mut Status, body: &mut [u8]) -> Result<Code, Code>
    ensures came { result ≡ asked handle.now }
    ensures status { status.new ≡ status_said (to_tell handle.now) status.old }
    ensures body { body.new ≡ body_said (to_tell handle.now) body.old }
{
    match handle.state() {
        State::Failed => Err(Code::Failed),
        State::Open => ended(handle, status, body),
        State::Closed => ended(handle, status, body),
    }
}

// Writes a whole body, if there is room.
fn write_whole(bytes: &[u8], into: &mut [u8]) -> Result<Code, Code>
    ensures came { result ≡ whole_of (Some bytes.now) into.old }
    ensures body { into.new ≡ after_whole (Some bytes.now) into.old }
{
    let fits = bytes.len() <= into.len();
    if !fits {
        return Err(Code::Short);
    }
    copy(bytes, into);
    Ok(Code::Done)
}

// Writes the whole body that an answer gives.
fn whole(answer: Option<&Answer>, into: &mut [u8]) -> Result<Code, Code>
    ensures came { result ≡ whole_of (bytes_in (option_map (λ a. a.now) answer.entry)) into.old }
    ensures body { into.new ≡ after_whole (bytes_in (option_map (λ a. a.now) answer.entry)) into.old }
{
    let Some(answer) = answer else {
        return Err(Code::NoSuch);
    };
    let Some(bytes) = bytes_of(answer) else {
        return Err(Code::NoSuch);
    };
    write_whole(bytes.as_slice(), into)
}

/// The body of the last answer.
pub(crate) fn body(handle: &Handle, into: &mut [u8]) -> Result<Code, Code>
    ensures came { result ≡ asked_whole handle.now into.old }
    ensures body { into.new ≡ after_asked handle.now into.old }
{
    match handle.state() {
        State::Failed => Err(Code::Failed),
        State::Open => whole(handle.answer(), into),
        State::Closed => whole(handle.answer(), into),
    }
}

/// Whether there is a message.
pub(crate) fn probe(
    handle: &mut Handle,
    from: u32,
    label: u32,
    group: u32,
    status: &mut Status,
) -> Result<Code, Code>
    requires stands { Stands handle.old }
    ensures kept { Stands handle.new }
    ensures ran { IfOk result (HasShown
        (command_is.Probe (peer_of from) (pick_of label) group)
        status.old status.new handle.old handle.new) }
    ensures refused { IfErr result (IsRefused handle.old handle.new) }
    ensures cause { IfErr result (LeavesStatus
        (command_is.Probe (peer_of from) (pick_of label) group)
        status.old status.new handle.old) }
{
    let command = commands::probe(from, label, group)?;
    let code = run(handle, &command)?;
    show(handle, status);
    Ok(code)
}

/// Whether there is a message, which is claimed.
pub(crate) fn claim(
    handle: &mut Handle,
    message: u32,
    from: u32,
    label: u32,
    group: u32,
    status: &mut Status,
) -> Result<Code, Code>
    requires stands { Stands handle.old }
    ensures kept { Stands handle.new }
    ensures ran { IfOk result (HasShown
        (command_is.Mprobe message (peer_of from) (pick_of label) group)
        status.old status.new handle.old handle.new) }
    ensures refused { IfErr result (IsRefused handle.old handle.new) }
    ensures cause { IfErr result (LeavesStatus
        (command_is.Mprobe message (peer_of from) (pick_of label) group)
        status.old status.new handle.old) }
{
    let command = commands::claim(message, from, label, group)?;
    let code = run(handle, &command)?;
    show(handle, status);
    Ok(code)
}

/// Starts a receive of a claimed message.
pub(crate) fn receive_claimed(
    handle: &mut Handle,
    request: u32,
    message: u32,
    cap: u32,
) -> Result<Code, Code>
    requires stands { Stands handle.old }
    ensures kept { Stands handle.new }
    ensures ran { IfOk result (HasAnswered (command_is.Mrecv request message cap) handle.old handle.new) }
    ensures refused { IfErr result (IsRefused handle.old handle.new) }
    ensures cause { IfErr result (IsReason (command_is.Mrecv request message cap) handle.old) }
{
    let command = commands::receive_claimed(request, message, cap)?;
    run(handle, &command)
}

/// Cancels a request.
pub(crate) fn cancel(handle: &mut Handle, request: u32) -> Result<Code, Code>
    requires stands { Stands handle.old }
    ensures kept { Stands handle.new }
    ensures ran { IfOk result (HasAnswered (command_is.Cancel request) handle.old handle.new) }
    ensures refused { IfErr result (IsRefused handle.old handle.new) }
    ensures cause { IfErr result (IsReason (command_is.Cancel request) handle.old) }
{
    let command = commands::cancel(request)?;
    run(handle, &command)
}

/// A turn.
pub(crate) fn progress(handle: &mut Handle) -> Result<Code, Code>
    requires stands { Stands handle.old }
    ensures kept { Stands handle.new }
    ensures ran { IfOk result (IsTurn handle.old handle.new) }
    ensures refused { IfErr result (IsRefused handle.old handle.new) }
    ensures cause { IfErr result (IsReasonOfTurn handle.old) }
{
    let moved = handle.progress()?;
    Ok(turned(moved))
}

// What a turn is answered by.
fn turned(moved: bool) -> Code
    ensures { result ≡ code_of_turn moved }
{
    if moved { Code::Moved } else { Code::Idle }
}

// What is left.
fn left_of(handle: &Handle) -> Left
    ensures { result ≡ left_of_lem handle.now }
{
    let requests = handle.live();
    let to_send = if handle.has_to_send() { 1 } else { 0 };
    Left { requests, to_send }
}

/// What is left.
pub(crate) fn tell_left(handle: &Handle, left: &mut Left) -> Result<Code, Code>
    ensures came { result ≡ left_came handle.now.state }
    ensures told { left.new ≡ left_told handle.now.state (left_of_lem handle.now) left.old }
{
    match handle.state() {
        State::Failed => return Err(Code::Failed),
        State::Open => *left = left_of(handle),
        State::Closed => *left = left_of(handle),
    }
    Ok(Code::Done)
}

/// Closes the rank, and tells what it had left.
pub(crate) fn close(handle: &mut Handle, left: &mut Left) -> Result<Code, Code>
    requires stands { Stands handle.old }
    ensures kept { Stands handle.new }
    ensures ran { IfOk result (HasLeft left.old left.new handle.old handle.new) }
    ensures refused { IfErr result (IsRefused handle.old handle.new) }
    ensures cause { IfErr result (LeavesLeft left.old left.new handle.old) }
{
    let had = left_of(handle);
    handle.close()?;
    *left = had;
    Ok(Code::Done)
}
