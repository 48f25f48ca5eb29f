//! The static library that C links: the calls of `include/nemesis.h`.
//!
//! A `Rank` is a pointer to a handle on the heap (`nm_handle::Handle`). Each export takes it by `&mut` or by value,
//! and calls its handle. Numbers come in 32 bits, and are refused where they are out of range; bodies are read from
//! the caller's memory, and written to it, within the call.
//!
//! # What a contract sees
//! The handle behind each rank, and the number that an export answers.
//! # What is proved
//! - Each export is safe, and ends, for all numbers and all memory that its types speak of.
//! - A call does to its rank what the command does that it names, and answers the number of that command's answer;
//!   or it is refused, for a reason, and then nothing was done but where memory was refused (`answered`: `Answers`).
//!   What a command does is what `nm_handle` says.
//! - A test and a probe write what the answer tells of a message into the status, and a test its bytes into the
//!   memory, as many as there is room for. Where there is no message, and where the call is refused, nothing is
//!   written (`answered`). So it is with what a rank is asked of its last command (`nm_answer`, `nm_body`: `came`,
//!   `status`, `body`).
//! - So it is with what a rank has left: how many requests are live by its calls and their answers, and whether there
//!   is something to send (`nm_left_of`: `told`; `nm_close`: `HasLeft`).
//! - A rank that stands goes on standing, whatever is called (`kept`): so what its handle is asked for
//!   (`requires stands`) is no more than that it is one that `nm_world_new` wrote; where this writes none, it is said why.
//! - A world whose ranks are all given, in order, and of which a turn of each moves nothing, ends: whatever the threads
//!   of C called, and in which order, the calls of the ranks and their answers are those of a lawful run at rest, and all
//!   cells are home (`nm_world_end`: `AnswersEnd`). Where it goes on, or a rank has failed, they are the same ranks.
//! # What is only tested
//! That `nm_world_end` refuses ranks that are not of one world, which it is asked not to be given (`requires world`), and
//! that a world which it ends leaves closed ranks (`tests/c`).
//! # What is not
//! - C gets no clause on memory from `nm_world_new`: that what it writes is owned by C from then on is not said. Nor is
//!   anything of code in C checked: that a rank is used by one call at a time, and not after `nm_rank_free`.
#![tactic(auto)]

ghost use Rattle.std.specs.Prelude.{◌≡◌, false, true, map};
ghost use Rattle.std.specs.List.{All};
ghost use Rattle.nm_handle.specs.Standing.{Stands, calls_of, process_of};
ghost use Rattle.nm_handle.specs.Worlds.{AreOfOneWorld};
ghost use Rattle.nm_handle.specs.declared.handles.Handle.{Handle};
ghost use Rattle.nm_types.specs.declared.scripts.Body.TheVariants as body_is;
ghost use Rattle.nm_types.specs.declared.scripts.Command.TheVariants as command;
ghost use Rattle.nm_c.specs.Asked.{after_asked, asked, asked_whole, to_tell};
ghost use Rattle.nm_c.specs.Causes.{IsReason, IsReasonOfTurn};
ghost use Rattle.nm_c.specs.Codes.{Answers, HasAnswered, IsAhead, IsTurn, number_said, peer_of, pick_of};
ghost use Rattle.nm_c.specs.Held.{handle_coded, rank_owns};
ghost use Rattle.nm_c.specs.Leaves.{HasLeft, LeavesLeft, left_came, left_of, left_told};
ghost use Rattle.nm_c.specs.Made.{AnswersNew};
ghost use Rattle.nm_c.specs.Told.{HasShown, HasTold, LeavesBoth, LeavesStatus, body_said, status_said};
ghost use Rattle.nm_c.specs.Whole.{AnswersEnd};

mod calls;
mod codes;
mod commands;
mod ends;
mod lend;
mod parts;
mod raw;
mod told;
mod words;
mod worlds;

use codes::number;
use nm_handle::Handle;
use parts::Parts;
use std::alloc::Global;
use std::marker::Model;

/// A rank of a world: a pointer to its handle.
#[repr(C)]
pub struct Rank {
    ptr: *mut u8,
    alloc: Global,
    pub ghost value: { Handle } by { handle_coded },
}

impl Model for Rank {
    ghost also_owns = { λ h. rank_owns h.alloc h.ptr h.value };
}

impl Rank {
    fn of_parts(parts: Parts<Handle, Global>) -> Rank
        ensures { result.value ≡ parts.value }
    {
        let Parts { ptr, alloc } = parts;
        Rank {
            ptr: ptr as *mut u8,
            alloc,
        }
    }

    fn into_parts(self) -> Parts<Handle, Global>
        ensures { result.value ≡ self.value }
    {
        let Rank { ptr, alloc } = self;
        Parts {
            ptr: ptr as *mut Handle,
            alloc,
        }
    }
}

impl Drop for Rank {
    fn drop(self) {
        drop(self.into_parts().into_box());
    }
}

unsafe impl Send for Rank {}

/// The envelope of a message, and the length of its body.
#[derive(Drop)]
#[repr(C)]
pub struct Status {
    pub from: u32,
    pub tag: u32,
    pub length: u32,
}

/// What a rank has left.
#[derive(Drop)]
#[repr(C)]
pub struct Left {
    pub requests: u32,
    pub to_send: u32,
}

/// Makes a world of as many ranks as there are places.
#[unsafe(no_mangle)]
pub extern "C" fn nm_world_new(alloc: Global, ranks: &mut [*mut u8], cells: u32, eager: u32) -> u32
    ensures answered { AnswersNew cells eager ranks.old ranks.new result }
{
    number(worlds::make(alloc, ranks, cells, eager))
}

/// The number of the rank.
#[unsafe(no_mangle)]
pub extern "C" fn nm_number(rank: &mut Rank) -> u32
    ensures same { rank.new.value ≡ rank.old.value }
    ensures number { result ≡ (process_of rank.old.value).rank.me }
{
    rank.handle().me() as u32
}

/// How many ranks its world has.
#[unsafe(no_mangle)]
pub extern "C" fn nm_count(rank: &mut Rank) -> u32
    ensures same { rank.new.value ≡ rank.old.value }
    ensures count { result ≡ (calls_of rank.old.value).ranks }
{
    rank.handle().ranks() as u32
}

/// `MPI_Isend` (MPI 3.1, 3.7.2).
#[unsafe(no_mangle)]
pub extern "C" fn nm_isend(
    alloc: Global,
    rank: &mut Rank,
    name: u32,
    to: u32,
    tag: u32,
    context: u32,
    body: &[u8],
) -> u32
    requires stands { Stands rank.old.value }
    ensures kept { Stands rank.new.value }
    ensures answered { Answers
        (HasAnswered (command.Send to name tag context false (body_is.Hex body.now)))
        (IsReason (command.Send to name tag context false (body_is.Hex body.now)))
        rank.old.value rank.new.value result }
{
    number(calls::send(alloc, rank.handle(), name, to, tag, context, false, body))
}

/// `MPI_Issend` (3.7.2).
#[unsafe(no_mangle)]
pub extern "C" fn nm_issend(
    alloc: Global,
    rank: &mut Rank,
    name: u32,
    to: u32,
    tag: u32,
    context: u32,
    body: &[u8],
) -> u32
    requires stands { Stands rank.old.value }
    ensures kept { Stands rank.new.value }
    ensures answered { Answers
        (HasAnswered (command.Send to name tag context true (body_is.Hex body.now)))
        (IsReason (command.Send to name tag context true (body_is.Hex body.now)))
        rank.old.value rank.new.value result }
{
    number(calls::send(alloc, rank.handle(), name, to, tag, context, true, body))
}

/// `MPI_Irecv` (3.7.2).
#[unsafe(no_mangle)]
pub extern "C" fn nm_irecv(
    rank: &mut Rank,
    name: u32,
    from: u32,
    tag: u32,
    context: u32,
    capacity: u32,
) -> u32
    requires stands { Stands rank.old.value }
    ensures kept { Stands rank.new.value }
    ensures answered { Answers
        (HasAnswered (command.Recv name (peer_of from) (pick_of tag) context capacity))
        (IsReason (command.Recv name (peer_of from) (pick_of tag) context capacity))
        rank.old.value rank.new.value result }
{
    number(calls::receive(rank.handle(), name, from, tag, context, capacity))
}

/// `MPI_Test` (3.7.3).
#[unsafe(no_mangle)]
pub extern "C" fn nm_test(rank: &mut Rank, name: u32, status: &mut Status, body: &mut [u8]) -> u32
    requires stands { Stands rank.old.value }
    ensures kept { Stands rank.new.value }
    ensures answered { Answers
        (HasTold (command.Test name) status.old status.new body.old body.new)
        (LeavesBoth (command.Test name) status.old status.new body.old body.new)
        rank.old.value rank.new.value result }
{
    number(calls::test(rank.handle(), name, status, body))
}

/// Gives a wait (`MPI_Wait`, 3.7.3), which turns run as soon as the request is complete.
#[unsafe(no_mangle)]
pub extern "C" fn nm_wait(rank: &mut Rank, name: u32) -> u32
    requires stands { Stands rank.old.value }
    ensures kept { Stands rank.new.value }
    ensures answered { Answers
        (IsAhead (command.Wait name))
        (IsReason (command.Wait name))
        rank.old.value rank.new.value result }
{
    number(calls::wait(rank.handle(), name))
}

/// What the command came to that ran last.
#[unsafe(no_mangle)]
pub extern "C" fn nm_answer(rank: &mut Rank, status: &mut Status, body: &mut [u8]) -> u32
    ensures same { rank.new.value ≡ rank.old.value }
    ensures came { result ≡ number_said (asked rank.old.value) }
    ensures status { status.new ≡ status_said (to_tell rank.old.value) status.old }
    ensures body { body.new ≡ body_said (to_tell rank.old.value) body.old }
{
    number(calls::answer(rank.handle(), status, body))
}

/// The body that the last test told of.
#[unsafe(no_mangle)]
pub extern "C" fn nm_body(rank: &mut Rank, body: &mut [u8]) -> u32
    ensures same { rank.new.value ≡ rank.old.value }
    ensures came { result ≡ number_said (asked_whole rank.old.value body.old) }
    ensures body { body.new ≡ after_asked rank.old.value body.old }
{
    number(calls::body(rank.handle(), body))
}

/// `MPI_Iprobe` (3.8.1).
#[unsafe(no_mangle)]
pub extern "C" fn nm_iprobe(
    rank: &mut Rank,
    from: u32,
    tag: u32,
    context: u32,
    status: &mut Status,
) -> u32
    requires stands { Stands rank.old.value }
    ensures kept { Stands rank.new.value }
    ensures answered { Answers
        (HasShown (command.Probe (peer_of from) (pick_of tag) context) status.old status.new)
        (LeavesStatus (command.Probe (peer_of from) (pick_of tag) context) status.old status.new)
        rank.old.value rank.new.value result }
{
    number(calls::probe(rank.handle(), from, tag, context, status))
}

/// `MPI_Improbe` (3.8.2).
#[unsafe(no_mangle)]
pub extern "C" fn nm_improbe(
    rank: &mut Rank,
    handle: u32,
    from: u32,
    tag: u32,
    context: u32,
    status: &mut Status,
) -> u32
    requires stands { Stands rank.old.value }
    ensures kept { Stands rank.new.value }
    ensures answered { Answers
        (HasShown (command.Mprobe handle (peer_of from) (pick_of tag) context) status.old status.new)
        (LeavesStatus (command.Mprobe handle (peer_of from) (pick_of tag) context) status.old status.new)
        rank.old.value rank.new.value result }
{
    number(calls::claim(rank.handle(), handle, from, tag, context, status))
}

/// `MPI_Imrecv` (3.8.3).
#[unsafe(no_mangle)]
pub extern "C" fn nm_imrecv(rank: &mut Rank, name: u32, handle: u32, capacity: u32) -> u32
    requires stands { Stands rank.old.value }
    ensures kept { Stands rank.new.value }
    ensures answered { Answers
        (HasAnswered (command.Mrecv name handle capacity))
        (IsReason (command.Mrecv name handle capacity))
        rank.old.value rank.new.value result }
{
    number(calls::receive_claimed(rank.handle(), name, handle, capacity))
}

/// `MPI_Cancel` (3.8.4).
#[unsafe(no_mangle)]
pub extern "C" fn nm_cancel(rank: &mut Rank, name: u32) -> u32
    requires stands { Stands rank.old.value }
    ensures kept { Stands rank.new.value }
    ensures answered { Answers
        (HasAnswered (command.Cancel name))
        (IsReason (command.Cancel name))
        rank.old.value rank.new.value result }
{
    number(calls::cancel(rank.handle(), name))
}

/// One turn.
#[unsafe(no_mangle)]
pub extern "C" fn nm_progress(rank: &mut Rank) -> u32
    requires stands { Stands rank.old.value }
    ensures kept { Stands rank.new.value }
    ensures answered { Answers IsTurn IsReasonOfTurn rank.old.value rank.new.value result }
{
    number(calls::progress(rank.handle()))
}

/// What is left.
#[unsafe(no_mangle)]
pub extern "C" fn nm_left_of(rank: &mut Rank, left: &mut Left) -> u32
    ensures same { rank.new.value ≡ rank.old.value }
    ensures came { result ≡ number_said (left_came rank.old.value.state) }
    ensures told { left.new ≡ left_told rank.old.value.state (left_of rank.old.value) left.old }
{
    number(calls::tell_left(rank.handle(), left))
}

/// Closes a rank.
#[unsafe(no_mangle)]
pub extern "C" fn nm_close(rank: &mut Rank, left: &mut Left) -> u32
    requires stands { Stands rank.old.value }
    ensures kept { Stands rank.new.value }
    ensures answered { Answers (HasLeft left.old left.new) (LeavesLeft left.old left.new)
        rank.old.value rank.new.value result }
{
    number(calls::close(rank.handle(), left))
}

/// Ends the world of these ranks, if they are at rest.
#[unsafe(no_mangle)]
pub extern "C" fn nm_world_end(alloc: Global, ranks: &mut [Rank]) -> u32
    requires stands { All Stands (map (λ r. r.value) ranks.old) }
    requires world { AreOfOneWorld (map (λ r. r.value) ranks.old) }
    ensures kept { All Stands (map (λ r. r.value) ranks.new) }
    ensures answered { AnswersEnd (map (λ r. r.value) ranks.old) (map (λ r. r.value) ranks.new) result }
{
    let ended = ends::end_all(alloc, ranks);
    ends::code_of(ended).number()
}

/// Frees a rank.
#[unsafe(no_mangle)]
pub extern "C" fn nm_rank_free(rank: Rank) {
    drop(rank);
}
