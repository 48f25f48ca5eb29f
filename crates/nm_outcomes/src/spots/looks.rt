//! What the next command of a rank finds: live requests and handles, by what the rank did.

ghost use Rattle.std.specs.Prelude.{◌≡◌, ℕ, ◌-◌, ◌==◌, true, Some, List, [], count_by, filter, find, length};
ghost use Rattle.std.specs.Prelude.{option_map, slice_get};
ghost use Rattle.std.specs.List.{list_any};
ghost use Rattle.std.specs.Option.{option_map_or};
ghost use Rattle.nm_types.specs.declared.scripts.Line as script_line;
ghost use Rattle.nm_types.specs.Commands.{Numbered, command_at, commands_of};
ghost use Rattle.nm_history.specs.declared.events.Happened.TheVariants.{Ran};
ghost use Rattle.nm_history.specs.Answers.{claim_line_after, is_claim_for, is_question_of};
ghost use Rattle.nm_history.specs.Answers.{is_receive_of, is_result as is_result_lem};
ghost use Rattle.nm_history.specs.Answers.{is_seen as is_seen_lem, is_start_of};
ghost use Rattle.nm_history.specs.Answers.{is_started as is_started_lem, line_after};
ghost use Rattle.nm_history.specs.Answers.{message_claimed, request_of};
ghost use Rattle.nm_history.specs.Sends.{is_ask};
ghost use Rattle.nm_lookups.specs.AskedFor.{meant_by};
ghost use Rattle.nm_outcomes.specs.Deeds.{answer_meant, happening};
ghost use Rattle.nm_outcomes.specs.Looks.{claim_in, found_at, handle_in, is_answer_by, is_claim_at};
ghost use Rattle.nm_outcomes.specs.Looks.{is_recall_by, is_receive_by, is_send_by, is_start_by};
ghost use Rattle.nm_lookups.specs.AskedFor.{message_meant};
ghost use Rattle.nm_outcomes.specs.Looks.{is_unasked_by, live_in, message_in};
ghost use Rattle.nm_outcomes.specs.Looks.{name_in, request_in};

use crate::spots::deeds::{Deed, Message, Reply};
use crate::spots::ranks::Rank;
use nm_history::plain::selects;
use nm_lookups::asked::commands::command_of_line;
use nm_lookups::asked::requests::Request;
use nm_types::{Arrival, Command, How, Line, Peer, TagPick};

/// Whether a command starts a request of this name.
fn starts(q: u16, command: &Command) -> bool
    ensures { result ≡ is_start_of q command.now }
{
    match command {
        Command::Send { q: name, .. } => *name == q,
        Command::Recv { q: name, .. } => *name == q,
        Command::Mrecv { q: name, .. } => *name == q,
        _ => false,
    }
}

/// Whether a command asks for the result of the request of this name.
fn asks(q: u16, command: &Command) -> bool
    ensures { result ≡ is_question_of q command.now }
{
    match command {
        Command::Wait { q: name } => *name == q,
        Command::Test { q: name } => *name == q,
        _ => false,
    }
}

/// Whether a start was taken.
fn is_started(reply: Reply) -> bool
    ensures { (lines : List script_line.Line) → is_started_lem (answer_meant lines reply) ≡ result }
{
    matches!(reply, Reply::Started)
}

/// Whether a probe found a message.
fn is_seen(reply: Reply) -> bool
    ensures { (lines : List script_line.Line) → is_seen_lem (answer_meant lines reply) ≡ result }
{
    matches!(reply, Reply::Seen(_))
}

/// Whether a request ends with a reply.
fn is_result(reply: Reply) -> bool
    ensures { (lines : List script_line.Line) → is_result_lem (answer_meant lines reply) ≡ result }
{
    match reply {
        Reply::Sent | Reply::Cancelled => true,
        Reply::Got { .. } | Reply::Cut { .. } => true,
        _ => false,
    }
}

/// The line that a name stands for, after a command gave its answer.
#[tactic(auto, using(crate::proofs::LookLemmas::named))]
fn name_after(q: u16, was: Option<u64>, command: &Command, line: u64, reply: Reply) -> Option<u64>
    ensures { (lines : List script_line.Line) (commands : List Numbered) →
        command_at commands line ≡ Some command.now →
        line_after commands q was (Ran line (answer_meant lines reply)) ≡ result }
{
    if starts(q, command) && is_started(reply) {
        Some(line)
    } else if asks(q, command) && is_result(reply) {
        None
    } else {
        was
    }
}

/// .. and after a deed.
#[tactic(auto, using(crate::proofs::LookLemmas::unnamed))]
fn name_after_deed(lines: &[Line], rank: u8, q: u16, was: Option<u64>, deed: &Deed) -> Option<u64>
    ensures { result ≡ line_after (commands_of rank lines.now) q was (happening lines.now deed.now) }
{
    match deed {
        Deed::Ran { line, reply } => match command_of_line(lines, rank, *line) {
            Some(command) => name_after(q, was, command, *line, *reply),
            None => was,
        },
        _ => was,
    }
}

/// The line of the start that a name stands for.
fn line_of_name(lines: &[Line], rank: u8, deeds: &[Deed], q: u16) -> Option<u64>
    ensures { result ≡ name_in lines.now rank deeds.now q }
{
    deeds.iter().fold(
        None,
        |line, deed| name_after_deed(lines, rank, q, line, deed),
    )
}

/// Whether a deed starts the request of a line.
fn is_start_of_line(line: u64, deed: &Deed) -> bool
    ensures { result ≡ is_start_by line deed.now }
{
    match deed {
        Deed::Send { line: own, .. } => *own == line,
        Deed::Post { line: own, .. } => *own == line,
        Deed::Match { line: own, .. } => *own == line,
        _ => false,
    }
}

/// The request that a deed makes for the start of a line.
fn request_by(line: u64, deed: &Deed) -> Option<Request>
    ensures { option_map meant_by result ≡ request_of line (happening [] deed.now) }
{
    if !is_start_of_line(line, deed) {
        return None;
    }
    match deed {
        Deed::Send { to, n, .. } => Some(Request::Sending { to: *to, n: *n }),
        Deed::Post { receive, .. } => Some(Request::Receiving {
            number: receive.number,
        }),
        Deed::Match { number, .. } => Some(Request::Receiving { number: *number }),
        _ => None,
    }
}

/// The deed that starts the request of a line.
fn start_of_line(deeds: &[Deed], line: u64) -> Option<Deed>
    ensures { result ≡ find (is_start_by line) deeds.now }
{
    deeds.iter().copied().find(|d| is_start_of_line(line, d))
}

/// The request that the start of a line made.
fn request_at(deeds: &[Deed], line: u64) -> Option<Request>
    ensures { option_map meant_by result ≡ request_in deeds.now line }
{
    match start_of_line(deeds, line) {
        Some(deed) => request_by(line, &deed),
        None => None,
    }
}

/// The live request of a name.
pub fn live(lines: &[Line], rank: u8, deeds: &[Deed], q: u16) -> Option<Request>
    ensures { option_map meant_by result ≡ live_in lines.now rank deeds.now q }
{
    match line_of_name(lines, rank, deeds, q) {
        Some(line) => request_at(deeds, line),
        None => None,
    }
}

/// Whether a command claims a message for this handle.
fn claims_for(m: u16, command: &Command) -> bool
    ensures { result ≡ is_claim_for m command.now }
{
    match command {
        Command::Mprobe { m: name, .. } => *name == m,
        _ => false,
    }
}

/// Whether a command receives the message of this handle.
fn receives_of(m: u16, command: &Command) -> bool
    ensures { result ≡ is_receive_of m command.now }
{
    match command {
        Command::Mrecv { m: name, .. } => *name == m,
        _ => false,
    }
}

/// The line that a handle stands for, after a command gave its answer.
#[tactic(auto, using(crate::proofs::LookLemmas::handled))]
fn handle_after(m: u16, was: Option<u64>, command: &Command, line: u64, reply: Reply) -> Option<u64>
    ensures { (lines : List script_line.Line) (commands : List Numbered) →
        command_at commands line ≡ Some command.now →
        claim_line_after commands m was (Ran line (answer_meant lines reply)) ≡ result }
{
    if claims_for(m, command) && is_seen(reply) {
        Some(line)
    } else if receives_of(m, command) && is_started(reply) {
        None
    } else {
        was
    }
}

/// .. and after a deed.
#[tactic(auto, using(crate::proofs::LookLemmas::unhandled))]
fn handle_after_deed(lines: &[Line], rank: u8, m: u16, was: Option<u64>, deed: &Deed) -> Option<u64>
    ensures { result
        ≡ claim_line_after (commands_of rank lines.now) m was (happening lines.now deed.now) }
{
    match deed {
        Deed::Ran { line, reply } => match command_of_line(lines, rank, *line) {
            Some(command) => handle_after(m, was, command, *line, *reply),
            None => was,
        },
        _ => was,
    }
}

/// The line of the claim that a handle stands for.
fn line_of_handle(lines: &[Line], rank: u8, deeds: &[Deed], m: u16) -> Option<u64>
    ensures { result ≡ handle_in lines.now rank deeds.now m }
{
    deeds.iter().fold(
        None,
        |line, deed| handle_after_deed(lines, rank, m, line, deed),
    )
}

/// Whether a deed claims the message of a line.
fn is_claim_of_line(line: u64, deed: &Deed) -> bool
    ensures { result ≡ is_claim_at line deed.now }
{
    match deed {
        Deed::Claim { line: own, .. } => *own == line,
        _ => false,
    }
}

/// The message that a deed claims for the command of a line.
fn claim_by(line: u64, deed: &Deed) -> Option<Message>
    ensures { option_map message_meant result ≡ message_claimed line (happening [] deed.now) }
{
    if !is_claim_of_line(line, deed) {
        return None;
    }
    match deed {
        Deed::Claim { from, n, .. } => Some(Message { rank: *from, n: *n }),
        _ => None,
    }
}

/// The deed that claims the message of a line.
fn claim_of_line(deeds: &[Deed], line: u64) -> Option<Deed>
    ensures { result ≡ find (is_claim_at line) deeds.now }
{
    deeds.iter().copied().find(|d| is_claim_of_line(line, d))
}

/// The message that the command of a line claimed.
pub fn claim_at(deeds: &[Deed], line: u64) -> Option<Message>
    ensures { option_map message_meant result ≡ claim_in deeds.now line }
{
    match claim_of_line(deeds, line) {
        Some(deed) => claim_by(line, &deed),
        None => None,
    }
}

/// The live message of a handle.
pub fn live_message(lines: &[Line], rank: u8, deeds: &[Deed], m: u16) -> Option<Message>
    ensures { option_map message_meant result ≡ message_in lines.now rank deeds.now m }
{
    match line_of_handle(lines, rank, deeds, m) {
        Some(line) => claim_at(deeds, line),
        None => None,
    }
}

/// Whether a deed is an answer.
pub fn is_answer(deed: &Deed) -> bool
    ensures { result ≡ is_answer_by deed.now }
{
    matches!(deed, Deed::Ran { .. })
}

/// How many commands gave their answer.
pub fn ran(deeds: &[Deed]) -> usize
    ensures { result ≡ count_by is_answer_by deeds.now }
{
    deeds.iter().filter(|d| is_answer(d)).count()
}

/// Whether the last deed is an answer, or there is none.
pub fn is_idle(deeds: &[Deed]) -> bool
    ensures { result ≡ option_map_or is_answer_by (slice_get deeds.now (length deeds.now - 1)) true }
{
    match deeds.last() {
        Some(deed) => is_answer(deed),
        None => true,
    }
}

/// Whether a deed starts a receive.
fn is_receive(deed: &Deed) -> bool
    ensures { result ≡ is_receive_by deed.now }
{
    matches!(deed, Deed::Post { .. } | Deed::Match { .. })
}

/// How many receives were started.
pub fn received(deeds: &[Deed]) -> u64
    ensures { result ≡ count_by is_receive_by deeds.now }
{
    deeds.iter().filter(|d| is_receive(d)).count() as u64
}

/// Whether a deed sends to a rank.
fn is_send_to(to: u8, deed: &Deed) -> bool
    ensures { result ≡ is_send_by to deed.now }
{
    match deed {
        Deed::Send { to: other, .. } => *other == to,
        _ => false,
    }
}

/// How many messages were sent to a rank.
pub fn sent(deeds: &[Deed], to: u8) -> u64
    ensures { result ≡ count_by (is_send_by to) deeds.now }
{
    deeds.iter().filter(|d| is_send_to(to, d)).count() as u64
}

/// The deed that sent message n to a rank.
pub fn send_at(deeds: &[Deed], to: u8, n: usize) -> Option<Deed>
    ensures { result ≡ slice_get (filter (is_send_by to) deeds.now) n }
{
    let mut left = n;
    for deed in deeds {
        if is_send_to(to, deed) {
            if left == 0 {
                return Some(*deed);
            }
            left -= 1;
        }
    }
    None
}

/// How many messages of a rank came.
pub fn came(rank: &Rank, from: u8) -> usize
    ensures { result ≡ count_by (λ a. a.env.from == from) rank.now.came }
{
    rank.came().iter().filter(|a| a.env.from == from).count()
}

/// Whether message n to a rank was sent by a deed without asking.
fn is_unasked_send(to: u8, n: u64, deed: &Deed) -> bool
    ensures { result ≡ is_unasked_by to n deed.now }
{
    match deed {
        Deed::Send {
            to: t,
            n: m,
            how,
            ..
        } => *t == to && (*m == n && !is_asked(*how)),
        _ => false,
    }
}

/// Whether a message is sent by asking.
fn is_asked(how: How) -> bool
    ensures { result ≡ is_ask how }
{
    matches!(how, How::Ask)
}

/// Whether message n was sent to a rank without asking.
pub fn is_unasked(deeds: &[Deed], to: u8, n: u64) -> bool
    ensures { result ≡ list_any (is_unasked_by to n) deeds.now }
{
    deeds.iter().any(|d| is_unasked_send(to, n, d))
}

/// Whether a deed recalls message n to a rank.
fn is_recall(to: u8, n: u64, deed: &Deed) -> bool
    ensures { result ≡ is_recall_by to n deed.now }
{
    match deed {
        Deed::Recall { to: t, n: m } => *t == to && *m == n,
        _ => false,
    }
}

/// Whether message n to a rank was recalled.
pub fn is_recalled(deeds: &[Deed], to: u8, n: u64) -> bool
    ensures { result ≡ list_any (is_recall_by to n) deeds.now }
{
    deeds.iter().any(|d| is_recall(to, n, d))
}

/// The oldest free message that is selected.
#[tactic(auto, unfolding(crate::specs::Looks::found_at))]
pub fn found(rank: &Rank, from: Peer, tag: TagPick, ctx: u8) -> Option<Arrival>
    ensures { result ≡ found_at rank.now from tag ctx }
{
    rank.free()
        .iter()
        .copied()
        .find(|a| selects(from, tag, ctx, &a.env))
}
