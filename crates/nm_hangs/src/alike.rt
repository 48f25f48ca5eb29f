//! Whether two states of a rank go on alike.

ghost use Rattle.std.specs.Prelude.{◌≡◌, ◌⊎◌, ℕ, ◌≤◌, ◌&&◌, IfOk, IfSome, IsTrue, OnOk, Some, count_by, find};
ghost use Rattle.std.specs.Prelude.{[], map, nat_lt, option_map};
ghost use Rattle.std.specs.List.{list_all, list_any};
ghost use Rattle.nm_history.specs.Answers.{is_start_of, request_of};
ghost use Rattle.nm_history.specs.Completion.Request.{Receiving};
ghost use Rattle.nm_history.specs.Matching.{is_of_message, is_of_receive};
ghost use Rattle.nm_lookups.specs.AskedFor.{meant_by};
ghost use Rattle.nm_outcomes.specs.Deeds.{happening};
ghost use Rattle.nm_outcomes.specs.Looks.{is_answer_by, is_receive_by, is_start_by, live_in, request_in};
ghost use Rattle.nm_explored.specs.Ends.{AreShort};
ghost use Rattle.nm_explored.specs.Lines.{line_in};
ghost use Rattle.nm_search.specs.Lists.{Extends, Has};
ghost use Rattle.nm_hangs.specs.Alike.{IsAlike, IsAsked, have_same as have_same_lem, plain as plain_lem};
ghost use Rattle.nm_hangs.specs.Alike.{pair_same as pair_same_lem, plain_reply as plain_reply_lem, same_pair};

use nm_explored::choices::choices::line_at;
use nm_history::plain::Pair;
use nm_lookups::asked::requests::Request;
use nm_outcomes::spots::deeds::{Deed, Reply};
use nm_outcomes::spots::looks::{live, ran, received};
use nm_outcomes::spots::ranks::Rank;
use nm_types::{Command, Line, Memory, Seen};
use std::alloc::Global;

/// A reply without the message that it shows.
fn plain_reply(reply: Reply) -> Reply
    ensures { result ≡ plain_reply_lem reply }
{
    match reply {
        Reply::Got { .. } => Reply::Sent,
        Reply::Cut { .. } => Reply::Sent,
        Reply::Seen(_) => Reply::Seen(Seen {
            from: 0,
            tag: 0,
            len: 0,
        }),
        _ => reply,
    }
}

/// A deed without it.
fn plain(deed: Deed) -> Deed
    ensures { result ≡ plain_lem deed }
{
    match deed {
        Deed::Ran { line, reply } => Deed::Ran {
            line,
            reply: plain_reply(reply),
        },
        _ => deed,
    }
}

/// What a rank did, without the messages that it was shown.
fn plain_deeds(alloc: Global, deeds: &[Deed]) -> Result<Vec<Deed>, Memory>
    ensures { IfOk result (λ plain. plain.items ≡ map plain_lem deeds.now) }
{
    let mut all = Vec::new(alloc);
    for deed in deeds {
        all.push(plain(*deed))?;
    }
    Ok(all)
}

/// Whether two ranks did the same, but for the messages that they were shown.
fn did_same(alloc: Global, a: &Rank, b: &Rank) -> Result<bool, Memory>
    ensures { IfOk result (λ same. IsTrue same → map plain_lem a.now.deeds ≡ map plain_lem b.now.deeds) }
{
    let one = plain_deeds(alloc, a.deeds())?;
    let other = plain_deeds(alloc, b.deeds())?;
    Ok(one.as_slice() == other.as_slice())
}

/// Whether they have the same open receives and messages.
fn have_same(a: &Rank, b: &Rank) -> bool
    ensures { result ≡ have_same_lem a.now b.now }
{
    a.receives() == b.receives()
        && a.free() == b.free()
        && a.came() == b.came()
        && a.withdrawn() == b.withdrawn()
}

/// The message of a receive.
fn pair_of(rank: &Rank, number: u64) -> Option<Pair>
    ensures { result ≡ find (is_of_receive number) rank.now.pairs }
{
    rank.pairs().iter().copied().find(|p| p.number == number)
}

/// Whether two receives have the same message, or neither has one.
fn is_same_pair(a: Option<Pair>, b: Option<Pair>) -> bool
    ensures { result ≡ same_pair a b }
{
    match a {
        Some(p) => match b {
            Some(q) => p == q,
            None => false,
        },
        None => b.is_none(),
    }
}

/// Whether a receive has the same message in both states.
fn shows_same(a: &Rank, b: &Rank, number: u64) -> bool
    ensures { result ≡ same_pair (find (is_of_receive number) a.now.pairs) (find (is_of_receive number) b.now.pairs) }
{
    is_same_pair(pair_of(a, number), pair_of(b, number))
}

/// Whether a receive and its message are paired there, too.
fn is_paired_there(b: &Rank, p: &Pair) -> bool
    ensures { result ≡ (list_any (is_of_receive p.now.number) b.now.pairs
        && list_any (is_of_message p.now.arrival.env.from p.now.arrival.n) b.now.pairs) }
{
    b.is_paired(p.number) && b.is_taken(p.arrival.env.from, p.arrival.n)
}

/// Whether what is paired in one state is paired in the other one.
fn are_paired_there(a: &Rank, b: &Rank) -> bool
    ensures { result ≡ list_all (λ p. list_any (is_of_receive p.number) b.now.pairs
        && list_any (is_of_message p.arrival.env.from p.arrival.n) b.now.pairs) a.now.pairs }
{
    a.pairs().iter().all(|p| is_paired_there(b, p))
}

/// Whether each of these receives has the same message in both states.
fn show_same(a: &Rank, b: &Rank, numbers: &[u64]) -> bool
    ensures { result ≡ list_all (λ number. same_pair (find (is_of_receive number) a.now.pairs)
        (find (is_of_receive number) b.now.pairs)) numbers.now }
{
    numbers.iter().all(|number| shows_same(a, b, *number))
}

/// Whether no pair has a number that is not given out.
fn are_numbered(a: &Rank) -> bool
    ensures { result ≡ list_all (λ p. nat_lt p.number (count_by is_receive_by a.now.deeds)) a.now.pairs }
{
    let count = received(a.deeds());
    a.pairs().iter().all(|p| p.number < count)
}

/// The name of the request that a command starts.
fn name_of(command: &Command) -> Option<u16>
    ensures { (q : ℕ) → IsTrue (is_start_of q command.now) → result ≡ Some q }
{
    match command {
        Command::Send { q, .. } => Some(*q),
        Command::Recv { q, .. } => Some(*q),
        Command::Mrecv { q, .. } => Some(*q),
        _ => None,
    }
}

/// The number of a receive.
fn number_of(request: Option<Request>) -> Option<u64>
    ensures { (number : ℕ) → option_map meant_by request ≡ Some (Receiving number) → result ≡ Some number }
{
    match request {
        Some(Request::Receiving { number }) => Some(number),
        _ => None,
    }
}

/// The receive that a name stands for.
fn receive_of(lines: &[Line], i: u8, deeds: &[Deed], name: Option<u16>) -> Option<u64>
    ensures { (q number : ℕ) → name ≡ Some q → live_in lines.now i deeds.now q ≡ Some (Receiving number) →
        result ≡ Some number }
{
    match name {
        Some(q) => number_of(live(lines, i, deeds, q)),
        None => None,
    }
}

/// The receive that the name of a line's request stands for, if the line is the rank's.
fn receive_at(lines: &[Line], i: u8, deeds: &[Deed], line: &Line) -> Option<u64>
    ensures { line.now.rank ≡ i → (q number : ℕ) → IsTrue (is_start_of q line.now.command) →
        live_in lines.now i deeds.now q ≡ Some (Receiving number) → result ≡ Some number }
{
    if line.rank == i {
        receive_of(lines, i, deeds, name_of(&line.command))
    } else {
        None
    }
}

/// Adds a number, if there is one.
fn push_number(numbers: &mut Vec<u64>, number: Option<u64>) -> Result<(), Memory>
    ensures kept { OnOk result (Extends numbers.old.items numbers.new.items) }
    ensures added { OnOk result (IfSome number (Has numbers.new.items)) }
{
    if let Some(number) = number {
        numbers.push(number)?;
    }
    Ok(())
}

/// Adds the receives that names of a rank stand for.
fn push_live(lines: &[Line], i: u8, deeds: &[Deed], numbers: &mut Vec<u64>) -> Result<(), Memory>
    ensures kept { OnOk result (Extends numbers.old.items numbers.new.items) }
    ensures added { OnOk result ((q number : ℕ) → live_in lines.now i deeds.now q ≡ Some (Receiving number) →
        Has numbers.new.items number) }
{
    for line in lines {
        push_number(numbers, receive_at(lines, i, deeds, line))?;
    }
    Ok(())
}

/// The number of the receive that a deed starts, at this line or behind it.
fn started_from(deed: &Deed, current: u64) -> Option<u64>
    ensures { (line number : ℕ) → current ≤ line → IsTrue (is_start_by line deed.now) →
        request_of line (happening [] deed.now) ≡ Some (Receiving number) → result ≡ Some number }
{
    match deed {
        Deed::Post { receive, line } => if *line >= current {
            Some(receive.number)
        } else {
            None
        },
        Deed::Match { number, line, .. } => if *line >= current {
            Some(*number)
        } else {
            None
        },
        _ => None,
    }
}

/// Adds the receives that a rank started at a line or behind it.
fn push_started(deeds: &[Deed], current: u64, numbers: &mut Vec<u64>) -> Result<(), Memory>
    ensures kept { OnOk result (Extends numbers.old.items numbers.new.items) }
    ensures added { OnOk result ((line number : ℕ) → current ≤ line →
        request_in deeds.now line ≡ Some (Receiving number) → Has numbers.new.items number) }
{
    for deed in deeds {
        push_number(numbers, started_from(deed, current))?;
    }
    Ok(())
}

/// Adds the receives that a rank started, and whose starts have no answer yet.
fn push_unanswered(
    lines: &[Line],
    i: u8,
    deeds: &[Deed],
    numbers: &mut Vec<u64>,
) -> Result<(), Memory>
    requires { AreShort lines.now }
    ensures kept { OnOk result (Extends numbers.old.items numbers.new.items) }
    ensures added { OnOk result ((line place number : ℕ) → request_in deeds.now line ≡ Some (Receiving number) →
        count_by is_answer_by deeds.now ≤ place → line_in lines.now i place ≡ Some line →
        Has numbers.new.items number) }
{
    match line_at(lines, i, ran(deeds)) {
        Some(current) => push_started(deeds, current, numbers),
        None => Ok(()),
    }
}

/// The receives that may still be asked for their messages, of those that were started.
pub fn asked_numbers(alloc: Global, lines: &[Line], i: u8, rank: &Rank) -> Result<Vec<u64>, Memory>
    requires { AreShort lines.now }
    ensures { IfOk result (λ numbers. (number : ℕ) → IsAsked lines.now i rank.now.deeds number →
        Has numbers.items number ⊎ (count_by is_receive_by rank.now.deeds ≤ number)) }
{
    let mut numbers = Vec::new(alloc);
    push_live(lines, i, rank.deeds(), &mut numbers)?;
    push_unanswered(lines, i, rank.deeds(), &mut numbers)?;
    Ok(numbers)
}

/// Whether two states of a rank have the same pairs, but for what no receive is asked for.
fn pair_same(a: &Rank, b: &Rank, numbers: &[u64]) -> bool
    ensures { result ≡ pair_same_lem a.now b.now numbers.now }
{
    are_paired_there(a, b) && are_paired_there(b, a) && are_numbered(a) && show_same(a, b, numbers)
}

/// Whether they have the same queues, too.
fn fits(a: &Rank, b: &Rank, numbers: &[u64]) -> bool
    ensures { result ≡ (have_same_lem a.now b.now && pair_same_lem a.now b.now numbers.now) }
{
    have_same(a, b) && pair_same(a, b, numbers)
}

/// Whether two states of a rank go on alike: in one these receives may be asked for their messages.
pub fn go_alike(
    alloc: Global,
    lines: &[Line],
    i: u8,
    a: &Rank,
    b: &Rank,
    numbers: &[u64],
) -> Result<bool, Memory>
    requires { (number : ℕ) → IsAsked lines.now i a.now.deeds number →
        Has numbers.now number ⊎ (count_by is_receive_by a.now.deeds ≤ number) }
    ensures { IfOk result (λ alike. IsTrue alike → IsAlike lines.now i a.now b.now) }
{
    if fits(a, b, numbers) {
        did_same(alloc, a, b)
    } else {
        Ok(false)
    }
}
