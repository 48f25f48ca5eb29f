//! What was called for at a claim, at a start and at the answer to a cancel.

ghost use Rattle.std.specs.Prelude.{◌≡◌, IfOk, string_bytes};
ghost use Rattle.nm_types.specs.Text.{peer_word, tag_word as tag_word_lem};
ghost use Rattle.nm_verdict.specs.Called as spec;

use crate::events::{from_words, receive_words, to_words};
use nm_check_rank::paired::arguments::{Argument, Mismatch, Sort};
use nm_check_rank::paired::manies::Many;
use nm_lookups::asked::requests::Request;
use nm_lookups::firsts::Message;
use nm_types::{How, Peer, TagPick};
use std::alloc::{AllocError, Global};

/// How many there are to be.
fn many_word(many: Many) -> &'static str
    ensures { result.now ≡ spec.many_word many }
{
    match many {
        Many::Nothing => "none",
        Many::One => "one",
        Many::More => "two or more",
    }
}

/// .. and how many there are.
fn found_word(many: Many) -> &'static str
    ensures { result.now ≡ spec.found_word many }
{
    match many {
        Many::Nothing => "is none",
        Many::One => "is one",
        Many::More => "are two or more",
    }
}

/// Another number of events is called for than was found.
pub(crate) fn many_words(alloc: Global, called: Many, found: Many) -> Result<String, AllocError>
    ensures { IfOk result (λ text. string_bytes text ≡ spec.many_words called found) }
{
    format!(in alloc;
        "since the answer before there is to be {}, and there {}",
        many_word(called),
        found_word(found)
    )
}

/// Another message is claimed than is to be, if one is.
pub(crate) fn claim_words(
    alloc: Global,
    called: Option<Message>,
    found: Message,
) -> Result<String, AllocError>
    ensures { IfOk result (λ text. string_bytes text ≡ spec.claim_words called found) }
{
    let found = from_words(alloc, found.rank, found.n)?;
    match called {
        Some(message) => {
            let called = from_words(alloc, message.rank, message.n)?;
            format!(in alloc; "it is to be {}, and is {}", called, found)
        }
        None => format!(in alloc;
            "no message is to be claimed for that line, and it is {}",
            found
        ),
    }
}

/// A claim for another line.
pub(crate) fn named_words(alloc: Global, called: u64, found: u64) -> Result<String, AllocError>
    ensures { IfOk result (λ text. string_bytes text ≡ spec.named_words called found) }
{
    format!(in alloc;
        "its claim is to name line {}, and names line {}",
        called, found
    )
}

/// A request.
fn request_words(alloc: Global, request: Request) -> Result<String, AllocError>
    ensures { IfOk result (λ text. string_bytes text ≡ spec.request_words request) }
{
    match request {
        Request::Sending { to, n } => to_words(alloc, to, n),
        Request::Receiving { number } => receive_words(alloc, number),
    }
}

/// Another request is cancelled than is to be.
pub(crate) fn of_words(alloc: Global, called: Request, found: Request) -> Result<String, AllocError>
    ensures { IfOk result (λ text. string_bytes text ≡ spec.of_words called found) }
{
    let called = request_words(alloc, called)?;
    let found = request_words(alloc, found)?;
    format!(in alloc; "it is to be of {}, and is of {}", called, found)
}

/// What a start is.
fn sort_word(sort: Sort) -> &'static str
    ensures { result.now ≡ spec.sort_word sort }
{
    match sort {
        Sort::Send => "a send",
        Sort::Receive => "a receive",
        Sort::Matched => "a receive of a claimed message",
    }
}

/// The source that a receive names.
fn source_word(alloc: Global, from: Peer) -> Result<String, AllocError>
    ensures { IfOk result (λ text. string_bytes text ≡ peer_word from) }
{
    match from {
        Peer::Any => format!(in alloc; "any"),
        Peer::One(rank) => format!(in alloc; "{}", rank),
    }
}

/// .. and the tag.
fn tag_word(alloc: Global, tag: TagPick) -> Result<String, AllocError>
    ensures { IfOk result (λ text. string_bytes text ≡ tag_word_lem tag) }
{
    match tag {
        TagPick::Any => format!(in alloc; "any"),
        TagPick::One(tag) => format!(in alloc; "{}", tag),
    }
}

/// How a message is sent, as a trace has it.
fn way_word(how: How) -> &'static str
    ensures { result.now ≡ spec.way_word how }
{
    match how {
        How::Eager => "`eager`",
        How::Ask => "`ask`",
    }
}

/// The name of an argument.
fn name_word(argument: Argument) -> &'static str
    ensures { result.now ≡ spec.name_word argument }
{
    match argument {
        Argument::Sort(_) => "it",
        Argument::To(_) => "its destination",
        Argument::From(_) => "its source",
        Argument::Tag(_) => "its tag",
        Argument::Context(_) => "its context",
        Argument::Length(_) => "its length",
        Argument::Capacity(_) => "its capacity",
        Argument::Message(_) => "its message",
        Argument::Way(_) => "it",
        Argument::Line(_) => "its command",
    }
}

/// .. and its value.
fn value_words(alloc: Global, argument: Argument) -> Result<String, AllocError>
    ensures { IfOk result (λ text. string_bytes text ≡ spec.value_words argument) }
{
    match argument {
        Argument::Sort(sort) => format!(in alloc; "{}", sort_word(sort)),
        Argument::To(to) => format!(in alloc; "{}", to),
        Argument::From(from) => source_word(alloc, from),
        Argument::Tag(tag) => tag_word(alloc, tag),
        Argument::Context(ctx) => format!(in alloc; "{}", ctx),
        Argument::Length(len) => format!(in alloc; "{}", len),
        Argument::Capacity(cap) => format!(in alloc; "{}", cap),
        Argument::Message(message) => from_words(alloc, message.rank, message.n),
        Argument::Way(how) => format!(in alloc; "{}", way_word(how)),
        Argument::Line(line) => format!(in alloc; "that of line {}", line),
    }
}

/// An argument that was called for, and another one that was found.
pub(crate) fn mismatch_words(alloc: Global, mismatch: Mismatch) -> Result<String, AllocError>
    ensures { IfOk result (λ text. string_bytes text ≡ spec.mismatch_words mismatch) }
{
    let called = value_words(alloc, mismatch.called)?;
    let found = value_words(alloc, mismatch.found)?;
    let name = name_word(mismatch.called);
    format!(in alloc; "{} is to be {}, and is {}", name, called, found)
}
