//! The words of each rule.

ghost use Rattle.std.specs.Prelude.{◌≡◌};
ghost use Rattle.nm_verdict.specs.Sentences as spec;

use nm_breaks::Stop;
use nm_check::rest::firsts::EventRule;
use nm_check::{CarriedClause, OwnClause, RestClause};
use nm_script::Kind;

/// The rule of a rank's own run.
pub fn own_words(clause: OwnClause) -> &'static str
    ensures { result.now ≡ spec.own_words clause }
{
    match clause {
        OwnClause::Stamps => {
            "the stamps of a rank are at least 1 and rise, and this one is not greater than the one before"
        }
        OwnClause::Numbers => {
            "the sends to each rank, the arrivals from each and the receives are numbered from 0, and this number is not the next, or the rank is none of the script's (MPI 3.1, 3.5)"
        }
        OwnClause::Claims => {
            "a matched probe that shows a message has its one claim, of the first free message that it selects, and there is no other claim (MPI 3.1, 3.8.2)"
        }
        OwnClause::Starts => {
            "a start that was taken has its one send or receive since the answer before, with the arguments of its line, by rendezvous exactly where it is synchronous or longer than --eager says, and there is no other (MPI 3.1, 3.2, 3.4 and 3.7.2)"
        }
        OwnClause::Cancels => {
            "a cancel has its one event since the answer before, and there is no other, and that of a receive is done exactly where the receive has no message (MPI 3.1, 3.8.4)"
        }
        OwnClause::Wholes => {
            "a message is whole once, after it came, and after a receive took it where it was sent by rendezvous (MPI 3.1, 3.4 and 3.7.3)"
        }
        OwnClause::Ends => {
            "a message leaves once, after its send, is withdrawn once, after it came, done exactly where it is free, and a recall is answered once (MPI 3.1, 3.7.3 and 3.8.4)"
        }
        OwnClause::Answers => {
            "the commands of a rank run in order, each with the answer that matching gives it on the events before (MPI 3.1, 3.5, 3.7.3 and 3.8)"
        }
    }
}

/// The rule of the messages from one rank to another.
pub fn carried_words(clause: CarriedClause) -> &'static str
    ensures { result.now ≡ spec.carried_words clause }
{
    match clause {
        CarriedClause::Messages => {
            "the messages that came are the first that were sent, in order, each with its envelope and a greater stamp (MPI 3.1, 3.5)"
        }
        CarriedClause::Bodies => {
            "a receive shows the body of the send that it is paired with (MPI 3.1, 3.2.4)"
        }
        CarriedClause::Outs => {
            "a message that was sent by rendezvous leaves only after a receive took it, by stamps (MPI 3.1, 3.4)"
        }
        CarriedClause::Withdrawals => {
            "a withdrawal comes after its recall, and the answer to a recall after its withdrawal, with the same word (MPI 3.1, 3.8.4)"
        }
    }
}

/// The rule of all ranks at rest.
pub fn rest_words(clause: RestClause) -> &'static str
    ensures { result.now ≡ spec.rest_words clause }
{
    match clause {
        RestClause::Arrived => { "all that was sent has come (MPI 3.1, 3.5)" }
        RestClause::Eager => {
            "each message that was sent eagerly has left and is whole (MPI 3.1, 3.4)"
        }
        RestClause::Asked => {
            "each message that was sent by rendezvous and that a receive took has left and is whole, and one that is claimed alone has done neither (MPI 3.1, 3.4 and 3.8.2)"
        }
        RestClause::Recalls => { "each recall is answered (MPI 3.1, 3.8.4)" }
        RestClause::Waits => {
            "each rank is at its end, or waits at its next command, which can't go on (MPI 3.1, 3.7.3 and 3.8.1)"
        }
        RestClause::Counts => { "the counts of packets are those that the events call for" }
    }
}

/// What is left of an event in the end.
pub fn left_words(rule: EventRule) -> &'static str
    ensures { result.now ≡ spec.left_words rule }
{
    match rule {
        EventRule::Arrived => { "it never came" }
        EventRule::Eager => { "it never left, or was never whole" }
        EventRule::Asked => {
            "a receive took it, and it never left or was never whole; or it is claimed alone, and did"
        }
        EventRule::Recalls => { "it was never answered" }
    }
}

/// Why a line is none of a script.
pub fn kind_words(clause: Kind) -> &'static str
    ensures { result.now ≡ spec.kind_words clause }
{
    match clause {
        Kind::TooLong => { "the script is longer than 8,388,608 bytes" }
        Kind::NotAscii => { "it has a byte that is no printable character of ASCII" }
        Kind::Lines => { "a script has at most 65,536 lines" }
        Kind::First => { "the first line is to be `ranks N`" }
        Kind::Rank => { "it is to begin with a rank of the script and a colon" }
        Kind::Command => { "there is no such command" }
        Kind::Count => { "the command has another number of arguments" }
        Kind::Number => { "an argument is no number of its range" }
        Kind::Body => { "the body is not spelled right, or is too long" }
        Kind::BodyTotal => { "all bodies up to here are longer than 67,108,864 bytes" }
    }
}

/// What stops a text that is no trace.
pub fn stop_words(stop: Stop) -> &'static str
    ensures { result.now ≡ spec.stop_words stop }
{
    match stop {
        Stop::Short => { "the trace ends too soon" }
        Stop::Unfed => { "the last line has no line feed" }
        Stop::Order => { "it is out of order" }
        Stop::Number => { "a number in it is out of range" }
        Stop::Event => { "there is no such event" }
        Stop::Report => { "the report of the events above does not go on so" }
        Stop::Line => { "no trace begins so" }
    }
}
