//! What is called for at a claim, and at the answer to a matched probe.

ghost use Rattle.std.specs.Prelude.{◌≡◌, ℕ, if◌then◌else◌, None, List, Some, [], ◌∷◌};
ghost use Rattle.std.specs.Prelude.{option_map, option_to_list, slice_get, take};
ghost use Rattle.nm_types.specs.Commands.{commands_of};
ghost use Rattle.nm_history.specs.declared.events.Event as event;
ghost use Rattle.nm_history.specs.declared.events.Happened.TheVariants.{Claim};
ghost use Rattle.nm_history.specs.RankRun.{claims_since};
ghost use Rattle.nm_match.specs.Names.{id_of_arrival};
ghost use Rattle.nm_lookups.specs.Pairings.{Tells};
ghost use Rattle.nm_lookups.specs.SinceAnswer.{IsSince};
ghost use Rattle.nm_check_rank.specs.Claimings as spec;
ghost use Rattle.nm_check_rank.specs.Kinds.{is_claiming};
ghost use Rattle.nm_check_rank.specs.Runs.{IsRun, commands_in};

use crate::paired::claims::{calls_for_claim, claim_line, is_mprobe_line};
use crate::paired::dues::Due;
use crate::paired::manies::{Many, many_due, one_if};
use crate::paired::runs::Run;
use nm_history::{Event, Happened};
use nm_lookups::asked::since::Since;
use nm_lookups::firsts::Message;
use nm_lookups::pairing::Pairing;
use nm_types::{Arrival, Line};

/// The message that was found, where a matched probe found it.
fn message_probed(mprobe: bool, found: Option<Arrival>) -> Option<Message>
    ensures { result ≡ (if mprobe then option_map id_of_arrival found else None) }
{
    if !mprobe {
        return None;
    }
    match found {
        Some(a) => Some(Message {
            rank: a.env.from,
            n: a.n,
        }),
        None => None,
    }
}

/// The message that is to be claimed for the line of the claim at a place.
fn claim_called(rank: u8, lines: &[Line], pairing: &Pairing, k: usize, line: u64) -> Option<Message>
    ensures { (h : List event.Event) (e : event.Event) (from n : ℕ) →
        Tells rank lines.now h pairing.now → slice_get h k ≡ Some e → e.what ≡ Claim from n line →
        result ≡ spec.claim_called (commands_of rank lines.now) (take k h) line }
{
    message_probed(is_mprobe_line(rank, lines, line), pairing.look(k))
}

/// No message is to be claimed, or another one.
fn message_due(called: Option<Message>, found: Message) -> Option<Due>
    ensures { result ≡ spec.message_due called found }
{
    let wrong = Some(Due::Claim { called, found });
    match called {
        Some(message) => { if message == found { None } else { wrong } }
        None => wrong,
    }
}

/// The claim is to name another line.
fn named_due(called: u64, found: u64) -> Option<Due>
    ensures { result ≡ spec.named_due called found }
{
    if called == found {
        None
    } else {
        Some(Due::Named { called, found })
    }
}

/// Another number of claims is called for than was found, or one that names another line, where at
/// most one was found.
fn line_due(called: bool, line: u64, found: Option<u64>) -> Option<Due>
    ensures { result
        ≡ spec.claims_due (if called then line ∷ [] else []) (option_to_list found) }
{
    match found {
        Some(own) => {
            if called {
                named_due(line, own)
            } else {
                many_due(Many::Nothing, Many::One)
            }
        }
        None => many_due(one_if(called), Many::Nothing),
    }
}

/// .. of the claims since the answer before.
fn claims_due(events: &[Event], since: Since, k: usize, called: bool, line: u64) -> Option<Due>
    requires { IsSince is_claiming events.now k since }
    ensures { result
        ≡ spec.claims_due (if called then line ∷ [] else []) (claims_since (take k events.now)) }
{
    match since {
        Since::Nothing => line_due(called, line, None),
        Since::One(place) => line_due(called, line, claim_line(&events[place].what)),
        Since::More => many_due(one_if(called), Many::More),
    }
}

/// What is called for at a place by the rule on claims.
pub(crate) fn claim_due(run: &Run, since: Since, k: usize, e: &Event) -> Option<Due>
    requires run { IsRun run.now }
    requires left { IsSince is_claiming run.now.events.now k since }
    requires here { slice_get run.now.events.now k ≡ Some e.now }
    ensures { result ≡ spec.claim_due (commands_in run.now) (take k run.now.events.now) e.now.what }
{
    match &e.what {
        Happened::Ran { line, answer } => {
            let called = calls_for_claim(run.rank, run.lines, *line, answer);
            claims_due(run.events, since, k, called, *line)
        }
        Happened::Claim { from, n, line } => {
            let called = claim_called(run.rank, run.lines, &run.tables.pairing, k, *line);
            message_due(called, Message { rank: *from, n: *n })
        }
        _ => None,
    }
}
