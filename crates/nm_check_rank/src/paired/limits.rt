//! What is called for by how a message is sent.

ghost use Rattle.std.specs.Prelude.{◌≡◌, if◌then◌else◌, Some, None};
ghost use Rattle.nm_check_rank.specs.Startings as spec;
ghost use Rattle.nm_check_rank.specs.declared.paired.dues.Due.TheVariants as due;
ghost use Rattle.nm_check_rank.specs.declared.paired.objections.Objection.TheVariants as against;

use crate::hows::is_asked;
use crate::paired::dues::Due;
use crate::paired::objections::Objection;
use crate::paired::starts::length_of;
use nm_history::Happened;
use nm_types::{Command, How};

/// Whether a send of so many bytes is to ask by the eager limit, and whether it asks.
fn limit_due(limit: u16, len: u64, called: bool, asks: bool) -> Option<Due>
    ensures { result ≡ spec.limit_due limit len called asks }
{
    let wrong = Some(Due::Eager { limit, len, asks });
    if called {
        return if asks { None } else { wrong };
    }
    if asks { wrong } else { None }
}

/// A synchronous send that does not ask.
fn unasked(asks: bool) -> Option<Due>
    ensures { result ≡ (if asks then None else Some (due.Against against.Asking)) }
{
    if asks {
        None
    } else {
        Some(Due::Against {
            objection: Objection::Asking,
        })
    }
}

/// A synchronous send is to ask, and a standard one exactly where it is longer than the eager limit.
fn sent_due(limit: u16, how: How, command: &Command) -> Option<Due>
    ensures { result ≡ spec.sent_due limit how command.now }
{
    match command {
        Command::Send { body, sync, .. } => {
            if *sync {
                return unasked(is_asked(how));
            }
            let len = length_of(body);
            limit_due(limit, len, u64::from(limit) < len, is_asked(how))
        }
        _ => None,
    }
}

/// .. if what a command started is a send.
pub(crate) fn one_due(limit: u16, what: &Happened, command: &Command) -> Option<Due>
    ensures { result ≡ spec.one_due limit command.now what.now }
{
    match what {
        Happened::Send { how, .. } => sent_due(limit, *how, command),
        _ => None,
    }
}
