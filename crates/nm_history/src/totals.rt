//! What the answers of a history add up to.

ghost use Rattle.std.specs.Prelude.{[], ◌++◌, List};
ghost use Rattle.nm_types.specs.declared.answers.Answer.{Answer};
ghost use Rattle.nm_history.specs.Totals.{AreTotals, answer_in, answers_given};

use crate::{Event, Happened};
use nm_types::Answer;

/// What the answers of a history add up to. Each number is exact where it is below 2^64.
#[derive(Clone, Copy)]
pub struct Totals {
    /// How many sends are complete.
    pub sent: u64,
    /// How many receives have their message.
    pub got: u64,
    /// How many bytes these messages have together.
    pub bytes: u64,
}

impl Totals {
    /// What no answers add up to.
    pub(crate) fn new() -> Totals
        ensures { AreTotals [] result }
    {
        Totals {
            sent: 0,
            got: 0,
            bytes: 0,
        }
    }

    /// What the answers of these events add up to.
    pub(crate) fn of_events(events: &[Event]) -> Totals
        ensures { AreTotals (answers_given events.now) result }
    {
        let mut totals = Totals::new();
        for event in events {
            totals.add(&event.what);
        }
        totals
    }

    /// Adds what happened, if it is an answer.
    pub(crate) fn add(&mut self, what: &Happened)
        ensures { (before : List Answer) → AreTotals before self.old
            → AreTotals (before ++ answer_in what.now) self.new }
    {
        match what {
            Happened::Ran {
                answer: Answer::Sent,
                ..
            } => self.sent = self.sent.wrapping_add(1),
            Happened::Ran {
                answer: Answer::Got { body, .. },
                ..
            } => {
                self.got = self.got.wrapping_add(1);
                self.bytes = self.bytes.wrapping_add(body.len() as u64);
            }
            _ => {}
        }
    }
}
