//! What is looked up of a rank's history.

ghost use Rattle.std.specs.Prelude.{◌≡◌, ℕ, IfOk, List, Some, option_and_then, slice_get, take};
ghost use Rattle.nm_types.specs.Commands.{command_at, commands_of};
ghost use Rattle.nm_types.specs.declared.answers.Answer.{Answer};
ghost use Rattle.nm_history.specs.declared.events.Event as event;
ghost use Rattle.nm_history.specs.declared.events.Happened.TheVariants.{Ran};
ghost use Rattle.nm_history.specs.Answers.{can_go_on};
ghost use Rattle.nm_history.specs.Delivery.{asked_pair};
ghost use Rattle.nm_check_rank.specs.Tabled.{AreRankTables};
ghost use Rattle.nm_check_rank.specs.Takes.{IsTakenAt};
ghost use Rattle.nm_types.specs.declared.scripts.Line as script_line;
ghost use Rattle.nm_history.specs.RankRun.{Always, NumberAt};

use crate::numbers::{Counts, counted};
use crate::paired::results::{is_over, pair_shown};
use nm_history::Event;
use nm_history::plain::Pair;
use nm_lookups::asked::asked::{Asked, live};
use nm_lookups::asked::commands::command_of_line;
use nm_lookups::firsts::Message;
use nm_lookups::pairing::Pairing;
use nm_lookups::places::Places;
use nm_types::{Command, Line, Memory};
use std::alloc::Global;

/// What is looked up of a rank: how many messages there were, where each thing happened first, what
/// was paired with what, and what each command asks for.
pub struct Tables {
    pub counts: Counts,
    pub places: Places,
    pub pairing: Pairing,
    pub asked: Asked,
}

impl Drop for Tables {
    fn drop(self) {
        let Tables {
            counts: _,
            places: _,
            pairing: _,
            asked: _,
        } = self;
    }
}

impl Tables {
    /// Sends, receives and arrivals must be numbered in order.
    pub fn of(alloc: Global, rank: u8, lines: &[Line], events: &[Event]) -> Result<Tables, Memory>
        requires numbered { (ranks : ℕ) × Always (NumberAt ranks) events.now }
        ensures { IfOk result (AreRankTables rank lines.now events.now) }
    {
        let counts = counted(events);
        let places = Places::of(alloc, events)?;
        let pairing = Pairing::of(alloc, rank, lines, events)?;
        let asked = Asked::of(alloc, lines, rank, events, &places.by_number)?;
        Ok(Tables {
            counts,
            places,
            pairing,
            asked,
        })
    }

    /// The pair whose message the command of a line shows, if it is a wait or a test, which has its
    /// answer at a place.
    pub fn pair_asked(&self, rank: u8, lines: &[Line], k: usize, line: u64) -> Option<Pair>
        ensures { (h : List event.Event) (e : event.Event) (answer : Answer) →
            AreRankTables rank lines.now h self.now → slice_get h k ≡ Some e →
            e.what ≡ Ran line answer →
            result ≡ option_and_then (asked_pair (commands_of rank lines.now) (take k h))
            (command_at (commands_of rank lines.now) line) }
    {
        match command_of_line(lines, rank, line) {
            Some(command) => pair_shown(self, command, self.asked.request(k), k),
            None => None,
        }
    }

    /// The place of the first event by which a receive has message `n` of a rank.
    pub fn taken_at(&self, from: u8, n: u64) -> Option<usize>
        ensures { (rank : ℕ) (lines : List script_line.Line) (h : List event.Event) →
            AreRankTables rank lines h self.now → IsTakenAt h from n result }
    {
        let taken = self.pairing.taken();
        match taken.get(&Message { rank: from, n }) {
            Some(place) => Some(*place),
            None => None,
        }
    }

    /// Whether a command can go on at the end of the history.
    pub fn can_go_on(&self, rank: u8, lines: &[Line], events: &[Event], command: &Command) -> bool
        requires { AreRankTables rank lines.now events.now self.now }
        ensures { result ≡ can_go_on (commands_of rank lines.now) events.now command.now }
    {
        match command {
            Command::Wait { q } => {
                let names = &self.asked.names;
                let k = events.len();
                is_over(self, live(names, events, &self.places.by_number, *q, k), k)
            }
            Command::Await { from, tag, ctx } => {
                self.pairing.first_message(*from, *tag, *ctx).is_some()
            }
            _ => true,
        }
    }
}
