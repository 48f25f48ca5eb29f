//! The calls of a rank, as what gives it its commands.

ghost use Rattle.std.specs.Prelude.{◌≡◌, ◌+◌, ◌<◌, ◌≤◌, [], true, None, Some, IfNone, IfSome, is_some, length, option_map};
ghost use Rattle.nm_types.specs.Limits.{is_in_range};
ghost use Rattle.nm_process.specs.Playing.{AllInRange};
ghost use Rattle.nm_calls.specs.Calling.{ahead, called, gave, shown};

use nm_ghost::Trace;
use nm_process::Source;
use nm_types::{Answer, Command, Memory};
use std::marker::Model;

/// As many calls as there are lines for: the k-th one, from 0, has line k + 2.
const LAST: u64 = 18446744073709551610;

/// The commands that a rank was called with, and one that has still to run, if there is one. What ran is known to
/// contracts alone.
#[derive(Drop)]
pub struct Calls {
    // in a world of so many ranks
    ranks: u8,
    // how many ran
    at: u64,
    given: Trace<Command>,
    next: Option<Command>,
}

impl Model for Calls {
    ghost use Rattle.std.specs.Prelude.{◌≡◌, ◌<◌, ◌≤◌, true, IfSome, length};
    ghost use Rattle.nm_types.specs.Limits.{is_in_range};
    ghost use Rattle.nm_process.specs.Playing.{AllInRange};
    ghost use Rattle.nm_calls.specs.Calling.{CallsView};

    ghost Value = { CallsView };

    ghost view = { λ c. record { ranks = c.ranks; at = c.at; given = c.given.items; next = c.next } };

    ghost invariant = { λ c.
        (length c.given.items ≡ c.at) × (c.at ≤ 18446744073709551610)
        × AllInRange c.ranks c.given.items
        × IfSome c.next (λ x. (is_in_range c.ranks x ≡ true) × (c.at < 18446744073709551610)) };
}

impl Calls {
    /// None so far, in a world of so many ranks.
    pub fn new(ranks: u8) -> Calls
        ensures { result ≡ record { ranks = ranks; at = 0; given = []; next = None } }
    {
        Calls {
            ranks,
            at: 0,
            given: Trace::new(),
            next: None,
        }
    }

    /// Among how many ranks they are in range.
    pub fn ranks(&self) -> u8
        ensures value { result ≡ self.now.ranks }
        ensures counted { length self.now.given ≡ self.now.at }
        ensures in_range { AllInRange self.now.ranks (ahead self.now) }
    {
        self.ranks
    }

    /// The line of the next call, if there is one.
    pub fn line(&self) -> Option<u64>
        ensures some { IfSome result (λ line. (line ≡ self.now.at + 2)
            × (self.now.at < 18446744073709551610)) }
        ensures none { IfNone result (18446744073709551610 ≤ self.now.at) }
    {
        if self.at < LAST {
            Some(self.at + 2)
        } else {
            None
        }
    }

    /// Whether one has still to run.
    pub fn waits(&self) -> bool
        ensures { result ≡ is_some self.now.next }
    {
        self.next.is_some()
    }

    /// Puts one ahead, which runs as soon as it can go on.
    pub fn put(&mut self, command: Command)
        requires idle { self.old.next ≡ None }
        requires room { self.old.at < 18446744073709551610 }
        requires in_range { is_in_range self.old.ranks command ≡ true }
        ensures { self.new ≡ record self.old { next = Some command } }
    {
        self.next = Some(command);
    }

    /// One more ran.
    pub fn note(&mut self, command: &Command)
        requires idle { self.old.next ≡ None }
        requires room { self.old.at < 18446744073709551610 }
        requires in_range { is_in_range self.old.ranks command.now ≡ true }
        ensures { self.new ≡ called self.old command.now }
    {
        self.given = self.given.then(command);
        self.at += 1;
    }
}

impl Source for Calls {
    ghost use Rattle.nm_calls.specs.Calling.{gave, shown};

    ghost Begun = { Unit {0} };

    ghost shows = { shown };

    ghost gives = { gave };

    fn count(&self) -> usize {
        0
    }

    fn next(&self) -> Option<(u64, &Command)> {
        let Some(command) = &self.next else {
            return None;
        };
        Some((self.at + 2, command))
    }

    fn pass(&mut self, _answer: &Answer) -> Result<(), Memory> {
        let Some(command) = self.next.take() else {
            unreachable!()
        };
        self.given = self.given.then(&command);
        self.at += 1;
        Ok(())
    }
}
