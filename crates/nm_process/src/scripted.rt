//! The commands of a rank of a script, one after another.

ghost use Rattle.std.specs.Prelude.{◌≡◌, ◌+◌, ◌<◌, ◌++◌, ℕ, None, true, List};
ghost use Rattle.std.specs.Prelude.{[], ◌∷◌, IfSome, IsSome, MatchOption, OnOk, option_map, slice_get};
ghost use Rattle.nm_process.specs.Lines.{AreLines};
ghost use Rattle.nm_process.specs.Places.{ArePlaces, gives_lines, place_at as place_at_lem, shown};

use crate::sources::Source;
use nm_types::{Answer, Command, Line, Memory};
use std::marker::Model;

/// Where the commands of a rank stand in a script, and which of them is next.
#[derive(Drop)]
pub struct Scripted<'a> {
    lines: &'a [Line],
    // the rank, of so many
    me: u8,
    ranks: u8,
    // where its commands stand, in order
    own: Vec<u32>,
    // how many of them ran
    at: u32,
    // where the next one stands, past all lines if there is none
    next: usize,
}

impl<'a> Model for Scripted<'a> {
    ghost use Rattle.nm_process.specs.Places.{IsPlaced, ScriptedView};

    ghost Value = { ScriptedView };

    ghost view = { λ s.
        record {
          lines = s.lines.now;
          me = s.me;
          ranks = s.ranks;
          own = s.own.items;
          at = s.at;
          next = s.next;
        } };

    ghost invariant = { λ s.
        IsPlaced (record {
          lines = s.lines.now;
          me = s.me;
          ranks = s.ranks;
          own = s.own.items;
          at = s.at;
          next = s.next;
        }) };
}

// The place of the command of this number, past all lines where there is none.
fn place_at(own: &[u32], lines: &[Line], at: u32) -> usize
    ensures { result ≡ place_at_lem own.now lines.now at }
{
    match own.get(at as usize) {
        Some(place) => *place as usize,
        None => lines.len(),
    }
}

impl<'a> Scripted<'a> {
    /// The commands of a rank of so many, which stand at these places of the script, from the first on.
    pub fn new(me: u8, ranks: u8, lines: &'a [Line], own: Vec<u32>) -> Scripted<'a>
        requires lines { AreLines ranks lines.now }
        requires places { ArePlaces lines.now me own.items }
        ensures of { (result.lines ≡ lines.now) × (result.me ≡ me) × (result.ranks ≡ ranks)
            × (result.at ≡ 0) }
    {
        let next = place_at(&own, lines, 0);
        Scripted {
            lines,
            me,
            ranks,
            own,
            at: 0,
            next,
        }
    }
}

impl<'a> Source for Scripted<'a> {
    ghost Begun = { Unit {0} };

    ghost shows = { shown };

    ghost gives = { gives_lines };

    fn count(&self) -> usize {
        self.own.len()
    }

    fn next(&self) -> Option<(u64, &Command)> {
        let line = self.lines.get(self.next)?;
        Some((self.next as u64 + 2, &line.command))
    }

    fn pass(&mut self, _answer: &Answer) -> Result<(), Memory> {
        self.at += 1;
        self.next = place_at(&self.own, self.lines, self.at);
        Ok(())
    }
}
