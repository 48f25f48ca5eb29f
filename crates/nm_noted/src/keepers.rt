//! What keeps the calls of a rank.

ghost use Rattle.std.specs.Prelude.{◌≡◌, ◌++◌, ◌∷◌, [], List, OnOk};
ghost use Rattle.nm_types.specs.declared.scripts.Command.{Command};

use nm_transcript::{Calls, LastCalls};
use nm_types::{Answer, Command, Memory};
use std::alloc::Global;

/// What keeps the calls of a rank: `Calls` all of them, `LastCalls` the last ones. Contracts see them all, in order.
pub trait Keeper: Drop {
    ghost calls: { Self → List Command };

    /// None yet.
    fn empty(alloc: Global) -> Self
        ensures { calls result ≡ [] };

    /// The last call got this answer.
    fn hear(&mut self, answer: &Answer)
        ensures { calls self.new ≡ calls self.old };

    /// Puts a call at the end.
    fn keep(&mut self, call: Command) -> Result<(), Memory>
        ensures { OnOk result (calls self.new ≡ calls self.old ++ call ∷ []) };
}

impl Keeper for Calls {
    ghost calls = { λ a. a };

    fn empty(alloc: Global) -> Calls {
        Calls::new(alloc)
    }

    fn hear(&mut self, _answer: &Answer) {}

    fn keep(&mut self, call: Command) -> Result<(), Memory> {
        self.push(call)
    }
}

impl Keeper for LastCalls {
    ghost calls = { λ a. a };

    fn empty(alloc: Global) -> LastCalls {
        LastCalls::new(alloc)
    }

    fn hear(&mut self, answer: &Answer) {
        if let Answer::Started = answer {
            self.start();
        }
    }

    fn keep(&mut self, call: Command) -> Result<(), Memory> {
        self.push(call)
    }
}
