//! The calls of a rank.

ghost use Rattle.std.specs.Prelude.{◌≡◌, ◌∷◌, ◌++◌, ◌↔◌, [], IfSome, IsTrue, None, OnOk};

use nm_types::{Command, Memory};
use std::alloc::Global;
use std::collections::VecDeque;
use std::marker::Model;

/// The calls that a rank made, in order.
#[derive(Drop)]
pub struct Calls {
    items: VecDeque<Command>,
}

impl Model for Calls {
    ghost use Rattle.std.specs.Prelude.{List};
    ghost use Rattle.nm_types.specs.declared.scripts.Command.{Command};

    ghost Value = { List Command };

    ghost view = { λ a. a.items.items };
}

impl Calls {
    /// None yet.
    pub fn new(alloc: Global) -> Calls
        ensures { result ≡ [] }
    {
        Calls {
            items: VecDeque::new(alloc),
        }
    }

    /// Puts a call at the end.
    pub fn push(&mut self, call: Command) -> Result<(), Memory>
        ensures { OnOk result (self.new ≡ self.old ++ call ∷ []) }
    {
        self.items.push_back(call)?;
        Ok(())
    }

    /// Takes the first one out, if there is one.
    pub fn pop(&mut self) -> Option<Command>
        ensures some { IfSome result (λ call. self.old ≡ call ∷ self.new) }
        ensures none { result ≡ None → self.old ≡ [] }
    {
        self.items.pop_front()
    }

    /// Whether there is none.
    pub fn is_empty(&self) -> bool
        ensures { IsTrue result ↔ (self.now ≡ []) }
    {
        self.items.is_empty()
    }
}
