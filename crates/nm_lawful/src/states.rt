//! The state of all ranks.

ghost use Rattle.std.specs.Prelude.{◌≡◌, ◌<◌, IfOk, OnOk, length, option_copied, slice_get};
ghost use Rattle.nm_lawful.specs.declared.messages.Standing.TheVariants as standing;
ghost use Rattle.nm_lawful.specs.Ranks.{ran_at, with_standing, without_message};
ghost use Rattle.nm_lawful.specs.States.{after_lem, first_state, received_by, with_rank};

use crate::hashes::{of_rank, of_state};
use crate::messages::{Act, Message, Standing};
use crate::ranks::Rank;
use nm_types::Memory;
use std::alloc::Global;
use std::hash::{Hash, Hasher};
use std::marker::Model;

/// What a move does.
#[derive(Clone, Copy)]
pub enum Deed {
    /// A rank runs the line at a place. Its next one is one of those from another place on.
    Run {
        rank: u8,
        place: usize,
        next: usize,
        act: Act,
    },
    /// The receive that the line at a place started takes a message.
    Pair {
        message: Message,
        place: usize,
        cap: u32,
    },
    /// A send is cancelled.
    Withdraw {
        message: Message,
    },
    /// The receive of a rank is cancelled.
    Off {
        rank: u8,
        place: usize,
    },
}

/// The states of the ranks.
pub struct State {
    ranks: Vec<Rank>,
}

impl Drop for State {
    fn drop(self) {
        let State { ranks: _ } = self;
    }
}

impl Model for State {
    ghost use Rattle.std.specs.Prelude.{◌<◌, List, length};
    ghost use Rattle.nm_lawful.specs.Ranks.{RankState};

    ghost Value = { List RankState };

    ghost view = { λ a. a.ranks.items };

    ghost invariant = { λ a. length a.ranks.items < 256 };
}

impl PartialEq for State {
    ghost use Rattle.std.specs.Cmp.{partial_equiv_from_equiv};
    ghost use Rattle.nm_lawful.specs.Sames.{same_states};
    ghost use Rattle.nm_lawful.specs.SameLaws.{states_equiv};

    ghost eq = { λ a b. same_states a b };

    ghost laws = { partial_equiv_from_equiv states_equiv };

    fn eq(&self, other: &State) -> bool {
        self.ranks == other.ranks
    }
}

impl Eq for State {
    ghost use Rattle.nm_lawful.specs.SameLaws.{states_equiv};

    ghost laws = { states_equiv };
}

impl Hash for State {
    ghost use Rattle.std.specs.Hash as fed;
    ghost use Rattle.nm_lawful.specs.Numbers.{state_number};
    ghost use Rattle.nm_lawful.specs.SameLaws.{states_alike};

    ghost hash_input = { λ a. fed.u64 (state_number a) };

    ghost respects_eq = { states_alike.fed };

    fn hash<H: Hasher>(&self, state: &mut H) {
        state.write_u64(of_state(self.ranks.as_slice()));
    }
}

impl State {
    /// So many ranks, none of which did anything.
    pub fn new(alloc: Global, ranks: u8) -> Result<State, Memory>
        ensures { IfOk result (λ state. state ≡ first_state ranks) }
    {
        let mut all = Vec::new(alloc);
        for _ in 0..ranks {
            all.push(Rank::new(alloc))?;
        }
        Ok(State { ranks: all })
    }

    /// An equal one.
    pub fn copy(&self, alloc: Global) -> Result<State, Memory>
        ensures { IfOk result (λ copy. copy ≡ self.now) }
    {
        let mut all = Vec::new(alloc);
        for rank in self.ranks.iter() {
            all.push(rank.copy()?)?;
        }
        Ok(State { ranks: all })
    }

    /// The ranks, by number.
    pub fn as_slice(&self) -> &[Rank]
        ensures value { result.now ≡ self.now }
        ensures few { length result.now < 256 }
    {
        self.ranks.as_slice()
    }

    /// The state of a rank.
    pub fn rank(&self, rank: u8) -> Option<&Rank>
        ensures { option_copied result ≡ slice_get self.now rank }
    {
        self.ranks.get(rank as usize)
    }

    /// A rank runs a line.
    fn run(
        &mut self,
        alloc: Global,
        rank: u8,
        place: usize,
        next: usize,
        act: &Act,
    ) -> Result<(), Memory>
        ensures { OnOk result (self.new ≡ with_rank (ran_at place next act.now) rank self.old) }
    {
        if (rank as usize) < self.ranks.len() {
            self.ranks[rank as usize].run(alloc, place, next, act)?;
        }
        Ok(())
    }

    /// The request of a rank stands otherwise.
    fn mark(
        &mut self,
        alloc: Global,
        rank: u8,
        place: usize,
        standing: Standing,
    ) -> Result<(), Memory>
        ensures { OnOk result (self.new ≡ with_rank (with_standing place standing) rank self.old) }
    {
        if (rank as usize) < self.ranks.len() {
            self.ranks[rank as usize].mark(alloc, place, standing)?;
        }
        Ok(())
    }

    /// A message leaves those that wait.
    fn take_out(&mut self, m: &Message)
        ensures { self.new ≡ with_rank (without_message m.now.place) m.now.from self.old }
    {
        if (m.from as usize) < self.ranks.len() {
            self.ranks[m.from as usize].take_out(m.place);
        }
    }

    /// What an act changes of the rank whose message it receives.
    fn receive(&mut self, act: &Act)
        ensures { self.new ≡ received_by act.now self.old }
    {
        if let Act::Receive { message, .. } = act {
            self.take_out(message);
        }
    }

    /// Does a deed.
    pub fn act(&mut self, alloc: Global, deed: &Deed) -> Result<(), Memory>
        ensures { OnOk result (self.new ≡ after_lem self.old deed.now) }
    {
        match deed {
            Deed::Run {
                rank,
                place,
                next,
                act,
            } => {
                self.run(alloc, *rank, *place, *next, act)?;
                self.receive(act);
                Ok(())
            }
            Deed::Pair {
                message,
                place,
                cap,
            } => {
                self.take_out(message);
                let standing = Standing::Taken {
                    cap: *cap,
                    message: *message,
                };
                self.mark(alloc, message.to, *place, standing)
            }
            Deed::Withdraw { message } => {
                self.take_out(message);
                self.mark(alloc, message.from, message.place, Standing::Withdrawn)
            }
            Deed::Off { rank, place } => self.mark(alloc, *rank, *place, Standing::Off),
        }
    }
}
