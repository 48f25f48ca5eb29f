//! What was asked of one destination, and what was recalled from it.

ghost use Rattle.std.specs.Prelude.{◌≡◌, ℕ, ◌++◌, ◌∷◌, [], true, false, Some, None, nat_eq};
ghost use Rattle.std.specs.Prelude.{if◌then◌else◌, IsSome, OnOk, OnErr, count_by};
ghost use Rattle.std.specs.Map.{lookup, set_value, values_of};
ghost use Rattle.std.specs.Option.{option_copied, option_map, option_map_or, option_and_then};
ghost use Rattle.nm_kept.specs.Entering.{AreLive, SameOthers, kept_if};
ghost use Rattle.nm_rndv.specs.Cuts.{offset_of, next_bytes};
ghost use Rattle.nm_rndv.specs.Offers.{untold, state_in, recall_in, is_waiting, has_body};
ghost use Rattle.nm_rndv.specs.Offers.{is_leaving as is_leaving_lem, is_out};
ghost use Rattle.nm_rndv.specs.Offers.{is_unanswered, next_in, withdrawn_in};
ghost use Rattle.nm_rndv.specs.Offers.{with_asked, with_recall, with_step, with_answer};
ghost use Rattle.nm_rndv.specs.Offers.{after_clearance, after_piece};

use crate::asked::{State, cleared};
use crate::cuts::{Leaving, LongBody};
use nm_kept::Entries;
use nm_types::{Body, Memory};
use std::alloc::Global;
use std::marker::Model;

/// The messages asked of one destination and those recalled from it, each by its number, in order.
/// Memory holds those that wait or leave, and the recalls that were not answered.
pub struct Destination {
    asked: Entries<State>,
    recalls: Entries<Option<bool>>,
}

impl Drop for Destination {
    fn drop(self) {
        let Destination {
            asked: _,
            recalls: _,
        } = self;
    }
}

impl Model for Destination {
    ghost use Rattle.nm_kept.specs.Entering.{AreLive};
    ghost use Rattle.nm_rndv.specs.Offers.{Destined, has_body, is_unanswered};

    ghost Value = { Destined };

    ghost view = { λ d. record { asked = d.asked.entries; recalls = d.recalls.entries } };

    ghost invariant = { λ d. AreLive has_body d.asked × AreLive is_unanswered d.recalls };
}

/// A message that waits, without bytes.
fn stand_in() -> State
    ensures { has_body result ≡ true }
{
    State::Asked(LongBody::new(Body::Gen(0)))
}

/// Takes the state of a message in memory out, to be changed and set.
#[inline(always)]
fn lift(asked: &mut Entries<State>, n: u64) -> State
    requires live { AreLive has_body asked.old }
    requires there { option_map_or has_body (lookup (nat_eq n) asked.old.entries) false ≡ true }
    ensures live { AreLive has_body asked.new }
    ensures there { option_map_or has_body (lookup (nat_eq n) asked.new.entries) false ≡ true }
    ensures value { lookup (nat_eq n) asked.old.entries ≡ Some result }
    ensures others { SameOthers n asked.old.entries asked.new.entries }
{
    asked.replace(n, stand_in())
}

/// Sets the state of a message in memory, which is let go where it has no body then.
#[inline(always)]
fn set(asked: &mut Entries<State>, n: u64, state: State)
    requires live { AreLive has_body asked.old }
    requires there { option_map_or has_body (lookup (nat_eq n) asked.old.entries) false ≡ true }
    ensures live { AreLive has_body asked.new }
    ensures entries { asked.new.entries ≡ set_value (nat_eq n) asked.old.entries state }
{
    if state.has_body() {
        let _before = asked.replace(n, state);
        return;
    }
    asked.end(n, state);
}

/// Whether the message waits for its clearance.
#[inline(always)]
fn waits(asked: &Entries<State>, n: u64) -> bool
    requires { AreLive has_body asked.now }
    ensures { result ≡ option_map_or is_waiting (lookup (nat_eq n) asked.now.entries) false }
{
    match asked.get(n) {
        Some(state) => state.is_waiting(),
        None => false,
    }
}

/// Withdraws a message that waits, if its recall was done. The answer is whether it was withdrawn.
fn withdraw_if(asked: &mut Entries<State>, n: u64, done: bool) -> bool
    requires { AreLive has_body asked.old }
    ensures live { AreLive has_body asked.new }
    ensures entries { asked.new.entries ≡ (if done
        then withdrawn_in asked.old.entries n else asked.old.entries) }
    ensures withdrawn { result
        ≡ (if done then option_map_or is_waiting (lookup (nat_eq n) asked.old.entries) false else false) }
{
    if !done {
        return false;
    }
    if !waits(asked, n) {
        return false;
    }
    set(asked, n, State::Withdrawn);
    true
}

impl Destination {
    /// How far the message has come, if it waits or leaves.
    fn state(&self, n: u64) -> Option<&State>
        ensures { option_copied result ≡ kept_if has_body (state_in self.now n) }
    {
        self.asked.get(n)
    }

    /// Nothing was asked, and nothing recalled.
    pub fn new(alloc: Global) -> Self
        ensures { result ≡ untold }
    {
        Destination {
            asked: Entries::new(alloc),
            recalls: Entries::new(alloc),
        }
    }

    /// How many messages are in memory: those that wait or leave.
    pub fn held(&self) -> usize
        ensures { result ≡ count_by has_body (values_of self.now.asked) }
    {
        self.asked.held()
    }

    /// How many recalls are in memory: those that were not answered.
    pub fn held_recalls(&self) -> usize
        ensures { result ≡ count_by is_unanswered (values_of self.now.recalls) }
    {
        self.recalls.held()
    }

    /// Notes that the receiver was asked to clear a message.
    pub fn ask(&mut self, n: u64, body: LongBody) -> Result<(), Memory>
        requires { state_in self.old n ≡ None }
        ensures ok { OnOk result (self.new ≡ with_asked self.old n body) }
        ensures states { OnOk result ((q : ℕ) → state_in self.new q
            ≡ (if nat_eq n q then Some (State.Asked body) else state_in self.old q)) }
        ensures err { OnErr result (self.new ≡ self.old) }
    {
        self.asked.put(n, State::Asked(body))?;
        Ok(())
    }

    /// Whether the message waits for its clearance.
    pub fn is_asked(&self, n: u64) -> bool
        ensures { result ≡ option_map_or is_waiting (state_in self.now n) false }
    {
        waits(&self.asked, n)
    }

    /// Whether the message was cleared and is not out.
    #[inline(always)]
    pub fn is_leaving(&self, n: u64) -> bool
        ensures { result ≡ option_map_or is_leaving_lem (state_in self.now n) false }
    {
        match self.state(n) {
            Some(state) => state.is_leaving(),
            None => false,
        }
    }

    /// What is left to be sent of a message that was cleared and is not out.
    pub fn leaving(&self, n: u64) -> Option<&Leaving>
        ensures { option_map (λ left. (offset_of left.now, next_bytes left.now)) result
            ≡ option_and_then next_in (state_in self.now n) }
    {
        match self.state(n) {
            Some(state) => state.leaving(),
            None => None,
        }
    }

    /// Clears a message. The answer is whether it is out at once.
    pub fn clear(&mut self, n: u64) -> bool
        requires { option_map_or has_body (state_in self.old n) false ≡ true }
        ensures step { self.new ≡ with_step self.old n after_clearance }
        ensures out { result ≡ option_map_or is_out (state_in self.new n) false }
    {
        let state = cleared(lift(&mut self.asked, n));
        let is_out = state.is_out();
        set(&mut self.asked, n, state);
        is_out
    }

    /// Counts one piece more of a message as sent. The answer is whether it is out.
    pub fn pop(&mut self, n: u64) -> bool
        requires { option_map_or has_body (state_in self.old n) false ≡ true }
        ensures step { self.new ≡ with_step self.old n after_piece }
        ensures out { result ≡ option_map_or is_out (state_in self.new n) false }
    {
        let mut state = lift(&mut self.asked, n);
        state.pop();
        let is_out = state.is_out();
        set(&mut self.asked, n, state);
        is_out
    }

    /// Notes that a message was recalled.
    pub fn recall(&mut self, n: u64) -> Result<(), Memory>
        requires { recall_in self.old n ≡ None }
        ensures ok { OnOk result (self.new ≡ with_recall self.old n) }
        ensures err { OnErr result (self.new ≡ self.old) }
    {
        self.recalls.put(n, None)?;
        Ok(())
    }

    /// Whether the message was recalled, and the recall not answered.
    pub fn is_recalled(&self, n: u64) -> bool
        ensures { result ≡ option_map_or is_unanswered (recall_in self.now n) false }
    {
        self.recalls.get(n).is_some()
    }

    /// Notes the answer of a recall. Where it was done, a message that waits is withdrawn. The answer is
    /// whether one was.
    pub fn answer(&mut self, n: u64, done: bool) -> bool
        requires { option_map_or is_unanswered (recall_in self.old n) false ≡ true }
        ensures answered { self.new ≡ with_answer self.old n done }
        ensures withdrawn { result
            ≡ (if done then option_map_or is_waiting (state_in self.old n) false else false) }
    {
        self.recalls.end(n, Some(done));
        withdraw_if(&mut self.asked, n, done)
    }
}
