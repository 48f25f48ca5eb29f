//! The calls that pass to the rank.

ghost use Rattle.std.specs.Prelude.{◌≡◌, ◌<◌, ℕ, List, length, IsSome, OnErr, OnOk, option_map};
ghost use Rattle.nm_types.specs.Commands.{Numbered};
ghost use Rattle.nm_types.specs.Sizes.{Sizes};
ghost use Rattle.nm_rndv.specs.Offers.{next_offered};
ghost use Rattle.nm_rank.specs.Calls.{TakesPacket, TakesPiece};
ghost use Rattle.nm_rank.specs.Pops.{PopsPacket, PopsPiece};
ghost use Rattle.nm_rank.specs.Ranks.{IsFresh, count_of};
ghost use Rattle.nm_process.specs.LastAnswer.{last_answer as last_answer_lem};
ghost use Rattle.nm_process.specs.Starts.{KeepsAllBut};
ghost use Rattle.nm_process.specs.Work.{IsWorking};

use crate::Process;
use nm_history::{Event, Happened};
use nm_rank::Rank;
use nm_rank::journal::Recorder;
use nm_types::{Answer, Memory, Packet, Piece};

impl<H: Recorder> Process<H> {
    /// Its rank, which tells whether it can go on, what happened, and what is to be sent, pushed and
    /// pulled.
    pub fn rank(&self) -> &Rank<H>
        ensures { result.now ≡ self.now.rank }
    {
        &self.rank
    }

    /// The answer of the last event, if that is an answer.
    pub fn last_answer(&self) -> Option<&Answer>
        ensures { option_map (λ a. a.now) result ≡ last_answer_lem self.now.rank.events }
    {
        match self.rank.history().last() {
            Some(
                Event {
                    stamp: _,
                    what: Happened::Ran { line: _, answer },
                },
            ) => Some(answer),
            _ => None,
        }
    }

    /// What happened, oldest first, when the process is used no more.
    pub fn into_history(self) -> H
        ensures events { H.events result ≡ self.rank.events }
    {
        let (history, _) = self.into_parts();
        history
    }

    /// Takes the first packet away. Where it was the last one of an eager message, that one has
    /// left.
    pub fn pop_front(&mut self)
        requires first { 0 < length self.old.rank.sending.outbox.letters }
        requires fresh { IsFresh self.old.rank }
        ensures pops { PopsPacket self.old.rank self.new.rank }
        ensures others { KeepsAllBut self.old self.new }
        ensures work { (shape : Sizes) (commands : List Numbered) (bound : ℕ) → 0 < bound →
            IsWorking shape commands bound self.old → IsWorking shape commands bound self.new }
    {
        self.rank.pop_front();
        // no step: it tells that the history keeps its rules
        self.rank.history();
    }

    /// Counts the next piece as pushed. Where it was its message's last one, that one has left: the
    /// next one in the order of the clearances.
    pub fn pop_piece(&mut self)
        requires next { IsSome (next_offered self.old.rank.sending.offers) }
        requires fresh { IsFresh self.old.rank }
        ensures pops { PopsPiece self.old.rank self.new.rank }
        ensures others { KeepsAllBut self.old self.new }
        ensures work { (shape : Sizes) (commands : List Numbered) (bound : ℕ) → 0 < bound →
            IsWorking shape commands bound self.old → IsWorking shape commands bound self.new }
    {
        self.rank.pop_piece();
        // no step: it tells that the history keeps its rules
        self.rank.history();
    }

    /// Takes the next packet of a rank, or leaves everything as it was. One that does not continue its
    /// stream is counted as a stray: beside the clock and the counts nothing changes.
    pub fn take_packet(&mut self, p: &Packet) -> Result<(), Memory>
        requires sender { p.now.from < self.old.rank.sizes.ranks }
        requires number { p.now.seq ≡ count_of self.old.rank.took p.now.from }
        requires fresh { IsFresh self.old.rank }
        ensures taken { OnOk result (TakesPacket p.now self.old.rank self.new.rank) }
        ensures others { OnOk result (KeepsAllBut self.old self.new) }
        ensures work { OnOk result ((shape : Sizes) (commands : List Numbered) (bound : ℕ) →
            0 < bound → IsWorking shape commands bound self.old →
            IsWorking shape commands bound self.new) }
        ensures err { OnErr result (self.new ≡ self.old) }
    {
        self.rank.take_packet(p)?;
        // no step: it tells that the history keeps its rules
        self.rank.history();
        Ok(())
    }

    /// Takes the next piece of a rank, or leaves everything as it was. One that is not the next one
    /// due is counted as a stray: beside the counts nothing changes.
    pub fn take_piece(&mut self, p: &Piece) -> Result<(), Memory>
        requires sender { p.now.from < self.old.rank.sizes.ranks }
        requires number { p.now.number ≡ count_of self.old.rank.pulled p.now.from }
        requires fresh { IsFresh self.old.rank }
        ensures taken { OnOk result (TakesPiece p.now self.old.rank self.new.rank) }
        ensures others { OnOk result (KeepsAllBut self.old self.new) }
        ensures work { OnOk result ((shape : Sizes) (commands : List Numbered) (bound : ℕ) →
            0 < bound → IsWorking shape commands bound self.old →
            IsWorking shape commands bound self.new) }
        ensures err { OnErr result (self.new ≡ self.old) }
    {
        self.rank.take_piece(p)?;
        // no step: it tells that the history keeps its rules
        self.rank.history();
        Ok(())
    }
}
