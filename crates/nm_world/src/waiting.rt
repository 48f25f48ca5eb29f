//! A turn of a player that may wait for a packet.
//!
//! A turn sends first and runs commands last, so what they make ready leaves in the next turn. A crew's turn of
//! a player that has nothing to send begins with polls: where a packet comes, commands run until something is
//! ready, and then the turn sends that.

ghost use Rattle.std.specs.Prelude.{◌≡◌, false, IfOk};
ghost use Rattle.nm_rank.specs.Ranks.{IsFresh};
ghost use Rattle.nm_world.specs.Actors.{Environment, did};
ghost use Rattle.nm_world.specs.Idle.{Rests};
ghost use Rattle.nm_world.specs.Players.{PlayerInvariant, PlaysOn};

use crate::Player;
use crate::actors::TURN;
use nm_chain::seats::Steps;
use nm_copyring::Rings;
use nm_crews::bells::Bells;
use nm_port::Fabric;
use nm_process::Source;
use nm_rank::journal::Recorder;
use nm_types::{Memory, Packet};
use std::sync::ledger::Ledger;

impl<S: Source, H: Recorder> Player<S, H> {
    // Whether it has something to send or to push, or a piece is due.
    fn is_busy(&self) -> bool {
        let rank = self.actor.process.rank();
        rank.front_to().is_some() || rank.has_piece() || rank.is_any_piece_due()
    }

    // Runs commands as long as there is nothing else to do. So what came or a command made ready goes first: the
    // next command may wait for that.
    fn run_while_idle<L: Ledger>(
        &mut self,
        f: &Fabric<Packet>,
        steps: &mut Steps<L>,
    ) -> Result<(), Memory>
        ghost here: { Environment }
        requires fabric { f.now ≡ here.fabric }
        requires stands { PlayerInvariant S.shows S.gives here.fabric here.rings self.old }
        ensures { IfOk result (λ _.
            PlaysOn S.shows S.gives here.fabric here.rings self.old self.new) }
    {
        for _command in 0..TURN {
            if self.is_busy() {
                return Ok(());
            }
            self.look(f, steps)?;
            if !self.run_next()? {
                return Ok(());
            }
        }
        Ok(())
    }

    // Polls up to so often for a packet, where there is nothing else to do, and runs commands if one comes. It
    // answers whether one came.
    fn reply<L: Ledger>(
        &mut self,
        f: &Fabric<Packet>,
        polls: u32,
        steps: &mut Steps<L>,
    ) -> Result<bool, Memory>
        ghost here: { Environment }
        requires stands { PlayerInvariant S.shows S.gives f.now here.rings self.old }
        ensures kept { IfOk result (λ _.
            PlaysOn S.shows S.gives f.now here.rings self.old self.new) }
        ensures moved { IfOk result (λ came. came ≡ did f.now.ranks self.old.actor self.new.actor) }
        ensures still { IfOk result (λ came. came ≡ false →
            (self.new.actor.process ≡ self.old.actor.process)
            × (self.new.source ≡ self.old.source)) }
    {
        if self.is_busy() {
            return Ok(false);
        }
        if !self.actor.take_soon(f, polls, steps)? {
            return Ok(false);
        }
        self.run_while_idle(f, steps)?;
        Ok(true)
    }

    /// A turn that begins with so many polls where there is nothing else to do. It answers whether anything was
    /// sent, taken or run. Bells ring as in `move_all`.
    pub(crate) fn reply_and_move<L: Ledger>(
        &mut self,
        f: &Fabric<Packet>,
        r: &Rings,
        bells: &Bells,
        polls: u32,
        steps: &mut Steps<L>,
    ) -> Result<bool, Memory>
        ghost here: { Environment }
        requires here { here ≡ record { fabric = f.now; rings = r.now } }
        requires stands { PlayerInvariant S.shows S.gives f.now r.now self.old }
        ensures kept { IfOk result (λ _. PlaysOn S.shows S.gives f.now r.now self.old self.new) }
        ensures moved { IfOk result (λ moved.
            moved ≡ did f.now.ranks self.old.actor self.new.actor) }
        ensures idle { IfOk result (λ moved. moved ≡ false →
            IsFresh self.old.actor.process.rank → Rests S.gives self.old self.new) }
    {
        let came = self.reply(f, polls, steps)?;
        let moved = self.move_all(f, r, bells, steps)?;
        Ok(came | moved)
    }
}
