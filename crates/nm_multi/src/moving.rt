//! Packets that a rank sends to itself.

ghost use Rattle.std.specs.Prelude.{◌≡◌, ◌<◌, ◌≤◌, length, IfOk, OnErr, OnOk};
ghost use Rattle.nm_rank.specs.Ranks.{IsFresh};
ghost use Rattle.nm_multi.specs.Acts.{GoesOn};
ghost use Rattle.nm_multi.specs.Moves.{IsAlone, MovesFirst};
ghost use Rattle.nm_multi.specs.declared.calls.Call.TheVariants.{Pump};

use crate::Reply;
use nm_rank::Rank;
use nm_types::{Memory, Packet};

/// Gives the rank its first packet, and lets that one go where the rank isn't worn then.
fn move_first(rank: &mut Rank) -> Result<(), Memory>
    requires alone { IsAlone rank.old }
    requires some { 0 < length rank.old.sending.outbox.letters }
    requires fresh { IsFresh rank.old }
    ensures moves { OnOk result (MovesFirst rank.old rank.new) }
    ensures alone { IsAlone rank.new }
    ensures err { OnErr result (rank.new ≡ rank.old) }
{
    // no step: it tells that the history keeps its rules
    rank.history();
    let mut packet = Packet::blank();
    let Some(_) = rank.fill_front(&mut packet) else {
        return Ok(());
    };
    rank.take_packet(&packet)?;
    if !rank.is_worn() {
        rank.pop_front();
    }
    Ok(())
}

/// How many packets a rank that is alone has to send.
fn waiting(rank: &Rank) -> u64
    requires { IsAlone rank.now }
    ensures { result ≡ length rank.now.sending.outbox.letters }
{
    rank.waiting_for(0)
}

/// Moves as many packets as there are now, or fewer where the rank becomes worn or memory is
/// wanting.
pub(crate) fn pump(rank: &mut Rank) -> Result<Reply, Memory>
    requires alone { IsAlone rank.old }
    requires fresh { IsFresh rank.old }
    ensures moves { IfOk result (λ reply. GoesOn Pump reply rank.old rank.new) }
    ensures alone { IsAlone rank.new }
    ensures err { OnErr result (rank.new ≡ rank.old) }
{
    let mut moved: u64 = 0;
    for _ in 0..waiting(rank) {
        if rank.is_worn() {
            return Ok(Reply::Moved(moved));
        }
        if let Err(memory) = move_first(rank) {
            if moved == 0 {
                return Err(memory);
            }
            return Ok(Reply::Short(moved));
        }
        moved += 1;
    }
    Ok(Reply::Moved(moved))
}
