//! Packets and pieces that are moved by hand, from one rank to another.

ghost use Rattle.uses.specs.Steps.{AreInStep};

use nm_rank::Rank;
use nm_types::{Memory, Packet, Piece};

/// Moves the first packet of a rank to the other one, if there is one for it. Its number is the one
/// that the other awaits, since each took all that left the other.
pub fn move_packet(from: &mut Rank, to: &mut Rank, here: u8, there: u8) -> Result<bool, Memory>
    requires step { AreInStep here there from.old to.old }
    ensures step { AreInStep here there from.new to.new }
{
    if from.is_worn() || to.is_worn() {
        return Ok(false);
    }
    let mut packet = Packet::blank();
    let Some(at) = from.fill_front(&mut packet) else {
        return Ok(false);
    };
    if at != there {
        return Ok(false);
    }
    to.take_packet(&packet)?;
    from.pop_front();
    Ok(true)
}

/// Moves the next piece of a rank to the other one, if there is one for it.
pub fn move_piece(from: &mut Rank, to: &mut Rank, here: u8, there: u8) -> Result<bool, Memory>
    requires step { AreInStep here there from.old to.old }
    ensures step { AreInStep here there from.new to.new }
{
    if from.is_worn() || to.is_worn() {
        return Ok(false);
    }
    let mut piece = Piece::blank();
    let Some(at) = from.front_piece(&mut piece) else {
        return Ok(false);
    };
    if at != there {
        return Ok(false);
    }
    to.take_piece(&piece)?;
    from.pop_piece();
    Ok(true)
}

/// Moves what two ranks have for each other, at most twenty packets and twenty pieces each way.
pub fn exchange(a: &mut Rank, b: &mut Rank) -> Result<(), Memory>
    requires step { AreInStep 0 1 a.old b.old }
    ensures step { AreInStep 0 1 a.new b.new }
{
    for _ in 0..20 {
        move_packet(a, b, 0, 1)?;
        move_packet(b, a, 1, 0)?;
        move_piece(a, b, 0, 1)?;
        move_piece(b, a, 1, 0)?;
    }
    Ok(())
}
