//! The steps on the flag of a place: a load at each end, the store of 1 and the store of 0.

ghost use Rattle.std.specs.Prelude.{◌≡◌, ◌+◌, ◌*◌, ◌%◌, ◌<◌, length};
ghost use Rattle.std.specs.Prelude.{true, false, IfErr, IfOk, IsOk};
ghost use Rattle.nm_copyring.specs.Rule.{lane, place};
ghost use Rattle.nm_copyring.specs.Plays.{one_empty, one_full, one_pulled, one_pushed, with_lane};
ghost use Rattle.nm_copyring.specs.Plays.{IsOne, Rests, knowing, mine, unlooked, with_look};
ghost use Rattle.nm_copyring.specs.declared.table.Look.TheVariants.{Free, Full};

use crate::port::Rings;
use crate::slots::{Slot, empty_slot, fill_slot};
use crate::table::{Entry, Place};
use atomic_table::Play;
use nm_chain::seats::{Steps, View};
use nm_types::Piece;
use std::sync::ledger::Ledger;

struct LooksOut;

impl Play<Slot, View<Entry>> for LooksOut {
    ghost use Rattle.nm_copyring.specs.Plays.{looked_out};

    ghost then = { looked_out };
}

struct PeeksOut;

impl Play<Slot, View<Entry>> for PeeksOut {
    ghost use Rattle.nm_copyring.specs.Plays.{peeked_out};

    ghost then = { peeked_out };
}

struct PeeksIn;

impl Play<Slot, View<Entry>> for PeeksIn {
    ghost use Rattle.nm_copyring.specs.Plays.{peeked_in};

    ghost then = { peeked_in };
}

struct Fills;

impl Play<Slot, View<Entry>> for Fills {
    ghost use Rattle.nm_copyring.specs.Plays.{filled};

    ghost then = { filled };
}

struct LooksIn;

impl Play<Slot, View<Entry>> for LooksIn {
    ghost use Rattle.nm_copyring.specs.Plays.{looked_in};

    ghost then = { looked_in };
}

struct Empties;

impl Play<Slot, View<Entry>> for Empties {
    ghost use Rattle.nm_copyring.specs.Plays.{emptied};

    ghost then = { emptied };
}

impl Rings {
    // The place of the piece with this number, from one rank to another.
    fn place(&self, sender: u8, to: u8, number: u64) -> usize
        requires { (sender < self.now.ranks) × (to < self.now.ranks) }
        ensures at { result ≡ place self.now.ranks sender to (number % 4) }
        ensures low { result < 4 * (self.now.ranks * self.now.ranks) }
    {
        (4 * (u64::from(sender) * self.ranks + u64::from(to)) + number % 4) as usize
    }
}

/// Loads the flag of the seat's next place for a rank, and answers whether the place is free.
pub(crate) fn is_free<L: Ledger>(
    r: &Rings,
    seat: &mut Place,
    rank: u8,
    to: u8,
    number: u64,
    steps: &mut Steps<L>,
) -> bool
    requires table { seat.old.table_id ≡ r.now.board.shared.table_id }
    requires rests { Rests seat.old.me × IsOne r.now.ranks (mine seat.old.me) }
    requires to { to < r.now.ranks }
    requires next { (rank ≡ (mine seat.old.me).rank)
        × (number ≡ length (lane (mine seat.old.me) to).pushed) }
    ensures same { seat.new.table_id ≡ seat.old.table_id }
    ensures free { result ≡ true
        → seat.new.me ≡ knowing (with_look (Free to) (mine seat.old.me)) }
    ensures full { result ≡ false
        → seat.new.me ≡ knowing (with_lane one_full to (mine seat.old.me)) }
    ensures cost { steps.new ≡ steps.old + 1 }
{
    let at = r.place(rank, to, number);
    steps.tick();
    r.board.shared.load::<PeeksOut>(seat, at) == 0
}

/// Loads the flag of the seat's next place of a rank, and answers whether the place is full.
pub(crate) fn is_full<L: Ledger>(
    r: &Rings,
    seat: &mut Place,
    rank: u8,
    sender: u8,
    number: u64,
    steps: &mut Steps<L>,
) -> bool
    requires table { seat.old.table_id ≡ r.now.board.shared.table_id }
    requires rests { Rests seat.old.me × IsOne r.now.ranks (mine seat.old.me) }
    requires sender { sender < r.now.ranks }
    requires next { (rank ≡ (mine seat.old.me).rank)
        × (number ≡ length (lane (mine seat.old.me) sender).pulled) }
    ensures same { seat.new.table_id ≡ seat.old.table_id }
    ensures full { result ≡ true
        → seat.new.me ≡ knowing (with_look (Full sender) (mine seat.old.me)) }
    ensures empty { result ≡ false
        → seat.new.me ≡ knowing (with_lane one_empty sender (mine seat.old.me)) }
    ensures cost { steps.new ≡ steps.old + 1 }
{
    let at = r.place(sender, rank, number);
    steps.tick();
    r.board.shared.load::<PeeksIn>(seat, at) != 0
}

/// Puts a piece into the seat's next place for a rank, and answers the box that was kept there. The piece
/// comes back where that place is full.
pub(crate) fn fill_next<L: Ledger>(
    r: &Rings,
    seat: &mut Place,
    to: u8,
    piece: Box<Piece>,
    steps: &mut Steps<L>,
) -> Result<Option<Box<Piece>>, Box<Piece>>
    requires table { seat.old.table_id ≡ r.now.board.shared.table_id }
    requires rests { Rests seat.old.me × IsOne r.now.ranks (mine seat.old.me) }
    requires to { to < r.now.ranks }
    requires next { (piece.value.from ≡ (mine seat.old.me).rank)
        × (piece.value.number ≡ length (lane (mine seat.old.me) to).pushed) }
    ensures same { seat.new.table_id ≡ seat.old.table_id }
    ensures pushed { IfOk result (λ _. seat.new.me
        ≡ knowing (with_lane (one_pushed piece.value) to (unlooked (mine seat.old.me)))) }
    ensures refused { IfErr result (λ back. (back ≡ piece)
        × (seat.new.me ≡ knowing (with_lane one_full to (mine seat.old.me)))) }
    ensures sure { (mine seat.old.me).look ≡ Free to → IsOk result }
    ensures cost { IfOk result (λ _. steps.new ≡ steps.old + 2)
        × IfErr result (λ _. steps.new ≡ steps.old + 1) }
{
    let at = r.place(piece.from, to, piece.number);
    steps.tick();
    if r.board.shared.load::<LooksOut>(seat, at) != 0 {
        return Err(piece);
    }
    let spare = fill_slot(&r.board, seat, at, piece);
    steps.tick();
    r.board.shared.store::<Fills>(seat, at, 1);
    Ok(spare)
}

/// Takes the piece out of the seat's next place of a rank, and leaves a box there. The box comes back
/// where that place is empty. `number` is the number of that piece.
pub(crate) fn empty_next<L: Ledger>(
    r: &Rings,
    seat: &mut Place,
    rank: u8,
    sender: u8,
    number: u64,
    spare: Option<Box<Piece>>,
    steps: &mut Steps<L>,
) -> Result<Box<Piece>, Option<Box<Piece>>>
    requires table { seat.old.table_id ≡ r.now.board.shared.table_id }
    requires rests { Rests seat.old.me × IsOne r.now.ranks (mine seat.old.me) }
    requires sender { sender < r.now.ranks }
    requires next { (rank ≡ (mine seat.old.me).rank)
        × (number ≡ length (lane (mine seat.old.me) sender).pulled) }
    ensures same { seat.new.table_id ≡ seat.old.table_id }
    ensures next { IfOk result (λ piece. (piece.value.from ≡ sender)
        × (piece.value.number ≡ number)) }
    ensures pulled { IfOk result (λ piece. seat.new.me
        ≡ knowing (with_lane (one_pulled piece.value) sender (unlooked (mine seat.old.me)))) }
    ensures missed { IfErr result (λ _.
        seat.new.me ≡ knowing (with_lane one_empty sender (mine seat.old.me))) }
    ensures sure { (mine seat.old.me).look ≡ Full sender → IsOk result }
    ensures cost { IfOk result (λ _. steps.new ≡ steps.old + 2)
        × IfErr result (λ _. steps.new ≡ steps.old + 1) }
{
    let at = r.place(sender, rank, number);
    steps.tick();
    if r.board.shared.load::<LooksIn>(seat, at) == 0 {
        return Err(spare);
    }
    let piece = empty_slot(&r.board, seat, at, spare);
    steps.tick();
    r.board.shared.store::<Empties>(seat, at, 0);
    Ok(piece)
}
