//! The outbox of a rank.

ghost use Rattle.std.specs.Prelude.{◌≡◌, ◌+◌, ◌-◌, ◌<◌, ◌≤◌, ℕ, [], ◌++◌, length};
ghost use Rattle.std.specs.Prelude.{replicate};
ghost use Rattle.std.specs.Prelude.{IfOk, IfSome, IsNone, IsSome, IsSomeAnd, MatchOption, None, OnOk, slice_get};
ghost use Rattle.std.specs.List.{AllByRecursion};
ghost use Rattle.std.specs.Prelude.{option_to_list};
ghost use Rattle.std.specs.VecDeque.{deque_capacity, deque_len};
ghost use Rattle.nm_types.specs.declared.limits.TheConstants.{MAX_PACKETS, MAX_STAMP};
ghost use Rattle.nm_eager.specs.Cutting.{packet_count};
ghost use Rattle.nm_sending.specs.Letters.{AreLetters, Fits, letters_of, packets_for};
ghost use Rattle.nm_sending.specs.Notes.{left_of, matter_of, to_of};
ghost use Rattle.nm_sending.specs.Outboxes.{Pops, PutsBare, PutsPackets, popped_to, put_to};

use crate::outbox::notes::Note;
use nm_eager::Cutter;
use nm_types::{Memory, Packet, What};
use std::alloc::Global;
use std::collections::VecDeque;
use std::marker::Model;

/// The packets that a rank has still to send.
///
/// It keeps one note for a message, and a packet is made where it is sent from. Each call but
/// `with_capacity` and `reserve` takes constant time and no memory.
pub struct Outbox {
    me: u8,
    notes: VecDeque<Note>,
    // by rank, how many packets were popped and how many were put
    popped: Vec<u64>,
    put: Vec<u64>,
    // the greatest of the counts of those put
    most: u64,
}

impl Drop for Outbox {
    fn drop(self) {
        let Outbox {
            me: _,
            notes: _,
            popped: _,
            put: _,
            most: _,
        } = self;
    }
}

impl Model for Outbox {
    ghost use Rattle.std.specs.Prelude.{◌-◌};
    ghost use Rattle.std.specs.VecDeque.{deque_capacity, deque_len};
    ghost use Rattle.nm_sending.specs.Letters.{letters_in};
    ghost use Rattle.nm_sending.specs.Outboxes.{AreNotes, OutboxView};

    ghost Value = { OutboxView };

    ghost view = { λ o.
        record {
          me = o.me;
          letters = letters_in o.me o.notes.items;
          popped = o.popped.items;
          spare = deque_capacity o.notes - deque_len o.notes;
        } };

    ghost invariant = { λ o. AreNotes o.me o.notes.items o.popped.items o.put.items o.most };
}

/// Puts a note in front of the others again, if there is one. There is room for it.
fn put_back(notes: &mut VecDeque<Note>, note: Option<Note>)
    requires { IsSome note → deque_len notes.old < deque_capacity notes.old }
    ensures items { notes.new.items ≡ option_to_list note ++ notes.old.items }
    ensures room { deque_capacity notes.new ≡ deque_capacity notes.old }
    ensures len { deque_len notes.new ≡ deque_len notes.old + length (option_to_list note) }
{
    if let Some(note) = note {
        notes.push_front_reserved(note);
    }
}

impl Outbox {
    /// The empty outbox of a rank, of so many ranks, with room for this many notes.
    pub fn with_capacity(alloc: Global, ranks: u8, me: u8, notes: usize) -> Result<Outbox, Memory>
        ensures me { IfOk result (λ outbox. outbox.me ≡ me) }
        ensures letters { IfOk result (λ outbox. outbox.letters ≡ []) }
        ensures popped { IfOk result (λ outbox. outbox.popped ≡ replicate ranks 0) }
        ensures room { IfOk result (λ outbox. notes ≤ outbox.spare) }
    {
        Ok(Outbox {
            me,
            notes: VecDeque::with_capacity(alloc, notes)?,
            popped: vec![in alloc; 0; ranks as usize]?,
            put: vec![in alloc; 0; ranks as usize]?,
            most: 0,
        })
    }

    /// How many packets to a rank there are to send.
    pub fn waiting_for(&self, to: u8) -> u64
        requires { to < length self.now.popped }
        ensures many { result ≡ length (packets_for to self.now.letters) }
        ensures in_range { AllByRecursion (λ l. l.to < length self.now.popped) self.now.letters }
    {
        self.put[to as usize] - self.popped[to as usize]
    }

    /// How many packets to a rank were popped.
    pub fn popped(&self, to: u8) -> u64
        requires { to < length self.now.popped }
        ensures { result ≡ popped_to self.now to }
    {
        self.popped[to as usize]
    }

    /// How many packets to a rank were put: the number of the next one.
    pub fn next_number(&self, to: u8) -> u64
        requires { to < length self.now.popped }
        ensures { result ≡ put_to self.now to }
    {
        self.put[to as usize]
    }

    /// The most packets that were put to any rank.
    pub fn most(&self) -> u64
        ensures { (to : ℕ) → put_to self.now to ≤ result }
    {
        self.most
    }

    /// Makes room for this many notes more.
    #[inline(always)]
    pub fn reserve(&mut self, extra: usize) -> Result<(), Memory>
        ensures same { self.new ≡ record self.old { spare = self.new.spare } }
        ensures kept { self.old.spare ≤ self.new.spare }
        ensures ok { OnOk result (extra ≤ self.new.spare) }
    {
        // nearly always there is room, and this is asked for each packet
        let room = self.notes.capacity().saturating_sub(self.notes.len());
        if extra <= room {
            return Ok(());
        }
        self.notes.reserve(extra)?;
        Ok(())
    }

    /// Puts a note behind the others. Its first number is the rank's next one to that rank, and there is
    /// room for it.
    fn put(&mut self, note: Note)
        requires to { to_of note.load < length self.old.popped }
        requires number { note.seq ≡ put_to self.old (to_of note.load) }
        requires few { note.seq + left_of note.load ≤ MAX_PACKETS }
        requires fits { Fits (left_of note.load) (matter_of note.load) }
        requires room { 0 < self.old.spare }
        ensures { self.new
            ≡ record self.old {
              letters = self.old.letters ++ letters_of self.old.me note;
              spare = self.old.spare - 1;
            } }
    {
        let to = note.to() as usize;
        let put = note.seq + u64::from(note.left());
        self.put[to] = put;
        self.most = self.most.max(put);
        self.notes.push_back_reserved(note);
    }

    /// Puts the next packet to a rank, without bytes, behind the others. There is room for it.
    pub fn put_bare(&mut self, to: u8, stamp: u64, what: What)
        requires to { to < length self.old.popped }
        requires few { put_to self.old to < MAX_PACKETS }
        requires in_time { stamp ≤ MAX_STAMP }
        requires room { 0 < self.old.spare }
        ensures { PutsBare to stamp what self.old self.new }
    {
        let number = self.next_number(to);
        let note = Note::bare(to, number, stamp, what);
        self.put(note);
    }

    /// Puts the packets of an eager message to a rank behind the others, with the next numbers. There is
    /// room for its note. They are cut one by one, where they are sent from.
    pub fn put_message(&mut self, to: u8, stamp: u64, cutter: Cutter)
        requires to { to < length self.old.popped }
        requires few { put_to self.old to + packet_count cutter ≤ MAX_PACKETS }
        requires in_time { stamp ≤ MAX_STAMP }
        requires none { cutter.given ≡ 0 }
        requires room { 0 < self.old.spare }
        ensures { PutsPackets cutter to stamp self.old self.new }
    {
        let number = self.next_number(to);
        let count = cutter.count();
        let note = Note::cut(to, number, stamp, count, cutter);
        self.put(note);
    }

    /// The rank that the first packet goes to, without the packet, if there is one.
    pub fn front_to(&self) -> Option<u8>
        ensures first { MatchOption (slice_get self.now.letters 0) (result ≡ None)
            (λ letter. IsSomeAnd result (λ to. to ≡ letter.to)) }
        ensures to { IfSome result (λ to. to < length self.now.popped) }
    {
        let note = self.notes.front()?;
        Some(note.to())
    }

    /// Makes it the first packet, if there is one, and answers the rank that this goes to.
    pub fn fill_front(&self, into: &mut Packet) -> Option<u8>
        ensures first { MatchOption (slice_get self.now.letters 0) (result ≡ None)
            (λ letter. IsSomeAnd result (λ to. (to ≡ letter.to) × (into.new ≡ letter.packet))) }
        ensures to { IfSome result (λ to. to < length self.now.popped) }
        ensures from { IfSome result (λ to. into.new.from ≡ self.now.me) }
        ensures number { IfSome result (λ to. into.new.seq ≡ popped_to self.now to) }
        ensures same { IsNone result → into.new ≡ into.old }
        ensures lawful { AreLetters self.now.me self.now.popped self.now.letters }
    {
        let note = self.notes.front()?;
        note.fill(self.me, into);
        Some(note.to())
    }

    /// Takes the first packet away, and answers the eager message that leaves with it, if one does: its
    /// receiver and its number. With a message's last packet its body is let go.
    pub fn pop_front(&mut self) -> Option<(u8, u64)>
        requires { 0 < length self.old.letters }
        ensures { Pops result self.old self.new }
    {
        let note = self.notes.pop_front().unwrap();
        let last = note.ended();
        self.popped[note.to() as usize] = note.seq + 1;
        put_back(&mut self.notes, note.rest());
        last
    }
}
