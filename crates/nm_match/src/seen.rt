//! Which numbers are taken, of receives and of each sender's messages.

ghost use Rattle.std.specs.Prelude.{◌≡◌, ℕ, ◌+◌, ◌<◌, ◌≤◌, ◌^◌, ◌&&◌, ◌||◌, ◌==◌, false, length};
ghost use Rattle.std.specs.Prelude.{if◌then◌else◌, IsTrue, OnOk};
ghost use Rattle.indexmap.specs.IndexSet.{IsUnique, contains, index_set_len};
ghost use Rattle.nm_match.specs.declared.names.Message as message;
ghost use Rattle.nm_match.specs.Names.{same_message};
ghost use Rattle.nm_match.specs.Seen.{AreEarly, AreEarlyBut, AreFew, HasRoom, has_seen, is_next, next_of};

use crate::names::Message;
use indexmap::IndexSet;
use nm_types::Memory;
use std::alloc::Global;

/// The names that are taken, of up to 256 groups: a sender's messages are one, and so are a rank's
/// receives.
///
/// Those that came in order, counted from 0, take no place: of each group the names below its next
/// number are taken. Beside them stand those that came before their time, until the ones before them
/// come.
pub struct Seen {
    pub next: Vec<u64>,
    pub apart: IndexSet<Message>,
}

impl Drop for Seen {
    fn drop(self) {
        let Seen { next: _, apart: _ } = self;
    }
}

impl Seen {
    /// No name is taken.
    pub(crate) fn new(alloc: Global) -> Self
        ensures none { (id : message.Message) → has_seen result id ≡ false }
        ensures few { AreFew result }
    {
        Seen {
            next: Vec::new(alloc),
            apart: IndexSet::new(alloc),
        }
    }

    /// The next number of a group: those below it are taken.
    fn next_of(&self, group: u8) -> u64
        ensures { result ≡ next_of self.now group }
    {
        match self.next.get(group as usize) {
            Some(next) => *next,
            None => 0,
        }
    }

    /// Whether a name is taken.
    pub(crate) fn contains(&self, id: Message) -> bool
        ensures { result ≡ has_seen self.now id }
    {
        id.n < self.next_of(id.rank) || self.apart.contains(&id)
    }

    /// How many names stand apart.
    pub(crate) fn held(&self) -> usize
        ensures held { result ≡ index_set_len self.now.apart }
        ensures small { result < 2 ^ 63 }
        ensures unique { IsUnique same_message self.now.apart }
    {
        self.apart.len()
    }

    /// Whether a name is the next of its group, and not the last number that there is.
    fn is_next(&self, id: Message) -> bool
        ensures { result ≡ is_next self.now id }
    {
        let next = self.next_of(id.rank);
        id.n == next && next != u64::MAX
    }

    /// Makes a place for the next number of a group.
    #[inline(always)]
    fn make_place(&mut self, group: u8) -> Result<(), Memory>
        ensures next { (g : ℕ) → next_of self.new g ≡ next_of self.old g }
        ensures apart { self.new.apart ≡ self.old.apart }
        ensures groups { length self.old.next.items ≤ 256 → length self.new.next.items ≤ 256 }
        ensures ok { OnOk result (group < length self.new.next.items) }
    {
        let groups = group as usize + 1;
        if self.next.len() < groups {
            self.next.resize(groups, 0)?;
        }
        Ok(())
    }

    /// Makes room for a name. One that is next of its group stands apart nowhere.
    #[inline(always)]
    pub(crate) fn make_room(&mut self, id: Message) -> Result<(), Memory>
        ensures same { (i : message.Message) → has_seen self.new i ≡ has_seen self.old i }
        ensures few { AreFew self.old → AreFew self.new }
        ensures room { OnOk result (HasRoom self.new id) }
    {
        self.make_place(id.rank)?;
        if !self.is_next(id) {
            self.apart.reserve(1)?;
        }
        Ok(())
    }

    /// Counts a name that is next of its group, and answers whether it did.
    fn count(&mut self, id: Message) -> bool
        requires { id.rank < length self.old.next.items }
        ensures counted { result ≡ is_next self.old id }
        ensures next { (group : ℕ) → next_of self.new group
            ≡ (if result && id.rank == group then id.n + 1 else next_of self.old group) }
        ensures apart { self.new.apart ≡ self.old.apart }
        ensures len { length self.new.next.items ≡ length self.old.next.items }
    {
        if !self.is_next(id) {
            return false;
        }
        self.next[id.rank as usize] += 1;
        true
    }

    /// Counts the next name of a group, if it stands apart, and answers whether it did.
    fn absorb_one(&mut self, group: u8) -> bool
        requires { group < length self.old.next.items }
        ensures same { (i : message.Message) → has_seen self.new i ≡ has_seen self.old i }
        ensures len { length self.new.next.items ≡ length self.old.next.items }
        ensures fewer { IsTrue result →
            index_set_len self.new.apart < index_set_len self.old.apart }
        ensures early { AreEarlyBut group self.old → AreEarlyBut group self.new }
        ensures none { result ≡ false → AreEarlyBut group self.old → AreEarly self.new }
    {
        let next = Message {
            rank: group,
            n: self.next_of(group),
        };
        if !self.apart.contains(&next) || !self.count(next) {
            return false;
        }
        let _ = self.apart.swap_remove(&next);
        true
    }

    /// Counts the names of a group that stand apart and come next, one after another.
    fn absorb(&mut self, group: u8)
        requires { group < length self.old.next.items }
        ensures same { (i : message.Message) → has_seen self.new i ≡ has_seen self.old i }
        ensures len { length self.new.next.items ≡ length self.old.next.items }
        ensures early { AreEarlyBut group self.old → AreEarly self.new }
    {
        while self.absorb_one(group) {}
    }

    /// Counts a name, or else sets it apart.
    #[inline(always)]
    fn note(&mut self, id: Message)
        requires room { HasRoom self.old id }
        ensures added { (i : message.Message) →
            has_seen self.new i ≡ (has_seen self.old i || same_message id i) }
        ensures len { length self.new.next.items ≡ length self.old.next.items }
        ensures early { has_seen self.old id ≡ false → AreEarly self.old →
            AreEarlyBut id.rank self.new }
    {
        if self.count(id) {
            return;
        }
        self.apart.insert(id).unwrap();
    }

    /// Takes a name. Those that stand apart and come next are counted, too.
    #[inline(always)]
    pub(crate) fn add(&mut self, id: Message)
        requires room { HasRoom self.old id }
        ensures added { (i : message.Message) →
            has_seen self.new i ≡ (has_seen self.old i || same_message id i) }
        ensures few { has_seen self.old id ≡ false → AreFew self.old → AreFew self.new }
    {
        self.note(id);
        if self.apart.is_empty() {
            return;
        }
        self.absorb(id.rank);
    }
}
