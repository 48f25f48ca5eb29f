//! Where receives stand, by their numbers.

ghost use Rattle.std.specs.Prelude.{◌≡◌, ℕ, ◌+◌, ◌-◌, ◌*◌, ◌<◌, ◌≤◌, false, IsTrue, IfSome, None, OnOk, Option};
ghost use Rattle.std.specs.Prelude.{Some, get_or, if◌then◌else◌, is_some, length, nat_eq, option_map};
ghost use Rattle.std.specs.Option.{option_copied};
ghost use Rattle.indexmap.specs.IndexMap.{get};
ghost use Rattle.nm_match.specs.declared.names.Receive.TheVariants as kept;
ghost use Rattle.nm_match.specs.Rings.{before_of, before_set, ends_set, let_in as let_in_lem};
ghost use Rattle.nm_match.specs.Rings.{next_of, next_set, shut_out as shut_out_lem, waiting_of};
ghost use Rattle.nm_match.specs.Standings.{HasRoom, has_place, in_row, receive_at};

use crate::names::Receive;
use indexmap::IndexMap;
use nm_types::{Memory, Post};
use std::alloc::Global;

/// Places in a row, for numbers that come one after another.
#[derive(Drop)]
pub struct Row {
    /// The number of the first place.
    pub first: u64,
    pub places: Vec<Option<Receive>>,
}

/// Where each receive stands that waits or is cancelled, by its number.
///
/// Those that come one after another stand in a row, and are found there by their numbers alone. The
/// row ends where nothing stands in it, and the next one begins it anew. It grows to at most eight places
/// for each that stands in it, and 64 more: what is farther off stands apart.
pub struct Standings {
    pub row: Row,
    pub apart: IndexMap<u64, Receive>,
    /// How many stand in the row. It says when the row ends and how long it may be: no answer depends
    /// on it.
    pub held: u64,
}

impl Drop for Standings {
    fn drop(self) {
        let Standings {
            row: _,
            apart: _,
            held: _,
        } = self;
    }
}

/// Lets the free places at the end go.
fn trim(places: &mut Vec<Option<Receive>>)
    ensures same { (i : ℕ) → get_or places.new.items i None ≡ get_or places.old.items i None }
    ensures within { length places.new.items ≤ length places.old.items }
{
    while let Some(None) = places.last() {
        let _ = places.pop();
    }
}

impl Row {
    /// A row without places.
    fn new(alloc: Global) -> Self
        ensures { (n : ℕ) → in_row result n ≡ None }
    {
        Row {
            first: 0,
            places: Vec::new(alloc),
        }
    }

    /// The place of a number, if it has one.
    fn place(&self, number: u64) -> Option<usize>
        ensures some { IfSome result (λ place. (self.now.first ≤ number)
            × (place ≡ number - self.now.first) × (place < length self.now.places.items)) }
        ensures found { is_some result ≡ has_place self.now number }
        ensures none { result ≡ None → in_row self.now number ≡ None }
    {
        if number < self.first {
            return None;
        }
        let place = number - self.first;
        if place < self.places.len() as u64 {
            Some(place as usize)
        } else {
            None
        }
    }

    /// What stands at the place of a number.
    fn get(&self, number: u64) -> Option<&Receive>
        ensures { option_copied result ≡ in_row self.now number }
    {
        let place = self.place(number)?;
        self.places[place].as_ref()
    }

    /// Puts another one behind a receive that stands in the row, and answers whether one does.
    fn set_next(&mut self, number: u64, next: u64) -> bool
        ensures found { result ≡ is_some (in_row self.old number) }
        ensures set { (n : ℕ) → in_row self.new n ≡ next_set (in_row self.old) number next n }
    {
        let Some(place) = self.place(number) else {
            return false;
        };
        match &mut self.places[place] {
            Some(receive) => {
                receive.set_next(next);
                true
            }
            None => false,
        }
    }

    /// Puts another one before a receive that stands in the row, and answers whether one does.
    fn set_before(&mut self, number: u64, before: u64) -> bool
        ensures found { result ≡ is_some (in_row self.old number) }
        ensures set { (n : ℕ) → in_row self.new n ≡ before_set (in_row self.old) number before n }
    {
        let Some(place) = self.place(number) else {
            return false;
        };
        match &mut self.places[place] {
            Some(receive) => {
                receive.set_before(before);
                true
            }
            None => false,
        }
    }

    /// Makes places up to that of a number, if there are to be as many.
    fn reach(&mut self, number: u64, most: u64) -> Result<(), Memory>
        ensures same { (n : ℕ) → in_row self.new n ≡ in_row self.old n }
        ensures within { length self.old.places.items < length self.new.places.items →
            length self.new.places.items ≤ most }
    {
        if self.places.is_empty() {
            self.first = number;
        }
        if number < self.first || number - self.first >= most {
            return Ok(());
        }
        let place = (number - self.first) as usize;
        let len = self.places.len();
        if place == len {
            self.places.push(None)?;
        } else if place > len {
            self.places.resize(place + 1, None)?;
        }
        Ok(())
    }

    /// Puts what stands at the place of a number, if it has one, and answers whether it has.
    fn put(&mut self, number: u64, receive: Option<Receive>) -> bool
        ensures found { result ≡ has_place self.old number }
        ensures own { IsTrue result → in_row self.new number ≡ receive }
        ensures none { result ≡ false → in_row self.new number ≡ None }
        ensures others { (n : ℕ) → nat_eq number n ≡ false → in_row self.new n ≡ in_row self.old n }
    {
        match self.place(number) {
            Some(place) => {
                self.places[place] = receive;
                true
            }
            None => false,
        }
    }
}

impl Standings {
    /// Nothing stands anywhere.
    pub(crate) fn new(alloc: Global) -> Self
        ensures { (n : ℕ) → receive_at result n ≡ None }
    {
        Standings {
            row: Row::new(alloc),
            apart: IndexMap::new(alloc),
            held: 0,
        }
    }

    /// What is kept of the receive of this number.
    #[inline(always)]
    pub(crate) fn get(&self, number: u64) -> Option<&Receive>
        ensures { option_copied result ≡ receive_at self.now number }
    {
        match self.row.get(number) {
            Some(receive) => Some(receive),
            None => self.get_apart(number),
        }
    }

    /// What is kept of the receive of this number apart.
    fn get_apart(&self, number: u64) -> Option<&Receive>
        ensures { option_copied result ≡ get nat_eq self.now.apart number }
    {
        if self.apart.is_empty() {
            return None;
        }
        self.apart.get(&number)
    }

    /// Lets the row's places go where nothing stands in it.
    fn end_row(&mut self)
        ensures same { (n : ℕ) → in_row self.new.row n ≡ in_row self.old.row n }
        ensures within { length self.new.row.places.items ≤ length self.old.row.places.items }
        ensures apart { self.new.apart ≡ self.old.apart }
        ensures held { self.new.held ≡ self.old.held }
    {
        if self.held == 0 {
            trim(&mut self.row.places);
        }
    }

    /// Makes room for a number.
    pub(crate) fn make_room(&mut self, number: u64) -> Result<(), Memory>
        ensures same { (n : ℕ) → receive_at self.new n ≡ receive_at self.old n }
        ensures within { length self.old.row.places.items < length self.new.row.places.items →
            length self.new.row.places.items ≤ 8 * self.old.held + 64 }
        ensures room { OnOk result (HasRoom self.new number) }
    {
        self.end_row();
        let most = self.held.saturating_add(8).saturating_mul(8);
        self.row.reach(number, most)?;
        match self.row.place(number) {
            Some(_) => {}
            None => self.apart.reserve(1)?,
        }
        Ok(())
    }

    /// Puts where a receive stands.
    fn put(&mut self, number: u64, receive: Receive)
        requires room { HasRoom self.old number }
        ensures { (n : ℕ) → receive_at self.new n
            ≡ (if nat_eq number n then Some receive else receive_at self.old n) }
    {
        if self.row.put(number, Some(receive)) {
            self.held = self.held.saturating_add(1);
        } else {
            self.apart.insert(number, receive).unwrap();
        }
    }

    /// Cancels the receive of this number, if something is kept of it.
    pub(crate) fn cancel(&mut self, number: u64)
        ensures own { receive_at self.new number
            ≡ option_map (λ s. kept.Cancelled) (receive_at self.old number) }
        ensures others { (n : ℕ) → nat_eq number n ≡ false →
            receive_at self.new n ≡ receive_at self.old n }
    {
        if self.row.get(number).is_some() {
            let _ = self.row.put(number, Some(Receive::Cancelled));
        } else if let Some(receive) = self.apart.get_mut(&number) {
            *receive = Receive::Cancelled;
        }
    }

    /// Puts another one behind a receive.
    #[inline(always)]
    fn set_next(&mut self, number: u64, next: u64)
        ensures { (n : ℕ) → receive_at self.new n ≡ next_set (receive_at self.old) number next n }
    {
        if self.row.set_next(number, next) {
            return;
        }
        if let Some(receive) = self.apart.get_mut(&number) {
            receive.set_next(next);
        }
    }

    /// Puts another one before a receive.
    #[inline(always)]
    fn set_before(&mut self, number: u64, before: u64)
        ensures { (n : ℕ) → receive_at self.new n ≡ before_set (receive_at self.old) number before n }
    {
        if self.row.set_before(number, before) {
            return;
        }
        if let Some(receive) = self.apart.get_mut(&number) {
            receive.set_before(before);
        }
    }

    /// Notes which one is before the first of a row of receives, and which one behind the last.
    #[inline(always)]
    fn set_ends(&mut self, first: u64, before: u64, last: u64, next: u64)
        ensures { (n : ℕ) → receive_at self.new n
            ≡ ends_set (receive_at self.old) first before last next n }
    {
        self.set_before(first, before);
        self.set_next(last, next);
    }

    /// The one before a receive that waits, or else itself.
    fn before(&self, number: u64) -> u64
        ensures { result ≡ before_of number (receive_at self.now number) }
    {
        match self.get(number) {
            Some(Receive::Waits { before, .. }) => *before,
            _ => number,
        }
    }

    /// The ones before and behind a receive that waits, or else itself.
    #[inline(always)]
    fn neighbours(&self, number: u64) -> (u64, u64)
        ensures { result ≡ (
          before_of number (receive_at self.now number),
          next_of number (receive_at self.now number),
        ) }
    {
        match self.get(number) {
            Some(Receive::Waits { before, next, .. }) => (*before, *next),
            _ => (number, number),
        }
    }

    /// Puts a receive that has room last into the ring of which this is the first, or into one of its own.
    pub(crate) fn let_in(&mut self, order: u64, p: Post, next: u64)
        requires room { HasRoom self.old p.number }
        ensures { (n : ℕ) → receive_at self.new n ≡ let_in_lem (receive_at self.old) (order, p) next n }
    {
        let before = self.before(next);
        let Post {
            number,
            from,
            tag,
            ctx,
            cap,
        } = p;
        self.put(
            number,
            Receive::Waits {
                ctx,
                from,
                tag,
                cap,
                order,
                before,
                next,
            },
        );
        if next != number || before != number {
            self.set_ends(next, number, before, number);
        }
    }

    /// Ties those before and behind a receive that waits to each other, and answers the one behind it.
    #[inline(always)]
    pub(crate) fn shut_out(&mut self, number: u64) -> u64
        ensures next { result ≡ next_of number (receive_at self.old number) }
        ensures ends { (n : ℕ) → receive_at self.new n ≡ shut_out_lem (receive_at self.old) number n }
    {
        let (before, next) = self.neighbours(number);
        if next != number || before != number {
            self.set_ends(next, before, before, next);
        }
        next
    }

    /// The receive of this number, if it waits, and its order number.
    #[inline(always)]
    pub(crate) fn waiting(&self, number: u64) -> Option<(u64, Post)>
        ensures { result ≡ waiting_of number (receive_at self.now number) }
    {
        match self.get(number)? {
            Receive::Waits {
                ctx,
                from,
                tag,
                cap,
                order,
                before: _,
                next: _,
            } => Some((
                *order,
                Post {
                    number,
                    from: *from,
                    tag: *tag,
                    ctx: *ctx,
                    cap: *cap,
                },
            )),
            Receive::Cancelled => None,
        }
    }

    /// Takes the receive of this number out of the row, if it stands there.
    fn leave_row(&mut self, number: u64)
        ensures own { in_row self.new.row number ≡ None }
        ensures others { (n : ℕ) → nat_eq number n ≡ false →
            in_row self.new.row n ≡ in_row self.old.row n }
        ensures apart { self.new.apart ≡ self.old.apart }
    {
        if self.row.get(number).is_none() {
            return;
        }
        let _ = self.row.put(number, None);
        self.held = self.held.saturating_sub(1);
    }

    /// Lets go where a receive stood.
    pub(crate) fn remove(&mut self, number: u64)
        ensures own { receive_at self.new number ≡ None }
        ensures others { (n : ℕ) → nat_eq number n ≡ false →
            receive_at self.new n ≡ receive_at self.old n }
    {
        self.leave_row(number);
        if !self.apart.is_empty() {
            let _ = self.apart.swap_remove(&number);
        }
    }
}
