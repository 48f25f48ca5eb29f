//! Places of names, by pages.

ghost use Rattle.std.specs.Prelude.{◌≡◌, ℕ, ◌<◌, ◌≤◌, ◌^◌, [], if◌then◌else◌, length, map, nat_eq};
ghost use Rattle.std.specs.Prelude.{slice_index, slice_index_or, OnErr, OnOk};
ghost use Rattle.nm_process.specs.Sparse.{page_of as page_of_lem, place_of_name, slot_of as slot_of_lem};

use nm_types::Memory;
use std::alloc::Global;
use std::marker::Model;

/// A place for each of some names. One that was never given a place has any.
pub(crate) struct Pages {
    // the page of each number, empty until it is used
    pages: Vec<Vec<u16>>,
    alloc: Global,
}

impl Drop for Pages {
    fn drop(self) {
        let Pages { pages: _, alloc: _ } = self;
    }
}

impl Model for Pages {
    ghost use Rattle.std.specs.Prelude.{ℕ, List, map};

    ghost Value = { List (List ℕ) };

    ghost view = { λ a. map (λ v. v.items) a.pages.items };
}

/// How many places a page has.
const SLOTS: usize = 256;

// The number of a name's page. Names that follow each other share it, 16 at a time, as do names that
// are 64 apart.
fn page_of(q: u16) -> usize
    ensures is { result ≡ page_of_lem q }
    ensures small { result < 256 }
{
    usize::from(q / 1024 * 4 + q / 16 % 4)
}

// Where a name's place stands in its page.
fn slot_of(q: u16) -> usize
    ensures is { result ≡ slot_of_lem q }
    ensures inside { result < 256 }
{
    usize::from(q / 64 % 16 * 16 + q % 16)
}

// Makes pages up to this number.
fn reach(pages: &mut Vec<Vec<u16>>, alloc: Global, number: usize) -> Result<(), Memory>
    requires { number < 2 ^ 63 }
    ensures there { OnOk result (number < length pages.new.items) }
    ensures same { (k : ℕ) → slice_index_or (map (λ v. v.items) pages.new.items) k []
        ≡ slice_index_or (map (λ v. v.items) pages.old.items) k [] }
{
    for _ in pages.len()..number + 1 {
        pages.push(Vec::new(alloc))?;
    }
    Ok(())
}

// Makes the places of a page.
#[inline(always)]
fn fill(page: &mut Vec<u16>) -> Result<(), Memory>
    ensures there { OnOk result (256 ≤ length page.new.items) }
    ensures same { (k : ℕ) → slice_index page.new.items k ≡ slice_index page.old.items k }
{
    if page.len() < SLOTS {
        page.resize(SLOTS, 0)?;
    }
    Ok(())
}

impl Pages {
    /// No name has a place.
    pub(crate) fn new(alloc: Global) -> Self
        ensures { result ≡ [] }
    {
        Pages {
            pages: Vec::new(alloc),
            alloc,
        }
    }

    /// The place of a name.
    pub(crate) fn get(&self, q: u16) -> u16
        ensures { result ≡ place_of_name self.now q }
    {
        let Some(page) = self.pages.get(page_of(q)) else {
            return 0;
        };
        page.get(slot_of(q)).copied().unwrap_or(0)
    }

    /// Gives a name a place.
    #[inline(always)]
    pub(crate) fn set(&mut self, q: u16, place: u16) -> Result<(), Memory>
        ensures ok { OnOk result ((k : ℕ) → place_of_name self.new k
            ≡ (if nat_eq q k then place else place_of_name self.old k)) }
        ensures err { OnErr result ((k : ℕ) → place_of_name self.new k ≡ place_of_name self.old k) }
    {
        let number = page_of(q);
        reach(&mut self.pages, self.alloc, number)?;
        let page = &mut self.pages[number];
        fill(page)?;
        page[slot_of(q)] = place;
        Ok(())
    }
}
