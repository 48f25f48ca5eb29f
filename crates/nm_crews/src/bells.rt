//! When a crew makes turns, sleeps and ends.
//!
//! A crew makes the turns of some of the actors of a round, in one thread. It has a bell, one word. The
//! low 32 bits tell which of its ranks may have something to do, since something was sent or pushed to
//! them, or taken or pulled from them; two ranks may share a bit. All of it is a hint of when to make a
//! turn and when to end. No clause stands on it.
//!
//! # Why a crew that sleeps is woken, or need not be
//!
//! In the order of the steps on the words:
//!
//! 1. A crew that has nothing to do turns its bell from 0 to `SLEEPS` in one step. So nothing was rung
//!    before that step which it has not taken. Then it takes one from `awake`, its own, and parks, which
//!    the system does only while the low bits of the bell are 0.
//! 2. Who sent or took something rings after that. Where the bits are set already, the crew has yet to
//!    take them, and makes its turn after that. Else they are set in one step. Where the bell did not
//!    have `SLEEPS` at that step, its crew is awake, has not begun or has left, and it can't sleep
//!    before it has taken them, since it sleeps from 0 alone. Where the bell may have `SLEEPS`, one is
//!    added to `awake` before that step. If the step finds `SLEEPS` alone, it is the one that wakes the
//!    crew, and what was added is the crew's own again; it wakes the crew after that step, so a crew that
//!    had not yet parked finds a low bit set and doesn't. Else the crew is awake or another one wakes it,
//!    and what was added is taken back.
//! 3. So at each step `awake` is at least the number of crews that are awake, rung or have not begun, and
//!    who rings is one of them. Where it becomes 0, each crew sleeps or has left, nothing is rung, and
//!    nobody is left to ring: the round is over. Whoever took the last one tells all the others, by a low
//!    bit and a wake. That step comes wherever all sleep or have left: by then each has taken its own,
//!    and nothing else was added that was not taken back.
//! 4. Where a thread can't be had, its crew begins only when another one has ended. So nobody parks for
//!    good before all have begun. Until then a crew that sleeps looks each millisecond, and after some of
//!    these it leaves: it turns its bell from `SLEEPS` to 0, unless it was rung. Its own was taken from
//!    `awake` when it fell asleep. Those that begin later don't wait for others any more.
//! 5. Who is refused memory tells all the others, whatever `awake` is. A crew whose actor's turn is held
//!    by a gate is awake, and the others sleep until it goes on.
//!
//! A crew that has left is not woken, and what is rung for it is lost. It need not be: each actor makes a
//! turn at the start of the next round.
//!
//! A crew may keep what was rung as it is, and make a turn of each rank that it was rung for: who rings again
//! finds it so, and writes nothing. The crew has yet to take it, since it sleeps from 0 alone. And who took
//! something may ring for that in its next turn: it moved something, so it makes one, in the next round if not
//! in this.
//!
//! # Where other work has the processors
//!
//! There a crew that is awake stands still for milliseconds, and those that wait for it sleep as long, again
//! and again. So where a crew sleeps for a millisecond while at most one other is awake, and is rung after
//! that, the round ends, and the next one is made in one crew, which waits for nobody. After `ALONE` turns
//! all crews are tried again. Where one crew alone was at work for other reasons, little is lost by it.

use crate::blocks::{PAGES, pages_ahead, write_up_to};
use nm_types::Memory;
use std::alloc::Global;
use std::sync::Wait;
use std::sync::atomic::{AtomicBool, AtomicU64, Ordering};
use std::time::Duration;

// In a bell: its crew sleeps, or is about to.
const SLEEPS: u64 = 1 << 32;

// In a bell: there are no more turns in this round.
const OVER: u64 = 1 << 33;

// In a bell: who may have something to do.
const PLACES: u64 = 0xFFFF_FFFF;

// How often a crew looks at its bell before it sleeps.
const LOOKS: u32 = 10000;

// How many milliseconds a crew with nothing to do waits for others to begin.
const NAPS: u32 = 50;

// After how many milliseconds of sleep a crew is rung late.
const NAP: u64 = 1;

// How many turns are made in one crew before all are tried again.
const ALONE: u32 = 2000;

/// What becomes of what was rung.
#[derive(Clone, Copy)]
pub enum Rung {
    /// It stays so: who rings again finds it so, and writes nothing.
    Kept,
    /// It stays so while the crew is at work, and is taken by a crew that waited for it.
    KeptAtWork,
    /// It is rung no more.
    Taken,
}

impl Rung {
    // What becomes of it where the crew waited for it.
    fn awaited(self) -> Rung {
        match self {
            Rung::Kept => Rung::Kept,
            Rung::KeptAtWork | Rung::Taken => Rung::Taken,
        }
    }
}

#[derive(Drop)]
struct Crew {
    // its ranks: bit k is rank k's
    ranks: u64,
    bell: AtomicU64,
}

impl Crew {
    // The places in its bell of those of these ranks that are its own.
    fn places_of(&self, ranks: u64) -> u64 {
        let own = ranks & self.ranks;
        (own | own >> 32) & PLACES
    }

    // What was rung, which is then rung no more.
    fn answer(&self) -> u64 {
        if self.bell.load(Ordering::SeqCst) == 0 {
            return 0;
        }
        self.bell.swap(0, Ordering::SeqCst)
    }

    // What was rung, which stays so where it is kept and turns go on.
    fn hear(&self, keeps: Rung) -> u64 {
        if let Rung::Taken = keeps {
            return self.answer();
        }
        let places = self.bell.load(Ordering::SeqCst);
        if places & (OVER | SLEEPS) != 0 {
            return self.answer();
        }
        places
    }

    // Looks at the bell for a while. It answers what was rung.
    fn look(&self, keeps: Rung) -> u64 {
        for _ in 0..LOOKS {
            if self.bell.load(Ordering::SeqCst) != 0 {
                return self.hear(keeps);
            }
        }
        0
    }

    // Readies memory for what comes, until something is rung. It answers what was rung.
    fn ready(&self, alloc: Global, keeps: Rung) -> u64 {
        let Ok(mut block) = pages_ahead(alloc) else {
            return 0;
        };
        for page in 0..PAGES {
            if self.bell.load(Ordering::SeqCst) != 0 {
                return self.hear(keeps);
            }
            write_up_to(&mut block, page);
        }
        0
    }

    // Turns the bell from one word to another, unless it is another one already.
    fn turns(&self, from: u64, to: u64) -> bool {
        self.bell
            .compare_exchange(from, to, Ordering::SeqCst, Ordering::SeqCst)
            .is_ok()
    }

    // Whether it sleeps, and nothing was rung.
    fn is_asleep(&self) -> bool {
        self.bell.load(Ordering::SeqCst) == SLEEPS
    }

    // Whether there are no more turns in this round.
    fn is_over(&self) -> bool {
        self.bell.load(Ordering::SeqCst) & OVER != 0
    }

    // Tells it that there are no more turns in this round.
    fn end(&self) {
        self.bell.fetch_or(OVER | 1, Ordering::SeqCst);
        self.bell.wake_all();
    }
}

/// What the crews of a round share.
#[derive(Drop)]
pub struct Bells {
    crews: Vec<Crew>,
    // how many crews are awake, rung or have not begun, and no less
    awake: AtomicU64,
    begun: AtomicU64,
    // how many had begun when one of them waited for the others no more, else 0
    had: AtomicU64,
    // whether a crew was rung late
    late: AtomicBool,
    alloc: Global,
}

/// In how many crews the turns of a run are made.
#[derive(Drop)]
pub struct Crews {
    // as many as can be had
    most: usize,
    // other work has the processors: the next round is made in one
    alone: bool,
}

impl Crews {
    /// So many, as long as they can be had.
    pub fn new(most: usize) -> Crews {
        Crews { most, alone: false }
    }

    /// In how many the next round is made.
    pub fn count(&self) -> usize {
        if self.alone { 1 } else { self.most }
    }

    /// How many turns it has, where so many are asked for.
    pub fn turns(&self, most: u32) -> u32 {
        if self.alone { most.min(ALONE) } else { most }
    }

    /// What a round told, as its bells have it.
    pub fn learn(&mut self, bells: &Bells) {
        if let Some(had) = bells.had() {
            self.most = self.most.min(had);
        }
        self.alone = bells.is_late();
    }
}

/// The bit of a rank.
pub fn bit_of(rank: u8) -> u64 {
    1u64 << (rank % 64)
}

/// The place of a rank in the bell of its crew.
pub fn place_of(rank: u8) -> u64 {
    1u64 << (rank % 32)
}

/// What is of a rank.
pub trait Ranked {
    /// Its rank.
    fn rank(&self) -> u8;
}

// The ranks of these items.
fn ranks_of<T: Ranked>(items: &[T]) -> u64 {
    let mut ranks = 0;
    for item in items {
        ranks = ranks | bit_of(item.rank());
    }
    ranks
}

impl Bells {
    /// Bells of so many crews, among which these items are split evenly.
    pub fn new<T: Ranked>(alloc: Global, items: &[T], crews: usize) -> Result<Bells, Memory> {
        let mut all = Vec::new(alloc);
        let mut rest = items;
        for crew in 0..crews {
            let (own, more) = rest.split_at(rest.len() / (crews - crew));
            all.push(Crew {
                ranks: ranks_of(own),
                bell: AtomicU64::new(0),
            })?;
            rest = more;
        }
        Ok(Bells {
            crews: all,
            awake: AtomicU64::new(crews as u64),
            begun: AtomicU64::new(0),
            had: AtomicU64::new(0),
            late: AtomicBool::new(false),
            alloc,
        })
    }

    /// How many items so many crews have, from this one on.
    pub fn items_of(&self, first: usize, crews: usize) -> usize {
        let mut count: usize = 0;
        for crew in self.crews.iter().skip(first).take(crews) {
            count = count.saturating_add(crew.ranks.count_ones() as usize);
        }
        count
    }

    // How many crews could be had, where not all.
    fn had(&self) -> Option<usize> {
        match self.had.load(Ordering::SeqCst) {
            0 => None,
            had => Some(had as usize),
        }
    }

    // Whether the round ended since a crew was rung late.
    fn is_late(&self) -> bool {
        self.late.load(Ordering::SeqCst)
    }

    /// A crew begins.
    pub fn begin(&self) {
        self.begun.fetch_add(1, Ordering::SeqCst);
    }

    /// Ends the turns of all crews.
    pub fn end(&self) {
        for crew in &self.crews {
            crew.end();
        }
    }

    /// A crew makes no more turns, or falls asleep.
    pub fn leave(&self) {
        if self.awake.fetch_sub(1, Ordering::SeqCst) == 1 {
            self.end();
        }
    }

    /// Rings for these ranks, but not for those of the crew of this one. It answers the places of these.
    pub fn ring(&self, own: u8, ranks: u64) -> u64 {
        let mut here = 0;
        for crew in &self.crews {
            let places = crew.places_of(ranks);
            if crew.ranks & bit_of(own) != 0 {
                here = places;
            } else if places != 0 {
                self.ring_at(crew, places);
            }
        }
        here
    }

    // Rings a bell, and wakes its crew if it sleeps.
    fn ring_at(&self, crew: &Crew, places: u64) {
        let seen = crew.bell.load(Ordering::SeqCst);
        if places & !seen == 0 {
            return;
        }
        if seen & SLEEPS == 0 && crew.turns(seen, seen | places) {
            return;
        }
        self.awake.fetch_add(1, Ordering::SeqCst);
        if crew.bell.fetch_or(places, Ordering::SeqCst) == SLEEPS {
            crew.bell.wake_all();
        } else {
            self.awake.fetch_sub(1, Ordering::SeqCst);
        }
    }

    /// Which places of a crew may have something to do: these, and what was rung. Where there is none it waits
    /// until there is: it looks for a while, readies memory, and then sleeps. `None` ends its turns.
    pub fn next<R: Wait>(&self, rt: &R, crew: usize, due: u64, keeps: Rung) -> Option<u64> {
        let crew = self.crews.get(crew)?;
        let mut rung = crew.hear(keeps);
        let awaited = keeps.awaited();
        if due | rung == 0 {
            rung = crew.look(awaited);
        }
        if due | rung == 0 {
            rung = crew.ready(self.alloc, awaited);
        }
        if due | rung == 0 {
            if !self.sleep(rt, crew) {
                return None;
            }
            rung = crew.answer();
        }
        if rung & OVER != 0 {
            return None;
        }
        Some((due | rung) & PLACES)
    }

    // Sleeps until something was rung. It answers `false` where it has left in place of that.
    fn sleep<R: Wait>(&self, rt: &R, crew: &Crew) -> bool {
        if !crew.turns(0, SLEEPS) {
            return true;
        }
        self.leave();
        if !self.see_all_begin(rt, crew) && self.give_up(crew) {
            return false;
        }
        crew.bell.park_timeout(rt, 0, Duration::from_millis(NAP));
        let late = crew.is_asleep() && self.awake.load(Ordering::SeqCst) <= 1;
        for _ in rt.forever() {
            if !crew.is_asleep() {
                if late && !crew.is_over() {
                    self.end_late();
                }
                return true;
            }
            crew.bell.park(rt, 0);
        }
        unreachable!()
    }

    // Ends the turns of all crews, since one was rung late.
    fn end_late(&self) {
        self.late.store(true, Ordering::SeqCst);
        self.end();
    }

    // Sleeps while others have not begun, but not for long. It answers whether they have, or something
    // was rung.
    fn see_all_begin<R: Wait>(&self, rt: &R, crew: &Crew) -> bool {
        for _ in 0..NAPS {
            let begun = self.begun.load(Ordering::SeqCst);
            if begun >= self.crews.len() as u64 || !crew.is_asleep() {
                return true;
            }
            if self.had.load(Ordering::SeqCst) != 0 {
                return false;
            }
            crew.bell.park_timeout(rt, 0, Duration::from_millis(NAP));
        }
        false
    }

    // A crew that sleeps leaves, unless something was rung.
    fn give_up(&self, crew: &Crew) -> bool {
        let begun = self.begun.load(Ordering::SeqCst);
        let left = crew.turns(SLEEPS, 0);
        if left {
            self.had.store(begun, Ordering::SeqCst);
        }
        left
    }
}
