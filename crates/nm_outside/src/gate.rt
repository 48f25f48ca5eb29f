//! What may hold a rank's turn.

use std::sync::atomic::{AtomicBool, Ordering};

/// What is called once at the start of each turn of a rank. Nothing depends on it.
pub trait Gate {
    fn turn(&self, rank: u8);
}

/// A gate that does nothing.
#[derive(Clone, Copy)]
pub struct OpenGate;

impl Gate for OpenGate {
    fn turn(&self, _rank: u8) {}
}

/// A gate at which the first turns of ranks 0 and 1 wait for each other, for at most so many looks.
#[derive(Drop)]
pub struct PairGate {
    limit: u64,
    first: Mark,
    second: Mark,
}

// Whether a rank came, and whether it found the other's mark.
#[derive(Drop)]
struct Mark {
    came: AtomicBool,
    met: AtomicBool,
}

impl Mark {
    fn new() -> Mark {
        Mark {
            came: AtomicBool::new(false),
            met: AtomicBool::new(false),
        }
    }

    // On the first call sets this mark, and then looks at the other one until it is set or the looks
    // are used up.
    fn meet(&self, other: &Mark, limit: u64) {
        if self.came.swap(true, Ordering::SeqCst) {
            return;
        }
        for _ in 0..limit {
            if other.came.load(Ordering::SeqCst) {
                self.met.store(true, Ordering::SeqCst);
                return;
            }
        }
    }
}

impl PairGate {
    /// A gate of which each of the two ranks looks at most so often.
    pub fn new(limit: u64) -> PairGate {
        PairGate {
            limit,
            first: Mark::new(),
            second: Mark::new(),
        }
    }

    /// Whether both found the other's mark.
    pub fn met(&self) -> bool {
        self.first.met.load(Ordering::SeqCst) && self.second.met.load(Ordering::SeqCst)
    }
}

impl Gate for PairGate {
    fn turn(&self, rank: u8) {
        match rank {
            0 => self.first.meet(&self.second, self.limit),
            1 => self.second.meet(&self.first, self.limit),
            _ => {}
        }
    }
}
