//! A table that is closed, and keeps its memory until it is dropped.

ghost use Rattle.std.specs.Slots.{IsFull};

use atomic_table::Closed;
use std::alloc::Global;

/// A closed table, each slot of which is at home. What the slots hold goes where it is dropped.
pub struct Remains<S> {
    pub table: Closed<S, Global>,
    pub ghost full: { IsFull table.slots },
}

// The slots go, with what they hold, and then the table's own memory.
impl<S: Drop> Drop for Remains<S> {
    fn drop(self) {
        let Remains { mut table } = self;
        for i in 0..table.slot_count() {
            drop(table.take(i));
        }
        table.free();
    }
}
