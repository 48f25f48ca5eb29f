//! What became of each message that was sent.

ghost use Rattle.std.specs.Prelude.{◌≡◌, ◌+◌, ◌<◌, ◌^◌, ◌&&◌, [], ◌∷◌, ◌++◌, true, not, length, replicate};
ghost use Rattle.std.specs.Prelude.{Some, option_map, slice_get, slice_index, slice_set};
ghost use Rattle.std.specs.Prelude.{IfOk, OnOk};
ghost use Rattle.nm_sending.specs.Departures.{IsMost, fresh, passes, row_of, was_undone, with_departure};
ghost use Rattle.nm_sending.specs.Rows.{fate, gone, stays};
ghost use Rattle.nm_sending.specs.declared.TheConstants.{MAX_MESSAGES};
ghost use Rattle.nm_sending.specs.declared.departures.Departure.{Departure};

use crate::departures::Departure;
use crate::rows::Row;
use nm_types::{How, Memory};
use std::alloc::Global;
use std::marker::Model;

/// What became of each message, by destination and number.
pub(crate) struct Table {
    rows: Vec<Row>,
    // the most messages that there are to any rank
    most: u64,
}

impl Drop for Table {
    fn drop(self) {
        let Table { rows: _, most: _ } = self;
    }
}

impl Model for Table {
    ghost use Rattle.std.specs.Prelude.{map};
    ghost use Rattle.nm_sending.specs.Departures.{IsMost, TableView};

    ghost Value = { TableView };

    ghost view = { λ a.
        record {
          rows = map (λ row. row.items) a.rows.items;
          room = map (λ row. row.room) a.rows.items;
          spare = map (λ row. row.spare) a.rows.items;
        } };

    ghost invariant = { λ a. IsMost (map (λ row. row.items) a.rows.items) a.most };
}

impl Table {
    /// No messages, to so many ranks.
    pub(crate) fn new(alloc: Global, ranks: u8) -> Result<Table, Memory>
        ensures { IfOk result (λ table. table.rows ≡ replicate ranks []) }
    {
        let mut rows = Vec::new(alloc);
        for _ in 0..ranks {
            rows.push(Row::new(alloc))?;
        }
        Ok(Table { rows, most: 0 })
    }

    /// How many messages to a rank there are.
    pub(crate) fn count(&self, to: u8) -> u64
        requires { to < length self.now.rows }
        ensures { result ≡ length (row_of self.now.rows to) }
    {
        self.rows[to as usize].count()
    }

    /// How many messages to a rank are in memory: those from the first on that may still leave.
    pub(crate) fn held(&self, to: u8) -> usize
        requires { to < length self.now.rows }
        ensures { gone (row_of self.now.rows to) + result ≡ length (row_of self.now.rows to) }
    {
        self.rows[to as usize].held()
    }

    /// The most messages that there are to any rank.
    pub(crate) fn most(&self) -> u64
        ensures { IsMost self.now.rows result }
    {
        self.most
    }

    /// What became of message `n` to a rank, if it was sent. Its way and its length may not be known.
    pub(crate) fn get(&self, to: u8, n: u64) -> Option<Departure>
        requires { to < length self.now.rows }
        ensures { option_map fate result
            ≡ option_map fate (slice_get (row_of self.now.rows to) n) }
    {
        self.rows[to as usize].get(n)
    }

    /// Makes room for one message more to a rank.
    pub(crate) fn reserve(&mut self, to: u8) -> Result<(), Memory>
        requires { to < length self.old.rows }
        ensures rows { self.new.rows ≡ self.old.rows }
        ensures ok { OnOk result (0 < slice_index self.new.room to) }
    {
        self.rows[to as usize].reserve()?;
        Ok(())
    }

    /// Makes room for one recall more from a rank.
    pub(crate) fn reserve_recall(&mut self, to: u8) -> Result<(), Memory>
        requires { to < length self.old.rows }
        ensures rows { self.new.rows ≡ self.old.rows }
        ensures ok { OnOk result (0 < slice_index self.new.spare to) }
    {
        self.rows[to as usize].reserve_recall()?;
        Ok(())
    }

    /// Adds the next message to a rank. There is room for it.
    pub(crate) fn push(&mut self, to: u8, how: How, len: u32)
        requires to { to < length self.old.rows }
        requires room { 0 < slice_index self.old.room to }
        requires few { length (row_of self.old.rows to) < MAX_MESSAGES }
        ensures { self.new.rows
            ≡ slice_set self.old.rows to (row_of self.old.rows to ++ fresh how len ∷ []) }
    {
        let row = &mut self.rows[to as usize];
        row.push(how, len);
        self.most = self.most.max(row.count());
    }

    /// A message has left.
    pub(crate) fn leave(&mut self, to: u8, n: u64)
        requires to { to < length self.old.rows }
        requires stays { passes stays (slice_get (row_of self.old.rows to) n) ≡ true }
        ensures { (d : Departure) → slice_get (row_of self.old.rows to) n ≡ Some d →
            self.new.rows ≡ with_departure self.old.rows to n (record d { out = true }) }
    {
        self.rows[to as usize].leave(n);
    }

    /// The receiver of a message was asked to withdraw it. There is room for that.
    pub(crate) fn recall(&mut self, to: u8, n: u64)
        requires to { to < length self.old.rows }
        requires room { 0 < slice_index self.old.spare to }
        requires is_new { passes (λ d. not d.recalled) (slice_get (row_of self.old.rows to) n) ≡ true }
        ensures { (d : Departure) → slice_get (row_of self.old.rows to) n ≡ Some d →
            self.new.rows ≡ with_departure self.old.rows to n (record d { recalled = true }) }
    {
        self.rows[to as usize].recall(n);
    }

    /// The answer to a message's recall came back, which had none.
    pub(crate) fn answer(&mut self, to: u8, n: u64, done: bool)
        requires to { to < length self.old.rows }
        requires recalled { passes (λ d. d.recalled && not (was_undone true d))
            (slice_get (row_of self.old.rows to) n) ≡ true }
        ensures { (d : Departure) → slice_get (row_of self.old.rows to) n ≡ Some d →
            self.new.rows ≡ with_departure self.old.rows to n (record d { undone = Some done }) }
    {
        self.rows[to as usize].answer(n, done);
    }
}
