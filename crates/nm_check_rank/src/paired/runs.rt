//! What is known of a rank's run.

use crate::paired::tables::Tables;
use nm_history::Event;
use nm_types::{Line, Shape};

/// A rank's run, with what is looked up of the events whose numbers are right.
#[derive(Clone, Copy)]
pub(crate) struct Run<'a> {
    pub(crate) shape: Shape,
    pub(crate) rank: u8,
    pub(crate) lines: &'a [Line],
    /// The lines of the rank's commands.
    pub(crate) own: &'a [u64],
    /// All events of the rank.
    pub(crate) all: &'a [Event],
    /// Those before the first with a wrong number.
    pub(crate) events: &'a [Event],
    pub(crate) tables: &'a Tables,
}
