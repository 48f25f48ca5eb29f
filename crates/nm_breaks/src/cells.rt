//! How many cells there are, and how many there are to be.

ghost use Rattle.std.specs.Prelude.{◌≡◌};
ghost use Rattle.nm_breaks.specs.Judgements as spec;

use nm_report::RunRecord;

/// How many cells all ranks are to have, how many there are, and how many of them are home.
#[derive(Clone, Copy)]
pub struct CellCount {
    pub called: u32,
    pub total: u32,
    pub home: u32,
}

/// The cells of a run.
pub fn count_of(run: &RunRecord) -> CellCount
    ensures { result ≡ spec.count_of run.now }
{
    CellCount {
        called: u32::from(run.shape.ranks()) * u32::from(run.shape.cells()),
        total: run.cells.total,
        home: run.cells.home,
    }
}
