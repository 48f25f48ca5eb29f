//! Plans, and the scripts that they stand for.

ghost use Rattle.std.specs.Prelude.{◌≡◌, IfOk};
ghost use Rattle.nm_persist.specs.Plans.{AreReady, IsPlan};
ghost use Rattle.nm_plans.specs.Expansion.{expand};

use nm_plans::requests::{Requests, push_lines_for};
use nm_plans::{PlanLine, PlanLines};
use nm_types::{Lines, Memory, Script};
use std::alloc::Global;

/// A plan. Line k of the list, from 0, has the line number k + 2.
///
/// It keeps that each line is in range, and has none of the faults that lines may have behind those
/// before them.
#[derive(Drop)]
pub struct Plan {
    pub ranks: u8,
    pub lines: PlanLines,
    pub ghost limits: { IsPlan ranks lines },
}

/// The lines of a plan's script.
fn expand_lines(alloc: Global, ranks: u8, lines: &[PlanLine]) -> Result<Lines, Memory>
    requires { AreReady ranks lines.now }
    ensures { IfOk result (λ script. script ≡ expand lines.now) }
{
    let mut requests = Requests::new(alloc);
    let mut out = Vec::new(alloc);
    for line in lines {
        push_lines_for(alloc, &mut out, &requests, line)?;
        requests.note(line)?;
    }
    Ok(Lines::from_vec(out))
}

impl Plan {
    /// The script of a plan, in the order of its lines.
    ///
    /// An init and a `fill` stand for no command, a `start` for an `isend` or an `irecv` of each
    /// part, but that of a partitioned send for none; a `ready` stands for one `isend`, an
    /// `arrived` for one `test`, and a `wait` for a `wait` of each part. Part k of request P has
    /// the name `16 P + k`, the tag `16 TAG + k`, and the context `2 CTX`, to which a partitioned
    /// one adds 1.
    pub fn expand(&self, alloc: Global) -> Result<Script, Memory>
        ensures ranks { IfOk result (λ script. script.ranks ≡ self.now.ranks) }
        ensures lines { IfOk result (λ script. script.lines ≡ expand self.now.lines) }
    {
        let lines = expand_lines(alloc, self.ranks, self.lines.as_slice())?;
        Ok(Script {
            ranks: self.ranks,
            lines,
        })
    }
}
