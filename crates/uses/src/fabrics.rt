//! The fabric of two ranks, whose parcels and cells carry letters.

ghost use Rattle.std.specs.Prelude.{◌≡◌, ℕ, IfOk, Some, length, slice_get};
ghost use Rattle.nm_cells.specs.declared.port.Port.{Port};
ghost use Rattle.nm_cells.specs.Ports.{IsNew};
ghost use Rattle.uses.specs.declared.letters.Letter.{Letter};

use crate::letters::Letter;
use nm_cells::{Fabric, Port};
use nm_types::{Memory, Shape};
use std::alloc::Global;

// The ports of two ranks.
fn both(f: &Fabric<Letter>, mut ports: Vec<Port<Letter>>) -> (Port<Letter>, Port<Letter>)
    requires count { length ports.items ≡ 2 }
    requires new { (k : ℕ) (p : Port Letter) → slice_get ports.items k ≡ Some p → IsNew f.now p k }
    ensures { IsNew f.now result.0 0 × IsNew f.now result.1 1 }
{
    let b = ports.remove(1);
    let a = ports.remove(0);
    (a, b)
}

/// The fabric of two ranks with eight cells each, and the port of each.
pub fn two_ranks(alloc: Global) -> Result<(Fabric<Letter>, Port<Letter>, Port<Letter>), Memory>
    ensures { IfOk result (λ t. (t.0.ranks ≡ 2) × IsNew t.0 t.1 0 × IsNew t.0 t.2 1) }
{
    let Ok(shape) = Shape::new(2, 8, 0) else {
        unreachable!()
    };
    let (fabric, ports) = Fabric::<Letter>::build(alloc, shape)?;
    let (a, b) = both(&fabric, ports);
    Ok((fabric, a, b))
}
