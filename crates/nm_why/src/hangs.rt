//! How the runs of a script end, and what a part of it is to do still.

ghost use Rattle.std.specs.Prelude.{◌≡◌, IfOk};
ghost use Rattle.nm_why.specs.Hangs.{IsFate, meets_of};

use nm_types::{Memory, Script, Shape};
use std::alloc::Global;

/// How all runs of a script end.
#[derive(Clone, Copy)]
pub enum Fate {
    /// None hangs.
    Ends,
    /// All hang.
    Hangs,
    /// Some hang, and some end.
    Either,
    /// Some hang; whether some end is not known.
    MayHang,
    /// The search gave up, and nothing is known.
    Open,
}

/// A search over all runs of a script.
pub trait Search {
    /// How they end.
    fn fate(&self, alloc: Global, script: &Script, shape: Shape) -> Result<Fate, Memory>
        requires { shape.ranks ≡ script.now.ranks }
        ensures { IfOk result (IsFate shape script.now.lines) };
}

/// What a part of a script is to do still.
#[derive(Clone, Copy)]
pub enum Aim {
    /// It can hang.
    Hang,
    /// It can hang, and it can end.
    Both,
}

/// Whether a part of a script does it.
#[derive(Clone, Copy)]
pub enum Meets {
    Yes,
    No,
    /// The search gave up.
    Unknown,
}

/// Whether a script whose runs end so does what is asked.
pub fn meeting(aim: Aim, fate: Fate) -> Meets
    ensures { result ≡ meets_of aim fate }
{
    match fate {
        Fate::Ends => Meets::No,
        Fate::Hangs => match aim {
            Aim::Hang => Meets::Yes,
            Aim::Both => Meets::No,
        },
        Fate::Either => Meets::Yes,
        Fate::MayHang => match aim {
            Aim::Hang => Meets::Yes,
            Aim::Both => Meets::Unknown,
        },
        Fate::Open => Meets::Unknown,
    }
}
