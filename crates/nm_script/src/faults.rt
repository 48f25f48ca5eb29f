//! Why bytes are refused.

use nm_types::Memory;
use std::alloc::AllocError;

/// What is wrong with a script's text. The first line with a fault has the first of these kinds.
#[derive(Clone, Copy, Debug, PartialEq)]
pub enum Kind {
    /// There are more bytes than a script may have. This stands before all others.
    TooLong,
    /// The line has a byte below 32 or above 126.
    NotAscii,
    /// It is one line more than a script may have.
    Lines,
    /// It is line 1, and isn't `ranks N`.
    First,
    /// Its first word isn't a rank with a colon.
    Rank,
    /// Its second word is no command.
    Command,
    /// The number of words after the command isn't the command's.
    Count,
    /// An argument other than a body isn't spelled right, or is out of its range.
    Number,
    /// A body isn't spelled right, or is too long.
    Body,
    /// The bodies up to this line are too long together.
    BodyTotal,
}

/// Why no text was read, whose lines can have faults of these kinds.
#[derive(Clone, Copy, Debug, PartialEq)]
pub enum TextFault<K> {
    /// The bytes are no such text: the fault of a line, counted from 1, or of the whole text at 0.
    Bad { line: u32, kind: K },
    /// Want of memory. It says nothing of the bytes.
    Memory,
}

/// Why no script was read.
pub type ScriptFault = TextFault<Kind>;

/// Why a line can't be read, before its number is known.
#[derive(Clone, Copy)]
pub enum LineFault<K> {
    Bad(K),
    Memory,
}

impl<K: Copy> LineFault<K> {
    ghost use Rattle.std.specs.Prelude.{◌≡◌};
    ghost use Rattle.nm_script.specs.Faults.{fault_at};

    /// The fault with the number of its line.
    pub fn at(self, line: u32) -> TextFault<K>
        ensures { result ≡ fault_at line self }
    {
        match self {
            LineFault::Bad(kind) => TextFault::Bad { line, kind },
            LineFault::Memory => TextFault::Memory,
        }
    }
}

impl From<Kind> for LineFault<Kind> {
    ghost use Rattle.std.specs.Prelude.{◌≡◌};
    ghost use Rattle.nm_script.specs.declared.faults.LineFault.TheVariants.{Bad};

    ghost from_gives = { λ kind fault. fault ≡ Bad kind };

    fn from(kind: Kind) -> LineFault<Kind> {
        LineFault::Bad(kind)
    }
}

impl<K: Copy> From<AllocError> for LineFault<K> {
    ghost use Rattle.std.specs.Prelude.{◌≡◌};
    ghost use Rattle.nm_script.specs.declared.faults.LineFault.TheVariants as fault;

    ghost from_gives = { λ _ e. e ≡ fault.Memory };

    fn from(_e: AllocError) -> LineFault<K> {
        LineFault::Memory
    }
}

impl<K: Copy> From<Memory> for LineFault<K> {
    ghost use Rattle.std.specs.Prelude.{◌≡◌};
    ghost use Rattle.nm_script.specs.declared.faults.LineFault.TheVariants as fault;

    ghost from_gives = { λ _ e. e ≡ fault.Memory };

    fn from(_e: Memory) -> LineFault<K> {
        LineFault::Memory
    }
}

impl<K: Copy> From<Memory> for TextFault<K> {
    ghost use Rattle.std.specs.Prelude.{◌≡◌};
    ghost use Rattle.nm_script.specs.declared.faults.TextFault.TheVariants as fault;

    ghost from_gives = { λ _ e. e ≡ fault.Memory };

    fn from(_e: Memory) -> TextFault<K> {
        TextFault::Memory
    }
}
