//! What is to be sent, as it is made of.

ghost use Rattle.std.specs.Prelude.{◌≡◌, ◌<◌, ◌≤◌};
ghost use Rattle.nm_types.specs.declared.limits.TheConstants.{MAX_STAMP};
ghost use Rattle.nm_sending.specs.Notes.{Bare, Cut, left_of, matter_of, to_of};
ghost use Rattle.nm_sending.specs.Numbers.{AreInRange, AreInRange-prop};

use nm_eager::Cutter;
use nm_types::What;

/// What packets are made of, with the rank that they go to. Each variant has this rank itself, so that
/// the small fields stand together.
#[derive(Drop)]
pub enum Load {
    /// One packet without bytes.
    Bare { to: u8, what: What },
    /// So many packets of an eager message: those that were not given.
    Cut { to: u8, left: u32, cutter: Cutter },
}

/// Packets to one rank that are to be sent, before they are made.
#[derive(Drop)]
pub struct Note {
    /// The number of the first one.
    pub seq: u64,
    pub stamp: u64,
    pub load: Load,
    pub ghost some: { 0 < left_of load },
    pub ghost numbers_in_range: { AreInRange seq (left_of load) } by { AreInRange-prop seq (left_of load) },
    pub ghost stamp_in_range: { stamp ≤ MAX_STAMP },
}

impl Note {
    /// One packet without bytes to a rank, with this number and this stamp.
    pub fn bare(to: u8, seq: u64, stamp: u64, what: What) -> Note
        requires numbers { AreInRange seq 1 }
        requires in_time { stamp ≤ MAX_STAMP }
        ensures to { to_of result.load ≡ to }
        ensures number { result.seq ≡ seq }
        ensures stamp { result.stamp ≡ stamp }
        ensures left { left_of result.load ≡ 1 }
        ensures matter { matter_of result.load ≡ Bare what }
    {
        Note {
            seq,
            stamp,
            load: Load::Bare { to, what },
        }
    }

    /// So many packets of an eager message to a rank with this stamp, the first one with this number.
    pub fn cut(to: u8, seq: u64, stamp: u64, left: u32, cutter: Cutter) -> Note
        requires some { 0 < left }
        requires numbers { AreInRange seq left }
        requires in_time { stamp ≤ MAX_STAMP }
        ensures to { to_of result.load ≡ to }
        ensures number { result.seq ≡ seq }
        ensures stamp { result.stamp ≡ stamp }
        ensures left { left_of result.load ≡ left }
        ensures matter { matter_of result.load ≡ Cut cutter }
    {
        Note {
            seq,
            stamp,
            load: Load::Cut { to, left, cutter },
        }
    }

    /// The rank that they go to.
    pub fn to(&self) -> u8
        ensures { result ≡ to_of self.now.load }
    {
        match &self.load {
            Load::Bare { to, .. } => *to,
            Load::Cut { to, .. } => *to,
        }
    }

    /// How many there are.
    pub fn left(&self) -> u32
        ensures { result ≡ left_of self.now.load }
    {
        match &self.load {
            Load::Bare { .. } => 1,
            Load::Cut { left, .. } => *left,
        }
    }
}
