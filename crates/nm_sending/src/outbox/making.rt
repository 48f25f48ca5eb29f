//! How packets are made of notes.

ghost use Rattle.std.specs.Prelude.{◌≡◌, ◌==◌, None, if◌then◌else◌};
ghost use Rattle.std.specs.Option.{option_map};
ghost use Rattle.nm_sending.specs.Letters.{Fits, HasNext, IsRest, message_of, payload_of, what_of};
ghost use Rattle.nm_sending.specs.Notes.{left_of, matter_of, to_of};

use crate::outbox::notes::{Load, Note};
use nm_types::Packet;

impl Load {
    /// Makes it the next packet, but for its sender, its number and its stamp.
    fn fill(&self, into: &mut Packet)
        requires { HasNext (matter_of self.now) }
        ensures { into.new
            ≡ record into.old {
              what = what_of (matter_of self.now);
              payload = payload_of (matter_of self.now);
            } }
    {
        match self {
            Load::Bare { what, .. } => {
                into.what = *what;
                into.payload.set(&[]);
            }
            Load::Cut { cutter, .. } => cutter.fill(into),
        }
    }
}

impl Note {
    /// Makes it the first packet, of this rank.
    pub fn fill(&self, me: u8, into: &mut Packet)
        requires { Fits (left_of self.now.load) (matter_of self.now.load) }
        ensures from { into.new.from ≡ me }
        ensures number { into.new.seq ≡ self.now.seq }
        ensures stamp { into.new.stamp ≡ self.now.stamp }
        ensures what { into.new.what ≡ what_of (matter_of self.now.load) }
        ensures bytes { into.new.payload ≡ payload_of (matter_of self.now.load) }
    {
        self.load.fill(into);
        into.from = me;
        into.seq = self.seq;
        into.stamp = self.stamp;
    }

    /// The eager message that leaves with the first packet, if one does: its receiver and its number.
    pub fn ended(&self) -> Option<(u8, u64)>
        ensures { result
            ≡ (if left_of self.now.load == 1
            then option_map (λ n. (to_of self.now.load, n)) (message_of (matter_of self.now.load))
            else None) }
    {
        let Load::Cut { to, left, cutter } = &self.load else {
            return None;
        };
        if *left != 1 {
            return None;
        }
        Some((*to, cutter.n()))
    }

    /// What is left after the first packet, if there are more.
    pub fn rest(self) -> Option<Note>
        requires { Fits (left_of self.load) (matter_of self.load) }
        ensures { IsRest self result }
    {
        let Note { seq, stamp, load } = self;
        let Load::Cut {
            to,
            left,
            mut cutter,
        } = load
        else {
            return None;
        };
        if left == 1 {
            return None;
        }
        cutter.step();
        let next = seq + 1;
        let more = left - 1;
        let note = Note::cut(to, next, stamp, more, cutter);
        Some(note)
    }
}
