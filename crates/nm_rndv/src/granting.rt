//! The receiver's side: what was granted to all senders.

ghost use Rattle.std.specs.Prelude.{◌≡◌, ◌+◌, ◌^◌, ◌<◌, ◌≤◌, ◌++◌, [], ◌∷◌, ◌↔◌, ℕ, true, false, Some, None};
ghost use Rattle.std.specs.Prelude.{if◌then◌else◌, All};
ghost use Rattle.std.specs.Prelude.{length, slice_set, replicate, IsOk, IsTrue, IfOk, OnOk};
ghost use Rattle.std.specs.Prelude.{OnErr};
ghost use Rattle.std.specs.Prelude.{count_by, is_some};
ghost use Rattle.std.specs.Map.{values_of};
ghost use Rattle.std.specs.Option.{option_and_then};
ghost use Rattle.nm_rndv.specs.Grants.{fresh, has_bytes, is_unfinished, grant_in, grants_from, expected_in};
ghost use Rattle.nm_rndv.specs.Grants.{due_in, is_open_in, is_whole_in, taken_in, with_piece};
ghost use Rattle.nm_rndv.specs.Grants.{joined_by, AllWhole, Continues, IsReady, IsReadyFor};

use crate::senders::Sender;
use nm_types::{Bytes, Joined, Memory, Piece};
use std::alloc::Global;
use std::marker::Model;

/// The messages that a receiver has cleared to be sent, for all senders.
pub struct Grants {
    senders: Vec<Sender>,
    // How many senders have an unfinished grant, so that none is asked where there is none.
    unfinished: usize,
}

impl Drop for Grants {
    fn drop(self) {
        let Grants {
            senders: _,
            unfinished: _,
        } = self;
    }
}

impl Model for Grants {
    ghost use Rattle.std.specs.Prelude.{◌≡◌};
    ghost use Rattle.nm_rndv.specs.Grants.{Granting, count_unfinished, seen};

    ghost Value = { Granting };

    ghost view = { λ a. seen a.senders.items };

    ghost invariant = { λ a. a.unfinished ≡ count_unfinished (seen a.senders.items).grants };
}

/// How many senders have an unfinished grant after one of them changed: whether it had one, and
/// whether it has one.
fn recounted(count: usize, had: bool, has: bool) -> usize
    requires low { (if had then 1 else 0) ≤ count }
    requires high { count < 2 ^ 63 }
    ensures { result + (if had then 1 else 0) ≡ count + (if has then 1 else 0) }
{
    count + usize::from(has) - usize::from(had)
}

impl Grants {
    /// Nothing was granted to any of so many ranks.
    pub fn new(alloc: Global, ranks: u8) -> Result<Grants, Memory>
        ensures { IfOk result (λ grants. grants.grants ≡ replicate ranks []) }
    {
        let mut senders = Vec::new(alloc);
        for _rank in 0..ranks {
            senders.push(Sender::new(alloc))?;
        }
        Ok(Grants {
            senders,
            unfinished: 0,
        })
    }

    /// How many grants of a sender are in memory: those whose bytes were not taken.
    pub fn held(&self, from: u8) -> usize
        requires { from < length self.now.grants }
        ensures { result ≡ count_by has_bytes (values_of (grants_from self.now from)) }
    {
        self.senders[from as usize].held()
    }

    /// Makes room for one grant more, of whichever sender. No grant changes.
    pub fn reserve(&mut self) -> Result<(), Memory>
        ensures ready { OnOk result (IsReady self.new) }
        ensures each { OnOk result ((from : ℕ) → from < length self.new.grants
            → IsReadyFor self.new from) }
        ensures same { self.new.grants ≡ self.old.grants }
    {
        for from in 0..self.senders.len() {
            self.senders[from].reserve()?;
        }
        Ok(())
    }

    /// Makes room for one grant more of this sender. No grant changes.
    #[inline(always)]
    pub fn reserve_for(&mut self, from: u8) -> Result<(), Memory>
        requires { from < length self.old.grants }
        ensures ready { OnOk result (IsReadyFor self.new from) }
        ensures same { self.new.grants ≡ self.old.grants }
    {
        self.senders[from as usize].reserve()
    }

    /// Clears message `n` of a sender, of this many bytes, to be sent. The answer is whether it is
    /// whole already, as it is where it has none.
    #[inline(always)]
    pub fn grant(&mut self, from: u8, n: u64, len: u32) -> Result<bool, Memory>
        requires in_range { from < length self.old.grants }
        requires is_new { grant_in (grants_from self.old from) n ≡ None }
        ensures ok { OnOk result (self.new.grants
            ≡ slice_set self.old.grants from (grants_from self.old from ++ (n, fresh len) ∷ [])) }
        ensures empty { IfOk result (λ whole. IsTrue whole ↔ (len ≡ 0)) }
        ensures err { OnErr result (self.new.grants ≡ self.old.grants) }
        ensures succeeds { IsReady self.old → IsOk result }
        ensures succeeds_for { IsReadyFor self.old from → IsOk result }
    {
        let sender = &mut self.senders[from as usize];
        let had = sender.has_unfinished();
        let whole = sender.grant(n, len);
        let has = sender.has_unfinished();
        self.unfinished = recounted(self.unfinished, had, has);
        whole
    }

    /// Whether a grant of any sender is not whole, so that a piece is due.
    pub fn is_any_due(&self) -> bool
        ensures { (result ≡ false) ↔ ((from : ℕ) → from < length self.now.grants →
            AllWhole (grants_from self.now from)) }
    {
        self.unfinished > 0
    }

    /// Whether a grant of this sender is not whole, so that a piece of it is due.
    pub fn is_due(&self, from: u8) -> bool
        requires { from < length self.now.grants }
        ensures { result ≡ is_some (expected_in (grants_from self.now from)) }
    {
        self.senders[from as usize].has_unfinished()
    }

    /// Whether the message was granted and bytes of it are still to come.
    pub fn is_open(&self, from: u8, n: u64) -> bool
        requires { from < length self.now.grants }
        ensures { result ≡ is_open_in (grants_from self.now from) n }
    {
        self.senders[from as usize].is_open(n)
    }

    /// Whether all bytes of the message came and were not taken.
    pub fn is_whole(&self, from: u8, n: u64) -> bool
        requires { from < length self.now.grants }
        ensures { result ≡ is_whole_in (grants_from self.now from) n }
    {
        self.senders[from as usize].is_whole(n)
    }

    /// Whether the piece is the one that its sender has to send next.
    pub fn fits(&self, p: &Piece) -> bool
        requires { p.now.from < length self.now.grants }
        ensures { IsTrue result ↔ Continues self.now p.now }
    {
        self.senders[p.from as usize].fits(p)
    }

    /// Puts the bytes of a piece behind those of its message.
    ///
    /// The answer is `Whole` where they are its last, and else `Begun` where they are its first.
    pub fn piece(&mut self, p: &Piece) -> Result<Joined, Memory>
        requires { Continues self.old p.now }
        ensures ok { OnOk result (self.new.grants
            ≡ slice_set self.old.grants p.now.from
            (with_piece (grants_from self.old p.now.from) p.now.n p.now.bytes)) }
        ensures joined { IfOk result (λ joined. joined
            ≡ joined_by (due_in (grants_from self.old p.now.from)) p.now.at (length p.now.bytes)) }
        ensures err { OnErr result (self.new.grants ≡ self.old.grants) }
        ensures ready { IsReady self.old → IsReady self.new }
    {
        let sender = &mut self.senders[p.from as usize];
        let due = sender.due();
        let had = sender.has_unfinished();
        sender.add(p)?;
        let has = sender.has_unfinished();
        self.unfinished = recounted(self.unfinished, had, has);
        if p.bytes.as_slice().len() == due as usize {
            Ok(Joined::Whole)
        } else if p.at == 0 {
            Ok(Joined::Begun)
        } else {
            Ok(Joined::More)
        }
    }

    /// The bytes of a whole message, which are gone then.
    #[inline(always)]
    pub fn take(&mut self, from: u8, n: u64) -> Bytes
        requires in_range { from < length self.old.grants }
        requires whole { is_whole_in (grants_from self.old from) n ≡ true }
        ensures bytes { option_and_then (λ g. g.bytes) (grant_in (grants_from self.old from) n)
            ≡ Some result }
        ensures gone { self.new.grants
            ≡ slice_set self.old.grants from (taken_in (grants_from self.old from) n) }
        ensures ready { IsReady self.old → IsReady self.new }
    {
        self.senders[from as usize].take(n)
    }
}
