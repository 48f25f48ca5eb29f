//! What was granted to one sender.

ghost use Rattle.std.specs.Prelude.{◌≡◌, ◌+◌, ◌<◌, ◌≤◌, ◌++◌, [], ◌∷◌, ◌↔◌, ℕ, true, false, Some, None};
ghost use Rattle.std.specs.Prelude.{length, drop, nat_eq, if◌then◌else◌, slice_get};
ghost use Rattle.std.specs.Prelude.{IsOk, IsTrue, IfOk, IfSome, OnOk, OnErr, count_by};
ghost use Rattle.std.specs.Map.{lookup, set_value, values_of};
ghost use Rattle.std.specs.Option.{option_map, option_map_or, option_and_then, option_copied};
ghost use Rattle.std.specs.VecDeque.{deque_capacity};
ghost use Rattle.nm_kept.specs.Entering.{AreLive, SameOthers, kept_if};
ghost use Rattle.nm_rndv.specs.Grants.{fresh, has_bytes, is_open as is_open_lem, grant_in, is_open_in};
ghost use Rattle.nm_rndv.specs.Grants.{is_whole_in, first_unfinished, expected_in, due_in};
ghost use Rattle.nm_rndv.specs.Grants.{taken_in, with_piece};
ghost use Rattle.nm_rndv.specs.Grants.{has_unfinished as has_unfinished_lem};
ghost use Rattle.nm_rndv.specs.Pieces.{piece_size};

use crate::granted::Grant;
use nm_kept::Entries;
use nm_types::{Bytes, MAX_PIECE, Memory, Piece};
use std::alloc::Global;
use std::collections::VecDeque;
use std::marker::Model;

/// The grants of one sender in order, each by its message's number. Memory holds those whose bytes were
/// not taken.
pub struct Sender {
    grants: Entries<Grant>,
    // the numbers of those that are not whole, in order: pieces are of the first of them
    unfinished: VecDeque<u64>,
}

impl Drop for Sender {
    fn drop(self) {
        let Sender {
            grants: _,
            unfinished: _,
        } = self;
    }
}

impl Model for Sender {
    ghost use Rattle.std.specs.Prelude.{◌-◌, length, min};
    ghost use Rattle.std.specs.VecDeque.{deque_capacity};
    ghost use Rattle.nm_rndv.specs.Grants.{FromSender};
    ghost use Rattle.nm_rndv.specs.Kept.{SenderInvariant};

    ghost Value = { FromSender };

    ghost view = { λ s. record {
      grants = s.grants.entries;
      spare = min s.grants.spare (deque_capacity s.unfinished - length s.unfinished.items);
    } };

    ghost invariant = { λ s. SenderInvariant s.grants s.unfinished.items };
}

/// Takes a grant in memory out, to be changed and set.
#[inline(always)]
fn lift(alloc: Global, grants: &mut Entries<Grant>, n: u64) -> Grant
    requires live { AreLive has_bytes grants.old }
    requires there { option_map_or has_bytes (grant_in grants.old.entries n) false ≡ true }
    ensures live { AreLive has_bytes grants.new }
    ensures there { option_map_or has_bytes (grant_in grants.new.entries n) false ≡ true }
    ensures value { grant_in grants.old.entries n ≡ Some result }
    ensures others { SameOthers n grants.old.entries grants.new.entries }
    ensures room { grants.new.spare ≡ grants.old.spare }
{
    grants.replace(n, Grant::new(alloc, 0))
}

/// Sets a grant in memory, which has its bytes.
#[inline(always)]
fn set(grants: &mut Entries<Grant>, n: u64, grant: Grant)
    requires live { AreLive has_bytes grants.old }
    requires there { option_map_or has_bytes (grant_in grants.old.entries n) false ≡ true }
    requires bytes { has_bytes grant ≡ true }
    ensures live { AreLive has_bytes grants.new }
    ensures entries { grants.new.entries ≡ set_value (nat_eq n) grants.old.entries grant }
    ensures room { grants.new.spare ≡ grants.old.spare }
{
    let _before = grants.replace(n, grant);
}

/// Sets a grant in memory, whose bytes were taken, and lets it go.
#[inline(always)]
fn end(grants: &mut Entries<Grant>, n: u64, grant: Grant)
    requires live { AreLive has_bytes grants.old }
    requires there { option_map_or has_bytes (grant_in grants.old.entries n) false ≡ true }
    requires bytes { has_bytes grant ≡ false }
    ensures live { AreLive has_bytes grants.new }
    ensures entries { grants.new.entries ≡ set_value (nat_eq n) grants.old.entries grant }
    ensures room { grants.old.spare ≤ grants.new.spare }
{
    grants.end(n, grant);
}

/// Puts a number behind those that are not whole, if it is not. There is room for it.
#[inline(always)]
fn open_if(numbers: &mut VecDeque<u64>, is_open: bool, n: u64)
    requires { length numbers.old.items < deque_capacity numbers.old }
    ensures items { numbers.new.items ≡ numbers.old.items ++ (if is_open then n ∷ [] else []) }
    ensures room { deque_capacity numbers.new ≡ deque_capacity numbers.old }
{
    if is_open {
        numbers.push_back_reserved(n);
    }
}

/// Takes the first number away, if its message is whole.
#[inline(always)]
fn close_if(numbers: &mut VecDeque<u64>, is_whole: bool)
    ensures items { numbers.new.items ≡ (if is_whole then drop 1 numbers.old.items else numbers.old.items) }
    ensures fewer { length numbers.new.items ≤ length numbers.old.items }
    ensures room { deque_capacity numbers.new ≡ deque_capacity numbers.old }
{
    if is_whole {
        let _number = numbers.pop_front();
    }
}

/// The first number, if there is one.
#[inline(always)]
fn first_of(numbers: &VecDeque<u64>) -> Option<u64>
    ensures { result ≡ slice_get numbers.now.items 0 }
{
    numbers.front().copied()
}

/// Whether a piece is of message `n`, from byte `at` on, with as many bytes as it must have where so many are due.
fn is_next(n: u64, at: u32, due: u32, p: &Piece) -> bool
    ensures { IsTrue result ↔ (n ≡ p.now.n) × (at ≡ p.now.at) × (length p.now.bytes ≡ piece_size due) }
{
    let size = due.min(u32::from(MAX_PIECE)) as usize;
    n == p.n && at == p.at && p.bytes.as_slice().len() == size
}

impl Sender {
    /// Nothing was granted.
    pub fn new(alloc: Global) -> Self
        ensures { result.grants ≡ [] }
    {
        Sender {
            grants: Entries::new(alloc),
            unfinished: VecDeque::new(alloc),
        }
    }

    /// How many grants are in memory: those whose bytes were not taken.
    pub fn held(&self) -> usize
        ensures { result ≡ count_by has_bytes (values_of self.now.grants) }
    {
        self.grants.held()
    }

    /// Makes room for one grant more.
    #[inline(always)]
    pub fn reserve(&mut self) -> Result<(), Memory>
        ensures room { OnOk result (0 < self.new.spare) }
        ensures same { self.new.grants ≡ self.old.grants }
        ensures kept { self.old.spare ≤ self.new.spare }
    {
        self.unfinished.reserve(1)?;
        self.grants.reserve()
    }

    /// Grants a message of this length. The answer is whether it is whole already.
    #[inline(always)]
    pub fn grant(&mut self, n: u64, len: u32) -> Result<bool, Memory>
        requires { grant_in self.old.grants n ≡ None }
        ensures ok { OnOk result (self.new.grants ≡ self.old.grants ++ (n, fresh len) ∷ []) }
        ensures empty { IfOk result (λ whole. IsTrue whole ↔ (len ≡ 0)) }
        ensures err { OnErr result (self.new.grants ≡ self.old.grants) }
        ensures succeeds { 0 < self.old.spare → IsOk result }
    {
        let alloc = *self.unfinished.allocator();
        self.unfinished.reserve(1)?;
        self.grants.put(n, Grant::new(alloc, len))?;
        open_if(&mut self.unfinished, len > 0, n);
        Ok(len == 0)
    }

    /// Whether a grant is not whole.
    pub fn has_unfinished(&self) -> bool
        ensures { result ≡ has_unfinished_lem self.now.grants }
    {
        self.unfinished.len() > 0
    }

    /// The grant of a message whose bytes were not taken.
    fn grant_of(&self, n: u64) -> Option<&Grant>
        ensures { option_copied result ≡ kept_if has_bytes (grant_in self.now.grants n) }
    {
        self.grants.get(n)
    }

    /// The first grant that is not whole, with its message's number.
    #[inline(always)]
    fn first(&self) -> Option<(u64, &Grant)>
        ensures first { option_map (λ e. (e.0, e.1.now)) result
            ≡ first_unfinished self.now.grants }
        ensures unfinished { IfSome result (λ e. is_open_lem e.1.now ≡ true) }
    {
        let n = first_of(&self.unfinished)?;
        let grant = self.grants.get(n)?;
        Some((n, grant))
    }

    /// Whether the message was granted and is not whole.
    pub fn is_open(&self, n: u64) -> bool
        ensures { result ≡ is_open_in self.now.grants n }
    {
        match self.grant_of(n) {
            Some(grant) => grant.is_open(),
            None => false,
        }
    }

    /// Whether the message is whole and was not taken.
    pub fn is_whole(&self, n: u64) -> bool
        ensures { result ≡ is_whole_in self.now.grants n }
    {
        match self.grant_of(n) {
            Some(grant) => grant.is_whole(),
            None => false,
        }
    }

    /// Whether the piece is the one that comes next.
    pub fn fits(&self, p: &Piece) -> bool
        ensures { IsTrue result ↔ (expected_in self.now.grants ≡ Some (p.now.n, p.now.at))
            × (length p.now.bytes ≡ piece_size (due_in self.now.grants)) }
    {
        match self.first() {
            Some((n, grant)) => is_next(n, grant.came(), grant.due(), p),
            None => false,
        }
    }

    /// How many bytes the first unfinished message still lacks.
    pub fn due(&self) -> u32
        ensures { result ≡ due_in self.now.grants }
    {
        match self.first() {
            Some((_, grant)) => grant.due(),
            None => 0,
        }
    }

    /// Puts the bytes of a piece behind those of its message.
    pub fn add(&mut self, p: &Piece) -> Result<(), Memory>
        requires { option_map (λ at. at.0) (expected_in self.old.grants) ≡ Some p.now.n }
        ensures ok { OnOk result
            (self.new.grants ≡ with_piece self.old.grants p.now.n p.now.bytes) }
        ensures err { OnErr result (self.new.grants ≡ self.old.grants) }
        ensures room { self.old.spare ≤ self.new.spare }
    {
        let alloc = *self.unfinished.allocator();
        let mut grant = lift(alloc, &mut self.grants, p.n);
        let added = grant.add(p.bytes.as_slice());
        let is_open = grant.is_open();
        set(&mut self.grants, p.n, grant);
        close_if(&mut self.unfinished, !is_open);
        added
    }

    /// The bytes of a whole message.
    #[inline(always)]
    pub fn take(&mut self, n: u64) -> Bytes
        requires { is_whole_in self.old.grants n ≡ true }
        ensures bytes { option_and_then (λ g. g.bytes) (grant_in self.old.grants n) ≡ Some result }
        ensures gone { self.new.grants ≡ taken_in self.old.grants n }
        ensures unfinished { has_unfinished_lem self.new.grants
            ≡ has_unfinished_lem self.old.grants }
        ensures room { self.old.spare ≤ self.new.spare }
    {
        let alloc = *self.unfinished.allocator();
        let mut grant = lift(alloc, &mut self.grants, n);
        let bytes = grant.take();
        end(&mut self.grants, n, grant);
        bytes
    }
}
