//! What came from one sender.

ghost use Rattle.std.specs.Prelude.{◌≡◌, ◌+◌, ◌-◌, ◌<◌, ◌≤◌, ℕ, [], ◌++◌, length, ◌↔◌, IsTrue, None};
ghost use Rattle.std.specs.Prelude.{IsOk, OnOk, IsSomeAnd, false, replicate};
ghost use Rattle.std.specs.VecDeque.{deque_capacity};
ghost use Rattle.nm_types.specs.declared.limits.TheConstants.{MAX_PACKETS};
ghost use Rattle.nm_eager.specs.Streams.{nothing_came, missing, begun, carried_on, skipped};
ghost use Rattle.nm_eager.specs.Streams.{IsStream, message_of, IsWholeIn, without};
ghost use Rattle.nm_eager.specs.Streams.{is_eager, continues, after, joined_by, since_first};
ghost use Rattle.nm_eager.specs.Senders.{CanBegin, IsPut, IsReadyAt, SameReceived, placed};
ghost use Rattle.nm_eager.specs.Senders.{begins_empty, first_place, next_put};

use crate::messages::Message;
use nm_types::{Bytes, Joined, Memory, What};
use std::alloc::Global;
use std::collections::VecDeque;
use std::marker::Model;
use std::mem;

/// What came from one sender: the whole messages that weren't taken, and one that is unfinished.
pub struct Sender {
    count: u64,
    /// The number of the first place: those before it were let go.
    first: u64,
    /// By number, from there on: the bytes of what is whole and wasn't taken. The first place has some.
    whole: VecDeque<Option<Bytes>>,
    unfinished: Option<Message>,
    /// Empty: the next message that begins gets it.
    buffer: Vec<u8>,
}

impl Drop for Sender {
    fn drop(self) {
        let Sender {
            count: _,
            first: _,
            whole: _,
            unfinished: _,
            buffer: _,
        } = self;
    }
}

impl Model for Sender {
    ghost use Rattle.std.specs.Prelude.{◌≡◌, ◌+◌, ◌++◌, [], false, option_to_list, vec_capacity};
    ghost use Rattle.std.specs.VecDeque.{deque_capacity};
    ghost use Rattle.nm_eager.specs.Senders.{Received, AreReceived, AreAtPlaces, placed, standing};
    ghost use Rattle.nm_eager.specs.Senders.{begins_empty};

    ghost Value = { Received };

    ghost view = { λ a. record {
      stream = record {
        count = a.count;
        messages = standing (placed a.first a.whole.items) ++ option_to_list a.unfinished;
      };
      places = a.first + deque_capacity a.whole;
      room = vec_capacity a.buffer;
    } };

    ghost invariant = { λ a. (a.buffer.items ≡ [])
        × AreReceived a.count (standing (placed a.first a.whole.items)) a.unfinished
        (a.first + deque_capacity a.whole)
        × AreAtPlaces a.first a.count (placed a.first a.whole.items) a.unfinished
        × (begins_empty a.whole.items ≡ false) };
}

/// The number of the message that is put next, where so many were counted.
fn next_number(count: u64, unfinished: &Option<Message>) -> u64
    ensures { result ≡ next_put count unfinished.now }
{
    match unfinished {
        Some(message) => message.n(),
        None => count,
    }
}

/// The number of the first place, where the message with this number is put next: where there are
/// places, it stays.
fn first_of(first: u64, whole: &VecDeque<Option<Bytes>>, next: u64) -> u64
    ensures { result ≡ first_place first whole.now.items next }
{
    if whole.is_empty() { next } else { first }
}

/// The place of message n, where the first place has this number.
fn place_of(first: u64, n: u64) -> usize
    requires { first ≤ n }
    ensures { result ≡ n - first }
{
    (n - first) as usize
}

/// Leaves so many places empty.
fn leave_empty(whole: &mut VecDeque<Option<Bytes>>, many: usize)
    requires { length whole.old.items + many ≤ deque_capacity whole.old }
    ensures items { whole.new.items ≡ whole.old.items ++ replicate many None }
    ensures len { length whole.new.items ≡ length whole.old.items + many }
    ensures room { deque_capacity whole.new ≡ deque_capacity whole.old }
{
    for _place in 0..many {
        whole.push_back_reserved(None);
    }
}

/// Puts a message's bytes behind those that are whole, at the place of its number, if it is whole, too,
/// where the first place has this number. One that is unfinished comes back.
#[inline(always)]
fn put(first: u64, whole: &mut VecDeque<Option<Bytes>>, message: Message) -> Option<Message>
    requires behind { first + length whole.old.items ≤ message.n }
    requires room { message.n < first + deque_capacity whole.old }
    requires begins { begins_empty whole.old.items ≡ false }
    requires next { first ≡ first_place first whole.old.items message.n }
    ensures put { IsPut first (placed first whole.old.items) (placed first whole.new.items)
        message result }
    ensures begins { begins_empty whole.new.items ≡ false }
    ensures room { deque_capacity whole.new ≡ deque_capacity whole.old }
{
    if message.lacking() > 0 {
        return Some(message);
    }
    let gap = place_of(first, message.n()) - whole.len();
    leave_empty(whole, gap);
    whole.push_back_reserved(Some(message.into_bytes()));
    None
}

/// Whether the first of the places is empty.
fn is_first_empty(whole: &VecDeque<Option<Bytes>>) -> bool
    ensures { result ≡ begins_empty whole.now.items }
{
    match whole.front() {
        Some(bytes) => bytes.is_none(),
        None => false,
    }
}

/// Lets go the empty places at the front, and answers how many they were.
fn let_go(whole: &mut VecDeque<Option<Bytes>>) -> u64
    ensures gone { whole.old.items ≡ replicate result None ++ whole.new.items }
    ensures few { result ≤ length whole.old.items }
    ensures begins { begins_empty whole.new.items ≡ false }
    ensures room { deque_capacity whole.new ≡ deque_capacity whole.old }
{
    let all = whole.len();
    for gone in 0..all {
        if !is_first_empty(whole) {
            return gone as u64;
        }
        let _empty = whole.pop_front();
    }
    all as u64
}

impl Sender {
    /// Nothing came.
    pub fn new(alloc: Global) -> Self
        ensures { result.stream ≡ nothing_came }
    {
        Sender {
            count: 0,
            first: 0,
            whole: VecDeque::new(alloc),
            unfinished: None,
            buffer: Vec::new(alloc),
        }
    }

    /// How many messages were counted.
    pub fn count(&self) -> u64
        ensures { result ≡ self.now.stream.count }
    {
        self.count
    }

    /// How many bytes the unfinished message lacks; 0 where there is none.
    pub fn missing(&self) -> u32
        ensures value { result ≡ missing self.now.stream }
        ensures stream { IsStream self.now.stream }
    {
        match &self.unfinished {
            Some(message) => message.lacking(),
            None => 0,
        }
    }

    /// Counts a message that was sent by asking.
    pub fn skip(&mut self)
        requires closed { missing self.old.stream ≡ 0 }
        requires limit { self.old.stream.count < MAX_PACKETS }
        ensures { self.new ≡ record self.old { stream = skipped self.old.stream } }
    {
        self.count += 1;
    }

    /// How many places are in memory. None is before the first message that wasn't taken.
    pub fn held(&self) -> u64
        ensures { result ≤ since_first self.now.stream }
    {
        self.whole.len() as u64
    }

    /// Where there are no places, the first one is that of the message that is put next.
    fn settle(&mut self)
        ensures { SameReceived self.old self.new }
    {
        let next = next_number(self.count, &self.unfinished);
        self.first = first_of(self.first, &self.whole, next);
    }

    /// Makes room for a message of this length.
    #[inline(always)]
    #[tactic(auto, using(crate::proofs::SenderLemmas::more_places))]
    pub fn reserve(&mut self, len: u32) -> Result<(), Memory>
        ensures ok { OnOk result (CanBegin self.new len) }
        ensures succeeds { CanBegin self.old len → IsOk result }
        ensures same { SameReceived self.old self.new }
    {
        self.settle();
        let wanted = (self.count + 1 - self.first) as usize - self.whole.len();
        self.whole.reserve(wanted)?;
        self.buffer.reserve_exact(len as usize)?;
        Ok(())
    }

    /// Joins the bytes of a packet that continues the stream, and tells what that did.
    #[inline(always)]
    pub fn add(&mut self, what: &What, bytes: &[u8]) -> Joined
        requires eager { IsTrue (is_eager what.now) }
        requires fits { (eager : ℕ) × IsTrue (continues eager self.old.stream.count
            (missing self.old.stream) what.now (length bytes.now)) }
        requires limit { self.old.stream.count < MAX_PACKETS }
        requires ready { IsReadyAt self.old what.now }
        ensures step { self.new.stream ≡ after self.old.stream what.now bytes.now }
        ensures joined { result ≡ joined_by what.now (missing self.new.stream) }
    {
        let unfinished = match what {
            What::Head { len, .. } => {
                self.begin(*len, bytes);
                Joined::Begun
            }
            _ => {
                self.carry_on(bytes);
                Joined::More
            }
        };
        if self.missing() == 0 {
            Joined::Whole
        } else {
            unfinished
        }
    }

    /// Begins a message of this length with its first bytes.
    #[inline(always)]
    fn begin(&mut self, len: u32, bytes: &[u8])
        requires closed { missing self.old.stream ≡ 0 }
        requires limit { self.old.stream.count < MAX_PACKETS }
        requires room { CanBegin self.old len }
        requires within { length bytes.now ≤ len }
        ensures { self.new.stream ≡ begun self.old.stream len bytes.now }
    {
        let alloc = *self.buffer.allocator();
        let buffer = mem::replace(&mut self.buffer, Vec::new(alloc));
        let mut message = Message::new(self.count, len, buffer);
        message.extend(bytes);
        self.first = first_of(self.first, &self.whole, self.count);
        self.unfinished = put(self.first, &mut self.whole, message);
        self.count += 1;
    }

    /// Goes on with the unfinished message.
    #[inline(always)]
    fn carry_on(&mut self, bytes: &[u8])
        requires open { 0 < missing self.old.stream }
        requires within { length bytes.now ≤ missing self.old.stream }
        ensures { (n : ℕ) → n + 1 ≡ self.old.stream.count
            → self.new.stream ≡ carried_on self.old.stream n bytes.now }
    {
        let Some(mut message) = self.unfinished.take() else {
            unreachable!()
        };
        message.extend(bytes);
        self.first = first_of(self.first, &self.whole, message.n());
        self.unfinished = put(self.first, &mut self.whole, message);
    }

    /// Whether message n is whole and wasn't taken.
    pub fn is_whole(&self, n: u64) -> bool
        ensures { IsTrue result ↔ IsWholeIn self.now.stream n }
    {
        if n < self.first {
            return false;
        }
        match self.whole.get(place_of(self.first, n)) {
            Some(bytes) => bytes.is_some(),
            None => false,
        }
    }

    /// Takes a whole message away. Its place is let go with those before it, once all of them are
    /// empty.
    pub fn take(&mut self, n: u64) -> Bytes
        requires whole { IsWholeIn self.old.stream n }
        ensures bytes { IsSomeAnd (message_of self.old.stream n) (λ m. result ≡ m.bytes) }
        ensures others { self.new.stream ≡ without self.old.stream n }
    {
        let place = place_of(self.first, n);
        let bytes = self.whole[place].take().unwrap();
        self.first += let_go(&mut self.whole);
        bytes
    }
}
