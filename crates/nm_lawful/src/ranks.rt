//! The state of a rank.

ghost use Rattle.std.specs.Prelude.{◌≡◌, [], ◌∷◌, ◌++◌, ◌==◌, OnOk, IfOk, find, map, not, filter};
ghost use Rattle.std.specs.List.{list_any};
ghost use Rattle.nm_lawful.specs.Ranks.{cap_of_lem, changed_by, first_rank, first_to_lem, handle_lem};
ghost use Rattle.nm_lawful.specs.Ranks.{is_claimed_lem, is_receiver_lem, is_waiting_lem, live_lem, marked_lem};
ghost use Rattle.nm_lawful.specs.Ranks.{pattern_of_lem, ran_at, receiver_of_lem, request_at_lem, selects_lem};
ghost use Rattle.nm_lawful.specs.Ranks.{shown_to_lem, with_standing, without_message};

use crate::messages::{Act, Claim, Message, Pattern, Request, Standing};
use nm_types::{Memory, Peer, TagPick};
use std::alloc::Global;
use std::hash::{Hash, Hasher};
use std::marker::Model;

/// What a rank has done, as far as its later answers depend on it.
pub struct Rank {
    at: usize,
    requests: Vec<Request>,
    outgoing: Vec<Message>,
    claims: Vec<Claim>,
}

impl Drop for Rank {
    fn drop(self) {
        let Rank {
            at: _,
            requests: _,
            outgoing: _,
            claims: _,
        } = self;
    }
}

impl Model for Rank {
    ghost use Rattle.nm_lawful.specs.Ranks.{RankState};

    ghost Value = { RankState };

    ghost view = { λ a. record {
      at = a.at;
      requests = a.requests.items;
      outgoing = a.outgoing.items;
      claims = a.claims.items;
    } };
}

/// Two ranks are equal where all that they have is.
impl PartialEq for Rank {
    ghost use Rattle.std.specs.Cmp.{partial_equiv_from_equiv};
    ghost use Rattle.nm_lawful.specs.Sames.{same_ranks};
    ghost use Rattle.nm_lawful.specs.SameLaws.{ranks_equiv};

    ghost eq = { λ a b. same_ranks a b };

    ghost laws = { partial_equiv_from_equiv ranks_equiv };

    fn eq(&self, other: &Rank) -> bool {
        self.at == other.at
            && self.requests == other.requests
            && self.outgoing == other.outgoing
            && self.claims == other.claims
    }
}

impl Eq for Rank {
    ghost use Rattle.nm_lawful.specs.SameLaws.{ranks_equiv};

    ghost laws = { ranks_equiv };
}

/// Whether a pattern selects a message.
fn selects(p: &Pattern, m: &Message) -> bool
    ensures { result ≡ selects_lem p.now m.now }
{
    let source = match p.from {
        Peer::Any => true,
        Peer::One(rank) => rank == m.from,
    };
    let named = match p.tag {
        TagPick::Any => true,
        TagPick::One(tag) => tag == m.tag,
    };
    p.ctx == m.ctx && source && named
}

/// What a receive selects, if it is open.
pub fn pattern_of(standing: &Standing) -> Option<Pattern>
    ensures { result ≡ pattern_of_lem standing.now }
{
    match standing {
        Standing::Open { pattern, .. } => Some(*pattern),
        Standing::Marked { pattern, .. } => Some(*pattern),
        _ => None,
    }
}

/// How many bytes fit into a receive.
pub fn cap_of(standing: &Standing) -> u32
    ensures { result ≡ cap_of_lem standing.now }
{
    match standing {
        Standing::Open { cap, .. } => *cap,
        Standing::Marked { cap, .. } => *cap,
        _ => 0,
    }
}

/// Whether a request is an open receive that selects a message.
fn is_receiver(m: &Message, r: &Request) -> bool
    ensures { result ≡ is_receiver_lem m.now r.now }
{
    match pattern_of(&r.standing) {
        Some(pattern) => selects(&pattern, m),
        None => false,
    }
}

/// The request, which stands otherwise if a line at this place started it.
fn marked(place: usize, standing: Standing, r: &Request) -> Request
    ensures { result ≡ marked_lem place standing r.now }
{
    if r.place == place {
        Request {
            q: r.q,
            place: r.place,
            standing,
        }
    } else {
        *r
    }
}

/// The requests, of which one stands otherwise.
fn all_marked(
    alloc: Global,
    place: usize,
    standing: Standing,
    requests: &[Request],
) -> Result<Vec<Request>, Memory>
    ensures { IfOk result (λ all. all.items ≡ map (λ r. marked_lem place standing r) requests.now) }
{
    let all: Vec<Request> = requests
        .iter()
        .map(|r| marked(place, standing, r))
        .collect(alloc)?;
    Ok(all)
}

impl Rank {
    /// A rank that did nothing.
    pub fn new(alloc: Global) -> Rank
        ensures { result ≡ first_rank }
    {
        Rank {
            at: 0,
            requests: Vec::new(alloc),
            outgoing: Vec::new(alloc),
            claims: Vec::new(alloc),
        }
    }

    /// An equal one.
    pub fn copy(&self) -> Result<Rank, Memory>
        ensures { IfOk result (λ copy. copy ≡ self.now) }
    {
        Ok(Rank {
            at: self.at,
            requests: self.requests.clone()?,
            outgoing: self.outgoing.clone()?,
            claims: self.claims.clone()?,
        })
    }

    /// The place from which on its lines have still to run.
    pub fn at(&self) -> usize
        ensures { result ≡ self.now.at }
    {
        self.at
    }

    /// Its live requests.
    pub fn requests(&self) -> &[Request]
        ensures { result.now ≡ self.now.requests }
    {
        self.requests.as_slice()
    }

    /// Its messages that no receive has.
    pub fn outgoing(&self) -> &[Message]
        ensures { result.now ≡ self.now.outgoing }
    {
        self.outgoing.as_slice()
    }

    /// Its live handles.
    pub fn claims(&self) -> &[Claim]
        ensures { result.now ≡ self.now.claims }
    {
        self.claims.as_slice()
    }

    /// The oldest open receive that selects a message.
    pub fn receiver_of(&self, m: &Message) -> Option<Request>
        ensures { result ≡ receiver_of_lem self.now m.now }
    {
        self.requests.iter().copied().find(|r| is_receiver(m, r))
    }

    /// The live request of a name.
    pub fn live(&self, q: u16) -> Option<Request>
        ensures { result ≡ live_lem self.now q }
    {
        self.requests.iter().copied().find(|r| r.q == q)
    }

    /// The live request that a line started.
    pub fn request_at(&self, place: usize) -> Option<Request>
        ensures { result ≡ request_at_lem self.now place }
    {
        self.requests.iter().copied().find(|r| r.place == place)
    }

    /// The live handle of a name.
    pub fn handle(&self, m: u16) -> Option<Claim>
        ensures { result ≡ handle_lem self.now m }
    {
        self.claims.iter().copied().find(|c| c.m == m)
    }

    /// Whether no receive has the message of a line.
    pub fn is_waiting(&self, place: usize) -> bool
        ensures { result ≡ is_waiting_lem self.now place }
    {
        self.outgoing.iter().any(|m| m.place == place)
    }

    /// Whether a handle has the message.
    pub fn is_claimed(&self, m: &Message) -> bool
        ensures { result ≡ is_claimed_lem self.now m.now }
    {
        self.claims.iter().any(|c| c.message.place == m.place)
    }

    /// The first message to a rank that is pending and that a pattern selects.
    pub fn first_to(&self, to: u8, receiver: &Rank, p: &Pattern) -> Option<Message>
        ensures { result ≡ first_to_lem self.now to receiver.now p.now }
    {
        self.outgoing
            .iter()
            .copied()
            .find(|m| m.to == to && !receiver.is_claimed(m) && selects(p, m))
    }

    /// .. if no open receive selects it.
    pub fn shown_to(&self, to: u8, receiver: &Rank, p: &Pattern) -> Option<Message>
        ensures { result ≡ shown_to_lem self.now to receiver.now p.now }
    {
        match self.first_to(to, receiver, p) {
            Some(m) => match receiver.receiver_of(&m) {
                Some(_) => None,
                None => Some(m),
            },
            None => None,
        }
    }

    /// The request that a line started stands otherwise.
    pub fn mark(&mut self, alloc: Global, place: usize, standing: Standing) -> Result<(), Memory>
        ensures { OnOk result (self.new ≡ with_standing place standing self.old) }
    {
        self.requests = all_marked(alloc, place, standing, self.requests.as_slice())?;
        Ok(())
    }

    /// A receive has the message of a line, or it was withdrawn.
    pub fn take_out(&mut self, place: usize)
        ensures { self.new ≡ without_message place self.old }
    {
        keep_others(&mut self.outgoing, place);
    }

    /// A request is started.
    fn start(&mut self, q: u16, place: usize, standing: Standing) -> Result<(), Memory>
        ensures { OnOk result (self.new ≡ record self.old {
          requests = self.old.requests ++ record { q = q; place = place; standing = standing } ∷ [];
        }) }
    {
        self.requests.push(Request { q, place, standing })?;
        Ok(())
    }

    /// What an act changes.
    fn change(&mut self, alloc: Global, place: usize, act: &Act) -> Result<(), Memory>
        ensures { OnOk result (self.new ≡ changed_by place act.now self.old) }
    {
        match act {
            Act::Pass => Ok(()),
            Act::Send { q, sync, message } => {
                self.start(*q, place, Standing::Send { sync: *sync })?;
                self.outgoing.push(*message)?;
                Ok(())
            }
            Act::Post { q, pattern, cap } => self.start(
                *q,
                place,
                Standing::Open {
                    pattern: *pattern,
                    cap: *cap,
                },
            ),
            Act::End { q } => {
                end_request(&mut self.requests, *q);
                Ok(())
            }
            Act::Mark {
                place: of,
                standing,
            } => self.mark(alloc, *of, *standing),
            Act::Claim { m, message } => {
                self.claims.push(Claim {
                    m: *m,
                    message: *message,
                })?;
                Ok(())
            }
            Act::Receive { q, m, cap, message } => {
                end_handle(&mut self.claims, *m);
                self.start(
                    *q,
                    place,
                    Standing::Taken {
                        cap: *cap,
                        message: *message,
                    },
                )
            }
        }
    }

    /// Runs the line at a place. The next one is one of those from another place on.
    pub fn run(&mut self, alloc: Global, place: usize, next: usize, act: &Act) -> Result<(), Memory>
        ensures { OnOk result (self.new ≡ ran_at place next act.now self.old) }
    {
        self.change(alloc, place, act)?;
        self.at = next;
        Ok(())
    }
}

/// Leaves all but the message of a line.
fn keep_others(messages: &mut Vec<Message>, place: usize)
    ensures { messages.new.items ≡ filter (λ m. not (m.place == place)) messages.old.items }
{
    messages.retain(|m| !(m.place == place));
}

/// Leaves all but the request of a name.
fn end_request(requests: &mut Vec<Request>, q: u16)
    ensures { requests.new.items ≡ filter (λ r. not (r.q == q)) requests.old.items }
{
    requests.retain(|r| !(r.q == q));
}

/// Leaves all but the handle of a name.
fn end_handle(claims: &mut Vec<Claim>, m: u16)
    ensures { claims.new.items ≡ filter (λ c. not (c.m == m)) claims.old.items }
{
    claims.retain(|c| !(c.m == m));
}
