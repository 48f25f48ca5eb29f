//! The sender's end.

ghost use Rattle.std.specs.Prelude.{◌≡◌, ◌+◌, ◌*◌, ◌<◌, ◌≤◌, length};
ghost use Rattle.nm_types.specs.declared.limits.TheConstants.{MAX_EAGER, MAX_PAYLOAD};
ghost use Rattle.nm_types.specs.Bodies.{bytes_of, body_len};
ghost use Rattle.nm_history.specs.Outgoing.{part_at};
ghost use Rattle.nm_eager.specs.Cutting.{next_what, packet_count};

use nm_types::ranges::part;
use nm_types::{Body, MAX_PAYLOAD, Packet, Payload, What, laws};
use std::marker::Model;

/// The sender's end of an eager message, which it cuts into packets.
#[derive(Drop)]
pub struct Cutter {
    n: u64,
    body: Body,
    given: u32,
    tag: u16,
    ctx: u8,
}

impl Model for Cutter {
    ghost use Rattle.std.specs.Prelude.{◌≡◌, ◌≤◌, length};
    ghost use Rattle.nm_types.specs.declared.limits.TheConstants.{MAX_EAGER};
    ghost use Rattle.nm_types.specs.Bodies.{bytes_of, body_len};
    ghost use Rattle.nm_eager.specs.Cutting.{Cutting};

    ghost Value = { Cutting };

    ghost view = { λ a. record {
      n = a.n;
      tag = a.tag;
      ctx = a.ctx;
      body = bytes_of a.body;
      given = a.given;
    } };

    ghost invariant = { λ a. (body_len a.body ≤ MAX_EAGER)
        × (length (bytes_of a.body) ≡ body_len a.body) × (a.given ≤ 16) };
}

impl Cutter {
    /// Cuts message n of a rank, of at most 4,096 bytes.
    pub fn new(n: u64, tag: u16, ctx: u8, body: Body) -> Self
        requires { body_len body ≤ MAX_EAGER }
        ensures { result ≡ record {
          n = n;
          tag = tag;
          ctx = ctx;
          body = bytes_of body;
          given = 0;
        } }
    {
        laws::bodies_have_their_length();
        Cutter {
            n,
            tag,
            ctx,
            body,
            given: 0,
        }
    }

    /// How many packets the message is cut into.
    pub fn count(&self) -> u32
        ensures { result ≡ packet_count self.now }
    {
        1 + self.body.len().saturating_sub(1) / MAX_PAYLOAD as u32
    }

    /// The number of the message.
    pub fn n(&self) -> u64
        ensures { result ≡ self.now.n }
    {
        self.n
    }

    /// Makes it the next packet, but for its sender, its number and its stamp. It takes no memory, and
    /// copies the packet's bytes once.
    pub fn fill(&self, into: &mut Packet)
        requires { self.now.given < packet_count self.now }
        ensures { into.new
            ≡ record into.old {
              what = next_what self.now;
              payload = part_at MAX_PAYLOAD self.now.body self.now.given;
            } }
    {
        into.what = self.next_what();
        self.fill_payload(&mut into.payload);
    }

    /// Counts the next packet as given: the one behind it is the next.
    pub fn step(&mut self)
        requires { self.old.given < packet_count self.old }
        ensures { self.new ≡ record self.old { given = self.old.given + 1 } }
    {
        self.given += 1;
    }

    /// Where in the body the next packet begins.
    fn start(&self) -> u32
        ensures { result ≡ MAX_PAYLOAD * self.now.given }
    {
        MAX_PAYLOAD as u32 * self.given
    }

    /// What the next packet is.
    fn next_what(&self) -> What
        ensures { result ≡ next_what self.now }
    {
        if self.given == 0 {
            What::Head {
                tag: self.tag,
                ctx: self.ctx,
                len: self.body.len(),
            }
        } else {
            What::More { n: self.n }
        }
    }

    /// Makes it the bytes of the next packet.
    fn fill_payload(&self, into: &mut Payload)
        requires { self.now.given < packet_count self.now }
        ensures { into.new ≡ part_at MAX_PAYLOAD self.now.body self.now.given }
    {
        let start = self.start();
        let size = (self.body.len() - start).min(MAX_PAYLOAD as u32) as usize;
        into.set(part(&self.body, start, size));
    }
}
