//! A message that comes in.

ghost use Rattle.std.specs.Prelude.{◌≡◌, ◌+◌, ◌≤◌, [], ◌++◌, length, vec_capacity};
ghost use Rattle.nm_eager.specs.Streams.{lacking};

use nm_types::Bytes;
use std::marker::Model;

/// An eager message that comes in. Its buffer has room for all its bytes from the start.
#[derive(Drop)]
pub struct Message {
    n: u64,
    len: u32,
    bytes: Vec<u8>,
}

impl Model for Message {
    ghost use Rattle.std.specs.Prelude.{◌≤◌, vec_len, vec_capacity};
    ghost use Rattle.nm_eager.specs.Streams.{Incoming};

    ghost Value = { Incoming };

    ghost view = { λ a. record { n = a.n; len = a.len; bytes = a.bytes.items } };

    ghost invariant = { λ a. (vec_len a.bytes ≤ a.len) × (a.len ≤ vec_capacity a.bytes) };
}

impl Message {
    /// Message n, of which nothing came yet.
    pub fn new(n: u64, len: u32, buffer: Vec<u8>) -> Self
        requires empty { buffer.items ≡ [] }
        requires room { len ≤ vec_capacity buffer }
        ensures { result ≡ record { n = n; len = len; bytes = [] } }
    {
        Message {
            n,
            len,
            bytes: buffer,
        }
    }

    /// The number of the message.
    pub fn n(&self) -> u64
        ensures { result ≡ self.now.n }
    {
        self.n
    }

    /// How many bytes are still to come.
    pub fn lacking(&self) -> u32
        ensures value { result ≡ lacking self.now }
        ensures sum { length self.now.bytes + result ≡ self.now.len }
    {
        self.len - self.bytes.len() as u32
    }

    /// Puts bytes behind those that came.
    #[inline(always)]
    pub fn extend(&mut self, bytes: &[u8])
        requires { length bytes.now ≤ lacking self.old }
        ensures { self.new ≡ record self.old { bytes = self.old.bytes ++ bytes.now } }
    {
        self.bytes.extend_from_slice(bytes).unwrap();
    }

    /// The bytes that came, by themselves.
    pub fn into_bytes(self) -> Bytes
        ensures { result ≡ self.bytes }
    {
        let Message { bytes, .. } = self;
        Bytes::from_vec(bytes)
    }
}
