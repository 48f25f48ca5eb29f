//! One message that was granted.

ghost use Rattle.std.specs.Prelude.{◌≡◌, true, Some, OnOk, OnErr};
ghost use Rattle.nm_rndv.specs.Grants.{fresh, came as came_lem, due_of, is_open as is_open_lem};
ghost use Rattle.nm_rndv.specs.Grants.{is_whole as is_whole_lem, has_bytes, with_more, without_bytes};

use nm_types::{Bytes, Memory};
use std::alloc::Global;
use std::marker::Model;

/// A message that its sender was cleared to send. The bytes are gone once they were taken.
#[derive(Drop)]
pub struct Grant {
    len: u32,
    bytes: Option<Vec<u8>>,
}

impl Model for Grant {
    ghost use Rattle.std.specs.Option.{option_map};
    ghost use Rattle.nm_rndv.specs.Grants.{Granted};

    ghost Value = { Granted };

    ghost view = { λ g. record { len = g.len; bytes = option_map (λ v. v.items) g.bytes } };
}

impl Grant {
    /// A grant of a message with this length. Nothing of it came yet.
    pub fn new(alloc: Global, len: u32) -> Self
        ensures { result ≡ fresh len }
    {
        Grant {
            len,
            bytes: Some(Vec::new(alloc)),
        }
    }

    /// Whether bytes of the message are still to come.
    pub fn is_open(&self) -> bool
        ensures { result ≡ is_open_lem self.now }
    {
        match &self.bytes {
            Some(bytes) => bytes.len() < self.len as usize,
            None => false,
        }
    }

    /// Whether the message is whole and its bytes are still here.
    pub fn is_whole(&self) -> bool
        ensures { result ≡ is_whole_lem self.now }
    {
        match &self.bytes {
            Some(bytes) => bytes.len() == self.len as usize,
            None => false,
        }
    }

    /// How many bytes came.
    pub fn came(&self) -> u32
        requires { is_open_lem self.now ≡ true }
        ensures { result ≡ came_lem self.now }
    {
        let len = self.len as usize;
        match &self.bytes {
            Some(bytes) => bytes.len().min(len) as u32,
            None => 0,
        }
    }

    /// How many bytes are still to come.
    pub fn due(&self) -> u32
        requires { is_open_lem self.now ≡ true }
        ensures { result ≡ due_of self.now }
    {
        self.len - self.came()
    }

    /// Puts bytes behind those that came, in memory for the whole message, which the first of them take.
    pub fn add(&mut self, more: &[u8]) -> Result<(), Memory>
        ensures ok { OnOk result (self.new ≡ with_more self.old more.now) }
        ensures err { OnErr result (self.new ≡ self.old) }
        ensures kept { has_bytes self.new ≡ has_bytes self.old }
    {
        let len = self.len as usize;
        if let Some(bytes) = &mut self.bytes {
            bytes.reserve_exact(len.saturating_sub(bytes.len()))?;
            bytes.extend_from_slice(more)?;
        }
        Ok(())
    }

    /// The bytes of the whole message.
    pub fn take(&mut self) -> Bytes
        requires { is_whole_lem self.old ≡ true }
        ensures bytes { self.old.bytes ≡ Some result }
        ensures gone { self.new ≡ without_bytes self.old }
    {
        Bytes::from_vec(self.bytes.take().unwrap())
    }
}
