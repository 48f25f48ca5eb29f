//! Lists of texts.

ghost use Rattle.std.specs.Prelude.{◌≡◌, ◌≤◌, ◌-◌, ◌↔◌, [], ◌∷◌, ◌++◌, IsTrue, OnOk, OnErr, length, map, sum_by};
ghost use Rattle.std.specs.Prelude.{Contains, IfOk, IfSome, None, Some, slice_get, vec_len};
ghost use Rattle.nm_outcomes.specs.Outcomes.{AreRising};
ghost use Rattle.nm_listed.specs.Texts.{SameTexts, bytes_of, total_length};

use nm_types::Memory;
use std::alloc::Global;
use std::marker::Model;

/// A list of texts.
pub struct Texts {
    items: Vec<Vec<u8>>,
}

impl Drop for Texts {
    fn drop(self) {
        let Texts { items: _ } = self;
    }
}

impl Model for Texts {
    ghost use Rattle.std.specs.Prelude.{List, ℕ, map};
    ghost use Rattle.nm_listed.specs.Texts.{bytes_of};

    ghost Value = { List (List ℕ) };

    ghost view = { λ a. map bytes_of a.items.items };
}

impl Texts {
    /// No text.
    pub fn new(alloc: Global) -> Self
        ensures { result ≡ [] }
    {
        Texts {
            items: Vec::new(alloc),
        }
    }

    /// Puts a text at the end.
    pub fn push(&mut self, text: Vec<u8>) -> Result<(), Memory>
        ensures ok { OnOk result (self.new ≡ self.old ++ text.items ∷ []) }
        ensures err { OnErr result (self.new ≡ self.old) }
    {
        self.items.push(text)?;
        Ok(())
    }

    /// The texts, in order.
    pub fn as_slice(&self) -> &[Vec<u8>]
        ensures { map bytes_of result.now ≡ self.now }
    {
        self.items.as_slice()
    }

    /// The number of a text, 1 for the first.
    pub(crate) fn number(&self, text: &[u8]) -> Option<usize>
        ensures some { IfSome result (λ number. (1 ≤ number)
            × (slice_get self.now (number - 1) ≡ Some text.now)) }
        ensures none { result ≡ None → ¬ (Contains self.now text.now) }
    {
        number_among(self.items.as_slice(), text)
    }

    /// A list of the same texts.
    pub(crate) fn copy(&self, alloc: Global) -> Result<Texts, Memory>
        ensures { IfOk result (λ texts. texts ≡ self.now) }
    {
        copied(alloc, self.items.as_slice())
    }

    /// Whether the texts together have at most so many bytes.
    pub fn is_within(&self, most: usize) -> bool
        ensures { IsTrue result ↔ (total_length self.now ≤ most) }
    {
        are_within(self.items.as_slice(), most)
    }

    /// Puts the texts in the order of a dictionary, each once.
    pub fn put_in_order(&mut self) -> Result<(), Memory>
        ensures rising { OnOk result (AreRising self.new) }
        ensures same { OnOk result (SameTexts self.old self.new) }
    {
        self.items.sort()?;
        self.items.dedup();
        Ok(())
    }
}

/// The number of a text among others, 1 for the first.
fn number_among(texts: &[Vec<u8>], text: &[u8]) -> Option<usize>
    ensures some { IfSome result (λ number. (1 ≤ number)
        × (slice_get (map bytes_of texts.now) (number - 1) ≡ Some text.now)) }
    ensures none { result ≡ None → ¬ (Contains (map bytes_of texts.now) text.now) }
{
    for (at, other) in texts.iter().enumerate() {
        if other.as_slice() == text {
            return Some(at + 1);
        }
    }
    None
}

/// A list of these texts.
fn copied(alloc: Global, texts: &[Vec<u8>]) -> Result<Texts, Memory>
    ensures { IfOk result (λ copy. copy ≡ map bytes_of texts.now) }
{
    let mut copy = Texts::new(alloc);
    for text in texts {
        copy.push(Vec::from_slice(alloc, text.as_slice())?)?;
    }
    Ok(copy)
}

/// Whether the texts together have at most so many bytes.
fn are_within(texts: &[Vec<u8>], most: usize) -> bool
    ensures { IsTrue result ↔ (sum_by (λ text. length (bytes_of text)) texts.now ≤ most) }
{
    let mut room = most;
    for text in texts {
        if text.len() > room {
            return false;
        }
        room -= text.len();
    }
    true
}
