//! Numbers that came before their time.

ghost use Rattle.std.specs.Prelude.{◌≡◌, ◌==◌, ◌||◌, ◌%◌, ℕ, ◌<◌, [], if◌then◌else◌, None, Some, nat_eq};
ghost use Rattle.std.specs.Prelude.{IfOk, OnOk};
ghost use Rattle.std.specs.Int.{bit_at};
ghost use Rattle.std.specs.Map.{lookup};
ghost use Rattle.indexmap.specs.IndexMap.{spare as room_in};
ghost use Rattle.nm_receiving.specs.StreamViews.{bits_in, stands};

use indexmap::IndexMap;
use nm_types::Memory;
use std::alloc::Global;
use std::marker::Model;

/// Numbers by blocks of 64. Memory holds the blocks in which some stand, each as the bits of one number.
pub struct Apart {
    // made for the first of them
    blocks: Option<Box<IndexMap<u64, u64>>>,
    alloc: Global,
}

impl Drop for Apart {
    fn drop(self) {
        let Apart {
            blocks: _,
            alloc: _,
        } = self;
    }
}

impl Model for Apart {
    ghost use Rattle.std.specs.Prelude.{[]};
    ghost use Rattle.std.specs.Option.{option_map_or};
    ghost use Rattle.indexmap.specs.IndexMap.{spare as room_in};
    ghost use Rattle.nm_receiving.specs.StreamViews.{Blocks};

    ghost Value = { Blocks };

    ghost view = { λ a.
        record {
          blocks = option_map_or (λ b. b.value.entries) a.blocks [];
          spare = option_map_or (λ b. room_in b.value) a.blocks 0;
        } };
}

/// A map without blocks, with room for one.
fn new_blocks(alloc: Global) -> Result<Box<IndexMap<u64, u64>>, Memory>
    ensures empty { IfOk result (λ b. b.value.entries ≡ []) }
    ensures room { IfOk result (λ b. 0 < room_in b.value) }
{
    let mut blocks = IndexMap::new(alloc);
    blocks.reserve(1)?;
    Ok(Box::new(alloc, blocks)?)
}

/// Makes room for one block more.
fn make_room(blocks: &mut IndexMap<u64, u64>) -> Result<(), Memory>
    ensures same { blocks.new.entries ≡ blocks.old.entries }
    ensures room { OnOk result (0 < room_in blocks.new) }
{
    blocks.reserve(1)?;
    Ok(())
}

/// The bits of a block.
fn bits_of(blocks: &IndexMap<u64, u64>, block: u64) -> u64
    ensures { result ≡ bits_in blocks.now.entries block }
{
    match blocks.get(&block) {
        Some(bits) => *bits,
        None => 0,
    }
}

/// Whether the bit of a number is set in those of its block.
fn is_set(bits: u64, n: u64) -> bool
    ensures { result ≡ (bit_at bits (n % 64) == 1) }
{
    bits >> (n % 64) & 1 == 1
}

/// The bits of a block with that of a number.
fn with_bit(bits: u64, n: u64) -> u64
    ensures { (k : ℕ) → (bit_at result k == 1) ≡ (bit_at bits k == 1 || n % 64 == k) }
{
    bits | 1 << (n % 64)
}

/// Gives a block its bits. There is room for it.
fn put(blocks: &mut IndexMap<u64, u64>, block: u64, bits: u64)
    requires { 0 < room_in blocks.old }
    ensures { (q : ℕ) → lookup (nat_eq q) blocks.new.entries
        ≡ (if nat_eq block q then Some bits else lookup (nat_eq q) blocks.old.entries) }
{
    let _before = blocks.insert(block, bits).unwrap();
}

/// Lets go a block.
fn forget(blocks: &mut IndexMap<u64, u64>, block: u64)
    ensures { (q : ℕ) → lookup (nat_eq q) blocks.new.entries
        ≡ (if nat_eq block q then None else lookup (nat_eq q) blocks.old.entries) }
{
    let _before = blocks.swap_remove(&block);
}

/// Puts a number into its block. There is room for that.
fn insert(blocks: &mut IndexMap<u64, u64>, n: u64)
    requires { 0 < room_in blocks.old }
    ensures { (m : ℕ) → stands blocks.new.entries m ≡ (stands blocks.old.entries m || n == m) }
{
    let bits = with_bit(bits_of(blocks, n / 64), n);
    put(blocks, n / 64, bits);
}

/// Whether a number is the last one of its block.
fn is_last(n: u64) -> bool
    ensures { result ≡ (n % 64 == 63) }
{
    n % 64 == 63
}

/// Lets go the block of a number, where that is its last one.
fn pass(blocks: &mut IndexMap<u64, u64>, n: u64)
    ensures { (m : ℕ) → n < m → stands blocks.new.entries m ≡ stands blocks.old.entries m }
{
    if is_last(n) {
        forget(blocks, n / 64);
    }
}

impl Apart {
    /// No numbers.
    pub fn new(alloc: Global) -> Self
        ensures { result.blocks ≡ [] }
    {
        Apart {
            blocks: None,
            alloc,
        }
    }

    /// Whether the number is among them.
    pub fn has(&self, n: u64) -> bool
        ensures { result ≡ stands self.now.blocks n }
    {
        match &self.blocks {
            Some(blocks) => is_set(bits_of(blocks, n / 64), n),
            None => false,
        }
    }

    /// Makes room for one more.
    #[inline(always)]
    pub fn reserve(&mut self) -> Result<(), Memory>
        ensures room { OnOk result (0 < self.new.spare) }
        ensures same { self.new.blocks ≡ self.old.blocks }
    {
        match &mut self.blocks {
            Some(blocks) => make_room(blocks)?,
            None => self.blocks = Some(new_blocks(self.alloc)?),
        }
        Ok(())
    }

    /// Puts one among them.
    #[inline(always)]
    pub fn add(&mut self, n: u64)
        requires { 0 < self.old.spare }
        ensures { (m : ℕ) → stands self.new.blocks m ≡ (stands self.old.blocks m || n == m) }
    {
        if let Some(blocks) = &mut self.blocks {
            insert(blocks, n);
        }
    }

    /// Lets go a block of which no number is above this one, if that is its last.
    #[inline(always)]
    pub fn pass(&mut self, n: u64)
        ensures { (m : ℕ) → n < m → stands self.new.blocks m ≡ stands self.old.blocks m }
    {
        if let Some(blocks) = &mut self.blocks {
            pass(blocks, n);
        }
    }
}
