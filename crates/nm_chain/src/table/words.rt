//! Where the words of a fabric stand.
//!
//! A fabric has at most 64 ranks, and fewer than 2^15 slots: one for each cell, then one for each
//! box. The heads of all queues come first, then their tails, then the links of all cells, and then
//! the flags of all boxes, the links and flags in the order of their slots.

ghost use Rattle.std.specs.Prelude.{◌≡◌, ◌*◌, ◌<◌, ◌≤◌, ◌^◌};
ghost use Rattle.nm_chain.specs.Rule.{flag_word, head_word, link_word, tail_word};

/// The word that is the head of a queue.
pub fn head_word(queue: u64) -> u64
    ensures { result ≡ head_word queue }
{
    queue
}

/// The word that is the tail of a queue, of a fabric of this many ranks.
pub fn tail_word(ranks: u64, queue: u64) -> u64
    requires { (ranks ≤ 64) × (queue < 2 * ranks) }
    ensures { result ≡ tail_word ranks queue }
{
    2 * ranks + queue
}

/// The word that is the link of a cell, of a fabric of this many ranks.
pub fn link_word(ranks: u64, cell: u64) -> u64
    requires { (ranks ≤ 64) × (cell < 2 ^ 15) }
    ensures { result ≡ link_word ranks cell }
{
    4 * ranks + cell
}

/// The word that is the flag of the box with this slot, of a fabric of this many ranks.
pub fn flag_word(ranks: u64, slot: u64) -> u64
    requires { (ranks ≤ 64) × (slot < 2 ^ 15) }
    ensures { result ≡ flag_word ranks slot }
{
    4 * ranks + slot
}
