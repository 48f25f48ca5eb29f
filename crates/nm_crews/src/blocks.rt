//! Memory asked for ahead, by large blocks.
//!
//! A block is asked for and given back at once. An allocator that has an arena for each thread then has as
//! much at the end of that of the thread that asked, and takes what comes from there, where it asked the
//! system for each page or two while the other threads wait for theirs. One that maps large requests by
//! themselves, and gives back what is free at the end of an arena, does so from then on only beyond the
//! size of the largest block that it took back (glibc does so: `mallopt(3)`, M_MMAP_THRESHOLD). Nothing is
//! kept, and where there is no such block, nothing is lost.
//!
//! A page of memory is there when it is first written to, which takes the system some microseconds. A crew
//! that has nothing to do writes to some, of a block that it gives back then, so that they are there when
//! something comes.

use nm_types::Memory;
use std::alloc::Global;

/// The block of a run, the largest, in bytes.
const RUN: usize = 4_194_304;

/// The block of a crew, in bytes.
const CREW: usize = 2_097_152;

/// The block for what comes to a rank, in bytes.
pub const RANK: usize = 1_048_576;

/// How many pages a crew that has nothing to do writes to.
pub const PAGES: usize = 32;

/// The bytes of a page.
const PAGE: usize = 4096;

// A block of so many bytes.
fn block(alloc: Global, bytes: usize) -> Result<Vec<u8>, Memory> {
    Ok(Vec::with_capacity(alloc, bytes)?)
}

/// Asks for the block of a run, once, before anything else of it is made.
pub fn ask_for_run(alloc: Global) {
    let _ = block(alloc, RUN);
}

/// Asks for the block of a crew, in the crew's own thread.
pub fn ask_for_crew(alloc: Global) {
    let _ = block(alloc, CREW);
}

/// Asks for the block of a rank, in the thread in which its turns are made.
pub fn ask_for_rank(alloc: Global) {
    let _ = block(alloc, RANK);
}

/// A block of so many pages, nothing of which is written.
pub fn pages_ahead(alloc: Global) -> Result<Vec<u8>, Memory> {
    block(alloc, PAGES * PAGE)
}

/// Writes to the pages of such a block up to this one, from 0.
pub fn write_up_to(block: &mut Vec<u8>, page: usize) {
    let _ = block.resize(page.saturating_add(1).saturating_mul(PAGE), 0);
}
