//! Where the commands of each rank stand in a script.

ghost use Rattle.std.specs.Prelude.{◌≡◌, ◌<◌, [], IfOk, OnOk, length};
ghost use Rattle.nm_process.specs.Lines.{AreLines};
ghost use Rattle.nm_types.specs.Limits.{IsScript};
ghost use Rattle.nm_world.specs.ByRank.{AreByRank, AreScripts, Notes};

use crate::records::add;
use nm_process::scripted::Scripted;
use nm_types::{Line, Memory};
use std::alloc::Global;

// For each rank a list without a place, with room for so many.
fn no_places(alloc: Global, ranks: u8, room: usize) -> Result<Vec<Vec<u32>>, Memory>
    ensures places { IfOk result (λ all. AreByRank [] all.items) }
    ensures many { IfOk result (λ all. length all.items ≡ ranks) }
{
    let mut all = Vec::new(alloc);
    for _ in 0..ranks {
        add(&mut all, Vec::with_capacity(alloc, room)?)?;
    }
    Ok(all)
}

// Puts a place behind those of its rank.
fn note(all: &mut Vec<Vec<u32>>, rank: u8, place: u32) -> Result<(), Memory>
    requires { rank < length all.old.items }
    ensures { OnOk result (Notes rank place all.old.items all.new.items) }
{
    all[rank as usize].push(place)?;
    Ok(())
}

/// By rank, where the commands of each of so many ranks stand in a script, in order. The script is gone
/// through once for all of them. Each list has room for as many places as if all had the same.
pub fn places_by_rank(alloc: Global, ranks: u8, lines: &[Line]) -> Result<Vec<Vec<u32>>, Memory>
    requires script { IsScript ranks lines.now }
    ensures places { IfOk result (λ all. AreByRank lines.now all.items) }
    ensures many { IfOk result (λ all. length all.items ≡ ranks) }
{
    let mut all = no_places(alloc, ranks, lines.len() / usize::from(ranks))?;
    for (place, line) in lines.iter().enumerate() {
        note(&mut all, line.rank, place as u32)?;
    }
    Ok(all)
}

/// What gives each of so many ranks its commands in a script.
pub fn scripts_by_rank<'a>(
    alloc: Global,
    ranks: u8,
    lines: &'a [Line],
) -> Result<Vec<Scripted<'a>>, Memory>
    requires script { IsScript ranks lines.now }
    requires lines { AreLines ranks lines.now }
    ensures many { IfOk result (λ all. length all.items ≡ ranks) }
    ensures scripts { IfOk result (λ all. AreScripts ranks lines.now 0 all.items) }
{
    let mut scripts = Vec::new(alloc);
    for own in places_by_rank(alloc, ranks, lines)? {
        let me = scripts.len() as u8;
        add(&mut scripts, Scripted::new(me, ranks, lines, own))?;
    }
    Ok(scripts)
}
