//! A text that goes from one rank to another, a byte in each cell.

ghost use Rattle.std.specs.Prelude.{◌≡◌, ℕ, ◌<◌, List, [], IfOk, OnOk};
ghost use Rattle.nm_cells.specs.Ports.{Owns, IsNew, knows};
ghost use Rattle.uses.specs.QueueCrossings.{Gets, IsFront, Puts};

use crate::fabrics::two_ranks;
use crate::letters::Letter;
use crate::queue::putting::put_next;
use crate::queue::taking::take_next;
use nm_cells::{Fabric, Port};
use nm_chain::seats::Steps;
use nm_types::Memory;
use std::alloc::Global;
use std::marker::Brand;
use std::sync::ledger::{Blank, Ledger};

// No step: at the start nothing was put and nothing was got.
fn nothing_yet(f: &Fabric<Letter>, a: &Port<Letter>, b: &Port<Letter>, came: &Vec<u8>)
    requires first { IsNew f.now a.now 0 }
    requires second { IsNew f.now b.now 1 × (came.now.items ≡ []) }
    ensures puts { (text : List ℕ) → Puts (knows a.now) text }
    ensures gets { Gets (knows b.now) came.now.items }
{}

// In so many turns as the text has bytes, rank 0 puts the next byte, and rank 1 takes what came.
fn take_turns<L: Ledger>(
    f: &Fabric<Letter>,
    a: &mut Port<Letter>,
    b: &mut Port<Letter>,
    alloc: Global,
    text: &[u8],
    came: &mut Vec<u8>,
    blank: Blank,
) -> Result<(), Memory>
    requires blank { (blank.name ≡ L.name) × (blank.parts ≡ L.parts) × (0 < L.parts) }
    requires two { f.now.ranks ≡ 2 }
    requires first { Owns f.now a.old × (a.old.rank ≡ 0) × (a.old.hands ≡ 0) }
    requires second { Owns f.now b.old × (b.old.rank ≡ 1) × (b.old.hands ≡ 0) }
    requires puts { Puts (knows a.old) text.now }
    requires gets { Gets (knows b.old) came.old.items }
    ensures first { Owns f.now a.new × (a.new.rank ≡ 0) × (a.new.hands ≡ 0) }
    ensures second { Owns f.now b.new × (b.new.rank ≡ 1) × (b.new.hands ≡ 0) }
    ensures puts { Puts (knows a.new) text.now }
    ensures gets { OnOk result (Gets (knows b.new) came.new.items) }
{
    let mut steps = Steps::<L>::new(blank);
    for _turn in 0..text.len() {
        put_next(f, a, alloc, text, &mut steps)?;
        take_next(f, b, came, &mut steps)?;
    }
    Ok(())
}

// Closes the fabric: the bytes that the second port got are a front of those that the first one put.
fn close_both(
    alloc: Global,
    fabric: Fabric<Letter>,
    a: Port<Letter>,
    b: Port<Letter>,
) -> Result<(), Memory>
    requires two { fabric.ranks ≡ 2 }
    requires first { Owns fabric a × (a.rank ≡ 0) × (a.hands ≡ 0) }
    requires second { Owns fabric b × (b.rank ≡ 1) × (b.hands ≡ 0) }
    ensures { OnOk result ((text bytes : List ℕ) → Puts (knows a) text → Gets (knows b) bytes
        → IsFront bytes text) }
{
    let mut ports = Vec::new(alloc);
    ports.push(a)?;
    ports.push(b)?;
    let _ = fabric.close(ports);
    Ok(())
}

/// What came of a text that rank 0 put into the queue of rank 1, a byte in each cell: a front of it.
pub fn cross(alloc: Global, text: &[u8]) -> Result<Vec<u8>, Memory>
    ensures { IfOk result (λ came. IsFront came.items text.now) }
{
    let (fabric, mut a, mut b) = two_ranks(alloc)?;
    let mut came = Vec::new(alloc);
    nothing_yet(&fabric, &a, &b, &came);
    take_turns::<Brand>(
        &fabric,
        &mut a,
        &mut b,
        alloc,
        text,
        &mut came,
        Blank::new(1),
    )?;
    close_both(alloc, fabric, a, b)?;
    Ok(came)
}
