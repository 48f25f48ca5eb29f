//! A text that goes from one rank to another, a byte in each parcel.

ghost use Rattle.std.specs.Prelude.{◌≡◌, ℕ, ◌<◌, List, [], IfOk, OnOk};
ghost use Rattle.nm_cells.specs.Ports.{Owns, IsNew, knows};
ghost use Rattle.nm_port.specs.Polls.{HoldsTheRest};
ghost use Rattle.uses.specs.Crossings.{IsFront, Sends, Takes};

use crate::fabrics::two_ranks;
use crate::letters::Letter;
use crate::port::sending::send_next;
use crate::port::taking::take_next;
use nm_chain::seats::Steps;
use nm_port::carried::laws::{a_close_carries, a_new_port_carries_nothing};
use nm_port::{Fabric, Port};
use nm_types::Memory;
use std::alloc::Global;
use std::marker::Brand;
use std::sync::ledger::{Blank, Ledger};

// No step: at the start nothing was sent and nothing was taken.
fn nothing_yet(f: &Fabric<Letter>, a: &Port<Letter>, b: &Port<Letter>, came: &Vec<u8>)
    requires first { IsNew f.now a.now 0 }
    requires second { IsNew f.now b.now 1 × (came.now.items ≡ []) }
    ensures sends { (text : List ℕ) → Sends (knows a.now) 1 text }
    ensures rest { HoldsTheRest b.now }
    ensures takes { Takes b.now 0 came.now.items }
{
    a_new_port_carries_nothing::<Letter, u64>();
}

// In so many turns as the text has bytes, rank 0 sends the next byte, and rank 1 takes what came.
fn take_turns<L: Ledger>(
    f: &Fabric<Letter>,
    a: &mut Port<Letter>,
    b: &mut Port<Letter>,
    alloc: Global,
    text: &[u8],
    came: &mut Vec<u8>,
    blank: Blank,
) -> Result<(), Memory>
    requires blank { (blank.name ≡ L.name) × (blank.parts ≡ L.parts) × (0 < L.parts) }
    requires two { f.now.ranks ≡ 2 }
    requires first { Owns f.now a.old × (a.old.rank ≡ 0) × (a.old.hands ≡ 0) }
    requires second { Owns f.now b.old × (b.old.rank ≡ 1) × (b.old.hands ≡ 0) }
    requires sends { Sends (knows a.old) 1 text.now }
    requires rest { HoldsTheRest b.old }
    requires takes { Takes b.old 0 came.old.items }
    ensures first { Owns f.now a.new × (a.new.rank ≡ 0) × (a.new.hands ≡ 0) }
    ensures second { Owns f.now b.new × (b.new.rank ≡ 1) × (b.new.hands ≡ 0) }
    ensures sends { Sends (knows a.new) 1 text.now }
    ensures takes { OnOk result (Takes b.new 0 came.new.items) }
{
    let mut steps = Steps::<L>::new(blank);
    for _turn in 0..text.len() {
        send_next(f, a, alloc, text, &mut steps)?;
        take_next(f, b, came, &mut steps)?;
    }
    Ok(())
}

// Closes the fabric: the bytes that the second port took are a front of those that the first one sent.
fn close_both(
    alloc: Global,
    fabric: Fabric<Letter>,
    a: Port<Letter>,
    b: Port<Letter>,
) -> Result<(), Memory>
    requires two { fabric.ranks ≡ 2 }
    requires first { Owns fabric a × (a.rank ≡ 0) × (a.hands ≡ 0) }
    requires second { Owns fabric b × (b.rank ≡ 1) × (b.hands ≡ 0) }
    ensures { OnOk result ((text bytes : List ℕ) → Sends (knows a) 1 text → Takes b 0 bytes
        → IsFront bytes text) }
{
    let mut ports = Vec::new(alloc);
    ports.push(a)?;
    ports.push(b)?;
    // no step: the law of a port at its end
    a_close_carries::<Letter, u64>();
    let _ = fabric.close(ports);
    Ok(())
}

/// What came of a text that rank 0 sent to rank 1, a byte in each parcel: a front of it.
pub fn cross(alloc: Global, text: &[u8]) -> Result<Vec<u8>, Memory>
    ensures { IfOk result (λ came. IsFront came.items text.now) }
{
    let (fabric, mut a, mut b) = two_ranks(alloc)?;
    let mut came = Vec::new(alloc);
    nothing_yet(&fabric, &a, &b, &came);
    take_turns::<Brand>(
        &fabric,
        &mut a,
        &mut b,
        alloc,
        text,
        &mut came,
        Blank::new(1),
    )?;
    close_both(alloc, fabric, a, b)?;
    Ok(came)
}
