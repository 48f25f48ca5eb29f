ghost use Rattle.nm_types.specs.declared.packets.Packet.{Packet};
ghost use Rattle.std.specs.Prelude.{◌≡◌, ◌<◌, ℕ, Some, length, slice_get};
ghost use Rattle.std.specs.List.{All};
ghost use Rattle.nm_copyring.specs.declared.port.RingPort.{RingPort};
ghost use Rattle.nm_cells.specs.declared.port.Port.{Port};
ghost use Rattle.nm_cells.specs.Ports.{IsNew};
ghost use Rattle.nm_copyring.specs.Ports as ring_port;
ghost use Rattle.nm_types.specs.Limits.{IsScript};
ghost use Rattle.nm_process.specs.Lines.{AreLines};
ghost use Rattle.nm_process.specs.Places.{gives_lines, shown};
ghost use Rattle.nm_world.specs.Players.{BeginsAt, PlayerInvariant};

use nm_chain::seats::Steps;
use nm_copyring::{RingPort, Rings};
use nm_history::{Event, Happened, History};
use nm_outside::OpenGate;
use nm_port::{Fabric, Port};
use nm_process::scripted::Scripted;
use nm_types::{Answer, Line, Memory, Packet, Script, Seen, Shape};
use nm_world::{Player, scripts_by_rank};
use std::alloc::{AllocError, Global};
use std::marker::Brand;
use std::sync::ledger::{Blank, Ledger};
use std::test::Fail;

// Whether each turn of a sender and of a receiver moved something, and the receiver's probe saw the message
// that was sent last.
#[derive(Clone, Copy)]
struct Turns {
    sent: bool,
    received: bool,
    seen: bool,
}

// The two elements of a list.
fn both<T: Drop>(mut list: Vec<T>) -> (T, T)
    requires { length list.items ≡ 2 }
    ensures first { slice_get list.items 0 ≡ Some result.0 }
    ensures second { slice_get list.items 1 ≡ Some result.1 }
{
    let second = list.remove(1);
    let first = list.remove(0);
    (first, second)
}

// So many turns of a player. The answer is whether each of them moved something.
fn make_turns<L: Ledger>(
    player: &mut Player<Scripted<'_>>,
    f: &Fabric<Packet>,
    r: &Rings,
    count: u8,
    blank: Blank,
) -> Result<bool, Memory>
    requires blank { (blank.name ≡ L.name) × (blank.parts ≡ L.parts) × (0 < L.parts) }
    requires stands { PlayerInvariant shown gives_lines f.now r.now player.old }
{
    let mut steps = Steps::<L>::new(blank);
    let mut moved = true;
    for _turn in 0..count {
        moved = player.turn(f, r, &OpenGate, &mut steps)? && moved;
    }
    Ok(moved)
}

// Whether the last that happened is that the probe saw the last of 65 messages.
fn saw_the_last(history: &History) -> bool {
    match history.get(history.len().saturating_sub(1)) {
        Some(
            Event {
                what: Happened::Ran {
                    line: 67,
                    answer: Answer::Seen(
                        Seen {
                            from: 0,
                            tag: 64,
                            len: 1,
                        },
                    ),
                },
                ..
            },
        ) => true,
        _ => false,
    }
}

// So many turns of a player at these ports. The answer is whether each of them moved something, and
// whether its probe saw the last message.
fn player_at(
    alloc: Global,
    shape: Shape,
    f: &Fabric<Packet>,
    r: &Rings,
    port: Port<Packet>,
    ring: RingPort,
    script: Scripted<'_>,
    count: u8,
) -> Result<(bool, bool), Memory>
    requires script { BeginsAt shown gives_lines shape.ranks script }
    requires ranks { (f.now.ranks ≡ shape.ranks) × (r.now.ranks ≡ shape.ranks) }
    requires new { IsNew f.now port port.rank × ring_port.IsNew r.now ring port.rank }
    requires in_range { port.rank < shape.ranks }
{
    let mut player = Player::new(alloc, shape, port, ring, script)?;
    let moved = make_turns::<Brand>(&mut player, f, r, count, Blank::new(1))?;
    Ok((moved, saw_the_last(player.history())))
}

// The turns of both ranks at these ports. In three the sender runs 64 commands, sends 64 packets and runs the last
// command, and sends the last packet; in one the receiver takes 64 packets, and polls once more before its probe.
fn turns_at(
    alloc: Global,
    shape: Shape,
    f: &Fabric<Packet>,
    r: &Rings,
    ports: Vec<Port<Packet>>,
    rings: Vec<RingPort>,
    scripts: Vec<Scripted<'_>>,
) -> Result<Turns, Memory>
    requires ranks { (f.now.ranks ≡ shape.ranks) × (r.now.ranks ≡ shape.ranks) }
    requires two { shape.ranks ≡ 2 }
    requires count { (length ports.items ≡ 2) × (length rings.items ≡ 2)
        × (length scripts.items ≡ 2) }
    requires scripts { All (BeginsAt shown gives_lines shape.ranks) scripts.items }
    requires ports { (k : ℕ) (p : Port Packet) → slice_get ports.items k ≡ Some p → IsNew f.now p k }
    requires rings { (k : ℕ) (p : RingPort) →
        slice_get rings.items k ≡ Some p → ring_port.IsNew r.now p k }
{
    let (port, other_port) = both(ports);
    let (ring, other_ring) = both(rings);
    let (script, other_script) = both(scripts);
    let first = player_at(alloc, shape, f, r, port, ring, script, 3);
    let second = player_at(alloc, shape, f, r, other_port, other_ring, other_script, 1);
    let (sent, _) = first?;
    let (received, seen) = second?;
    Ok(Turns {
        sent,
        received,
        seen,
    })
}

// The turns of both ranks in this fabric, with rings of their own.
fn turns_in(
    alloc: Global,
    shape: Shape,
    f: &Fabric<Packet>,
    ports: Vec<Port<Packet>>,
    scripts: Vec<Scripted<'_>>,
) -> Result<Turns, Memory>
    requires ranks { f.now.ranks ≡ shape.ranks }
    requires two { shape.ranks ≡ 2 }
    requires count { (length ports.items ≡ 2) × (length scripts.items ≡ 2) }
    requires scripts { All (BeginsAt shown gives_lines shape.ranks) scripts.items }
    requires ports { (k : ℕ) (p : Port Packet) → slice_get ports.items k ≡ Some p → IsNew f.now p k }
{
    let (rings, ring_ports) = Rings::build(alloc, shape)?;
    turns_at(alloc, shape, f, &rings, ports, ring_ports, scripts)
}

// The turns of two ranks with 64 cells each, and an eager limit of 1,024 bytes.
fn turns_of(alloc: Global, lines: &[Line]) -> Result<Turns, Memory>
    requires lines { AreLines 2 lines.now }
    requires script { IsScript 2 lines.now }
{
    let shape = Shape::new(2, 64, 1024).unwrap();
    let scripts = scripts_by_rank(alloc, 2, lines)?;
    let (fabric, ports) = Fabric::<Packet>::build(alloc, shape)?;
    turns_in(alloc, shape, &fabric, ports, scripts)
}

// A text of 65 sends of rank 0, and one probe of rank 1 for the last of them.
fn text_of_sends(alloc: Global) -> Result<String, AllocError> {
    let mut text = String::from_str(alloc, "ranks 2\n")?;
    for k in 0..65 {
        let line = format!(in alloc; "0: isend {k} 1 {k} 0 g1\n")?;
        text.push_str(&line)?;
    }
    text.push_str("1: probe 0 64 0\n")?;
    Ok(text)
}

// Its script.
fn script_of_sends(alloc: Global) -> Result<Script, Fail> {
    let text = text_of_sends(alloc)?;
    let script = nm_script::read(alloc, text.as_bytes())?;
    Ok(script)
}

// The turns of the ranks of a script of two.
fn turns_on(alloc: Global, script: &Script) -> Result<Turns, Memory>
    requires { script.now.ranks ≡ 2 }
{
    turns_of(alloc, script.lines.as_slice())
}

#[test]
fn a_probe_sees_the_packet_that_came_last(rt: HostRuntime) -> Result<(), Fail> {
    let script = script_of_sends(rt.alloc())?;
    assert!(rt; script.ranks == 2);
    let turns = turns_on(rt.alloc(), &script)?;
    assert!(rt; turns.sent, "a turn of the sender moved nothing");
    assert!(rt; turns.received, "the receiver moved nothing");
    assert!(rt; turns.seen, "the probe saw another message, or none");
    Ok(())
}
