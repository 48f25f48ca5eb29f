//! The script of a flood.

ghost use Rattle.std.specs.Prelude.{◌≡◌, ◌≤◌, ◌++◌, IfOk, OnOk, map, reverse};
ghost use Rattle.std.specs.List.{range_with_len};
ghost use Rattle.nm_script.specs.FloodScripts as spec;
ghost use Rattle.nm_script.specs.FloodScripts.{flood_lines};

use crate::flood::messages::{receive_line, receiver_waits, send_line, sender_waits};
use crate::flood::ways::Way;
use nm_types::{Line, Lines, Memory, Script};
use std::alloc::Global;

/// Puts the sends of all messages.
fn push_sends(lines: &mut Vec<Line>, key: u16, ranks: u8, messages: u16) -> Result<(), Memory>
    requires { 1 ≤ ranks }
    ensures { OnOk result (lines.new.items
        ≡ lines.old.items ++ map (spec.send_line key ranks) (range_with_len 0 messages)) }
{
    let mut way = Way::of(key, ranks, 0);
    for k in 0..messages {
        lines.push(send_line(way, key, k))?;
        way = way.next(ranks);
    }
    Ok(())
}

/// Puts the receives of all messages, the last one first.
fn push_receives(lines: &mut Vec<Line>, key: u16, ranks: u8, messages: u16) -> Result<(), Memory>
    requires ranks { 1 ≤ ranks }
    requires messages { messages ≤ 16000 }
    ensures { OnOk result (lines.new.items
        ≡ lines.old.items
        ++ map (spec.receive_line key ranks) (reverse (range_with_len 0 messages))) }
{
    let mut way = Way::of(key, ranks, messages);
    for k in (0..messages).rev() {
        way = way.before(ranks);
        lines.push(receive_line(way, k))?;
    }
    Ok(())
}

/// Puts the waits for all sends.
fn push_sender_waits(
    lines: &mut Vec<Line>,
    key: u16,
    ranks: u8,
    messages: u16,
) -> Result<(), Memory>
    requires { 1 ≤ ranks }
    ensures { OnOk result (lines.new.items
        ≡ lines.old.items ++ map (spec.sender_waits ranks) (range_with_len 0 messages)) }
{
    let mut way = Way::of(key, ranks, 0);
    for k in 0..messages {
        lines.push(sender_waits(way, k))?;
        way = way.next(ranks);
    }
    Ok(())
}

/// Puts the waits for all receives.
fn push_receiver_waits(
    lines: &mut Vec<Line>,
    key: u16,
    ranks: u8,
    messages: u16,
) -> Result<(), Memory>
    requires ranks { 1 ≤ ranks }
    requires messages { messages ≤ 16000 }
    ensures { OnOk result (lines.new.items
        ≡ lines.old.items ++ map (spec.receiver_waits key ranks) (range_with_len 0 messages)) }
{
    let mut way = Way::of(key, ranks, 0);
    for k in 0..messages {
        lines.push(receiver_waits(way, k))?;
        way = way.next(ranks);
    }
    Ok(())
}

/// The script of a flood of so many messages among so many ranks.
///
/// It has `4 * messages` lines behind the line of the ranks. Its messages differ with the key.
/// It answers `Memory` only for want of memory.
pub fn flood_script(alloc: Global, key: u16, ranks: u8, messages: u16) -> Result<Script, Memory>
    requires some_rank { 1 ≤ ranks }
    requires few_ranks { ranks ≤ 64 }
    requires few_messages { messages ≤ 16000 }
    ensures ranks { IfOk result (λ script. script.ranks ≡ ranks) }
    ensures lines { IfOk result (λ script. script.lines ≡ flood_lines key ranks messages) }
{
    let mut lines = Vec::with_capacity(alloc, 4 * usize::from(messages))?;
    push_sends(&mut lines, key, ranks, messages)?;
    push_receives(&mut lines, key, ranks, messages)?;
    push_sender_waits(&mut lines, key, ranks, messages)?;
    push_receiver_waits(&mut lines, key, ranks, messages)?;
    Ok(Script {
        ranks,
        lines: Lines::from_vec(lines),
    })
}
