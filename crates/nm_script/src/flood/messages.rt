//! The messages of a flood, by their numbers, and their lines.

ghost use Rattle.std.specs.Prelude.{◌≡◌, ◌≤◌, ◌+◌, ℕ};
ghost use Rattle.nm_script.specs.FloodScripts as spec;

use crate::flood::ways::Way;
use nm_types::{Body, Command, Line, Peer, TagPick};

/// The tag of message k.
fn tag(k: u16) -> u16
    ensures { result ≡ spec.tag_of k }
{
    k % 1000
}

/// Its context.
fn context(k: u16) -> u8
    ensures { result ≡ spec.context_of k }
{
    (k % 3) as u8
}

/// The name of its receive.
fn receive_name(k: u16) -> u16
    requires { k ≤ 16384 }
    ensures { result ≡ 16384 + k }
{
    16384 + k
}

/// How many bytes it has.
fn length(key: u16, k: u16) -> u32
    ensures { result ≡ spec.length_of key k }
{
    (331 * u32::from(k) + 17 * u32::from(key)) % 2048
}

/// The line of a message's send.
pub(crate) fn send_line(way: Way, key: u16, k: u16) -> Line
    ensures { (ranks : ℕ) → way ≡ spec.way key ranks k → result ≡ spec.send_line key ranks k }
{
    let command = Command::Send {
        q: k,
        to: way.to,
        tag: tag(k),
        ctx: context(k),
        body: Body::Gen(length(key, k)),
        sync: k % 8 == 7,
    };
    Line {
        rank: way.from,
        command,
    }
}

/// The line of its receive.
pub(crate) fn receive_line(way: Way, k: u16) -> Line
    requires { k ≤ 16384 }
    ensures { (key ranks : ℕ) → way ≡ spec.way key ranks k
        → result ≡ spec.receive_line key ranks k }
{
    let command = Command::Recv {
        q: receive_name(k),
        from: Peer::One(way.from),
        tag: TagPick::One(tag(k)),
        ctx: context(k),
        cap: 2048,
    };
    Line {
        rank: way.to,
        command,
    }
}

/// The line in which its sender waits.
pub(crate) fn sender_waits(way: Way, k: u16) -> Line
    ensures { (key ranks : ℕ) → way ≡ spec.way key ranks k → result ≡ spec.sender_waits ranks k }
{
    Line {
        rank: way.from,
        command: Command::Wait { q: k },
    }
}

/// The line in which its receiver waits.
pub(crate) fn receiver_waits(way: Way, k: u16) -> Line
    requires { k ≤ 16384 }
    ensures { (key ranks : ℕ) → way ≡ spec.way key ranks k
        → result ≡ spec.receiver_waits key ranks k }
{
    Line {
        rank: way.to,
        command: Command::Wait { q: receive_name(k) },
    }
}
