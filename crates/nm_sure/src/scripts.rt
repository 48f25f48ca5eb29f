//! Whether a script is plain.

ghost use Rattle.std.specs.Prelude.{◌≡◌, ◌↔◌, not, position, IsNone};
ghost use Rattle.nm_sure.specs.Plain as spec;
ghost use Rattle.nm_sure.specs.Agree.{ArePlain};

use nm_types::{Command, Line, Peer, Script, TagPick};

/// A send, a receive with a named source and a named tag, or a wait.
fn is_plain(command: &Command) -> bool
    ensures { result ≡ spec.is_plain command.now }
{
    match command {
        Command::Send { .. } | Command::Wait { .. } => true,
        Command::Recv { from, tag, .. } => matches!((from, tag), (Peer::One(_), TagPick::One(_))),
        _ => false,
    }
}

/// The place of the first line whose command is not plain.
fn first_place(lines: &[Line]) -> Option<usize>
    ensures { result ≡ position (λ line. not (spec.is_plain line.command)) lines.now }
{
    lines.iter().position(|line| !is_plain(&line.command))
}

/// The line of the first command that is not plain: a receive with a wildcard, a test, a probe, an
/// await, a cancel, a matched probe or a matched receive. `None` exactly where the script is plain.
pub fn first_free(script: &Script) -> Option<u32>
    ensures line { result ≡ spec.first_free script.now.lines }
    ensures none { IsNone result ↔ ArePlain script.now.lines }
{
    match first_place(script.lines.as_slice()) {
        Some(k) => Some(k as u32 + 2),
        None => None,
    }
}
