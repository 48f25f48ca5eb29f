//! What the name of each command stands for.

ghost use Rattle.std.specs.Prelude.{◌≡◌, ℕ, ◌<◌, None, IfOk, OnOk, length, map, option_and_then};
ghost use Rattle.std.specs.List.{range_with_len};
ghost use Rattle.std.specs.HashMap.{get};
ghost use Rattle.nm_types.specs.declared.limits.TheConstants.{MAX_LINES};
ghost use Rattle.nm_sure.specs.declared.names.Name as key;
ghost use Rattle.nm_sure.specs.Held as spec;
ghost use Rattle.nm_sure.specs.Held.{held_at, name_by, same_name};

use nm_types::{Command, Line, Memory};
use std::alloc::Global;
use std::collections::HashMap;

/// A name of a rank.
#[derive(Clone, Copy, PartialEq, Eq, Hash)]
struct Name {
    rank: u8,
    q: u16,
}

/// The line of the start that each name stands for, where it stands for one.
type Names = HashMap<Name, u64>;

/// The name of a command.
fn name_of(command: &Command) -> Option<u16>
    ensures { result ≡ spec.name_of command.now }
{
    match command {
        Command::Send { q, .. } | Command::Recv { q, .. } | Command::Wait { q } => Some(*q),
        _ => None,
    }
}

/// The start that a command's name stands for.
fn held_by(names: &Names, line: &Line) -> Option<u64>
    ensures { result ≡ option_and_then (spec.held_in names.now line.now.rank)
        (spec.name_of line.now.command) }
{
    let q = name_of(&line.command)?;
    let rank = line.rank;
    names.get(&Name { rank, q }).copied()
}

/// A start under a name, which is taken where the name stands for none.
fn start(names: &mut Names, name: Name, number: u64) -> Result<(), Memory>
    ensures { OnOk result ((n : key.Name) → get same_name names.new n
        ≡ spec.held_after name number (get same_name names.old n) n) }
{
    if names.get(&name).is_none() {
        names.insert(name, number)?;
    }
    Ok(())
}

/// Notes what each name stands for after a line.
fn note(names: &mut Names, number: u64, line: &Line) -> Result<(), Memory>
    ensures { OnOk result ((n : key.Name) → get same_name names.new n
        ≡ name_by n (get same_name names.old n) number line.now) }
{
    let rank = line.rank;
    match &line.command {
        Command::Send { q, .. } | Command::Recv { q, .. } => {
            start(names, Name { rank, q: *q }, number)
        }
        Command::Wait { q } => {
            let _ = names.remove(&Name { rank, q: *q });
            Ok(())
        }
        _ => Ok(()),
    }
}

/// The line of the start that each line's name stands for, if it stands for one, by line.
pub(crate) fn all_held(alloc: Global, lines: &[Line]) -> Result<Vec<Option<u64>>, Memory>
    requires { length lines.now < MAX_LINES }
    ensures { IfOk result (λ held. held.items
        ≡ map (held_at lines.now) (range_with_len 0 (length lines.now))) }
{
    let mut names = HashMap::new(alloc);
    let mut held = Vec::new(alloc);
    for (k, line) in lines.iter().enumerate() {
        held.push(held_by(&names, line))?;
        note(&mut names, k as u64 + 2, line)?;
    }
    Ok(held)
}
