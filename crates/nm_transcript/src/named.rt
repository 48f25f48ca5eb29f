//! The calls of a rank that its events name.

ghost use Rattle.std.specs.Prelude.{◌≡◌, IfOk, length};

use crate::calls::Calls;
use crate::last_calls::{Call, LastCalls};
use crate::renumbered::line_of;
use nm_report::RankAccount;
use nm_types::{Command, Memory};
use std::alloc::Global;
use std::collections::VecDeque;

/// Calls, and the lines that they have where the k-th call that their rank made, from 0, has line k + 2.
#[derive(Drop)]
pub struct NamedCalls {
    pub calls: Calls,
    pub lines: Vec<u64>,
}

/// The lines that the events of a rank name, and that in which it waits, in order.
pub fn lines_named(alloc: Global, account: &RankAccount) -> Result<Vec<u64>, Memory> {
    let mut lines = Vec::new(alloc);
    for event in account.history.as_slice() {
        if let Some(line) = line_of(&event.what) {
            lines.push(line)?;
        }
    }
    if let Some(line) = account.waits {
        lines.push(line)?;
    }
    lines.sort_unstable();
    Ok(lines)
}

// Puts a call with its line behind the others.
fn add(chosen: &mut NamedCalls, command: Command, line: u64) -> Result<(), Memory>
    requires { length chosen.old.calls ≡ length chosen.old.lines.items }
    ensures { IfOk result (λ _. length chosen.new.calls ≡ length chosen.new.lines.items) }
{
    chosen.calls.push(command)?;
    chosen.lines.push(line)?;
    Ok(())
}

// Puts a call behind the others, if one of these lines is its.
fn put(chosen: &mut NamedCalls, call: Call, named: &[u64]) -> Result<(), Memory>
    requires { length chosen.old.calls ≡ length chosen.old.lines.items }
    ensures { IfOk result (λ _. length chosen.new.calls ≡ length chosen.new.lines.items) }
{
    let line = call.number.saturating_add(2);
    match named.binary_search(&line) {
        Ok(_) => add(chosen, call.command, line),
        Err(_) => Ok(()),
    }
}

// So it is with each of these calls.
fn put_all(chosen: &mut NamedCalls, calls: VecDeque<Call>, named: &[u64]) -> Result<(), Memory>
    requires { length chosen.old.calls ≡ length chosen.old.lines.items }
    ensures { IfOk result (λ _. length chosen.new.calls ≡ length chosen.new.lines.items) }
{
    for call in calls.into_vec() {
        put(chosen, call, named)?;
    }
    Ok(())
}

/// Those of a rank's calls whose lines are among these, which are in order.
pub fn named_calls(alloc: Global, calls: LastCalls, named: &[u64]) -> Result<NamedCalls, Memory>
    ensures { IfOk result (λ x. length x.calls ≡ length x.lines.items) }
{
    let mut chosen = NamedCalls {
        calls: Calls::new(alloc),
        lines: Vec::new(alloc),
    };
    let (starts, last) = calls.into_parts();
    put_all(&mut chosen, starts, named)?;
    put_all(&mut chosen, last, named)?;
    Ok(chosen)
}
