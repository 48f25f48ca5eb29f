//! The variants of a script, by number.

ghost use Rattle.std.specs.Prelude.{◌≡◌, ◌<◌, ◌≤◌, IfOk, IfSome, None, nat_le};
ghost use Rattle.nm_types.specs.Bodies.{body_len};
ghost use Rattle.nm_variants.specs.Variants.{line_by as line_by_lem, may_wait as may_wait_lem};
ghost use Rattle.nm_variants.specs.Variants.{number_behind as number_behind_lem, variant_of as variant_of_lem};
ghost use Rattle.nm_variants.specs.Variants.{variants, waiting as waiting_lem};

use nm_types::{Body, Command, Line, Memory};
use nm_why::changes::{Edit, edited};
use nm_why::parts::copy_line;
use std::alloc::Global;

/// Whether a body has at most so many bytes.
fn is_short(body: &Body, most: u16) -> bool
    ensures { result ≡ nat_le (body_len body.now) most }
{
    match body {
        Body::Hex(bytes) => bytes.len() <= usize::from(most),
        Body::Gen(len) => *len <= u32::from(most),
    }
}

/// Whether a command is a standard send of at most so many bytes.
fn may_wait(eager: u16, command: &Command) -> bool
    ensures { result ≡ may_wait_lem eager command.now }
{
    match command {
        Command::Send { sync, body, .. } => !*sync && is_short(body, eager),
        _ => false,
    }
}

/// How many variants a script has, unless they are more than so many.
pub(crate) fn count(lines: &[Line], eager: u16, most: u32) -> Option<u32>
    requires { 1 ≤ most }
    ensures some { IfSome result (λ count. (count ≡ variants eager lines.now) × (count ≤ most)) }
    ensures none { result ≡ None → most < variants eager lines.now }
{
    let mut count = 1;
    for line in lines {
        if may_wait(eager, &line.command) {
            if count > most / 2 {
                return None;
            }
            count *= 2;
        }
    }
    Some(count)
}

/// The line where its standard send waits.
fn waiting(line: &Line) -> Result<Line, Memory>
    ensures { IfOk result (λ other. other ≡ waiting_lem line.now) }
{
    match edited(&line.command, Edit::Synchronous)? {
        Some(command) => Ok(Line {
            rank: line.rank,
            command,
        }),
        None => copy_line(line),
    }
}

/// The line in the variant of which so much of the number is left.
fn line_by(eager: u16, number: u32, line: &Line) -> Result<Line, Memory>
    ensures { IfOk result (λ other. other ≡ line_by_lem eager number line.now) }
{
    if may_wait(eager, &line.command) && number % 2 == 1 {
        waiting(line)
    } else {
        copy_line(line)
    }
}

/// What is left of the number behind the line.
fn number_behind(eager: u16, number: u32, line: &Line) -> u32
    ensures { result ≡ number_behind_lem eager number line.now }
{
    if may_wait(eager, &line.command) {
        number / 2
    } else {
        number
    }
}

/// The variant with this number.
pub(crate) fn variant_of(
    alloc: Global,
    lines: &[Line],
    eager: u16,
    number: u32,
) -> Result<Vec<Line>, Memory>
    ensures { IfOk result (λ others. others.items ≡ variant_of_lem eager number lines.now) }
{
    let mut others = Vec::new(alloc);
    let mut left = number;
    for line in lines {
        others.push(line_by(eager, left, line)?)?;
        left = number_behind(eager, left, line);
    }
    Ok(others)
}
