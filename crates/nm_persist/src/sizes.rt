//! The size of a script, by running sums.

ghost use Rattle.std.specs.Prelude.{◌≡◌, ◌<◌, ◌≤◌, ◌^◌};
ghost use Rattle.nm_types.specs.declared.limits.TheConstants.{MAX_BODIES, MAX_LINES, MAX_TEXT};
ghost use Rattle.nm_types.specs.Limits.{sent_len as sent_len_lem};

use nm_script::command_len;
use nm_script::words::decimal_len;
use nm_types::{Command, Line, MAX_BODIES, MAX_LINES, MAX_TEXT};

/// How many lines a script has behind its first, and how many bytes its bodies and its text have.
#[derive(Clone, Copy)]
pub struct Size {
    pub lines: u32,
    pub bodies: u32,
    pub text: u32,
    ghost few_lines: { lines < MAX_LINES },
    ghost few_bodies: { bodies ≤ MAX_BODIES },
    ghost short: { text ≤ MAX_TEXT },
}

/// How many bytes a command sends.
fn sent_len(command: &Command) -> u32
    requires { sent_len_lem command.now < 2 ^ 32 }
    ensures { result ≡ sent_len_lem command.now }
{
    match command {
        Command::Send { body, .. } => body.len(),
        _ => 0,
    }
}

impl Size {
    ghost use Rattle.std.specs.Prelude.{ℕ, ◌++◌, [], List, MatchOption, true, false};
    ghost use Rattle.std.specs.List.{All};
    ghost use Rattle.nm_types.specs.declared.scripts.Line as line;
    ghost use Rattle.nm_persist.specs.Sizes.{IsGrown, IsSizeOf, is_past_with};
    ghost use Rattle.nm_persist.specs.Table.{fits};

    /// The size of a script without commands.
    pub fn of_ranks(ranks: u8) -> Size
        ensures { IsSizeOf result ranks [] }
    {
        Size {
            lines: 0,
            bodies: 0,
            text: 7 + decimal_len(u64::from(ranks)) as u32,
        }
    }

    /// The size with one line more, if it is within the limits.
    fn with_line(self, line: &Line) -> Option<Size>
        requires { sent_len_lem line.now.command < 2 ^ 32 }
        ensures { MatchOption result (is_past_with self line.now ≡ true)
            (λ size. IsGrown self line.now size) }
    {
        let lines = self.lines + 1;
        let bodies = u64::from(self.bodies) + u64::from(sent_len(&line.command));
        let text = u64::from(self.text).checked_add(command_len(line))?;
        if lines >= MAX_LINES || bodies > u64::from(MAX_BODIES) || text > u64::from(MAX_TEXT) {
            return None;
        }
        Some(Size {
            lines,
            bodies: bodies as u32,
            text: text as u32,
        })
    }

    /// The size with these lines more, if it is within the limits.
    pub fn with_lines(self, lines: &[Line]) -> Option<Size>
        requires { All (λ line. sent_len_lem line.command < 2 ^ 32) lines.now }
        ensures { (ranks : ℕ) (before : List line.Line) → IsSizeOf self ranks before →
            MatchOption result (fits ranks (before ++ lines.now) ≡ false)
            (λ size. IsSizeOf size ranks (before ++ lines.now)
            × (fits ranks (before ++ lines.now) ≡ true)) }
    {
        let mut size = self;
        for line in lines {
            size = size.with_line(line)?;
        }
        Some(size)
    }
}
