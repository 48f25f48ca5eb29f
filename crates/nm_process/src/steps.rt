//! What a command of a process comes to.

ghost use Rattle.std.specs.Prelude.{◌≡◌, false, option_map};
ghost use Rattle.std.specs.Option.{option_map_or};
ghost use Rattle.nm_process.specs.Steps.{is_look};

use nm_types::Command;

/// What a command came to.
#[derive(Clone, Copy)]
pub enum Step {
    /// It ran.
    Ran,
    /// It can't go on, or the rank is worn.
    Waits,
}

/// The message that a matched probe claimed: its sender, and its number among the messages of that
/// sender.
#[derive(Clone, Copy)]
pub struct Handle {
    pub from: u8,
    pub n: u64,
}

/// Whether it is a command that looks at what came: a test, a probe, an await or a matched probe.
pub fn looks(command: Option<&Command>) -> bool
    ensures { result ≡ option_map_or is_look (option_map (λ c. c.now) command.entry) false }
{
    match command {
        Some(Command::Test { .. }) => true,
        Some(Command::Probe { .. }) => true,
        Some(Command::Await { .. }) => true,
        Some(Command::Mprobe { .. }) => true,
        _ => false,
    }
}
