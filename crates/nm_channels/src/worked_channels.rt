//! Worked logs: small scripts with the moments of their ranks, each held against the definitions of
//! both ends of a channel.
//!
//! # What is proved
//! - `right_ends`: in four of these logs all ranks have nothing left to send; the fifth, with a stray,
//!   is sound.
//! - `wrong_ends`: each of these breaks the rule that its name tells.
//! - `ends_are_a_run`: the histories of the first are a run of its script, by the law alone.
//!
//! A log stands in `specs/` under its name (`RightEnds`, `WrongEnds`), with words of what it shows.

ghost use Rattle.nm_channels.specs.LongMessage as long_message;
ghost use Rattle.nm_channels.specs.RightEnds.{AreRight, RightEnds};
ghost use Rattle.nm_channels.specs.WrongEnds.{KeepRule, WrongEnds};

/// Logs of ranks with nothing left to send, and a sound one with a stray.
pub fn right_ends()
    ensures { (ends : RightEnds) → AreRight ends }
{}

/// The histories of the first of these are a run of its script, by the law alone.
pub fn ends_are_a_run()
    ensures { long_message.IsRun }
{}

/// Each of these logs breaks the rule that its name tells.
pub fn wrong_ends()
    ensures { (ends : WrongEnds) → ¬ KeepRule ends }
{}
