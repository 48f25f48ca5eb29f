//! What the first word asks for, with the numbers behind it.

ghost use Rattle.std.specs.Prelude.{◌≡◌, IfSome, Some};
ghost use Rattle.nm_script.specs.CommandWords.{AreNumbers, HasArguments, HasNoNumber, name_of};
ghost use Rattle.nm_script.specs.declared.command_line.Mode.{Mode};
ghost use Rattle.nm_script.specs.declared.command_line.Mode.TheVariants.{Flood, Multi};

use crate::command_line::Mode;
use crate::command_line::found::Found;
use nm_types::MAX_RANKS;

/// The most messages of `flood`.
const MAX_MESSAGES: u16 = 16000;

/// The most threads of `multi`.
const MAX_THREADS: u16 = 16;

/// The most rounds of `multi`.
const MAX_ROUNDS: u16 = 1000;

/// A first word that no number follows.
fn without_numbers(first: &[u8]) -> Option<Mode>
    ensures asked { IfSome result (λ mode. (first.now ≡ name_of mode) × HasNoNumber mode) }
    ensures asks { (mode : Mode) → first.now ≡ name_of mode → HasNoNumber mode → result ≡ Some mode }
{
    if first == b"run".as_slice() {
        Some(Mode::Run)
    } else if first == b"trace".as_slice() {
        Some(Mode::Trace)
    } else if first == b"plain".as_slice() {
        Some(Mode::Plain)
    } else if first == b"check".as_slice() {
        Some(Mode::Check)
    } else if first == b"parts".as_slice() {
        Some(Mode::Parts)
    } else {
        None
    }
}

/// A flood of these numbers.
fn flood(key: u16, ranks: u16, messages: u16) -> Option<Mode>
    ensures asked { IfSome result (λ mode. (mode ≡ Flood key ranks messages) × AreNumbers mode) }
    ensures asks { AreNumbers (Flood key ranks messages) → result ≡ Some (Flood key ranks messages) }
{
    if ranks < 1 || ranks > u16::from(MAX_RANKS) || messages > MAX_MESSAGES {
        return None;
    }
    Some(Mode::Flood {
        key,
        ranks: ranks as u8,
        messages,
    })
}

/// So many threads of so many rounds.
fn multi(threads: u16, rounds: u16) -> Option<Mode>
    ensures asked { IfSome result (λ mode. (mode ≡ Multi threads rounds) × AreNumbers mode) }
    ensures asks { AreNumbers (Multi threads rounds) → result ≡ Some (Multi threads rounds) }
{
    if threads < 1 || threads > MAX_THREADS || rounds > MAX_ROUNDS {
        return None;
    }
    Some(Mode::Multi {
        threads: threads as u8,
        rounds,
    })
}

/// What the first word and what was found behind it ask for.
pub fn mode_of(first: &[u8], found: Found) -> Option<Mode>
    ensures asked { IfSome result (λ mode. (first.now ≡ name_of mode) × HasArguments mode found
        × AreNumbers mode) }
    ensures asks { (mode : Mode) → first.now ≡ name_of mode → HasArguments mode found →
        AreNumbers mode → result ≡ Some mode }
{
    match (found.first, found.second, found.third) {
        (None, None, None) => without_numbers(first),
        (Some(threads), Some(rounds), None) => {
            let has_option = found.cells.is_some() || found.eager.is_some();
            if first == b"multi".as_slice() && !has_option {
                multi(threads, rounds)
            } else {
                None
            }
        }
        (Some(key), Some(ranks), Some(messages)) => {
            if first == b"flood".as_slice() {
                flood(key, ranks, messages)
            } else {
                None
            }
        }
        _ => None,
    }
}
