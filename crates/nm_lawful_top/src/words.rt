//! The words of the command line: `[--cut any] STATES`.

ghost use Rattle.std.specs.Prelude.{◌≡◌, ◌∷◌, [], map, string_bytes};
ghost use Rattle.nm_lawful_top.specs.Words.{asked_of, with_states};

use nm_script::words::number_up_to;

/// How the length is taken that a receive tells whose message was longer.
#[derive(Clone, Copy)]
pub enum Cuts {
    /// It is the message's.
    Compared,
    /// It may be any (MPI 3.1, 8.3).
    Any,
}

/// What the words ask for.
#[derive(Clone, Copy)]
pub struct Asked {
    pub cuts: Cuts,
    /// How many states a search may meet, 1 to 16,777,216.
    pub states: u32,
}

/// What a number of states asks for.
#[tactic(auto, unfolding(crate::specs::Words::with_states))]
fn sized(cuts: Cuts, word: &[u8]) -> Option<Asked>
    ensures { result ≡ with_states cuts word.now }
{
    let states = number_up_to(word, 16777216)?;
    if states == 0 {
        return None;
    }
    Some(Asked {
        cuts,
        states: states as u32,
    })
}

/// What three words ask for.
#[tactic(auto, unfolding(crate::specs::Words::asked_of))]
fn of_three(cut: &[u8], any: &[u8], states: &[u8]) -> Option<Asked>
    ensures { result ≡ asked_of (cut.now ∷ any.now ∷ states.now ∷ []) }
{
    if cut != b"--cut".as_slice() || any != b"any".as_slice() {
        return None;
    }
    sized(Cuts::Any, states)
}

/// What the words ask for, or `None` where they are not taken. They are those of the command line without the
/// program's name.
#[tactic(auto, unfolding(crate::specs::Words::asked_of))]
pub fn read(words: &[String]) -> Option<Asked>
    ensures { result ≡ asked_of (map string_bytes words.now) }
{
    match words {
        [states] => sized(Cuts::Compared, states.as_bytes()),
        [cut, any, states] => of_three(cut.as_bytes(), any.as_bytes(), states.as_bytes()),
        _ => None,
    }
}
