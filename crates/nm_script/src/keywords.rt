//! The names of the commands.

ghost use Rattle.std.specs.Prelude.{◌≡◌};
ghost use Rattle.nm_script.specs.Keywords.{keyword_of};

/// A command, by its name.
#[derive(Clone, Copy)]
pub enum Keyword {
    Isend,
    Issend,
    Irecv,
    Wait,
    Test,
    Probe,
    Await,
    Cancel,
    Mprobe,
    Mrecv,
}

/// The command that has this name.
#[tactic(auto, unfolding(crate::specs::Keywords::keyword_of))]
pub fn keyword_from(word: &[u8]) -> Option<Keyword>
    ensures { result ≡ keyword_of word.now }
{
    if word == b"isend".as_slice() {
        Some(Keyword::Isend)
    } else if word == b"issend".as_slice() {
        Some(Keyword::Issend)
    } else if word == b"irecv".as_slice() {
        Some(Keyword::Irecv)
    } else if word == b"wait".as_slice() {
        Some(Keyword::Wait)
    } else if word == b"test".as_slice() {
        Some(Keyword::Test)
    } else if word == b"probe".as_slice() {
        Some(Keyword::Probe)
    } else if word == b"await".as_slice() {
        Some(Keyword::Await)
    } else if word == b"cancel".as_slice() {
        Some(Keyword::Cancel)
    } else if word == b"mprobe".as_slice() {
        Some(Keyword::Mprobe)
    } else if word == b"mrecv".as_slice() {
        Some(Keyword::Mrecv)
    } else {
        None
    }
}
