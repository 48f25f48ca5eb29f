//! The names of the commands.

ghost use Rattle.std.specs.Prelude.{◌≡◌};
ghost use Rattle.nm_plans.specs.Grammar.{keyword_of};

/// A command, by its name.
#[derive(Clone, Copy)]
pub enum PlanKeyword {
    SendInit,
    RecvInit,
    PsendInit,
    PrecvInit,
    Fill,
    Start,
    Ready,
    Arrived,
    Wait,
}

/// The command that has this name.
#[tactic(auto, unfolding(crate::specs::Grammar::keyword_of))]
pub fn keyword_from(word: &[u8]) -> Option<PlanKeyword>
    ensures { result ≡ keyword_of word.now }
{
    if word == b"sendinit".as_slice() {
        Some(PlanKeyword::SendInit)
    } else if word == b"recvinit".as_slice() {
        Some(PlanKeyword::RecvInit)
    } else if word == b"psendinit".as_slice() {
        Some(PlanKeyword::PsendInit)
    } else if word == b"precvinit".as_slice() {
        Some(PlanKeyword::PrecvInit)
    } else if word == b"fill".as_slice() {
        Some(PlanKeyword::Fill)
    } else if word == b"start".as_slice() {
        Some(PlanKeyword::Start)
    } else if word == b"ready".as_slice() {
        Some(PlanKeyword::Ready)
    } else if word == b"arrived".as_slice() {
        Some(PlanKeyword::Arrived)
    } else if word == b"wait".as_slice() {
        Some(PlanKeyword::Wait)
    } else {
        None
    }
}
