//! The names of the events, and the answers of one word.

ghost use Rattle.std.specs.Prelude.{◌≡◌, find};
ghost use Rattle.std.specs.Str.{bytes_eq};
ghost use Rattle.nm_trace.specs.Lones.{answer_of, lones};
ghost use Rattle.nm_trace.specs.Sorts.{sort_of, sort_text, sorts, lone_answer, lone_text};

use nm_types::Answer;

/// An event, by its name.
#[derive(Clone, Copy)]
pub enum Sort {
    Send,
    Post,
    Arrive,
    Whole,
    Out,
    Cancel,
    Recall,
    Withdraw,
    Undone,
    Claim,
    Match,
    Ran,
}

impl Sort {
    /// The name.
    fn name(self) -> &'static str
        ensures { result.now ≡ sort_text self }
    {
        match self {
            Sort::Send => "send",
            Sort::Post => "post",
            Sort::Arrive => "arrive",
            Sort::Whole => "whole",
            Sort::Out => "out",
            Sort::Cancel => "cancel",
            Sort::Recall => "recall",
            Sort::Withdraw => "withdraw",
            Sort::Undone => "undone",
            Sort::Claim => "claim",
            Sort::Match => "match",
            Sort::Ran => "ran",
        }
    }

    /// Whether it has this name.
    fn is_named(self, word: &[u8]) -> bool
        ensures { result ≡ bytes_eq word.now (sort_text self) }
    {
        word == self.name().as_bytes()
    }
}

/// The events that there are.
const SORTS: &[Sort] = &[
    Sort::Send,
    Sort::Post,
    Sort::Arrive,
    Sort::Whole,
    Sort::Out,
    Sort::Cancel,
    Sort::Recall,
    Sort::Withdraw,
    Sort::Undone,
    Sort::Claim,
    Sort::Match,
    Sort::Ran,
];

/// The events that there are.
fn sorts() -> &'static [Sort]
    ensures { result.now ≡ sorts }
{
    SORTS
}

/// The event that has this name.
#[tactic(auto, unfolding(crate::specs::Sorts::sort_of))]
pub fn sort_from(word: &[u8]) -> Option<Sort>
    ensures { result ≡ sort_of word.now }
{
    sorts().iter().copied().find(|sort| sort.is_named(word))
}

/// An answer of one word.
#[derive(Clone, Copy)]
enum Lone {
    Started,
    Busy,
    Null,
    No,
    Nothing,
    Sent,
    Cancelled,
    Done,
    Late,
    Asked,
}

impl Lone {
    /// The answer.
    fn answer(self) -> Answer
        ensures { result ≡ answer_of self }
    {
        match self {
            Lone::Started => Answer::Started,
            Lone::Busy => Answer::Busy,
            Lone::Null => Answer::Null,
            Lone::No => Answer::No,
            Lone::Nothing => Answer::Nothing,
            Lone::Sent => Answer::Sent,
            Lone::Cancelled => Answer::Cancelled,
            Lone::Done => Answer::Done,
            Lone::Late => Answer::Late,
            Lone::Asked => Answer::Asked,
        }
    }

    /// Its word.
    fn word(self) -> &'static str
        ensures { result.now ≡ lone_text (answer_of self) }
    {
        match self {
            Lone::Started => "started",
            Lone::Busy => "busy",
            Lone::Null => "null",
            Lone::No => "no",
            Lone::Nothing => "none",
            Lone::Sent => "sent",
            Lone::Cancelled => "cancelled",
            Lone::Done => "done",
            Lone::Late => "late",
            Lone::Asked => "asked",
        }
    }

    /// Whether it is this word.
    fn is(self, word: &[u8]) -> bool
        ensures { result ≡ bytes_eq word.now (lone_text (answer_of self)) }
    {
        word == self.word().as_bytes()
    }
}

/// The answers of one word.
const LONES: &[Lone] = &[
    Lone::Started,
    Lone::Busy,
    Lone::Null,
    Lone::No,
    Lone::Nothing,
    Lone::Sent,
    Lone::Cancelled,
    Lone::Done,
    Lone::Late,
    Lone::Asked,
];

/// The answers of one word.
fn lones() -> &'static [Lone]
    ensures { result.now ≡ lones }
{
    LONES
}

/// The answer of one word that is this word.
fn find_lone(word: &[u8]) -> Option<Lone>
    ensures { result ≡ find (λ a. bytes_eq word.now (lone_text (answer_of a))) lones }
{
    lones().iter().copied().find(|lone| lone.is(word))
}

/// The answer that is this word.
#[tactic(auto, using(crate::proofs::LoneLemmas::lone_found))]
pub fn lone_answer(word: &[u8]) -> Option<Answer>
    ensures { result ≡ lone_answer word.now }
{
    match find_lone(word) {
        Some(lone) => Some(lone.answer()),
        None => None,
    }
}
