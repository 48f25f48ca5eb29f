//! The words of the command line of `outcomes`.
//!
//! What is asked of the reports stands first: `--trace K`, `--among` or `--hangs`, or nothing where all are
//! to be listed, or `--eager either` where all are to be listed that there are if each standard send may
//! wait. Options follow as behind `nemesis run`, each at most once, in either spelling (`--cells 4` or
//! `--cells=4`), and behind them stands the number of states.
//!
//! # What a contract sees
//! The words as lists of bytes, and what they ask for (`Asked`).
//! # What is proved
//! `read` takes exactly the words of the grammar (`IsTaken`), and gives what they ask for, which is
//! one thing. Unless memory runs out: it copies the words.

ghost use Rattle.std.specs.Prelude.{◌≡◌, ◌≢◌, ℕ, ◌≤◌, ◌∷◌, ◌++◌, List, None, Some, codes, decimal, map, string_bytes};
ghost use Rattle.std.specs.Prelude.{IfOk, IfSome};
ghost use Rattle.std.specs.Option.{IsSomeAnd};
ghost use Rattle.nm_outcomes_top.specs.OptionWords.{InRange, IsQuestion, IsSized, IsTaken, as_run};
ghost use Rattle.nm_outcomes_top.specs.OptionWords.{Begins, Continues, limit_words};
ghost use Rattle.nm_outcomes_top.specs.declared.words.Asked.{Asked};
ghost use Rattle.nm_outcomes_top.specs.declared.words.Question.{Question as the_question};
ghost use Rattle.nm_outcomes_top.specs.declared.words.Question.TheVariants as question;

use nm_script::command_line::{CommandLine, Mode};
use nm_script::words::number_up_to;
use nm_types::Memory;
use std::alloc::Global;

/// What is asked of the reports that a script can have.
#[derive(Clone, Copy)]
pub enum Question {
    /// All of them.
    All,
    /// A trace of a run that has the report with this number, 1 to 16,777,216, as the list of all
    /// numbers them.
    Trace { number: u32 },
    /// Whether a given report is one of them.
    Among,
    /// All of them, where each standard send is buffered or waits by itself.
    Either,
    /// Whether one of them is stuck.
    Hangs,
}

/// What the words ask for.
#[derive(Clone, Copy)]
pub struct Asked {
    /// What is asked of the reports.
    pub question: Question,
    /// How many states the search may meet, at most 16,777,216.
    pub states: u32,
    /// How many cells each rank has, 1 to 64. 8 where no option says.
    pub cells: u8,
    /// Up to how many bytes a standard send is eager, at most 4,096. 1,024 where no option says.
    pub eager: u16,
}

/// The most states of a search.
const MAX_STATES: u64 = 16777216;

/// The number of states that a word spells.
fn number_of_states(word: &[u8]) -> Option<u32>
    ensures found { IfSome result (λ n. (word.now ≡ decimal n) × (1 ≤ n) × (n ≤ 16777216)) }
    ensures finds { (n : ℕ) → word.now ≡ decimal n → 1 ≤ n → n ≤ 16777216 → result ≡ Some n }
{
    match number_up_to(word, MAX_STATES) {
        Some(n) if n > 0 => Some(n as u32),
        _ => None,
    }
}

/// The word `run`, and the words of the eager limit where the question has one.
fn run_words(alloc: Global, question: Question) -> Result<Vec<String>, Memory>
    ensures { IfOk result (λ all. map string_bytes all.items ≡ codes "run" ∷ limit_words question) }
{
    let mut all = Vec::new(alloc);
    all.push(String::from_str(alloc, "run")?)?;
    if matches!(question, Question::Either) {
        all.push(String::from_str(alloc, "--eager")?)?;
        all.push(String::from_str(alloc, "4096")?)?;
    }
    Ok(all)
}

/// The word `run`, the limit of the question, and these words.
fn behind_run(alloc: Global, question: Question, words: &[String]) -> Result<Vec<String>, Memory>
    ensures { IfOk result (λ all. map string_bytes all.items
        ≡ codes "run" ∷ (limit_words question ++ map string_bytes words.now)) }
{
    let mut all = run_words(alloc, question)?;
    for word in words {
        all.push(word.clone()?)?;
    }
    Ok(all)
}

/// What is asked for, with the options of these words of `nemesis run`.
fn with_states(question: Question, line: CommandLine, states: u32) -> Option<Asked>
    ensures asked { IfSome result (λ asked. (line ≡ as_run asked) × (asked.states ≡ states)
        × (asked.question ≡ question)) }
    ensures asks { (asked : Asked) → line ≡ as_run asked → asked.states ≡ states →
        asked.question ≡ question → result ≡ Some asked }
{
    match line.mode {
        Mode::Run => Some(Asked {
            question,
            states,
            cells: line.cells,
            eager: line.eager,
        }),
        _ => None,
    }
}

/// What options and a number of states ask for, behind this question.
fn read_sizes(alloc: Global, question: Question, words: &[String]) -> Result<Option<Asked>, Memory>
    requires { IsQuestion question }
    ensures taken { IfOk result (λ found. IfSome found (λ asked.
        IsSized (map string_bytes words.now) asked × (asked.question ≡ question))) }
    ensures takes { IfOk result (λ found. (line : Asked) →
        IsSized (map string_bytes words.now) line → line.question ≡ question →
        found ≡ Some line) }
    ensures within { IfOk result (λ found. IfSome found InRange) }
{
    let Some((last, options)) = words.split_last() else {
        return Ok(None);
    };
    let Some(states) = number_of_states(last.as_bytes()) else {
        return Ok(None);
    };
    let words = behind_run(alloc, question, options)?;
    match nm_script::command_line::read(&words) {
        Some(line) => Ok(with_states(question, line, states)),
        None => Ok(None),
    }
}

/// The question of a trace, whose number is the first of these words, and the words behind it.
fn trace_question(words: &[String]) -> Option<(Question, &[String])>
    ensures begins { IfSome result (λ x. Begins (codes "--trace" ∷ map string_bytes words.now) x.0
        (map string_bytes x.1.now)) }
    ensures finds { (question : the_question) (others : List (List ℕ)) →
        Begins (codes "--trace" ∷ map string_bytes words.now) question others →
        Continues question others →
        IsSomeAnd result (λ x. (x.0 ≡ question) × (map string_bytes x.1.now ≡ others)) }
{
    let (word, others) = words.split_first()?;
    let number = number_of_states(word.as_bytes())?;
    Some((Question::Trace { number }, others))
}

/// The words behind `--eager either`, where these stand first.
fn behind_either(words: &[String]) -> Option<&[String]>
    ensures some { IfSome result (λ others. map string_bytes words.now
        ≡ codes "--eager" ∷ codes "either" ∷ map string_bytes others.now) }
    ensures none { result ≡ None → (others : List (List ℕ)) →
        map string_bytes words.now ≢ codes "--eager" ∷ codes "either" ∷ others }
{
    let (first, others) = words.split_first()?;
    let (second, behind) = others.split_first()?;
    if first.as_bytes() == b"--eager".as_slice() && second.as_bytes() == b"either".as_slice() {
        Some(behind)
    } else {
        None
    }
}

/// What is asked of all reports, and the words behind.
fn listing_question(words: &[String]) -> (Question, &[String])
    ensures begins { Begins (map string_bytes words.now) result.0 (map string_bytes result.1.now) }
    ensures either { (others : List (List ℕ)) →
        map string_bytes words.now ≡ codes "--eager" ∷ codes "either" ∷ others →
        (result.0 ≡ question.Either) × (map string_bytes result.1.now ≡ others) }
    ensures all { ((others : List (List ℕ)) →
        map string_bytes words.now ≢ codes "--eager" ∷ codes "either" ∷ others) →
        (result.0 ≡ question.All) × (result.1.now ≡ words.now) }
{
    match behind_either(words) {
        Some(others) => (Question::Either, others),
        None => (Question::All, words),
    }
}

/// What is asked by the first words, and the words behind them.
fn question_of(words: &[String]) -> Option<(Question, &[String])>
    ensures begins { IfSome result (λ x. Begins (map string_bytes words.now) x.0
        (map string_bytes x.1.now)) }
    ensures finds { (question : the_question) (others : List (List ℕ)) →
        Begins (map string_bytes words.now) question others → Continues question others →
        IsSomeAnd result (λ x. (x.0 ≡ question) × (map string_bytes x.1.now ≡ others)) }
{
    let (first, others) = words.split_first()?;
    if first.as_bytes() == b"--trace".as_slice() {
        trace_question(others)
    } else if first.as_bytes() == b"--among".as_slice() {
        Some((Question::Among, others))
    } else if first.as_bytes() == b"--hangs".as_slice() {
        Some((Question::Hangs, others))
    } else {
        Some(listing_question(words))
    }
}

/// What the words ask for, or `None` where they are not taken: `--trace K`, `--among`, `--hangs`, `--eager either`
/// or nothing, then the options of `nemesis run`, in their spellings and ranges, and behind them the number of states.
///
/// The words are those of the command line without the program's name.
pub fn read(alloc: Global, words: &[String]) -> Result<Option<Asked>, Memory>
    ensures taken { IfOk result (λ found. IfSome found (IsTaken (map string_bytes words.now))) }
    ensures takes { IfOk result (λ found. (line : Asked) →
        IsTaken (map string_bytes words.now) line → found ≡ Some line) }
    ensures within { IfOk result (λ found. IfSome found InRange) }
{
    match question_of(words) {
        Some((question, others)) => read_sizes(alloc, question, others),
        None => Ok(None),
    }
}
