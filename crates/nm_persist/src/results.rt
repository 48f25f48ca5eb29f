//! What the receives of a rank took, by the names of their requests.

ghost use Rattle.std.specs.Prelude.{◌≡◌, ◌<◌, ◌≤◌, ◌+◌, ◌^◌, ◌++◌, ◌∷◌, [], ℕ, List, IfOk, OnOk};
ghost use Rattle.std.specs.Prelude.{Option, map};
ghost use Rattle.std.specs.Prelude.{None, fold, option_copied, length};
ghost use Rattle.nm_types.specs.declared.answers.Answer as answers;
ghost use Rattle.nm_persist.specs.Report as report;
ghost use Rattle.nm_persist.specs.Report.{is_result as is_result_lem, named_from, result_behind};
ghost use Rattle.nm_persist.specs.Report.{results_of};

use crate::asked::Asked;
use indexmap::IndexMap;
use nm_types::{Answer, Memory};
use std::alloc::Global;

/// The last result of a receive under each name.
#[derive(Drop)]
pub struct Results<'a> {
    pub map: IndexMap<u32, &'a Answer>,
}

/// A receive's result.
fn is_result(answer: &Answer) -> bool
    ensures { result ≡ is_result_lem answer.now }
{
    matches!(answer, Answer::Got { .. } | Answer::Cut { .. })
}

impl<'a> Results<'a> {
    ghost use Rattle.nm_persist.specs.Results.{found};

    /// No result yet.
    pub fn new(alloc: Global) -> Self
        ensures { (name : ℕ) → found result.map name ≡ None }
    {
        Results {
            map: IndexMap::new(alloc),
        }
    }

    /// The last result under a name.
    fn get(&self, name: u32) -> Option<&'a Answer>
        ensures { option_copied result ≡ found self.now.map name }
    {
        self.map.get(&name).copied()
    }

    /// Takes the answer to a command about a name, if it is a result of a receive.
    fn note(&mut self, name: u32, answer: &'a Answer) -> Result<(), Memory>
        ensures { OnOk result ((n : ℕ) → found self.new.map n
            ≡ result_behind n (found self.old.map n)
            (record { name = name; answer = answer.now })) }
    {
        if is_result(answer) {
            self.map.insert(name, answer)?;
        }
        Ok(())
    }

    /// Takes the answers to commands about names from this one on.
    pub fn note_all(&mut self, name: u16, answers: &[&'a Answer]) -> Result<(), Memory>
        requires { length answers.now ≤ 256 }
        ensures { OnOk result ((n : ℕ) → found self.new.map n
            ≡ fold (result_behind n) (found self.old.map n)
            (named_from name (map (λ a. a.now) answers.now))) }
    {
        let mut next = u32::from(name);
        for answer in answers {
            self.note(next, answer)?;
            next += 1;
        }
        Ok(())
    }
}

/// What the parts of a receive took.
#[derive(Drop)]
pub struct Received {
    pub bytes: Vec<u8>,
    /// How many bytes had the parts that were cut off.
    pub lost: u64,
    pub cut: bool,
}

impl Received {
    ghost use Rattle.nm_persist.specs.Results.{AreResults, IsReceived};
    ghost use Rattle.nm_persist.specs.Report.{Named};

    /// Nothing so far.
    fn new(alloc: Global) -> Self
        ensures received { IsReceived [] result }
        ensures lost { result.lost ≡ 0 }
    {
        Received {
            bytes: Vec::new(alloc),
            lost: 0,
            cut: false,
        }
    }

    /// Puts what the next part took.
    fn add(&mut self, part: Option<&Answer>) -> Result<(), Memory>
        requires { self.old.lost < 2 ^ 63 }
        ensures received { OnOk result ((parts : List (Option answers.Answer)) →
            IsReceived parts self.old →
            IsReceived (parts ++ option_copied part.entry ∷ []) self.new) }
        ensures lost { OnOk result (self.new.lost ≤ self.old.lost + 2 ^ 32) }
    {
        match part {
            Some(Answer::Got { body, .. }) => self.bytes.extend_from_slice(body.as_slice())?,
            Some(Answer::Cut { len, .. }) => {
                self.lost += u64::from(*len);
                self.cut = true;
            }
            _ => {}
        }
        Ok(())
    }

    /// What the parts of a line's request took, in order.
    pub fn of_line(alloc: Global, asked: &Asked, results: &Results) -> Result<Received, Memory>
        ensures lost { IfOk result (λ received. received.lost < 2 ^ 63) }
        ensures received { IfOk result (λ received. (before : List Named) →
            AreResults before results.now.map →
            IsReceived (results_of asked.now before) received) }
    {
        let mut received = Received::new(alloc);
        for k in 0..asked.count {
            received.add(results.get(u32::from(asked.name) + u32::from(k)))?;
        }
        Ok(received)
    }

    /// How many bytes the parts had.
    pub fn len(&self) -> u64
        requires { self.now.lost < 2 ^ 63 }
        ensures { result ≡ length self.now.bytes.items + self.now.lost }
    {
        self.bytes.len() as u64 + self.lost
    }
}
