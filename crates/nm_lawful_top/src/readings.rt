//! All lines of the answers.

ghost use Rattle.std.specs.Prelude.{◌≡◌, ◌≤◌, ◌<◌, IfOk, IsTrue, None, length, option_map, replicate, slice_get};
ghost use Rattle.nm_script.specs.Lines.{lines_of};
ghost use Rattle.nm_lawful.specs.Moves.{report_lem};
ghost use Rattle.nm_lawful_top.specs.Readings.{added_as, added_by, answered_by, is_free_lem, line_by, line_place};
ghost use Rattle.nm_lawful_top.specs.Readings.{read_as, read_from, waited_by};

use crate::items::{Item, Told, read_item};
use crate::words::Cuts;
use nm_lawful::moves::Said;
use nm_script::words::split_line;
use nm_types::{Answer, Line, Memory};
use std::alloc::Global;

/// What is told of a script: at the place of each line its answer, and of each rank where it waits in the end.
pub struct Report {
    pub said: Vec<Option<Said>>,
    pub waits: Vec<Option<usize>>,
}

impl Drop for Report {
    fn drop(self) {
        let Report { said: _, waits: _ } = self;
    }
}

/// How lines are read: the lines of the script, and how the length is taken of a message that was cut.
#[derive(Clone, Copy)]
pub struct Form<'a> {
    pub cuts: Cuts,
    pub lines: &'a [Line],
}

/// Whether a line was added to what is told.
#[derive(Clone, Copy)]
enum Added {
    Yes,
    No,
}

/// What was read: so many lines, or up to the first one that tells nothing, counted from 1.
#[derive(Clone, Copy)]
pub enum Lines {
    Read { count: u32 },
    Bad { line: u32 },
}

/// So many lines without an answer.
fn no_answers(alloc: Global, count: usize) -> Result<Vec<Option<Said>>, Memory>
    ensures { IfOk result (λ all. all.items ≡ replicate count None) }
{
    let mut all = Vec::new(alloc);
    for _ in 0..count {
        all.push(None)?;
    }
    Ok(all)
}

/// So many ranks that don't wait.
fn no_waits(alloc: Global, count: u8) -> Result<Vec<Option<usize>>, Memory>
    ensures { IfOk result (λ all. all.items ≡ replicate count None) }
{
    let mut all = Vec::new(alloc);
    for _ in 0..count {
        all.push(None)?;
    }
    Ok(all)
}

/// Whether a rank is there, and nothing is said of it.
fn is_free(waits: &[Option<usize>], rank: usize) -> bool
    ensures value { result ≡ is_free_lem waits.now rank }
    ensures within { IsTrue result → rank < length waits.now }
{
    match waits.get(rank) {
        Some(wait) => wait.is_none(),
        None => false,
    }
}

/// Whether a line is there, and nothing is said of it.
fn is_untold(said: &[Option<Said>], place: usize) -> bool
    ensures value { result ≡ is_free_lem said.now place }
    ensures within { IsTrue result → place < length said.now }
{
    match said.get(place) {
        Some(said) => said.is_none(),
        None => false,
    }
}

/// The place of a line, if it is one of the rank.
fn place(lines: &[Line], rank: u8, line: u32) -> Option<usize>
    ensures { result ≡ line_place lines.now rank line }
{
    if line < 2 {
        return None;
    }
    let place = line as usize - 2;
    match lines.get(place) {
        Some(line) => { if line.rank == rank { Some(place) } else { None } }
        None => None,
    }
}

impl Report {
    /// Nothing is told.
    pub fn new(alloc: Global, lines: usize, ranks: u8) -> Result<Report, Memory>
        ensures said { IfOk result (λ report. report.said.items ≡ replicate lines None) }
        ensures waits { IfOk result (λ report. report.waits.items ≡ replicate ranks None) }
    {
        let said = no_answers(alloc, lines)?;
        let waits = no_waits(alloc, ranks)?;
        Ok(Report { said, waits })
    }

    /// A rank waits at a place.
    fn wait(&mut self, rank: u8, place: usize) -> Added
        ensures { added_as result (report_lem self.new.said.items self.new.waits.items)
            ≡ waited_by rank place (report_lem self.old.said.items self.old.waits.items) }
    {
        let free = is_free(self.waits.as_slice(), rank as usize);
        if free {
            self.waits[rank as usize] = Some(place);
            Added::Yes
        } else {
            Added::No
        }
    }

    /// The line at a place, of a rank that doesn't wait, answered so.
    fn answer(&mut self, number: u32, rank: u8, place: usize, answer: Answer) -> Added
        ensures { added_as result (report_lem self.new.said.items self.new.waits.items)
            ≡ answered_by number rank place answer (report_lem self.old.said.items self.old.waits.items) }
    {
        let free = is_free(self.waits.as_slice(), rank as usize);
        let untold = is_untold(self.said.as_slice(), place);
        if free && untold {
            self.said[place] = Some(Said { at: number, answer });
            Added::Yes
        } else {
            Added::No
        }
    }

    /// What a line with a number tells.
    fn add(&mut self, lines: &[Line], number: u32, item: Item) -> Added
        ensures { added_as result (report_lem self.new.said.items self.new.waits.items)
            ≡ added_by lines.now number item (report_lem self.old.said.items self.old.waits.items) }
    {
        let Item { rank, line, told } = item;
        match place(lines, rank, line) {
            Some(place) => match told {
                Told::Waits => self.wait(rank, place),
                Told::Answers(answer) => self.answer(number, rank, place, answer),
            },
            None => Added::No,
        }
    }

    /// A line more.
    fn add_line(
        &mut self,
        alloc: Global,
        form: Form,
        number: u32,
        line: &[u8],
    ) -> Result<Added, Memory>
        ensures { IfOk result (λ added. added_as added (report_lem self.new.said.items self.new.waits.items)
            ≡ line_by form.entry.cuts form.entry.lines.now number line.now
            (report_lem self.old.said.items self.old.waits.items)) }
    {
        match read_item(alloc, form.cuts, line)? {
            Some(item) => Ok(self.add(form.lines, number, item)),
            None => Ok(Added::No),
        }
    }

    /// All lines of a text, up to the first one that tells nothing.
    pub fn read(&mut self, alloc: Global, form: Form, text: &[u8]) -> Result<Lines, Memory>
        requires { length text.now ≤ 67108864 }
        ensures { IfOk result (λ lines. read_as lines (report_lem self.new.said.items self.new.waits.items)
            ≡ read_from form.entry.cuts form.entry.lines.now (lines_of text.now) 0
            (report_lem self.old.said.items self.old.waits.items)) }
    {
        let mut rest = text;
        let mut number = 0u32;
        while !rest.is_empty() {
            let (line, after) = split_line(rest);
            let added = self.add_line(alloc, form, number, line)?;
            match added {
                Added::Yes => {}
                Added::No => return Ok(Lines::Bad { line: number + 1 }),
            }
            rest = after;
            number += 1;
        }
        Ok(Lines::Read { count: number })
    }
}

/// The first line, if there is one.
fn first_line(text: &[u8]) -> Option<&[u8]>
    ensures { option_map (λ line. line.now) result ≡ slice_get (lines_of text.now) 0 }
{
    if text.is_empty() {
        return None;
    }
    Some(split_line(text).0)
}

/// A line, counted from 0, if there are so many.
pub fn line_at(text: &[u8], at: u32) -> Option<&[u8]>
    ensures { option_map (λ line. line.now) result ≡ slice_get (lines_of text.now) at }
{
    let mut rest = text;
    for _line in 0..at {
        if rest.is_empty() {
            return None;
        }
        rest = split_line(rest).1;
    }
    first_line(rest)
}
