//! What was found behind the first word.

ghost use Rattle.std.specs.Prelude.{◌≡◌, map, string_bytes, IfSome, Some};
ghost use Rattle.nm_script.specs.CommandWords.{ReadsArguments, nothing, with_argument, with_first};
ghost use Rattle.nm_script.specs.declared.command_line.found.Found.{Found};

use crate::command_line::arguments::{Argument, next_argument};

/// The numbers, in their order, and the values of the options, as far as they were found.
#[derive(Clone, Copy)]
pub struct Found {
    pub first: Option<u16>,
    pub second: Option<u16>,
    pub third: Option<u16>,
    pub cells: Option<u8>,
    pub eager: Option<u16>,
}

impl Found {
    /// Nothing was given yet.
    pub fn nothing() -> Found
        ensures { result ≡ nothing }
    {
        Found {
            first: None,
            second: None,
            third: None,
            cells: None,
            eager: None,
        }
    }

    /// With one argument more, unless it was given before or is a fourth number.
    fn with(self, argument: Argument) -> Option<Found>
        ensures { result ≡ with_argument self argument }
    {
        match argument {
            Argument::Cells(cells) => match self.cells {
                None => Some(Found {
                    cells: Some(cells),
                    ..self
                }),
                Some(_) => None,
            },
            Argument::Eager(eager) => match self.eager {
                None => Some(Found {
                    eager: Some(eager),
                    ..self
                }),
                Some(_) => None,
            },
            Argument::Number(number) => self.with_number(number),
        }
    }

    /// With one number more, unless there are three.
    fn with_number(self, number: u16) -> Option<Found>
        ensures { result ≡ with_first number self self.first }
    {
        match (self.first, self.second, self.third) {
            (None, _, _) => Some(Found {
                first: Some(number),
                ..self
            }),
            (Some(_), None, _) => Some(Found {
                second: Some(number),
                ..self
            }),
            (Some(_), Some(_), None) => Some(Found {
                third: Some(number),
                ..self
            }),
            (Some(_), Some(_), Some(_)) => None,
        }
    }
}

/// What the words give in the end, beside what was found before them.
pub fn rest(found: Found, words: &[String]) -> Option<Found>
    ensures follows { IfSome result (ReadsArguments found (map string_bytes words.now)) }
    ensures whole { (end : Found) → ReadsArguments found (map string_bytes words.now) end →
        result ≡ Some end }
{
    // Calls itself at most five times: there are two options, each given once, and three numbers.
    if words.is_empty() {
        return Some(found);
    }
    let (argument, others) = next_argument(words)?;
    rest(found.with(argument)?, others)
}
