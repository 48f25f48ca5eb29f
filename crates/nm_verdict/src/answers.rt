//! What there is to say of the words and the source, and how it is said.

ghost use Rattle.std.specs.Prelude.{◌≡◌, IfOk};
ghost use Rattle.nm_verdict.specs.Answers.{status_of, text_of};

use crate::quotes::Quotes;
use crate::texts::found_text;
use nm_breaks::{Found, found_status};
use nm_shell::line;
use std::alloc::{AllocError, Global};

/// What there is to say.
#[derive(Drop)]
pub enum Response {
    /// The words are not taken.
    Usage,
    /// The source failed.
    Unread,
    /// What was found of the bytes, and the bytes of the lines that are told.
    Told { found: Found, quotes: Quotes },
}

/// What is said of words that are not taken.
const USAGE: &str = "usage: verdict [--cells N] [--eager N] <SCRIPT_AND_TRACE
";

/// The text of an answer, whole and in memory.
pub fn text(alloc: Global, answer: &Response) -> Result<Vec<u8>, AllocError>
    ensures { IfOk result (λ text. text.items ≡ text_of answer.now) }
{
    match answer {
        Response::Usage => line(alloc, USAGE),
        Response::Unread => line(alloc, "fault read\n"),
        Response::Told { found, quotes } => found_text(alloc, found, quotes),
    }
}

/// The status of an answer that was written.
pub fn status(answer: &Response) -> u8
    ensures { result ≡ status_of answer.now }
{
    match answer {
        Response::Usage => 2,
        Response::Unread => 4,
        Response::Told { found, .. } => found_status(found),
    }
}
