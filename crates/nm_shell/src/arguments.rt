//! The words of the command line.

use std::io::ErrorKind;
use std::rt::Env;
use std::{env, io};

/// The command line's words without the program's name. Where one is no text, they are an empty one,
/// which no program takes.
pub fn words<R: Env + AllocGlobal>(rt: &R) -> io::Result<Vec<String>> {
    let mut words = Vec::new(rt.alloc());
    let all = match env::args(rt) {
        Err(e) if e.kind() == ErrorKind::InvalidData => {
            words.push(String::new(rt.alloc()))?;
            return Ok(words);
        }
        all => all?,
    };
    for word in all.skip(1) {
        words.push(word)?;
    }
    Ok(words)
}
