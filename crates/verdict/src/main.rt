//! Scripts and traces on standard input, verdicts on standard output.
#![tactic(auto)]

use nm_outside::{RealSink, RealSource};
use nm_shell::{WANT_OF_MEMORY, words};
use nm_verdict::verdict;
use std::io;
use std::process::ExitCode;
use std::rt::Env;

/// The words of a check: those of the command line behind `check`.
fn check_words<R: Env + AllocGlobal>(rt: &R) -> io::Result<Vec<String>> {
    let mut words = words(rt)?;
    words.insert(0, String::from_str(rt.alloc(), "check")?)?;
    Ok(words)
}

fn main(rt: HostRuntime) -> ExitCode {
    let Ok(words) = check_words(&rt) else {
        return ExitCode::from(WANT_OF_MEMORY);
    };
    let mut source = RealSource::new(rt.stdin());
    let mut sink = RealSink::new(io::writer(&rt));
    ExitCode::from(verdict(rt.alloc(), &words, &mut source, &mut sink))
}
