//! Scripts on standard input, all their reports on standard output.
#![tactic(auto)]

use nm_outcomes_top::outcomes;
use nm_outside::{RealSink, RealSource};
use nm_shell::{WANT_OF_MEMORY, words};
use std::io;
use std::process::ExitCode;

fn main(rt: HostRuntime) -> ExitCode {
    let Ok(words) = words(&rt) else {
        return ExitCode::from(WANT_OF_MEMORY);
    };
    let mut source = RealSource::new(rt.stdin());
    let mut sink = RealSink::new(io::writer(&rt));
    ExitCode::from(outcomes(rt.alloc(), &words, &mut source, &mut sink))
}
