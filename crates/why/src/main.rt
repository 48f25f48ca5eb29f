//! Scripts on standard input, why they can hang on standard output.
#![tactic(auto)]

use nm_outside::{RealSink, RealSource};
use nm_shell::{WANT_OF_MEMORY, words};
use nm_why_top::why;
use std::io;
use std::process::ExitCode;

fn main(rt: HostRuntime) -> ExitCode {
    let Ok(words) = words(&rt) else {
        return ExitCode::from(WANT_OF_MEMORY);
    };
    let mut source = RealSource::new(rt.stdin());
    let mut sink = RealSink::new(io::writer(&rt));
    ExitCode::from(why(rt.alloc(), &words, &mut source, &mut sink))
}
