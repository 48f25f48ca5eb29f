//! Scripts on standard input, reports on standard output.
#![tactic(auto)]

use nm_cli::nemesis;
use nm_outside::{OpenGate, RealSink, RealSource};
use nm_shell::{WANT_OF_MEMORY, words};
use std::process::ExitCode;
use std::{io, mem};

fn main(rt: HostRuntime) -> ExitCode {
    let Ok(words) = words(&rt) else {
        return ExitCode::from(WANT_OF_MEMORY);
    };
    let mut source = RealSource::new(rt.stdin());
    let mut sink = RealSink::new(io::writer(&rt));
    let ended = nemesis(&rt, rt.alloc(), &words, &mut source, &mut sink, &OpenGate);
    let status = ended.status;
    // the process ends here, so its memory goes back at once and not piece by piece
    mem::forget(ended);
    ExitCode::from(status)
}
