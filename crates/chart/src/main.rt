//! Traces on standard input, pictures and pages on standard output.
#![tactic(auto)]

use nm_chart::check::chart_check;
use nm_chart::{Form, chart, chart_part};
use nm_outside::{RealSink, RealSource};
use nm_shell::{WANT_OF_MEMORY, words};
use std::io;
use std::process::ExitCode;

fn main(rt: HostRuntime) -> ExitCode {
    let Ok(words) = words(&rt) else {
        return ExitCode::from(WANT_OF_MEMORY);
    };
    let mut source = RealSource::new(rt.stdin());
    let mut sink = RealSink::new(io::writer(&rt));
    let status = match words.split_first() {
        None => chart(rt.alloc(), &words, &mut source, &mut sink),
        Some((word, _)) if word.as_bytes() == b"check".as_slice() => {
            chart_check(rt.alloc(), &words, &mut source, &mut sink)
        }
        Some((word, rest)) if word.as_bytes() == b"--html".as_slice() => {
            chart_part(rt.alloc(), Form::Page, rest, &mut source, &mut sink)
        }
        Some(_) => chart_part(rt.alloc(), Form::Picture, &words, &mut source, &mut sink),
    };
    ExitCode::from(status)
}
