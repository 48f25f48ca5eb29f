//! A use of `nm_check`: a record that was made by hand is judged, and then one that differs by the
//! answer of a command.

mod judging;
mod records;

use judging::is_lawful;
use nm_report::report;
use nm_script::read;
use nm_types::{Answer, Script};
use records::one_answer;
use std::test::Fail;

// The report of the record, which says that the request is null.
fn show_report(rt: &HostRuntime) -> Result<(), Fail> {
    let null = one_answer(rt.alloc(), Answer::Null)?;
    let text = String::from_utf8(report(rt.alloc(), &null)?)?;
    print!(rt; "{text}")?;
    Ok(())
}

// Whether the record with this answer is of a run of the script.
fn show_verdict(rt: &HostRuntime, script: &Script, word: &str, answer: Answer) -> Result<(), Fail> {
    let record = one_answer(rt.alloc(), answer)?;
    println!(rt; "{word}: {:?}", is_lawful(rt.alloc(), script, &record)?)?;
    Ok(())
}

pub fn show(rt: &HostRuntime) -> Result<(), Fail> {
    let script = read(rt.alloc(), b"ranks 1\n0: wait 9\n")?;
    show_report(rt)?;
    show_verdict(rt, &script, "null", Answer::Null)?;
    show_verdict(rt, &script, "sent", Answer::Sent)
}
