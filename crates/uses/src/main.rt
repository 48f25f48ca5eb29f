//! Callers that are shown, each of one part, from its public clauses alone: take the module of the part that you want
//! as a beginning. The program prints what each of them made of it.
#![tactic(auto)]

mod copyring;
mod fabrics;
mod judge;
mod letters;
mod matching;
mod port;
mod queue;
mod rank;
mod report;
mod script;

use std::test::Fail;

fn main(rt: HostRuntime) -> Result<(), Fail> {
    script::show(&rt)?;
    matching::show(&rt)?;
    report::show(&rt)?;
    rank::show(&rt)?;
    copyring::show(&rt)?;
    judge::show(&rt)?;
    port::show(&rt)?;
    queue::show(&rt)
}
