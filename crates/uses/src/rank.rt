//! A use of `nm_rank`: two ranks in one thread exchange a short message and a long one, whose packets
//! and pieces are moved by hand.

mod messages;
mod moving;

use messages::{send_and_receive, two_ranks};
use nm_rank::FinishFault;
use nm_types::Answer;
use std::test::Fail;

/// What an answer says.
fn told(answer: &Result<Answer, FinishFault>) -> (&'static str, usize) {
    match answer {
        Ok(Answer::Sent) => ("sent", 0),
        Ok(Answer::Got { body, .. }) => ("got", body.len()),
        Ok(_) => ("another answer", 0),
        Err(_) => ("not complete", 0),
    }
}

pub fn show(rt: &HostRuntime) -> Result<(), Fail> {
    let (mut a, mut b) = two_ranks(rt.alloc())?;
    for len in [5, 3000] {
        let (sent, received) = send_and_receive(&mut a, &mut b, len)?;
        let (word, _) = told(&sent);
        let (shown, bytes) = told(&received);
        println!(rt; "{word}, {shown} {bytes}")?;
    }
    println!(rt;
        "packets {} and {}, pieces {}",
        a.popped(1),
        b.popped(0),
        a.pushed(1)
    )?;
    Ok(())
}
