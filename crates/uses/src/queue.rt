//! A use of `nm_queue`: one rank puts 1,000 cells with a byte each into the receive queue of another, which
//! sends them home.

mod crossing;
mod first;
mod putting;
mod taking;

use crossing::cross;
use std::test::Fail;

pub fn show(rt: &HostRuntime) -> Result<(), Fail> {
    let mut text = Vec::new(rt.alloc());
    for k in 0..1000u32 {
        text.push((k % 251) as u8)?;
    }
    let came = cross(rt.alloc(), &text)?;
    println!(rt; "{} of {} came", came.len(), text.len())?;
    println!(rt; "the same: {}", came.as_slice() == text.as_slice())?;
    Ok(())
}
