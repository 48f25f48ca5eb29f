//! A use of `nm_port`, with an item of its own: one rank sends 1,000 parcels with a byte each, and another takes
//! them.

mod crossing;
mod sending;
mod taking;

use crossing::cross;
use std::test::Fail;

pub fn show(rt: &HostRuntime) -> Result<(), Fail> {
    let mut text = Vec::new(rt.alloc());
    for k in 0..1000u32 {
        text.push((k % 251) as u8)?;
    }
    let came = cross(rt.alloc(), &text)?;
    println!(rt; "{} of {} came", came.len(), text.len())?;
    println!(rt; "the same: {}", came.as_slice() == text.as_slice())?;
    Ok(())
}
