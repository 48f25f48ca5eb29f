//! A use of `nm_copyring`: one rank pushes the bytes of a text, and another pulls them.

mod carrying;

use carrying::carry;
use std::test::Fail;

pub fn show(rt: &HostRuntime) -> Result<(), Fail> {
    let came = carry(rt.alloc(), b"pieces stay in order")?;
    println!(rt;
        "{:?}",
        came.as_slice() == b"pieces stay in order".as_slice()
    )?;
    println!(rt; "{}", came.len())?;
    Ok(())
}
