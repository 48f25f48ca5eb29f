//! A use of `nm_script`: a checker of scripts.
//!
//! Of a text it answers the script's one text, or its first fault with its line and its kind.

mod checking;

use checking::checked;
use std::test::Fail;

/// Prints what the checker says of a script whose third line has a number with a zero before it.
pub fn show(rt: &HostRuntime) -> Result<(), Fail> {
    let script = b"ranks 2\n0: isend 0 1 7 0 x6869\n1: irecv 0 0 7 0 016\n";
    let told = checked(rt.alloc(), script)?;
    print!(rt; "{told}")?;
    Ok(())
}
