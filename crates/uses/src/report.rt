//! A use of `nm_report` with `nm_script`: a script is read, and the report is written of the record of
//! a rank that waits at the script's last line.

mod telling;

use nm_script::read;
use nm_types::Shape;
use std::test::Fail;
use telling::stands_at;

/// Prints the report of a rank that waits for a receive.
pub fn show(rt: &HostRuntime) -> Result<(), Fail> {
    let script = read(rt.alloc(), b"ranks 1\n0: irecv 0 0 7 0 16\n0: wait 0\n")?;
    let last = script.lines.len() as u64;
    let Ok(shape) = Shape::new(1, 8, 1024) else {
        return Ok(());
    };
    let text = stands_at(rt.alloc(), shape, last.saturating_add(1))?;
    let text = String::from_utf8(text)?;
    print!(rt; "{text}")?;
    Ok(())
}
