//! The text of a small flood.

use nm_script::flood::flood_script;
use nm_written::write;
use std::test::Fail;

#[test]
fn a_flood_has_its_text(rt: HostRuntime) -> Result<(), Fail> {
    let script = flood_script(rt.alloc(), 5, 3, 4)?;
    let want = "ranks 3\n0: isend 0 2 0 0 g85\n1: isend 1 0 1 1 g416\n2: isend 2 1 2 2 g747\n\
        0: isend 3 0 3 0 g1078\n0: irecv 16387 0 3 0 2048\n1: irecv 16386 2 2 2 2048\n\
        0: irecv 16385 1 1 1 2048\n2: irecv 16384 0 0 0 2048\n0: wait 0\n1: wait 1\n2: wait 2\n\
        0: wait 3\n2: wait 16384\n0: wait 16385\n1: wait 16386\n0: wait 16387\n";
    assert_eq!(rt; write(rt.alloc(), &script)?.as_str(), want);
    Ok(())
}
