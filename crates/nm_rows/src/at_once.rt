//! Two ranks of a run, and two threads of one rank, that meet at a gate: so both are at work at the same time.

use nm_multi::multi;
use nm_outside::PairGate;
use nm_script::read;
use nm_types::Shape;
use nm_world::run;
use std::alloc::Global;
use std::sync::Wait;
use std::test::Fail;
use std::thread::Threads;

const TEXT: &[u8] = b"ranks 2\n0: isend 0 1 7 0 x6869\n0: wait 0\n1: irecv 0 0 7 0 16\n1: wait 0\n";

// More looks than it takes another one that runs at the same time to come.
const LOOKS: u64 = 500_000_000;

// Whether a run of the script comes to its end.
fn is_done<R: Threads + Wait + Sync>(rt: &R, alloc: Global, gate: &PairGate) -> Result<bool, Fail> {
    let script = read(alloc, TEXT)?;
    let Ok(shape) = Shape::new(script.ranks, 8, 1024) else {
        return Ok(false);
    };
    let (record, _) = run(rt, alloc, &script, shape, gate)?;
    Ok(record.done)
}

#[test]
fn two_ranks_run_at_once(rt: HostRuntime) -> Result<(), Fail> {
    let gate = PairGate::new(LOOKS);
    assert!(rt; is_done(&rt, rt.alloc(), &gate)?);
    assert!(rt; gate.met());
    Ok(())
}

#[test]
fn two_threads_call_at_once(rt: HostRuntime) -> Result<(), Fail> {
    let gate = PairGate::new(LOOKS);
    let log = multi(&rt, rt.alloc(), 2, 1, &gate)?;
    assert_eq!(rt; log.len(), 10);
    assert!(rt; gate.met());
    Ok(())
}
