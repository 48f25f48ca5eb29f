//! What no clause says: that reading succeeds, how large its buffers are, what the std ends hand on,
//! and who met at a gate.

ghost use Rattle.std.specs.Prelude.{◌≡◌, IfOk};

use nm_outside::{Failed, Gate, PairGate, RealSink, RealSource, Sink, Source, read_up_to};
use std::io;
use std::io::{Read, Write};
use std::process::Abort;
use std::test::Fail;

const TEXT: &[u8] = b"0 3 sent\n1 2 got 0 7 2 x0102\ncells 16\n";

/// A reader and a writer of which the calls so far are counted. Each call fails until `fails` of
/// them did; then each takes and gives all that it is handed.
#[derive(Drop)]
struct Counted {
    calls: u64,
    fails: u64,
    longest: usize,
}

impl Counted {
    fn new(fails: u64) -> Counted {
        Counted {
            calls: 0,
            fails,
            longest: 0,
        }
    }

    fn call(&mut self, len: usize) -> io::Result<usize>
        ensures { IfOk result (λ count. count ≡ len) }
    {
        self.calls = self.calls.saturating_add(1);
        self.longest = self.longest.max(len);
        if self.calls <= self.fails {
            return Err(io::ErrorKind::Interrupted.into());
        }
        Ok(len)
    }
}

impl Read for Counted {
    fn read(&mut self, buf: &mut [u8]) -> io::Result<usize> {
        self.call(buf.len())
    }
}

impl Write for Counted {
    fn write(&mut self, buf: &[u8]) -> io::Result<usize> {
        self.call(buf.len())
    }

    fn flush(&mut self) -> io::Result<()> {
        Ok(())
    }
}

fn read_by_hand(rt: &impl Abort, source: &mut RealSource<Counted>) {
    let mut buffer = [0u8; 40];
    assert_eq!(rt; source.read(&mut buffer), Err(Failed));
    assert_eq!(rt; source.read(&mut buffer), Err(Failed));
    assert_eq!(rt; source.read(&mut buffer), Ok(40));
    assert_eq!(rt; source.reader.longest, 40);
}

#[test]
fn each_read_is_one_read_of_the_reader_and_each_error_is_counted(
    rt: HostRuntime,
) -> Result<(), Fail> {
    let mut source = RealSource::new(Counted::new(2));
    read_by_hand(&rt, &mut source);
    // by buffers of 4,096, 4,096 and 808 bytes
    let len = read_up_to(rt.alloc(), &mut source, 9_000)?.len();
    assert_eq!(rt; len, 9_000);
    let RealSource { reader, faults } = source;
    assert_eq!(rt; (reader.calls, reader.longest, faults), (6, 4_096, 2));
    Ok(())
}

#[test]
fn each_write_is_one_write_of_all_and_each_error_is_counted(rt: HostRuntime) {
    let mut sink = RealSink::new(Counted::new(1));
    assert_eq!(rt; sink.write(TEXT), Err(Failed));
    assert_eq!(rt; sink.write(TEXT), Ok(38));
    let RealSink { writer, faults } = sink;
    assert_eq!(rt; (writer.calls, writer.longest, faults), (2, 38, 1));
}

#[test]
fn one_rank_alone_meets_nobody(rt: HostRuntime) {
    let gate = PairGate::new(3);
    assert!(rt; !gate.met());
    gate.turn(0);
    gate.turn(0);
    gate.turn(2);
    assert!(rt; !gate.met());
    // the second finds the first one's mark, and the first, which looks on its first turn alone,
    // has found none
    gate.turn(1);
    gate.turn(0);
    assert!(rt; !gate.met());
}
