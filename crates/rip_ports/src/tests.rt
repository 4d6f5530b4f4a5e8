//! Tests of the sources, sinks and gates.

use crate::{Failed, Gate, MemSink, MemSource, OpenGate, Sink, Source, StdSink, StdSource};
use std::alloc::Global;
use std::io;
use std::io::{ErrorKind, Read, Write};
use std::process::Abort;
use std::test::Fail;

/// An interrupted read, which is done again, and one that fails and loses no byte.
static READ: [Option<&[u8]>; 5] = [Some(b"ab"), Some(b"c"), None, Some(b"d"), Some(b"")];

/// Short and interrupted writes, a failure in mid-piece, a write that takes nothing, an interrupted flush, and a
/// flush that fails.
static WRITTEN: [(&[u8], bool); 5] = [
    (b"abc", true),
    (b"defg", false),
    (b"h", false),
    (b"i", true),
    (b"j", false),
];

/// Two bytes a take, the second of which fails.
static GIVEN: [Option<&[u8]>; 5] = [Some(b"he"), None, Some(b"ll"), Some(b"o"), Some(b"")];

/// A step of 0 acts as 1.
static GIVEN_BY_ONES: [Option<&[u8]>; 3] = [Some(b"h"), Some(b"i"), Some(b"")];

/// The second piece doesn't fit.
static SHORT: [(&[u8], bool); 2] = [(b"ab", true), (b"cd", false)];

/// The second put keeps two of five bytes, and the fourth one of four, since no more fits.
static HALVED: [(&[u8], bool); 4] = [
    (b"abc", true),
    (b"defgh", false),
    (b"fgh", true),
    (b"ijkl", false),
];

/// Takes into room for four bytes, and compares what comes: some bytes, or `None` where the take fails.
fn check_takes<S: Source>(rt: &impl Abort, source: &mut S, wanted: &[Option<&[u8]>]) {
    for wanted in wanted {
        let mut into = [0; 4];
        let taken = source.take(&mut into).ok();
        assert_eq!(rt; taken.map(|count| &into[..count]), *wanted);
    }
}

/// Puts pieces, and compares whether each is taken.
fn check_puts<P: Sink>(rt: &impl Abort, sink: &mut P, pieces: &[(&[u8], bool)]) {
    for (piece, is_taken) in pieces {
        assert_eq!(rt; sink.put(piece).is_ok(), *is_taken);
    }
}

fn pass<G: Gate + Sync>(gate: &G) {
    gate.before(1);
    gate.after(1);
}

/// Reads as a table says, call by call, and then is at its end.
#[derive(Drop)]
struct FakeReader {
    calls: usize,
}

impl Read for FakeReader {
    fn read(&mut self, buf: &mut [u8]) -> io::Result<usize> {
        self.calls = self.calls.saturating_add(1);
        if buf.len() < 2 {
            return Ok(0);
        }
        match self.calls {
            1 => {
                buf[0] = b'a';
                buf[1] = b'b';
                Ok(2)
            }
            2 => Err(io::Error::from(ErrorKind::Interrupted)),
            3 => {
                buf[0] = b'c';
                Ok(1)
            }
            4 => Err(io::Error::from(ErrorKind::BrokenPipe)),
            5 => {
                buf[0] = b'd';
                Ok(1)
            }
            _ => Ok(0),
        }
    }
}

/// Takes at most two bytes a write, and fails as a table says.
#[derive(Drop)]
struct FakeWriter {
    kept: Vec<u8>,
    writes: usize,
    flushes: usize,
}

impl FakeWriter {
    fn new(alloc: Global) -> FakeWriter {
        FakeWriter {
            kept: Vec::new(alloc),
            writes: 0,
            flushes: 0,
        }
    }
}

impl Write for FakeWriter {
    fn write(&mut self, buf: &[u8]) -> io::Result<usize> {
        self.writes = self.writes.saturating_add(1);
        match self.writes {
            2 => Err(io::Error::from(ErrorKind::Interrupted)),
            5 => Err(io::Error::from(ErrorKind::BrokenPipe)),
            6 => Ok(0),
            _ => {
                let count = buf.len().min(2);
                self.kept.extend_from_slice(&buf[..count])?;
                Ok(count)
            }
        }
    }

    fn flush(&mut self) -> io::Result<()> {
        self.flushes = self.flushes.saturating_add(1);
        match self.flushes {
            2 => Err(io::Error::from(ErrorKind::Interrupted)),
            4 => Err(io::Error::from(ErrorKind::BrokenPipe)),
            _ => Ok(()),
        }
    }
}

fn check_std_source(rt: &impl Abort) {
    let mut source = StdSource::new(FakeReader { calls: 0 });
    check_takes(rt, &mut source, &READ);
}

fn check_std_sink(rt: &impl Abort, alloc: Global) {
    let mut writer = FakeWriter::new(alloc);
    check_puts(rt, &mut StdSink::new(&mut writer), &WRITTEN);
    assert_eq!(rt; writer.kept.as_slice(), b"abcdeij".as_slice());
}

fn check_mem_source(rt: &impl Abort, bytes: Vec<u8>, fail: Vec<u64>) {
    check_takes(rt, &mut MemSource::new(bytes, 2, fail), &GIVEN);
}

fn check_mem_source_by_ones(rt: &impl Abort, bytes: Vec<u8>, fail: Vec<u64>) {
    check_takes(rt, &mut MemSource::new(bytes, 0, fail), &GIVEN_BY_ONES);
}

fn check_mem_sink(rt: &impl Abort, mut sink: MemSink, pieces: &[(&[u8], bool)], wanted: &[u8]) {
    check_puts(rt, &mut sink, pieces);
    assert_eq!(rt; sink.bytes(), wanted);
}

#[test]
fn adapters(rt: HostRuntime) {
    check_std_source(&rt);
    check_std_sink(&rt, rt.alloc());
}

#[test]
fn ports_in_memory(rt: HostRuntime) -> Result<(), Fail> {
    let alloc = rt.alloc();
    check_mem_source(&rt, b"hello".to_vec(alloc)?, [2].to_vec(alloc)?);
    check_mem_source_by_ones(&rt, b"hi".to_vec(alloc)?, Vec::new(alloc));
    check_mem_sink(&rt, MemSink::new(alloc, 3, Vec::new(alloc))?, &SHORT, b"ab");
    check_mem_sink(
        &rt,
        MemSink::new(alloc, 9, [2, 4].to_vec(alloc)?)?,
        &HALVED,
        b"abcdefghi",
    );
    pass(&OpenGate);
    Ok(())
}
