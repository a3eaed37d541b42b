// Sources and sinks that fail, in memory and over streams.
use ff_io::{Failed, HostSink, HostSource, MemorySink, MemorySource, Sink, Source};
use std::io::{self, ErrorKind, Read, Write};
use std::test::Fail;

// Reads of two bytes one after the other: what each answers, and what is held then.
static READS: [(Result<usize, Failed>, [u8; 2]); 5] = [
    (Ok(2), [1, 2]),
    (Err(Failed), [1, 2]),
    (Ok(2), [3, 4]),
    (Ok(1), [5, 4]),
    (Ok(0), [5, 4]),
];

// The first read that gives something else.
fn first_other_read(source: &mut MemorySource) -> Option<usize> {
    let mut into = [0; 2];
    for (number, (answer, held)) in READS.iter().enumerate() {
        if read_from(source, &mut into) != *answer || into != *held {
            return Some(number);
        }
    }
    None
}

#[test]
fn a_source_fails_at_its_second_read(rt: HostRuntime) -> Result<(), Fail> {
    let bytes = vec![in rt.alloc(); 1, 2, 3, 4, 5]?;
    let fail = vec![in rt.alloc(); 2]?;
    let mut source = MemorySource::new(bytes, fail);
    let found = (first_other_read(&mut source), source.faults());
    drop(source);
    assert_eq!(rt; found, (None, 1));
    Ok(())
}

// Pieces that are written one after the other, what each write answers, and what is written then.
static WRITES: [OneWrite; 5] = [
    (&[1, 2], Ok(()), &[1, 2]),
    (&[3], Err(Failed), &[1, 2]),
    (&[3, 4, 5], Err(Failed), &[1, 2]),
    (&[3, 4], Ok(()), &[1, 2, 3, 4]),
    (&[], Ok(()), &[1, 2, 3, 4]),
];

type OneWrite = (&'static [u8], Result<(), Failed>, &'static [u8]);

fn is_written_so(sink: &mut MemorySink, (piece, answer, written): &OneWrite) -> bool {
    let found = write_to(sink, piece);
    found == *answer && are_same(sink.written(), written)
}

fn are_same(one: &[u8], other: &[u8]) -> bool {
    one == other
}

// The first write that gives something else.
fn first_other_write(sink: &mut MemorySink) -> Option<usize> {
    for (number, row) in WRITES.iter().enumerate() {
        if !is_written_so(sink, row) {
            return Some(number);
        }
    }
    None
}

#[test]
fn a_sink_fails_at_its_second_write_and_where_a_piece_does_not_fit(
    rt: HostRuntime,
) -> Result<(), Fail> {
    let fail = vec![in rt.alloc(); 2]?;
    let mut sink = MemorySink::new(rt.alloc(), 4, fail)?;
    let found = (first_other_write(&mut sink), sink.faults());
    drop(sink);
    assert_eq!(rt; found, (None, 2));
    Ok(())
}

type TwoReads = (Result<usize, Failed>, [u8; 2], Result<usize, Failed>);

// Two reads over fours, and what the first left of them.
fn two_reads(source: &mut impl Source) -> TwoReads {
    let mut into = [4; 2];
    let first = read_from(source, &mut into);
    let held = into;
    (first, held, read_from(source, &mut into))
}

#[test]
fn a_stream_that_fails_is_a_failed_read(rt: HostRuntime) -> Result<(), Fail> {
    for (interruptions, failures, answer, held) in [
        (0, 0, Ok(1), [9, 4]),
        (999, 0, Ok(1), [9, 4]),
        (1000, 0, Err(Failed), [4, 4]),
        (0, 1, Err(Failed), [4, 4]),
    ] {
        let stream = Stream {
            interruptions,
            failures,
        };
        let mut source = HostSource::new(rt.alloc(), stream)?;
        assert_eq!(rt; two_reads(&mut source), (answer, held, Ok(1)));
    }
    Ok(())
}

// Two writes and two flushes.
fn writes(sink: &mut HostSink<Stream>, long: &[u8]) -> [Result<(), Failed>; 4] {
    [
        write_to(sink, b"a line\n"),
        write_to(sink, long),
        sink.flush(),
        sink.flush(),
    ]
}

#[test]
fn a_stream_that_fails_is_a_failed_write(rt: HostRuntime) -> Result<(), Fail> {
    let long = vec![in rt.alloc(); 7; 100_000]?;
    for (interruptions, failures, written, flushed) in [
        (0, 0, Ok(()), Ok(())),
        (999, 0, Ok(()), Ok(())),
        (0, 1, Err(Failed), Ok(())),
        (0, 2, Err(Failed), Err(Failed)),
    ] {
        let stream = Stream {
            interruptions,
            failures,
        };
        let mut sink = HostSink::new(rt.alloc(), stream)?;
        assert_eq!(rt;
            writes(&mut sink, &long),
            [Ok(()), written, flushed, Ok(())]
        );
    }
    Ok(())
}

#[test]
fn standard_streams_are_read_and_written(rt: HostRuntime) -> Result<(), Fail> {
    let mut source = HostSource::new(rt.alloc(), rt.stdin())?;
    assert_eq!(rt; read_from(&mut source, &mut []), Ok(0));
    let mut sink = HostSink::new(rt.alloc(), rt.stdout())?;
    let written = (write_to(&mut sink, b"a line\n"), sink.flush());
    assert_eq!(rt; written, (Ok(()), Ok(())));
    Ok(())
}

fn read_from(source: &mut impl Source, into: &mut [u8]) -> Result<usize, Failed> {
    source.read(into)
}

fn write_to(sink: &mut impl Sink, piece: &[u8]) -> Result<(), Failed> {
    sink.write(piece)
}

/// A stream whose first calls are interrupted, and whose next ones fail.
#[derive(Drop)]
struct Stream {
    interruptions: u32,
    failures: u32,
}

impl Stream {
    fn next_call(&mut self) -> io::Result<()> {
        if self.interruptions > 0 {
            self.interruptions -= 1;
            return Err(io::Error::from(ErrorKind::Interrupted));
        }
        if self.failures > 0 {
            self.failures -= 1;
            return Err(io::Error::from(ErrorKind::BrokenPipe));
        }
        Ok(())
    }
}

impl Read for Stream {
    fn read(&mut self, into: &mut [u8]) -> io::Result<usize> {
        into.fill(9);
        self.next_call()?;
        Ok(into.len().min(1))
    }
}

impl Write for Stream {
    fn write(&mut self, piece: &[u8]) -> io::Result<usize> {
        self.next_call()?;
        Ok(piece.len())
    }

    fn flush(&mut self) -> io::Result<()> {
        Ok(())
    }
}
