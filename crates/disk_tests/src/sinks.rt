//! Sinks in memory and over the two streams.

use aio_disk::{Sink, StdSink, WriteFault};
use fault_injection::MemSink;
use std::alloc::Global;
use std::fmt::Display;
use std::io;
use std::sync::atomic::{AtomicU64, Ordering};
use std::test::Fail;

#[test]
fn a_listed_write_takes_some_bytes_and_fails(rt: HostRuntime) -> Result<(), Fail> {
    let mut sink = MemSink::make(rt.alloc(), vec![in rt.alloc(); (2, 5), (3, 100)]?);
    assert!(rt; sink.write(b"whole, ").is_ok());
    assert!(rt; matches!(sink.write(b"page 0 0 new"), Err(WriteFault::Device)));
    assert!(rt; matches!(sink.write(b"short "), Err(WriteFault::Device)));
    assert!(rt; sink.write(b"end").is_ok());
    assert_eq!(rt; sink.bytes(), b"whole, page short end".as_slice());
    Ok(())
}

// One of the two streams.
#[derive(Clone, Copy, Debug, PartialEq, Eq)]
enum Stream {
    Out,
    Err,
}

// A runtime one of whose streams takes this text, and nothing else.
#[derive(Drop)]
struct OneStream {
    alloc: Global,
    open: Stream,
    text: &'static str,
    writes: AtomicU64,
}

impl OneStream {
    fn print_to(&self, stream: Stream, bytes: &[u8]) -> io::Result<()> {
        if stream == self.open && bytes == self.text.as_bytes() {
            self.writes.fetch_add(1, Ordering::SeqCst);
            Ok(())
        } else {
            Err(io::Error::from(io::ErrorKind::BrokenPipe))
        }
    }

    fn print_value<D: Display + Drop>(&self, stream: Stream, value: D) -> io::Result<()> {
        match format!(in self.alloc; "{value}") {
            Ok(text) => self.print_to(stream, text.as_bytes()),
            Err(_) => Err(io::Error::from(io::ErrorKind::OutOfMemory)),
        }
    }
}

impl Print for OneStream {
    fn print<D: Display + Drop>(&self, value: D) -> io::Result<()> {
        self.print_value(Stream::Out, value)
    }

    fn println<D: Display + Drop>(&self, _value: D) -> io::Result<()> {
        self.print_to(Stream::Out, b"")
    }

    fn write_all(&self, bytes: &[u8]) -> io::Result<()> {
        self.print_to(Stream::Out, bytes)
    }
}

impl Eprint for OneStream {
    fn eprint<D: Display + Drop>(&self, value: D) -> io::Result<()> {
        self.print_value(Stream::Err, value)
    }

    fn eprintln<D: Display + Drop>(&self, _value: D) -> io::Result<()> {
        self.print_to(Stream::Err, b"")
    }
}

// Whether a write to standard output or standard error is taken, where one of the two takes `text`
// alone.
fn is_taken(alloc: Global, open: Stream, stream: Stream, bytes: &[u8]) -> bool {
    let streams = OneStream {
        alloc,
        open,
        text: "text\n",
        writes: AtomicU64::new(0),
    };
    let taken = match stream {
        Stream::Out => StdSink::out(&streams).write(bytes).is_ok(),
        Stream::Err => StdSink::err(&streams).write(bytes).is_ok(),
    };
    taken && streams.writes.load(Ordering::SeqCst) == 1
}

// The stream that takes text, the stream that is written to, the bytes, and whether they are taken.
const WRITES: [(Stream, Stream, &[u8], bool); 7] = [
    (Stream::Out, Stream::Out, b"text\n", true),
    (Stream::Out, Stream::Err, b"text\n", false),
    (Stream::Err, Stream::Out, b"text\n", false),
    (Stream::Err, Stream::Err, b"text\n", true),
    (Stream::Out, Stream::Out, b"other", false),
    (Stream::Err, Stream::Err, b"other", false),
    (Stream::Err, Stream::Err, b"no text: \xff", false),
];

#[test]
fn each_stream_is_its_own(rt: HostRuntime) {
    for (open, stream, bytes, wanted) in WRITES {
        let taken = is_taken(rt.alloc(), open, stream, bytes);
        assert_eq!(rt; taken, wanted, "{bytes:?} to {stream:?}, {open:?} is open");
    }
}

#[test]
fn the_real_streams_take_text(rt: HostRuntime) {
    let mut out = StdSink::out(&rt);
    assert!(rt; out.write(b"to standard output\n").is_ok());
    let mut err = StdSink::err(&rt);
    assert!(rt; err.write(b"to standard error\n").is_ok());
}
