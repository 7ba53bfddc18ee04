//! Standard output and standard error as sinks.
ghost use Rattle.std.specs.Prelude.{◌≡◌, None};

use crate::fault::counted;
use crate::{Sink, WriteFault};
use std::io;

// Which of the two streams.
#[derive(Clone, Copy)]
enum Stream {
    Out,
    Err,
}

/// Standard output or standard error. It does not tell what was written.
#[derive(Drop)]
pub struct StdSink<'r, R: Print + Eprint> {
    rt: &'r R,
    stream: Stream,
    faults: u64,
}

impl<'r, R: Print + Eprint> StdSink<'r, R> {
    /// Standard output.
    pub fn out(rt: &'r R) -> Self
        ensures written { ⟦<StdSink<'r, R> as Sink>⟧.written result ≡ None }
        ensures faults { ⟦<StdSink<'r, R> as Sink>⟧.faults result ≡ 0 }
    {
        StdSink {
            rt,
            stream: Stream::Out,
            faults: 0,
        }
    }

    /// Standard error, which takes text alone: bytes that are not UTF-8 are a device fault.
    pub fn err(rt: &'r R) -> Self
        ensures written { ⟦<StdSink<'r, R> as Sink>⟧.written result ≡ None }
        ensures faults { ⟦<StdSink<'r, R> as Sink>⟧.faults result ≡ 0 }
    {
        StdSink {
            rt,
            stream: Stream::Err,
            faults: 0,
        }
    }
}

fn write_stream<R: Print + Eprint>(rt: &R, stream: Stream, bytes: &[u8]) -> io::Result<()> {
    match stream {
        Stream::Out => rt.write_all(bytes),
        Stream::Err => match str::from_utf8(bytes) {
            Ok(text) => rt.eprint(text),
            Err(_) => Err(io::Error::from(io::ErrorKind::InvalidData)),
        },
    }
}

impl<R: Print + Eprint> Sink for StdSink<'_, R> {
    ghost written = { λ _. None };

    ghost faults = { λ sink. sink.faults };

    fn write(&mut self, bytes: &[u8]) -> Result<(), WriteFault> {
        let answer = write_stream(self.rt, self.stream, bytes);
        counted(answer, &mut self.faults).map_err(|_| WriteFault::Device)
    }
}
