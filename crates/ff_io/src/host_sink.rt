// A sink over a stream of the host.
ghost use Rattle.std.specs.Prelude.{◌≡◌, [], IfOk, OnOk};
ghost use Rattle.std.specs.Io.KnownBytes.{Keeps};
ghost use Rattle.ff_io.specs.Faults.{CountsFault};

use crate::retries::write_whole;
use crate::{Failed, Sink};
use ff_base::NoMemory;
use std::alloc::Global;
use std::io::{BufWriter, Stdout, Write};

/// How many bytes wait for the stream at most.
const BUFFER_BYTES: usize = 1 << 16;

/// A sink over a stream, by default standard output. What is written waits in a buffer until that
/// is full or flushed, so the stream has a prefix of it.
#[derive(Drop)]
pub struct HostSink<W: Write + Drop = Stdout> {
    output: BufWriter<W>,
    faults: u64,
}

impl<W: Write + Drop> HostSink<W> {
    ghost use Rattle.ff_io.specs.Host.{sink_faults, sink_stream, sink_waiting, sink_written};

    pub fn new(alloc: Global, output: W) -> Result<HostSink<W>, NoMemory>
        ensures stream { IfOk result (λ sink. sink_stream sink ≡ output) }
        ensures waiting { IfOk result (λ sink. sink_waiting sink ≡ []) }
        ensures faults { IfOk result (λ sink. sink_faults sink ≡ 0) }
    {
        match BufWriter::with_capacity(alloc, BUFFER_BYTES, output) {
            Ok(output) => Ok(HostSink { output, faults: 0 }),
            Err(_) => Err(NoMemory),
        }
    }

    /// Hands all that waits to the stream.
    pub fn flush(&mut self) -> Result<(), Failed>
        ensures ok { OnOk result (sink_waiting self.new ≡ []) }
        ensures kept { Keeps (sink_written W.contents self.old) (sink_written W.contents self.new) }
        ensures faults { CountsFault result (sink_faults self.old) (sink_faults self.new) }
    {
        match self.output.flush() {
            Ok(()) => Ok(()),
            Err(_) => {
                self.faults = self.faults.saturating_add(1);
                Err(Failed)
            }
        }
    }
}

impl<W: Write + Drop> Sink for HostSink<W> {
    ghost use Rattle.ff_io.specs.Host.{sink_faults, sink_written};

    ghost written = { λ s. sink_written W.contents s };

    ghost faults = { λ s. sink_faults s };

    fn write(&mut self, piece: &[u8]) -> Result<(), Failed> {
        let result = write_whole(&mut self.output, piece);
        if result.is_err() {
            self.faults = self.faults.saturating_add(1);
        }
        result
    }
}
