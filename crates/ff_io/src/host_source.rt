// A source over a stream of the host.
ghost use Rattle.std.specs.Prelude.{◌≡◌, ◌<◌, ◌≤◌, drop, length, take, vec_len, IfOk, OnErr};
ghost use Rattle.std.specs.Io.KnownBytes.{Consumes, IsAtEnd, Keeps};

use crate::front::copy_front;
use crate::retries::read_retried;
use crate::{Failed, Source};
use ff_base::NoMemory;
use std::alloc::Global;
use std::io::{Read, Stdin};

/// The most bytes of one read.
const CHUNK_BYTES: usize = 1 << 16;

/// A source over a stream, by default standard input.
#[derive(Drop)]
pub struct HostSource<R = Stdin> {
    input: R,
    chunk: Vec<u8>,
    faults: u64,
    ghost room: { 0 < vec_len chunk },
}

impl<R: Read + Drop> HostSource<R> {
    ghost use Rattle.ff_io.specs.Host.{source_faults, source_stream};

    pub fn new(alloc: Global, input: R) -> Result<HostSource<R>, NoMemory>
        ensures stream { IfOk result (λ source. source_stream source ≡ input) }
        ensures faults { IfOk result (λ source. source_faults source ≡ 0) }
    {
        Ok(HostSource {
            input,
            chunk: vec![in alloc; 0; CHUNK_BYTES]?,
            faults: 0,
        })
    }
}

impl<R: Read> Source for HostSource<R> {
    ghost use Rattle.ff_io.specs.Host.{source_faults, source_stream};

    ghost left = { λ s. R.remaining (source_stream s) };

    ghost faults = { λ s. source_faults s };

    fn read(&mut self, into: &mut [u8]) -> Result<usize, Failed> {
        let result = read_through(&mut self.input, &mut self.chunk, into);
        if result.is_err() {
            self.faults = self.faults.saturating_add(1);
        }
        result
    }
}

// One read by way of the chunk, since a stream may change all of the buffer that it reads into.
fn read_through<R: Read>(input: &mut R, chunk: &mut [u8], into: &mut [u8]) -> Result<usize, Failed>
    requires { 0 < length chunk.old }
    ensures bound { IfOk result (λ n. n ≤ length into.old) }
    ensures taken { IfOk result (λ n.
        Consumes (R.remaining input.old) (R.remaining input.new) (take n into.new)) }
    ensures end { IfOk result (λ n.
        n ≡ 0 → 0 < length into.old → IsAtEnd (R.remaining input.old)) }
    ensures behind { IfOk result (λ n. drop n into.new ≡ drop n into.old) }
    ensures kept { OnErr result (Keeps (R.remaining input.old) (R.remaining input.new)) }
    ensures unchanged { OnErr result (into.new ≡ into.old) }
{
    let most = into.len().min(chunk.len());
    match read_retried(input, &mut chunk[..most]) {
        Ok(count) => Ok(copy_front(&chunk[..count], into)),
        Err(failed) => Err(failed),
    }
}
