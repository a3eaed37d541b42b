// Reads and writes that are tried again where a signal interrupts them.
ghost use Rattle.std.specs.Prelude.{◌≡◌, ◌<◌, ◌≤◌, length, take, IfOk, OnOk, OnErr};
ghost use Rattle.std.specs.Io.KnownBytes.{Appends, Consumes, IsAtEnd, Keeps};
ghost use Rattle.ff_io.specs.Known.{AppendsPrefix};

use crate::Failed;
use std::io::{ErrorKind, Read, Write};

/// How often one read or write is tried.
const TRIES: u32 = 1_000;

/// One read. It may change the whole buffer, also where it fails.
pub(crate) fn read_retried<R: Read>(input: &mut R, into: &mut [u8]) -> Result<usize, Failed>
    ensures bound { IfOk result (λ n. n ≤ length into.old) }
    ensures taken { IfOk result (λ n.
        Consumes (R.remaining input.old) (R.remaining input.new) (take n into.new)) }
    ensures end { IfOk result (λ n.
        n ≡ 0 → 0 < length into.old → IsAtEnd (R.remaining input.new)) }
    ensures kept { OnErr result (Keeps (R.remaining input.old) (R.remaining input.new)) }
{
    for _ in 0..TRIES {
        match input.read(into) {
            Ok(count) => return Ok(count),
            Err(error) if error.kind() == ErrorKind::Interrupted => {}
            Err(_) => return Err(Failed),
        }
    }
    Err(Failed)
}

/// Writes the whole piece, or fails with a prefix of it written.
pub(crate) fn write_whole<W: Write>(output: &mut W, piece: &[u8]) -> Result<(), Failed>
    ensures ok { OnOk result (Appends (W.contents output.old) (W.contents output.new) piece.now) }
    ensures err { OnErr result
        (AppendsPrefix (W.contents output.old) (W.contents output.new) piece.now) }
{
    let mut written = 0;
    while written < piece.len() {
        written += write_retried(output, &piece[written..])?;
    }
    Ok(())
}

// One write of a piece that isn't empty.
fn write_retried<W: Write>(output: &mut W, piece: &[u8]) -> Result<usize, Failed>
    ensures some { IfOk result (λ n. 0 < n) }
    ensures bound { IfOk result (λ n. n ≤ length piece.now) }
    ensures written { IfOk result (λ n.
        Appends (W.contents output.old) (W.contents output.new) (take n piece.now)) }
    ensures kept { OnErr result (Keeps (W.contents output.old) (W.contents output.new)) }
{
    for _ in 0..TRIES {
        match output.write(piece) {
            Ok(0) => return Err(Failed),
            Ok(count) => return Ok(count),
            Err(error) if error.kind() == ErrorKind::Interrupted => {}
            Err(_) => return Err(Failed),
        }
    }
    Err(Failed)
}
