// Writes lines one after the other.
ghost use Rattle.ff_report.specs.Text.{lines_text};
ghost use Rattle.ff_report.specs.Wrote.{Wrote};

use crate::Line;
use ff_io::{Failed, Sink};

/// Writes a line by one write.
pub fn write_line<K: Sink>(sink: &mut K, line: &Line) -> Result<(), Failed>
    ensures { Wrote result (K.written sink.old) (K.written sink.new)
        (K.faults sink.old) (K.faults sink.new) line.now }
{
    sink.write(line.as_slice())
}

/// Writes lines, each by one write.
pub fn write_lines<K: Sink>(sink: &mut K, lines: &[Line]) -> Result<(), Failed>
    ensures { Wrote result (K.written sink.old) (K.written sink.new)
        (K.faults sink.old) (K.faults sink.new) (lines_text lines.now) }
{
    for line in lines {
        match write_line(sink, line) {
            Ok(()) => {}
            Err(failed) => return Err(failed),
        }
    }
    Ok(())
}
