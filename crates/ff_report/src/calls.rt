// Writes the calls of a session.
ghost use Rattle.ff_report.specs.EntryText.{entries_text};
ghost use Rattle.ff_report.specs.Text.{calls_text};
ghost use Rattle.ff_report.specs.Wrote.{Wrote};

use crate::counts::session_line_of;
use crate::entry::entry_line_of;
use crate::writing::write_line;
use ff_io::{Failed, Sink};
use ff_model::Entry;

/// Writes the line that opens a session, and a line an entry.
pub fn write_calls<K: Sink>(sink: &mut K, at: u32, entries: &[Entry]) -> Result<(), Failed>
    ensures { Wrote result (K.written sink.old) (K.written sink.new)
        (K.faults sink.old) (K.faults sink.new) (calls_text at entries.now) }
{
    match write_line(sink, &session_line_of(at)) {
        Ok(()) => write_entries(sink, entries),
        Err(failed) => Err(failed),
    }
}

fn write_entries<K: Sink>(sink: &mut K, entries: &[Entry]) -> Result<(), Failed>
    ensures { Wrote result (K.written sink.old) (K.written sink.new)
        (K.faults sink.old) (K.faults sink.new) (entries_text entries.now) }
{
    for entry in entries {
        match write_line(sink, &entry_line_of(entry)) {
            Ok(()) => {}
            Err(failed) => return Err(failed),
        }
    }
    Ok(())
}
