// Writes the summary of a session whose trace was generated.
ghost use Rattle.std.specs.Prelude.{◌≡◌, ◌∷◌, ◌++◌, []};
ghost use Rattle.ff_report.specs.SessionPartsFields.{view_of};
ghost use Rattle.ff_report.specs.Text.{calls_line, end_line, lines_text, load_line, number_lines, summary_text};
ghost use Rattle.ff_report.specs.Wrote.{Wrote};

use crate::counts::{calls_line_of, end_line_of, load_line_of};
use crate::session::number_lines_of;
use crate::writing::{write_line, write_lines};
use crate::{Line, SessionParts};
use ff_io::{Failed, Sink};

/// Writes the summary of a session whose trace was generated from the number: how many calls were
/// answered, and the session's numbers.
pub fn write_summary<K: Sink>(
    sink: &mut K,
    number: u32,
    session: &SessionParts<'_>,
) -> Result<(), Failed>
    ensures { Wrote result (K.written sink.old) (K.written sink.new)
        (K.faults sink.old) (K.faults sink.new) (summary_text number (view_of session.now)) }
{
    match write_lines(sink, &opening_lines_of(number, session.history.len())) {
        Ok(()) => write_numbers_and_end(sink, session),
        Err(failed) => Err(failed),
    }
}

fn write_numbers_and_end<K: Sink>(sink: &mut K, session: &SessionParts<'_>) -> Result<(), Failed>
    ensures { Wrote result (K.written sink.old) (K.written sink.new)
        (K.faults sink.old) (K.faults sink.new)
        (lines_text (number_lines (view_of session.now)) ++ end_line) }
{
    match write_lines(sink, &number_lines_of(session)) {
        Ok(()) => write_line(sink, &end_line_of()),
        Err(failed) => Err(failed),
    }
}

/// The lines that open a summary.
fn opening_lines_of(number: u32, calls: u32) -> [Line; 2]
    ensures { result ≡ load_line number ∷ calls_line calls ∷ [] }
{
    [load_line_of(number), calls_line_of(calls)]
}
