// Writes the whole text of a session.
ghost use Rattle.std.specs.Prelude.{◌≡◌, ◌++◌};
ghost use Rattle.ff_report.specs.ImageText.{image_text};
ghost use Rattle.ff_report.specs.RemountedFields.{remounted_view};
ghost use Rattle.ff_report.specs.SessionPartsFields.{view_of};
ghost use Rattle.ff_report.specs.Text.{end_line, lines_text, number_lines, session_text};
ghost use Rattle.ff_report.specs.Wrote.{Wrote};

use crate::calls::write_calls;
use crate::counts::{
    end_line_of, flash_line_of, kept_line_of, lines_line_of, moves_line_of, turns_line_of,
};
use crate::image::write_image;
use crate::image_lines::image_line_of;
use crate::writing::{write_line, write_lines};
use crate::{Line, Remounted, SessionParts};
use ff_io::{Failed, Sink};

/// Writes the text of a session, the `at`th from 0: its calls, its numbers, and the marks and
/// bytes of its image.
pub fn write_session<K: Sink>(
    sink: &mut K,
    at: u32,
    session: &SessionParts<'_>,
) -> Result<(), Failed>
    ensures { Wrote result (K.written sink.old) (K.written sink.new)
        (K.faults sink.old) (K.faults sink.new) (session_text at (view_of session.now)) }
{
    match write_calls(sink, at, session.history.as_slice()) {
        Ok(()) => write_rest(sink, session),
        Err(failed) => Err(failed),
    }
}

fn write_rest<K: Sink>(sink: &mut K, session: &SessionParts<'_>) -> Result<(), Failed>
    ensures { Wrote result (K.written sink.old) (K.written sink.new)
        (K.faults sink.old) (K.faults sink.new)
        (lines_text (number_lines (view_of session.now))
        ++ (image_text (view_of session.now).image ++ end_line)) }
{
    match write_lines(sink, &number_lines_of(session)) {
        Ok(()) => write_image_and_end(sink, &session.image),
        Err(failed) => Err(failed),
    }
}

fn write_image_and_end<K: Sink>(sink: &mut K, image: &Remounted<'_>) -> Result<(), Failed>
    ensures { Wrote result (K.written sink.old) (K.written sink.new)
        (K.faults sink.old) (K.faults sink.new)
        (image_text (remounted_view image.now) ++ end_line) }
{
    match write_image(sink, image) {
        Ok(()) => write_line(sink, &end_line_of()),
        Err(failed) => Err(failed),
    }
}

/// The lines of a session's numbers.
pub fn number_lines_of(session: &SessionParts<'_>) -> [Line; 6]
    ensures { result ≡ number_lines (view_of session.now) }
{
    [
        turns_line_of(&session.turns),
        lines_line_of(&session.counts),
        moves_line_of(&session.counts),
        flash_line_of(&session.counts),
        kept_line_of(session.kept),
        image_line_of(&session.image),
    ]
}
