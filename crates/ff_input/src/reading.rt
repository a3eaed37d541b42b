// What an input asks for: its settings and the rows of its trace.
ghost use Rattle.std.specs.Prelude.{◌≡◌, ◌≤◌, IfOk, IfErr, Ok, false};
ghost use Rattle.ff_settings.specs.Bounds.{IsSettingsSound};
ghost use Rattle.ff_settings.specs.Document.{IsAnswer, settings_view};
ghost use Rattle.ff_trace.specs.Tally.{most_losses};
ghost use Rattle.ff_trace.specs.Trace.{IsTrace};
ghost use Rattle.ff_trace.specs.Within.{AreWithin};
ghost use Rattle.ff_input.specs.Asking.{AreAsked, Asks, IsInputCause, IsPartsCause, IsRowsRefusal, IsSettingsRefusal, cut_count, one_thread};
ghost use Rattle.ff_input.specs.Input.{HasParts, source_change};

use crate::input_bytes::{ReadStop, parts_of, read_all};
use ff_io::Source;
use ff_settings::{BadSettings, Settings, settings};
use ff_trace::{BadTrace, Row, trace};
use std::alloc::Global;

/// What an input asks for.
#[derive(Drop)]
pub struct Asked {
    pub settings: Settings,
    pub rows: Vec<Row>,
}

/// Why an input is refused.
#[derive(Clone, Copy, Debug, PartialEq, Eq)]
pub enum BadInput {
    /// Memory ran out. No contract says when that comes.
    NoMemory,
    /// A read of the source failed.
    ReadFault,
    /// The input is longer than `INPUT_LIMIT` bytes.
    TooLong,
    /// No line of the input is `---`.
    NoSeparator,
    /// The settings are refused.
    BadSettings(BadSettings),
    /// The number of the trace's first record that is bad under the settings. The header is record 0.
    BadRow(u32),
}

/// Reads the whole input: its settings, and the rows of its trace.
pub fn read_asked<S: Source>(alloc: Global, source: &mut S) -> Result<Asked, BadInput>
    ensures ok { IfOk result (λ asked. Asks (source_change S.left S.faults source.old source.new)
        (settings_view asked.settings) asked.rows.items) }
    ensures sound { IfOk result (λ asked. IsSettingsSound (settings_view asked.settings)) }
    ensures within { IfOk result (λ asked.
        AreWithin (cut_count (settings_view asked.settings)) asked.rows.items) }
    ensures err { IfErr result
        (IsInputCause (source_change S.left S.faults source.old source.new)) }
{
    match read_all(alloc, source) {
        Ok(input) => read_parts(alloc, &input),
        Err(ReadStop::NoMemory) => Err(BadInput::NoMemory),
        Err(ReadStop::Fault) => Err(BadInput::ReadFault),
        Err(ReadStop::TooLong) => Err(BadInput::TooLong),
    }
}

fn read_parts(alloc: Global, input: &[u8]) -> Result<Asked, BadInput>
    ensures ok { IfOk result (λ asked.
        HasParts (AreAsked (settings_view asked.settings) asked.rows.items) input.now) }
    ensures sound { IfOk result (λ asked. IsSettingsSound (settings_view asked.settings)) }
    ensures within { IfOk result (λ asked.
        AreWithin (cut_count (settings_view asked.settings)) asked.rows.items) }
    ensures err { IfErr result (IsPartsCause input.now) }
{
    let Some(parts) = parts_of(input) else {
        return Err(BadInput::NoSeparator);
    };
    let settings = read_settings(alloc, parts.settings)?;
    let rows = read_rows(alloc, parts.trace, cut_count(&settings))?;
    Ok(Asked { settings, rows })
}

fn read_settings(alloc: Global, bytes: &[u8]) -> Result<Settings, BadInput>
    ensures ok { IfOk result (λ settings.
        IsAnswer bytes.now false (Ok (settings_view settings))) }
    ensures sound { IfOk result (λ settings. IsSettingsSound (settings_view settings)) }
    ensures err { IfErr result (IsSettingsRefusal bytes.now) }
{
    match settings(alloc, bytes, false) {
        Ok(settings) => Ok(settings),
        Err(BadSettings::NoMemory) => Err(BadInput::NoMemory),
        Err(bad) => Err(BadInput::BadSettings(bad)),
    }
}

// How many cuts the settings plan.
fn cut_count(settings: &Settings) -> u32
    requires { IsSettingsSound (settings_view settings.now) }
    ensures { result ≡ cut_count (settings_view settings.now) }
{
    settings.plan.cuts.len() as u32
}

#[tactic(auto, using(ff_trace::proofs::RowsWithin::rows_within))]
fn read_rows(alloc: Global, bytes: &[u8], cuts: u32) -> Result<Vec<Row>, BadInput>
    requires { cuts ≤ most_losses }
    ensures ok { IfOk result (λ rows. IsTrace (one_thread cuts) bytes.now rows.items) }
    ensures within { IfOk result (λ rows. AreWithin cuts rows.items) }
    ensures err { IfErr result (IsRowsRefusal (one_thread cuts) bytes.now) }
{
    match trace(alloc, bytes, cuts, false) {
        Ok(rows) => Ok(rows),
        Err(BadTrace::Row(number)) => Err(BadInput::BadRow(number)),
        Err(BadTrace::NoMemory) => Err(BadInput::NoMemory),
    }
}
