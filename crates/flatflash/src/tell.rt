// What is written of a run, and the status that it ends with.
ghost use Rattle.std.specs.Prelude.{◌≡◌, ◌<◌, ◌^◌, is_some, length, vec_len};
ghost use Rattle.std.specs.List.{list_any};
ghost use Rattle.ff_report.specs.RemountedFields.{remounted_view};
ghost use Rattle.ff_report.specs.SessionPartsFields.{view_of};
ghost use Rattle.ff_report.specs.Text.{session_text, summary_text};
ghost use Rattle.ff_report.specs.Wrote.{Wrote};
ghost use Rattle.flatflash.specs.Ending.{Tells, found_of, input_status, loaded, ran, refusal_status, refused, told_parts, sessions_text, sessions_status, settings_status, sink_change, summaries_text};

use crate::lines::line_of;
use crate::outcome::{
    BAD_INPUT, BAD_SETTINGS, DONE, NO_IMAGE, NO_MEMORY, Outcome, READ_FAULT, USAGE, WRITE_FAULT,
};
use crate::refusal::Refusal;
use ff_input::BadInput;
use ff_io::{Failed, Sink};
use ff_mount::MountStop;
use ff_report::{Remounted, SessionParts, write_session, write_summary};
use ff_sessions::Session;
use ff_settings::BadSettings;
use std::alloc::Global;

/// Writes the text of a refusal, and answers its status. For want of memory nothing is written.
pub fn tell_refusal<K: Sink>(alloc: Global, sink: &mut K, refusal: Refusal) -> Outcome
    ensures { Tells (sink_change K.written K.faults sink.old sink.new) (refused refusal)
        result.status result.sessions.items }
{
    let sessions = Vec::new(alloc);
    let status = status_of(refusal);
    if status == NO_MEMORY {
        return Outcome { status, sessions };
    }
    let status = match sink.write(line_of(refusal).as_slice()) {
        Ok(()) => status,
        Err(Failed) => WRITE_FAULT,
    };
    Outcome { status, sessions }
}

/// Writes the texts of the sessions, and answers with them.
pub fn tell_sessions<K: Sink>(sink: &mut K, sessions: Vec<Session>) -> Outcome
    requires { vec_len sessions < 2 ^ 32 }
    ensures { Tells (sink_change K.written K.faults sink.old sink.new) (ran sessions.items)
        result.status result.sessions.items }
{
    let status = match write_sessions(sink, &sessions) {
        Ok(()) => sessions_status(&sessions),
        Err(Failed) => WRITE_FAULT,
    };
    Outcome { status, sessions }
}

fn write_sessions<K: Sink>(sink: &mut K, sessions: &[Session]) -> Result<(), Failed>
    requires { length sessions.now < 2 ^ 32 }
    ensures { Wrote result (K.written sink.old) (K.written sink.new)
        (K.faults sink.old) (K.faults sink.new) (sessions_text 0 sessions.now) }
{
    for (at, session) in sessions.iter().enumerate() {
        match write_one(sink, at as u32, session) {
            Ok(()) => {}
            Err(failed) => return Err(failed),
        }
    }
    Ok(())
}

fn write_one<K: Sink>(sink: &mut K, at: u32, session: &Session) -> Result<(), Failed>
    ensures { Wrote result (K.written sink.old) (K.written sink.new)
        (K.faults sink.old) (K.faults sink.new) (session_text at (told_parts session.now)) }
{
    write_session(sink, at, &told_parts(session))
}

/// Writes the summaries of the sessions of a number's rows, and answers with them.
pub fn tell_summary<K: Sink>(sink: &mut K, number: u32, sessions: Vec<Session>) -> Outcome
    ensures { Tells (sink_change K.written K.faults sink.old sink.new)
        (loaded number sessions.items) result.status result.sessions.items }
{
    let status = match write_summaries(sink, number, &sessions) {
        Ok(()) => sessions_status(&sessions),
        Err(Failed) => WRITE_FAULT,
    };
    Outcome { status, sessions }
}

fn write_summaries<K: Sink>(sink: &mut K, number: u32, sessions: &[Session]) -> Result<(), Failed>
    ensures { Wrote result (K.written sink.old) (K.written sink.new)
        (K.faults sink.old) (K.faults sink.new) (summaries_text number sessions.now) }
{
    for session in sessions {
        match summarize(sink, number, session) {
            Ok(()) => {}
            Err(failed) => return Err(failed),
        }
    }
    Ok(())
}

fn summarize<K: Sink>(sink: &mut K, number: u32, session: &Session) -> Result<(), Failed>
    ensures { Wrote result (K.written sink.old) (K.written sink.new)
        (K.faults sink.old) (K.faults sink.new) (summary_text number (told_parts session.now)) }
{
    write_summary(sink, number, &told_parts(session))
}

// What the text of a session tells.
fn told_parts(session: &Session) -> SessionParts<'_>
    ensures { view_of result ≡ told_parts session.now }
{
    let account = &session.account;
    SessionParts {
        history: account.history(),
        turns: account.log().turn_counts(),
        counts: *account.counts(),
        kept: account.kept(),
        image: found_of(session),
    }
}

// The image that the remount after a session found, or why it found none.
fn found_of(session: &Session) -> Remounted<'_>
    ensures { remounted_view result ≡ found_of session.now.image session.now.stop }
{
    match (&session.image, session.stop) {
        (Some(image), _) => Remounted::Image(image),
        (None, Some(MountStop::Fault)) => Remounted::Fault,
        (None, _) => Remounted::Off,
    }
}

fn sessions_status(sessions: &[Session]) -> u8
    ensures { result ≡ sessions_status sessions.now }
{
    if are_stopped(sessions) {
        NO_IMAGE
    } else {
        DONE
    }
}

// Whether one of the sessions has no image.
fn are_stopped(sessions: &[Session]) -> bool
    ensures { result ≡ list_any (λ session. is_some session.stop) sessions.now }
{
    sessions.iter().any(|session| session.stop.is_some())
}

fn status_of(refusal: Refusal) -> u8
    ensures { result ≡ refusal_status refusal }
{
    match refusal {
        Refusal::NoMemory => NO_MEMORY,
        Refusal::Usage => USAGE,
        Refusal::Input(why) => input_status(why),
    }
}

fn input_status(why: BadInput) -> u8
    ensures { result ≡ input_status why }
{
    match why {
        BadInput::NoMemory => NO_MEMORY,
        BadInput::ReadFault => READ_FAULT,
        BadInput::TooLong => BAD_INPUT,
        BadInput::NoSeparator => BAD_INPUT,
        BadInput::BadSettings(why) => settings_status(why),
        BadInput::BadRow(_) => BAD_INPUT,
    }
}

fn settings_status(why: BadSettings) -> u8
    ensures { result ≡ settings_status why }
{
    match why {
        BadSettings::NoMemory => NO_MEMORY,
        BadSettings::Text => BAD_SETTINGS,
        BadSettings::Key => BAD_SETTINGS,
        BadSettings::Kind(_) => BAD_SETTINGS,
        BadSettings::Bound(_) => BAD_SETTINGS,
    }
}
