// The texts of sessions, each written whole, and cut off by each of its writes that fails.

mod sessions;
mod texts;

use ff_base::NoMemory;
use ff_io::{Failed, MemorySink};
use ff_report::{SessionParts, write_session, write_summary};
use sessions::{
    Remount, Session, every_form, mark_of_a_line, mark_of_a_promoted_page, mark_out_of_range,
    store_into_a_promotion, two_stores_and_a_load, without_calls, without_image,
};
use std::alloc::Global;
use std::test::Fail;
use texts::{Made, TEXTS, Text};

fn write(sink: &mut MemorySink, text: Text, parts: &SessionParts<'_>) -> Result<(), Failed> {
    match text {
        Text::Session(at) => write_session(sink, at, parts),
        Text::Summary(number) => write_summary(sink, number, parts),
    }
}

fn make(alloc: Global, made: Made) -> Result<Session, NoMemory> {
    match made {
        Made::WithoutCalls => without_calls(alloc),
        Made::TwoStoresAndALoad => two_stores_and_a_load(alloc),
        Made::StoreIntoAPromotion => store_into_a_promotion(alloc),
        Made::MarkOfAPromotedPage => mark_of_a_promoted_page(alloc),
        Made::MarkOfALine(arrived) => mark_of_a_line(alloc, arrived),
        Made::MarkOutOfRange => mark_out_of_range(alloc),
        Made::WithFault => without_image(alloc, Remount::Fault),
        Made::WithoutPower => without_image(alloc, Remount::Off),
        Made::EveryForm => every_form(alloc),
    }
}

// Whether a text is this one where no write fails, and otherwise the lines before the write that
// fails. So a line is one write, and after a failure there is none.
fn is_text(
    alloc: Global,
    text: Text,
    parts: &SessionParts<'_>,
    wanted: &str,
) -> Result<bool, NoMemory> {
    let wanted = wanted.as_bytes();
    let mut is_as_wanted = is_cut(alloc, text, parts, 1, b"", true)?;
    let mut failing: u64 = 1;
    for (at, byte) in wanted.iter().enumerate() {
        if *byte == b'\n' {
            let front = &wanted[..at + 1];
            let fails = front.len() < wanted.len();
            failing = failing.saturating_add(1);
            is_as_wanted &= is_cut(alloc, text, parts, failing, front, fails)?;
        }
    }
    Ok(is_as_wanted)
}

// Whether these bytes are written where the `failing`th write fails, counted from 1.
fn is_cut(
    alloc: Global,
    text: Text,
    parts: &SessionParts<'_>,
    failing: u64,
    wanted: &[u8],
    fails: bool,
) -> Result<bool, NoMemory> {
    let mut sink = MemorySink::new(alloc, 4096, vec![in alloc; failing]?)?;
    let result = write(&mut sink, text, parts);
    let is_answer = result == if fails { Err(Failed) } else { Ok(()) };
    Ok(is_answer && sink.written() == wanted && sink.faults() == u64::from(fails))
}

#[test]
fn each_text_is_written_line_by_line(rt: HostRuntime) -> Result<(), Fail> {
    for (at, (made, text, wanted)) in TEXTS.iter().enumerate() {
        let session = make(rt.alloc(), *made)?;
        let is_as_wanted = is_text(rt.alloc(), *text, &session.parts(), wanted)?;
        assert!(rt; is_as_wanted, "text {at}");
    }
    Ok(())
}
