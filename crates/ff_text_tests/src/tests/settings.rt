// Documents and what is read from them.
mod accepted;
mod refused;

use accepted::{ACCEPTED, Accepted};
use ff_base::Geometry;
use ff_flash::CutAt;
use ff_settings::{BadSettings, Settings, settings};
use refused::REFUSED;
use std::alloc::Global;

fn sizes(geometry: &Geometry) -> [u32; 9] {
    [
        geometry.blocks,
        geometry.per_block,
        geometry.pages,
        geometry.sets,
        geometry.ways,
        geometry.frames,
        geometry.plb,
        geometry.window,
        geometry.low,
    ]
}

fn are_cuts(cuts: &[CutAt], wanted: &[(u64, u32, u32)]) -> bool {
    cuts.len() == wanted.len()
        && cuts.iter().zip(wanted).all(|(cut, wanted)| cut.at == wanted.0
            && cut.mask == wanted.1
            && cut.arrive == wanted.2)
}

// Why a document is refused, if it is.
fn refusal(alloc: Global, text: &[u8], threads: bool) -> Option<BadSettings> {
    settings(alloc, text, threads).err()
}

#[test]
fn the_first_refusal_is_told(rt: HostRuntime) {
    for (text, threads, wanted) in REFUSED.iter() {
        let found = refusal(rt.alloc(), text.as_bytes(), *threads);
        assert_eq!(rt; found, Some(*wanted), "at {text}");
    }
    assert_eq!(rt;
        refusal(rt.alloc(), b"# \xff", false),
        Some(BadSettings::Text)
    );
}

fn is_as_wanted(settings: &Settings, wanted: &Accepted) -> bool {
    let (_, _, geometry, fail, cuts, event, arrive) = wanted;
    sizes(&settings.geometry) == *geometry
        && settings.plan.fail.as_slice() == *fail
        && are_cuts(&settings.plan.cuts, cuts)
        && settings.power_event == *event
        && settings.power_arrive == *arrive
}

// Whether the settings of a document are as wanted, or why it is refused.
fn read(alloc: Global, wanted: &Accepted) -> Result<bool, BadSettings> {
    match settings(alloc, wanted.0.as_bytes(), wanted.1) {
        Ok(settings) => Ok(is_as_wanted(&settings, wanted)),
        Err(cause) => Err(cause),
    }
}

#[test]
fn settings_are_those_of_the_document(rt: HostRuntime) {
    for wanted in ACCEPTED.iter() {
        assert_eq!(rt; read(rt.alloc(), wanted), Ok(true), "at {}", wanted.0);
    }
}

// How many operations fail and how many are cut.
fn list_lengths(alloc: Global, text: &str) -> Option<(usize, usize)> {
    match settings(alloc, text.as_bytes(), false) {
        Ok(settings) => Some((settings.plan.fail.len(), settings.plan.cuts.len())),
        Err(_) => None,
    }
}

#[test]
fn the_longest_lists_are_accepted(rt: HostRuntime) {
    let text =
        "fail = [1, 2, 3, 4, 5, 6, 7, 8, 9, 10, 11, 12, 13, 14, 15, 16, 17, 18, 19, 20, 21, 22, 23, 24, 25, 26, 27, 28, 29, 30, 31, 32, 33, 34, 35, 36, 37, 38, 39, 40, 41, 42, 43, 44, 45, 46, 47, 48, 49, 50, 51, 52, 53, 54, 55, 56, 57, 58, 59, 60, 61, 62, 63, 64]";
    assert_eq!(rt; list_lengths(rt.alloc(), text), Some((64, 0)));
    let text =
        "cut = [{ at = 1, mask = 0, arrive = 0 }, { at = 2, mask = 0, arrive = 0 }, { at = 3, mask = 0, arrive = 0 }, { at = 4, mask = 0, arrive = 0 }, { at = 5, mask = 0, arrive = 0 }, { at = 6, mask = 0, arrive = 0 }, { at = 7, mask = 0, arrive = 0 }, { at = 8, mask = 0, arrive = 0 }, { at = 9, mask = 0, arrive = 0 }, { at = 10, mask = 0, arrive = 0 }, { at = 11, mask = 0, arrive = 0 }, { at = 12, mask = 0, arrive = 0 }, { at = 13, mask = 0, arrive = 0 }, { at = 14, mask = 0, arrive = 0 }, { at = 15, mask = 0, arrive = 0 }, { at = 16, mask = 0, arrive = 0 }]";
    assert_eq!(rt; list_lengths(rt.alloc(), text), Some((0, 16)));
}
