// The bounds of settings.

ghost use Rattle.std.specs.Prelude.{◌≡◌, not, find};
ghost use Rattle.std.specs.List.{list_all};
ghost use Rattle.ff_flash.specs.Plans.{cut_numbers, is_listed};
ghost use Rattle.ff_settings.specs.Bounds.{are_cuts_beside, are_fails, event_fits, first_beyond, fits_in_cut, is_within, rises_from};
ghost use Rattle.ff_settings.specs.Given.{as_cuts, given_view};
ghost use Rattle.ff_settings.specs.Names.{later_names};

use crate::cuts::WideCut;
use crate::names::{SettingName, name_of};
use crate::reading::Given;
use ff_base::LAST_EVENT;

const MOST_FAILS: usize = 64;

const MOST_CUTS: usize = 16;

/// The first setting that is out of its bounds.
pub(crate) fn first_beyond(given: &Given) -> Option<SettingName>
    ensures { result ≡ first_beyond (given_view given.now) }
{
    match given.geometry.check() {
        Err(limit) => Some(name_of(limit.name)),
        Ok(()) => later_beyond(given),
    }
}

fn later_beyond(given: &Given) -> Option<SettingName>
    ensures { result ≡ find (λ name. not (is_within (given_view given.now) name)) later_names }
{
    if !are_fails(&given.fail) {
        Some(SettingName::Fail)
    } else if !are_cuts_beside(&given.fail, &given.cuts) {
        Some(SettingName::Cut)
    } else if !event_fits(given.power_event) {
        Some(SettingName::PowerEvent)
    } else if given.power_arrive > 0xffff_ffff {
        Some(SettingName::PowerArrive)
    } else {
        None
    }
}

fn event_fits(event: Option<u64>) -> bool
    ensures { result ≡ event_fits event }
{
    match event {
        Some(event) => event <= LAST_EVENT,
        None => true,
    }
}

fn are_fails(fail: &[u64]) -> bool
    ensures { result ≡ are_fails fail.now }
{
    fail.len() <= MOST_FAILS && fails_rise(fail)
}

fn fails_rise(fail: &[u64]) -> bool
    ensures { result ≡ rises_from 1 fail.now }
{
    let mut least = 1;
    for number in fail {
        if *number < least || LAST_EVENT < *number {
            return false;
        }
        least = *number + 1;
    }
    true
}

fn are_cuts_beside(fail: &[u64], cuts: &[WideCut]) -> bool
    ensures { result ≡ are_cuts_beside fail.now (as_cuts cuts.now) }
{
    cuts.len() <= MOST_CUTS && cuts_rise(cuts) && are_beside(fail, cuts) && all_fit(cuts)
}

fn cuts_rise(cuts: &[WideCut]) -> bool
    ensures { result ≡ rises_from 1 (cut_numbers (as_cuts cuts.now)) }
{
    let mut least = 1;
    for cut in cuts {
        if cut.at < least || LAST_EVENT < cut.at {
            return false;
        }
        least = cut.at + 1;
    }
    true
}

fn are_beside(fail: &[u64], cuts: &[WideCut]) -> bool
    ensures { result ≡ list_all (λ cut. not (is_listed cut.at fail.now)) (as_cuts cuts.now) }
{
    for cut in cuts {
        if is_listed(fail, cut.at) {
            return false;
        }
    }
    true
}

fn is_listed(fail: &[u64], number: u64) -> bool
    ensures { result ≡ is_listed number fail.now }
{
    fail.iter().any(|listed| *listed == number)
}

fn all_fit(cuts: &[WideCut]) -> bool
    ensures { result ≡ list_all fits_in_cut (as_cuts cuts.now) }
{
    for cut in cuts {
        if cut.mask > 0xffff_ffff || cut.arrive > 0xffff_ffff {
            return false;
        }
    }
    true
}
