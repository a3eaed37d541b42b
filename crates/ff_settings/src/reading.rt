// Reads a document into settings.

ghost use Rattle.std.specs.Prelude.{◌≡◌, ◌≢◌, IfOk, IfErr, Ok, Err, None, true};
ghost use Rattle.toml.specs.View.{table_view};
ghost use Rattle.std.specs.List.{list_all};
ghost use Rattle.ff_flash.specs.Plans.{planned_of};
ghost use Rattle.ff_settings.specs.Bounds.{IsSettingsSound, first_beyond, fits_in_cut};
ghost use Rattle.ff_settings.specs.Given.{as_cuts, given_view};
ghost use Rattle.ff_settings.specs.Document.{IsAnswer, answer_in, answer_of_kinds, answer_within, geometry_in, plan_in, settings_in, settings_view, size_in};

use crate::bounds::first_beyond;
use crate::cuts::{WideCut, cuts_of, planned_cuts};
use crate::document::{document, value_at};
use crate::given::{BadSettings, Settings};
use crate::keys::has_known_keys;
use crate::kinds::first_of_other_kind;
use crate::values::{items_in, number_or, numbers_of, short, whole_number_of};
use ff_base::Geometry;
use ff_flash::Plan;
use std::alloc::{AllocError, Global};
use toml::Table;

/// The settings of a document before their bounds are looked at.
#[derive(Drop)]
pub(crate) struct Given {
    pub geometry: Geometry,
    pub fail: Vec<u64>,
    pub cuts: Vec<WideCut>,
    pub power_event: Option<u64>,
    pub power_arrive: u64,
}

/// Reads the settings of a run from a TOML document, an empty one too. `power_event` and `power_arrive` are
/// keys under `threads` alone. What is missing has its default. Keys are looked at before kinds, and kinds
/// before bounds; of these the first setting in the order of `SettingName` is told.
pub fn settings(alloc: Global, bytes: &[u8], threads: bool) -> Result<Settings, BadSettings>
    ensures ok { IfOk result (λ settings.
        IsAnswer bytes.now threads (Ok (settings_view settings))) }
    ensures err { IfErr result (λ cause. cause ≢ BadSettings.NoMemory
        → IsAnswer bytes.now threads (Err cause)) }
    ensures fit { IfOk result (λ settings. IsSettingsSound (settings_view settings)) }
{
    match document(alloc, bytes) {
        Ok(Some(table)) => settings_in(alloc, &table, threads),
        Ok(None) => Err(BadSettings::Text),
        Err(AllocError) => Err(BadSettings::NoMemory),
    }
}

fn settings_in(alloc: Global, table: &Table, threads: bool) -> Result<Settings, BadSettings>
    ensures ok { IfOk result (λ settings.
        answer_in threads (table_view table.now) ≡ Ok (settings_view settings)) }
    ensures err { IfErr result (λ cause. cause ≢ BadSettings.NoMemory
        → answer_in threads (table_view table.now) ≡ Err cause) }
    ensures fit { IfOk result (λ settings. IsSettingsSound (settings_view settings)) }
{
    if has_known_keys(table, threads) {
        settings_of_kinds(alloc, table)
    } else {
        Err(BadSettings::Key)
    }
}

fn settings_of_kinds(alloc: Global, table: &Table) -> Result<Settings, BadSettings>
    ensures ok { IfOk result (λ settings.
        answer_of_kinds (table_view table.now) ≡ Ok (settings_view settings)) }
    ensures err { IfErr result (λ cause. cause ≢ BadSettings.NoMemory
        → answer_of_kinds (table_view table.now) ≡ Err cause) }
    ensures fit { IfOk result (λ settings. IsSettingsSound (settings_view settings)) }
{
    match first_of_other_kind(table) {
        Some(name) => Err(BadSettings::Kind(name)),
        None => settings_given(alloc, table),
    }
}

fn settings_given(alloc: Global, table: &Table) -> Result<Settings, BadSettings>
    ensures ok { IfOk result (λ settings.
        answer_within (settings_in (table_view table.now)) ≡ Ok (settings_view settings)) }
    ensures err { IfErr result (λ cause. cause ≢ BadSettings.NoMemory
        → answer_within (settings_in (table_view table.now)) ≡ Err cause) }
    ensures fit { IfOk result (λ settings. IsSettingsSound (settings_view settings)) }
{
    match read(alloc, table) {
        Ok(given) => settings_within(alloc, given),
        Err(AllocError) => Err(BadSettings::NoMemory),
    }
}

fn settings_within(alloc: Global, given: Given) -> Result<Settings, BadSettings>
    ensures ok { IfOk result (λ settings.
        answer_within (given_view given) ≡ Ok (settings_view settings)) }
    ensures err { IfErr result (λ cause. cause ≢ BadSettings.NoMemory
        → answer_within (given_view given) ≡ Err cause) }
    ensures fit { IfOk result (λ settings. IsSettingsSound (settings_view settings)) }
{
    match first_beyond(&given) {
        Some(name) => Err(BadSettings::Bound(name)),
        None => settings_from(alloc, given),
    }
}

fn settings_from(alloc: Global, given: Given) -> Result<Settings, BadSettings>
    requires { first_beyond (given_view given) ≡ None }
    ensures ok { IfOk result (λ settings. settings_view settings ≡ given_view given) }
    ensures err { IfErr result (λ cause. cause ≡ BadSettings.NoMemory) }
    ensures fit { IfOk result (λ settings. IsSettingsSound (settings_view settings)) }
{
    let Given {
        geometry,
        fail,
        cuts,
        power_event,
        power_arrive,
    } = given;
    match plan(alloc, fail, &cuts) {
        Ok(plan) => Ok(Settings {
            geometry,
            plan,
            power_event,
            power_arrive: short(power_arrive),
        }),
        Err(AllocError) => Err(BadSettings::NoMemory),
    }
}

fn plan(alloc: Global, fail: Vec<u64>, cuts: &[WideCut]) -> Result<Plan, AllocError>
    requires { list_all fits_in_cut (as_cuts cuts.now) ≡ true }
    ensures { IfOk result (λ plan.
        planned_of plan ≡ record { fail = fail.items; cuts = as_cuts cuts.now }) }
{
    match planned_cuts(alloc, cuts) {
        Ok(cuts) => Ok(Plan { fail, cuts }),
        Err(AllocError) => Err(AllocError),
    }
}

fn read(alloc: Global, table: &Table) -> Result<Given, AllocError>
    ensures { IfOk result (λ given. given_view given ≡ settings_in (table_view table.now)) }
{
    let fail = fail_of(alloc, table)?;
    let cuts = cut_list_of(alloc, table)?;
    Ok(Given {
        geometry: geometry_of(table),
        fail,
        cuts,
        power_event: power_event_of(table),
        power_arrive: power_arrive_of(table),
    })
}

fn fail_of(alloc: Global, table: &Table) -> Result<Vec<u64>, AllocError>
    ensures { IfOk result (λ fail. fail.items ≡ (plan_in (table_view table.now)).fail) }
{
    numbers_of(alloc, items_in(value_at(table, "fail")))
}

fn cut_list_of(alloc: Global, table: &Table) -> Result<Vec<WideCut>, AllocError>
    ensures { IfOk result (λ cuts. as_cuts cuts.items ≡ (plan_in (table_view table.now)).cuts) }
{
    cuts_of(alloc, items_in(value_at(table, "cut")))
}

fn power_event_of(table: &Table) -> Option<u64>
    ensures { result ≡ (settings_in (table_view table.now)).power_event }
{
    whole_number_of(value_at(table, "power_event"))
}

fn power_arrive_of(table: &Table) -> u64
    ensures { result ≡ (settings_in (table_view table.now)).power_arrive }
{
    number_or(value_at(table, "power_arrive"), 0)
}

fn geometry_of(table: &Table) -> Geometry
    ensures { result ≡ geometry_in (table_view table.now) }
{
    let default = Geometry::default();
    Geometry {
        blocks: size(table, "blocks", default.blocks),
        per_block: size(table, "per_block", default.per_block),
        pages: size(table, "pages", default.pages),
        sets: size(table, "sets", default.sets),
        ways: size(table, "ways", default.ways),
        frames: size(table, "frames", default.frames),
        plb: size(table, "plb", default.plb),
        window: size(table, "window", default.window),
        low: size(table, "low", default.low),
    }
}

fn size(table: &Table, key: &str, default: u32) -> u32
    ensures { result ≡ size_in (table_view table.now) key.now default }
{
    short(number_or(value_at(table, key), u64::from(default)))
}
