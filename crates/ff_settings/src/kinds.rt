// Which kind the value of a setting has.

ghost use Rattle.std.specs.Prelude.{◌≡◌, option_map};
ghost use Rattle.toml.specs.View.{table_view, view};
ghost use Rattle.ff_settings.specs.Kinds.{has_kind, is_cut, is_whole_number, may_be_list};
ghost use Rattle.ff_settings.specs.Document.{first_of_other_kind};

use crate::cuts::are_cuts;
use crate::document::value_at;
use crate::names::{SettingName, setting_names};
use crate::values::{are_numbers, items_in, may_be_array, may_be_number};
use toml::{Table, Value};

/// The first setting whose value has another kind.
pub(crate) fn first_of_other_kind(table: &Table) -> Option<SettingName>
    ensures { result ≡ first_of_other_kind (table_view table.now) }
{
    setting_names()
        .iter()
        .copied()
        .find(|name| !has_kind(table, *name))
}

fn has_kind(table: &Table, name: SettingName) -> bool
    ensures { result ≡ has_kind (table_view table.now) name }
{
    let value = value_at(table, name.text());
    match name {
        SettingName::Fail => may_be_numbers(value),
        SettingName::Cut => may_be_cuts(value),
        _ => may_be_number(value),
    }
}

#[tactic(auto, using(crate::proofs::Lists::viewed))]
fn may_be_numbers(value: Option<&Value>) -> bool
    ensures { result ≡ may_be_list is_whole_number (option_map (λ v. view v.now) value.entry) }
{
    may_be_array(value) && are_numbers(items_in(value))
}

#[tactic(auto, using(crate::proofs::Lists::viewed))]
fn may_be_cuts(value: Option<&Value>) -> bool
    ensures { result ≡ may_be_list is_cut (option_map (λ v. view v.now) value.entry) }
{
    may_be_array(value) && are_cuts(items_in(value))
}
