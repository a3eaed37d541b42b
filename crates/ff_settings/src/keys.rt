// Which keys a document may have.

ghost use Rattle.std.specs.Prelude.{◌≡◌, string_bytes};
ghost use Rattle.std.specs.BTreeMap.{keys};
ghost use Rattle.std.specs.List.{list_all, list_any};
ghost use Rattle.std.specs.Str.{bytes_eq};
ghost use Rattle.toml.specs.View.{table_view, view};
ghost use Rattle.ff_settings.specs.Keys.{has_cut_keys, has_known_keys, is_cut_key, is_key};
ghost use Rattle.ff_settings.specs.Names.{text_of};

use crate::document::value_at;
use crate::names::{SettingName, key_names};
use crate::values::items_in;
use toml::{Table, Value};

/// Whether every key of the document and of each of its cuts is known.
pub(crate) fn has_known_keys(table: &Table, threads: bool) -> bool
    ensures { result ≡ has_known_keys threads (table_view table.now) }
{
    has_keys(table, threads) && have_cut_keys(items_in(value_at(table, "cut")))
}

fn has_keys(table: &Table, threads: bool) -> bool
    ensures { result ≡ list_all (λ key. is_key threads (string_bytes key)) (keys table.now) }
{
    table.keys().all(|key| is_key(threads, key.as_str()))
}

fn is_key(threads: bool, key: &str) -> bool
    ensures { result ≡ is_key threads key.now }
{
    is_named(key_names(threads), key)
}

fn is_named(names: &[SettingName], key: &str) -> bool
    ensures { result ≡ list_any (λ name. bytes_eq (text_of name) key.now) names.now }
{
    names.iter().any(|name| name.text() == key)
}

fn have_cut_keys(values: &[Value]) -> bool
    ensures { result ≡ list_all (λ value. has_cut_keys (view value)) values.now }
{
    values.iter().all(|value| has_cut_keys(value))
}

fn has_cut_keys(value: &Value) -> bool
    ensures { result ≡ has_cut_keys (view value.now) }
{
    match value {
        Value::Table(table) => has_keys_of_a_cut(table),
        _ => true,
    }
}

fn has_keys_of_a_cut(table: &Table) -> bool
    ensures { result ≡ list_all (λ key. is_cut_key (string_bytes key)) (keys table.now) }
{
    table.keys().all(|key| is_cut_key(key.as_str()))
}

fn is_cut_key(key: &str) -> bool
    ensures { result ≡ is_cut_key key.now }
{
    key == "at" || key == "mask" || key == "arrive"
}
