// The numbers and lists of numbers of a document.

ghost use Rattle.std.specs.Prelude.{◌≡◌, IfOk, Some, map, option_map};
ghost use Rattle.std.specs.List.{list_all};
ghost use Rattle.toml.specs.View.{view};
ghost use Rattle.ff_settings.specs.Kinds.{is_array, is_whole_number, may_be};
ghost use Rattle.ff_settings.specs.Values.{whole_number_of, number_or, short, items_in, wide};

use std::alloc::{AllocError, Global};
use toml::Value;

/// The whole number that a value is, if there is a value and it is one. A negative one counts as the greatest.
pub(crate) fn whole_number_of(value: Option<&Value>) -> Option<u64>
    ensures { result ≡ whole_number_of (option_map (λ v. view v.now) value.entry) }
{
    match value {
        Some(value) => integer_of(value),
        None => None,
    }
}

fn integer_of(value: &Value) -> Option<u64>
    ensures { result ≡ whole_number_of (Some (view value.now)) }
{
    match value.as_integer() {
        Some(number) => Some(wide(number)),
        None => None,
    }
}

fn wide(number: i64) -> u64
    ensures { result ≡ wide number }
{
    if number < 0 { u64::MAX } else { number as u64 }
}

/// The same, and a default where there is none.
pub(crate) fn number_or(value: Option<&Value>, default: u64) -> u64
    ensures { result ≡ number_or default (option_map (λ v. view v.now) value.entry) }
{
    whole_number_of(value).unwrap_or(default)
}

/// A number of 32 bits. A greater one counts as the greatest.
pub(crate) fn short(number: u64) -> u32
    ensures { result ≡ short number }
{
    number.min(0xffff_ffff) as u32
}

/// The values of a value that is an array, and none of any other.
pub(crate) fn items_in(value: Option<&Value>) -> &[Value]
    ensures { map view result.now ≡ items_in (option_map (λ v. view v.now) value.entry) }
{
    match value {
        Some(value) => items_of(value),
        None => &[],
    }
}

fn items_of(value: &Value) -> &[Value]
    ensures { map view result.now ≡ items_in (Some (view value.now)) }
{
    match value {
        Value::Array(values) => values,
        _ => &[],
    }
}

/// Whether a value is missing, or a whole number.
pub(crate) fn may_be_number(value: Option<&Value>) -> bool
    ensures { result ≡ may_be is_whole_number (option_map (λ v. view v.now) value.entry) }
{
    match value {
        Some(value) => value.is_integer(),
        None => true,
    }
}

/// Whether a value is missing, or an array.
pub(crate) fn may_be_array(value: Option<&Value>) -> bool
    ensures { result ≡ may_be is_array (option_map (λ v. view v.now) value.entry) }
{
    match value {
        Some(value) => is_array(value),
        None => true,
    }
}

fn is_array(value: &Value) -> bool
    ensures { result ≡ is_array (view value.now) }
{
    match value {
        Value::Array(_) => true,
        _ => false,
    }
}

/// Whether all values are whole numbers.
pub(crate) fn are_numbers(values: &[Value]) -> bool
    ensures { result ≡ list_all (λ value. is_whole_number (view value)) values.now }
{
    values.iter().all(|value| value.is_integer())
}

/// The whole numbers of a list.
pub(crate) fn numbers_of(alloc: Global, values: &[Value]) -> Result<Vec<u64>, AllocError>
    ensures { IfOk result (λ numbers. numbers.items ≡ map
        (λ value. number_or 0 (Some (view value))) values.now) }
{
    let mut numbers = Vec::with_capacity(alloc, values.len())?;
    for value in values {
        numbers.push(number_or(Some(value), 0))?;
    }
    Ok(numbers)
}
