// The cuts of a document.

ghost use Rattle.std.specs.Prelude.{◌≡◌, IfOk, is_some, map};
ghost use Rattle.std.specs.List.{list_all};
ghost use Rattle.toml.specs.Data.{get_member};
ghost use Rattle.toml.specs.View.{table_view, view};
ghost use Rattle.ff_settings.specs.Given.{as_cut, as_cuts, planned_cut};
ghost use Rattle.ff_settings.specs.Kinds.{is_cut};
ghost use Rattle.ff_settings.specs.Names.{cut_keys};
ghost use Rattle.ff_settings.specs.Document.{cut_in, cut_of};
ghost use Rattle.ff_settings.specs.Values.{whole_number_of};

use crate::document::value_at;
use crate::values::{number_or, short, whole_number_of};
use ff_flash::CutAt;
use std::alloc::{AllocError, Global};
use toml::{Table, Value};

/// The three numbers of a cut as they are written.
#[derive(Clone, Copy)]
pub(crate) struct WideCut {
    pub at: u64,
    pub mask: u64,
    pub arrive: u64,
}

/// Whether all values are tables with the three numbers of a cut.
pub(crate) fn are_cuts(values: &[Value]) -> bool
    ensures { result ≡ list_all (λ value. is_cut (view value)) values.now }
{
    values.iter().all(|value| is_cut(value))
}

fn is_cut(value: &Value) -> bool
    ensures { result ≡ is_cut (view value.now) }
{
    match value {
        Value::Table(table) => has_cut_numbers(table),
        _ => false,
    }
}

fn has_cut_numbers(table: &Table) -> bool
    ensures { result
        ≡ list_all (λ key. is_some (whole_number_of (get_member key (table_view table.now)))) cut_keys }
{
    has_number(table, "at") && has_number(table, "mask") && has_number(table, "arrive")
}

fn has_number(table: &Table, key: &str) -> bool
    ensures { result ≡ is_some (whole_number_of (get_member key.now (table_view table.now))) }
{
    whole_number_of(value_at(table, key)).is_some()
}

/// The cuts of a list.
pub(crate) fn cuts_of(alloc: Global, values: &[Value]) -> Result<Vec<WideCut>, AllocError>
    ensures { IfOk result (λ cuts. as_cuts cuts.items ≡ map
        (λ value. cut_of (view value)) values.now) }
{
    let mut cuts = Vec::with_capacity(alloc, values.len())?;
    for value in values {
        cuts.push(cut_of(value))?;
    }
    Ok(cuts)
}

fn cut_of(value: &Value) -> WideCut
    ensures { as_cut result ≡ cut_of (view value.now) }
{
    match value {
        Value::Table(table) => cut_in(table),
        _ => WideCut {
            at: 0,
            mask: 0,
            arrive: 0,
        },
    }
}

fn cut_in(table: &Table) -> WideCut
    ensures { as_cut result ≡ cut_in (table_view table.now) }
{
    WideCut {
        at: number_or(value_at(table, "at"), 0),
        mask: number_or(value_at(table, "mask"), 0),
        arrive: number_or(value_at(table, "arrive"), 0),
    }
}

/// The cuts of a plan.
pub(crate) fn planned_cuts(alloc: Global, cuts: &[WideCut]) -> Result<Vec<CutAt>, AllocError>
    ensures { IfOk result (λ planned. planned.items ≡ map
        (λ cut. planned_cut (as_cut cut)) cuts.now) }
{
    cuts.iter().map(|cut| planned_cut(cut)).collect(alloc)
}

fn planned_cut(cut: &WideCut) -> CutAt
    ensures { result ≡ planned_cut (as_cut cut.now) }
{
    CutAt {
        at: cut.at,
        mask: short(cut.mask),
        arrive: short(cut.arrive),
    }
}
