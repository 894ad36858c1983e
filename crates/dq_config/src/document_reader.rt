//! The institutions that a TOML document writes.
ghost use Rattle.std.specs.Prelude.{◌≡◌, ◌≢◌, Some, None, IfOk, IfErr, option_map};
ghost use Rattle.std.specs.Option.{option_copied};
ghost use Rattle.toml.specs.View.{view, table_view, array_view};
ghost use Rattle.dq_config.specs.Document.{size, table_of, string_at, integer_at, array_at, limit_as_kept, limit_at, each_item, route_in, institution_in, institutions_in};
ghost use Rattle.dq_config.specs.declared.fault.ConfigFault.TheVariants.{Syntax, NoMemory};

use crate::config::{Institution, Route};
use crate::fault::ConfigFault;
use dq_list::Listed;
use dq_value::stripped;
use std::alloc::Global;
use toml::value::Array;
use toml::{Table, Value};

const INSTITUTION_KEYS: usize = 7;

const ROUTE_KEYS: usize = 2;

/// The institutions of a document, as they are written.
pub(crate) fn institutions_in(
    alloc: Global,
    document: &Table,
) -> Result<Listed<Institution>, ConfigFault>
    ensures ok { IfOk result (λ found. institutions_in (table_view document.now) ≡ Some found) }
    ensures refused { IfErr result (λ fault. fault ≢ NoMemory
        → (fault ≡ Syntax) × (institutions_in (table_view document.now) ≡ None)) }
{
    match size(document) {
        0 => Ok(Listed::empty(alloc)),
        1 => {
            let values = array_at(document, "institution").ok_or(ConfigFault::Syntax)?;
            institutions(alloc, values)
        }
        _ => Err(ConfigFault::Syntax),
    }
}

fn institutions(alloc: Global, values: &Array) -> Result<Listed<Institution>, ConfigFault>
    ensures ok { IfOk result (λ found. each_item institution_in (array_view values.now) ≡ Some found) }
    ensures refused { IfErr result (λ fault. fault ≢ NoMemory
        → (fault ≡ Syntax) × (each_item institution_in (array_view values.now) ≡ None)) }
{
    let mut institutions = Listed::empty(alloc);
    for value in values {
        institutions.push(institution_in(alloc, value)?)?;
    }
    Ok(institutions)
}

fn institution_in(alloc: Global, value: &Value) -> Result<Institution, ConfigFault>
    ensures ok { IfOk result (λ found. institution_in (view value.now) ≡ Some found) }
    ensures refused { IfErr result (λ fault. fault ≢ NoMemory
        → (fault ≡ Syntax) × (institution_in (view value.now) ≡ None)) }
{
    let table = table_of(value, INSTITUTION_KEYS).ok_or(ConfigFault::Syntax)?;
    let name = string_at(table, "name").ok_or(ConfigFault::Syntax)?;
    let values = array_at(table, "routes").ok_or(ConfigFault::Syntax)?;
    let studies = limit_at(table, "studies").ok_or(ConfigFault::Syntax)?;
    let images = limit_at(table, "images").ok_or(ConfigFault::Syntax)?;
    let entries = limit_at(table, "entries").ok_or(ConfigFault::Syntax)?;
    let steps = limit_at(table, "steps").ok_or(ConfigFault::Syntax)?;
    let associations = limit_at(table, "associations").ok_or(ConfigFault::Syntax)?;
    let copy = Listed::copy_of(alloc, name.as_bytes())?;
    Ok(Institution {
        name: copy,
        routes: routes(alloc, values)?,
        studies,
        images,
        entries,
        steps,
        associations,
    })
}

fn routes(alloc: Global, values: &Array) -> Result<Listed<Route>, ConfigFault>
    ensures ok { IfOk result (λ found. each_item route_in (array_view values.now) ≡ Some found) }
    ensures refused { IfErr result (λ fault. fault ≢ NoMemory
        → (fault ≡ Syntax) × (each_item route_in (array_view values.now) ≡ None)) }
{
    let mut routes = Listed::empty(alloc);
    for value in values {
        routes.push(route_in(alloc, value)?)?;
    }
    Ok(routes)
}

fn route_in(alloc: Global, value: &Value) -> Result<Route, ConfigFault>
    ensures ok { IfOk result (λ found. route_in (view value.now) ≡ Some found) }
    ensures refused { IfErr result (λ fault. fault ≢ NoMemory
        → (fault ≡ Syntax) × (route_in (view value.now) ≡ None)) }
{
    let table = table_of(value, ROUTE_KEYS).ok_or(ConfigFault::Syntax)?;
    let called = string_at(table, "called").ok_or(ConfigFault::Syntax)?;
    let calling = string_at(table, "calling").ok_or(ConfigFault::Syntax)?;
    Ok(Route {
        called: Listed::copy_of(alloc, stripped(called.as_bytes()))?,
        calling: Listed::copy_of(alloc, stripped(calling.as_bytes()))?,
    })
}

/// The table that a value is, where it has so many keys.
#[tactic(auto, unfolding(crate::specs::Document::table_of))]
fn table_of(value: &Value, keys: usize) -> Option<&Table>
    ensures { option_map (λ table. table_view table.now) result ≡ table_of keys (view value.now) }
{
    let table = value.as_table()?;
    if size(table) == keys {
        Some(table)
    } else {
        None
    }
}

#[tactic(auto, using(crate::proofs::Sizes::size_of_entries))]
fn size(table: &Table) -> usize
    ensures { result ≡ size (table_view table.now) }
{
    table.len()
}

fn string_at<'a>(table: &'a Table, key: &str) -> Option<&'a str>
    ensures { option_copied result ≡ string_at key.now (table_view table.now) }
{
    match table.get(key) {
        Some(value) => value.as_str(),
        None => None,
    }
}

fn array_at<'a>(table: &'a Table, key: &str) -> Option<&'a Array>
    ensures { option_map (λ items. array_view items.now) result
        ≡ array_at key.now (table_view table.now) }
{
    match table.get(key) {
        Some(value) => value.as_array(),
        None => None,
    }
}

#[tactic(auto, unfolding(crate::specs::Document::limit_at))]
fn limit_at(table: &Table, key: &str) -> Option<u32>
    ensures { result ≡ limit_at key.now (table_view table.now) }
{
    Some(limit_of(integer_at(table, key)?))
}

fn integer_at(table: &Table, key: &str) -> Option<i64>
    ensures { result ≡ integer_at key.now (table_view table.now) }
{
    match table.get(key) {
        Some(value) => value.as_integer(),
        None => None,
    }
}

/// A limit as it is kept: what is no number of 32 bits is kept as 0, which is no limit either.
fn limit_of(number: i64) -> u32
    ensures { result ≡ limit_as_kept number }
{
    u32::try_from(number).unwrap_or(0)
}
