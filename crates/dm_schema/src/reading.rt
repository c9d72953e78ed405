//! A schema file, name by name.

ghost use Rattle.std.specs.Prelude.{◌≡◌, ◌≤◌, ◌^◌, true, IfOk, IsTrue};
ghost use Rattle.toml.specs.Data.{get_member};
ghost use Rattle.toml.specs.View.{view, table_view};
ghost use Rattle.dm_event.specs.Layout.{is_layout};
ghost use Rattle.dm_schema.specs.Names.{least_other};
ghost use Rattle.dm_schema.specs.Reading.{Gives, required, typed, ranged, none_unknown, schema_names, document_of};
ghost use Rattle.dm_schema.specs.Reading.{number_of, masters_of, weights_of, values_of, schema_in, schema_of};

use crate::error::{SchemaError, SchemaFlaw};
use crate::name::Name;
use crate::names::{least_other, value_at};
use crate::numbers::within;
use crate::parts::{integers, masters_in, three, weights_in};
use crate::spans::{ranges_in, spans};
use dm_event::{MAX_SITES, MAX_WIDTH, Schema, SiteNo, ValueRange, Weights};
use std::alloc::Global;
use toml::{Table, Value};

// The weights of a schema that names none.
const EVEN: Weights = Weights {
    balance: 1,
    delay: 1,
    together: 1,
};

/// What stands at a name that a schema must have.
fn required<'a>(alloc: Global, table: &'a Table, name: &str) -> Result<&'a Value, SchemaError>
    ensures { Gives (λ d. view d.now) result (required name.now (get_member name.now (table_view table.now))) }
{
    match value_at(table, name) {
        Some(value) => Ok(value),
        None => {
            let name = Name::new(alloc, name)?;
            Err(SchemaError::Fault {
                flaw: SchemaFlaw::Missing { name },
            })
        }
    }
}

/// What was found, if the value at the name is of its type.
fn typed<T>(alloc: Global, name: &str, found: Option<T>) -> Result<T, SchemaError>
    ensures { Gives (λ x. x) result (typed name.now found) }
{
    match found {
        Some(value) => Ok(value),
        None => {
            let name = Name::new(alloc, name)?;
            Err(SchemaError::Fault {
                flaw: SchemaFlaw::WrongType { name },
            })
        }
    }
}

/// What was found, if the value at the name is inside its range.
fn ranged<T>(alloc: Global, name: &str, found: Option<T>) -> Result<T, SchemaError>
    ensures { Gives (λ x. x) result (ranged name.now found) }
{
    match found {
        Some(value) => Ok(value),
        None => {
            let name = Name::new(alloc, name)?;
            Err(SchemaError::Fault {
                flaw: SchemaFlaw::Range { name },
            })
        }
    }
}

/// The document that the bytes are.
#[tactic(auto, unfolding(crate::specs::Reading::document_of))]
fn document_of(alloc: Global, bytes: &[u8]) -> Result<Table, SchemaError>
    ensures { Gives (λ t. table_view t) result (document_of bytes.now) }
{
    match toml::table_from_slice(alloc, bytes) {
        Ok(table) => Ok(table),
        Err(error) => {
            if error.is_memory() {
                Err(SchemaError::Memory)
            } else {
                Err(SchemaError::Fault {
                    flaw: SchemaFlaw::NotToml,
                })
            }
        }
    }
}

/// Refuses a name that a schema doesn't have.
fn refuse_unknown(alloc: Global, table: &Table) -> Result<(), SchemaError>
    ensures { Gives (λ x. x) result (none_unknown (least_other schema_names (table_view table.now))) }
{
    match least_other(table, &["sites", "width", "masters", "weights", "values"]) {
        None => Ok(()),
        Some(name) => {
            let name = Name::new(alloc, name)?;
            Err(SchemaError::Fault {
                flaw: SchemaFlaw::Unknown { name },
            })
        }
    }
}

/// A number from 1 up.
#[tactic(auto, unfolding(crate::specs::Reading::number_of))]
fn number_of(alloc: Global, table: &Table, name: &str, most: u32) -> Result<u32, SchemaError>
    ensures { Gives (λ x. x) result (number_of name.now most (table_view table.now)) }
{
    let value = required(alloc, table, name)?;
    let number = typed(alloc, name, value.as_integer())?;
    ranged(alloc, name, within(1, most, number))
}

/// The opening master of each partition.
#[tactic(auto, unfolding(crate::specs::Reading::masters_of))]
fn masters_of(alloc: Global, table: &Table, sites: u8) -> Result<Vec<SiteNo>, SchemaError>
    ensures { Gives (λ v. v.items) result (masters_of sites (table_view table.now)) }
{
    let value = required(alloc, table, "masters")?;
    let numbers = typed(alloc, "masters", integers(alloc, value)?)?;
    ranged(alloc, "masters", masters_in(alloc, sites, &numbers)?)
}

#[tactic(auto, unfolding(crate::specs::Reading::weights_of))]
fn weights_of(alloc: Global, table: &Table) -> Result<Weights, SchemaError>
    ensures { Gives (λ x. x) result (weights_of (table_view table.now)) }
{
    let Some(value) = value_at(table, "weights") else {
        return Ok(EVEN);
    };
    let numbers = typed(alloc, "weights", integers(alloc, value)?)?;
    let numbers = typed(alloc, "weights", three(&numbers))?;
    ranged(alloc, "weights", weights_in(numbers))
}

/// The ranges of opening values, of so many keys.
#[tactic(auto, unfolding(crate::specs::Reading::values_of))]
fn values_of(alloc: Global, table: &Table, keys: u64) -> Result<Vec<ValueRange>, SchemaError>
    requires { keys ≤ 2 ^ 32 }
    ensures { Gives (λ v. v.items) result (values_of keys (table_view table.now)) }
{
    let Some(value) = value_at(table, "values") else {
        return Ok(Vec::new(alloc));
    };
    let spans = typed(alloc, "values", spans(alloc, value)?)?;
    ranged(alloc, "values", ranges_in(alloc, keys, &spans)?)
}

/// The schema of these parts, which keep its limits.
fn schema_with(
    sites: u8,
    width: u32,
    masters: Vec<SiteNo>,
    weights: Weights,
    values: Vec<ValueRange>,
) -> Schema
    requires { is_layout (record { sites = sites; width = width; masters = masters.items; weights = weights; values = values.items }) ≡ true }
    ensures { result ≡ record { sites = sites; width = width; masters = masters.items; weights = weights; values = values.items } }
{
    match Schema::new(sites, width, masters, weights, values) {
        Some(schema) => schema,
        None => unreachable!(),
    }
}

/// What the document says.
#[tactic(auto, unfolding(crate::specs::Reading::schema_in))]
fn schema_in(alloc: Global, table: &Table) -> Result<Schema, SchemaError>
    ensures exact { Gives (λ x. x) result (schema_in (table_view table.now)) }
    ensures layout { IfOk result (λ schema. IsTrue (is_layout schema)) }
{
    refuse_unknown(alloc, table)?;
    let count = number_of(alloc, table, "sites", u32::from(MAX_SITES))?;
    let sites = count as u8;
    let width = number_of(alloc, table, "width", MAX_WIDTH)?;
    let masters = masters_of(alloc, table, sites)?;
    let weights = weights_of(alloc, table)?;
    let keys = masters.len() as u64 * u64::from(width);
    let values = values_of(alloc, table, keys)?;
    Ok(schema_with(sites, width, masters, weights, values))
}

/// What the bytes of a schema file say.
#[tactic(auto, unfolding(crate::specs::Reading::schema_of))]
pub fn read(alloc: Global, bytes: &[u8]) -> Result<Schema, SchemaError>
    ensures exact { Gives (λ x. x) result (schema_of bytes.now) }
    ensures layout { IfOk result (λ schema. IsTrue (is_layout schema)) }
{
    let table = document_of(alloc, bytes)?;
    schema_in(alloc, &table)
}
