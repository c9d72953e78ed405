//! Tables of opening values.

ghost use Rattle.std.specs.Prelude.{◌≡◌, ◌≤◌, ◌^◌, IfOk, option_map};
ghost use Rattle.toml.specs.View.{view, table_view};
ghost use Rattle.dm_schema.specs.Parts.{each, integer_at, span_of, spans, range_in, ranges_in};

use crate::names::{least_other, value_at};
use crate::numbers::natural;
use dm_event::{Key, MAX_RANGES, NoMemory, ValueRange};
use std::alloc::Global;
use toml::value::Array;
use toml::{Table, Value};

/// The three integers of a table of values.
#[derive(Clone, Copy, Debug)]
pub(crate) struct Span {
    pub(crate) from: i64,
    pub(crate) to: i64,
    pub(crate) value: i64,
}

/// The integer at a name.
#[tactic(auto, unfolding(crate::specs::Parts::integer_at))]
fn integer_at(table: &Table, name: &str) -> Option<i64>
    ensures { result ≡ integer_at name.now (table_view table.now) }
{
    match value_at(table, name) {
        Some(value) => value.as_integer(),
        None => None,
    }
}

/// What a table says that has exactly the integers of a span.
#[tactic(auto, unfolding(crate::specs::Parts::span_of))]
fn span_of(value: &Value) -> Option<Span>
    ensures { result ≡ span_of (view value.now) }
{
    let table = value.as_table()?;
    let from = integer_at(table, "from")?;
    let to = integer_at(table, "to")?;
    let value = integer_at(table, "value")?;
    match least_other(table, &["from", "to", "value"]) {
        None => Some(Span { from, to, value }),
        Some(_) => None,
    }
}

/// What the values of an array say as such tables.
fn all_spans(alloc: Global, items: &Array) -> Result<Option<Vec<Span>>, NoMemory>
    ensures { IfOk result (λ found. option_map (λ v. v.items) found ≡ each (λ v. span_of (view v)) items.now.items) }
{
    let mut found = Vec::new(alloc);
    for item in items {
        match span_of(item) {
            Some(span) => found.push(span)?,
            None => return Ok(None),
        }
    }
    Ok(Some(found))
}

/// What an array of such tables says.
#[tactic(auto, unfolding(crate::specs::Parts::spans))]
pub(crate) fn spans(alloc: Global, value: &Value) -> Result<Option<Vec<Span>>, NoMemory>
    ensures { IfOk result (λ found. option_map (λ v. v.items) found ≡ spans (view value.now)) }
{
    match value.as_array() {
        Some(items) => all_spans(alloc, items),
        None => Ok(None),
    }
}

/// The range of keys, where there are so many.
#[tactic(auto, unfolding(crate::specs::Parts::range_in))]
fn range_in(keys: u64, span: Span) -> Option<ValueRange>
    requires { keys ≤ 2 ^ 32 }
    ensures { result ≡ range_in keys span }
{
    let first = natural(span.from)?;
    let last = natural(span.to)?;
    if last < keys && first <= last {
        Some(ValueRange {
            first: first as Key,
            last: last as Key,
            value: span.value,
        })
    } else {
        None
    }
}

/// The ranges, where each is one of so many keys and there aren't too many.
#[tactic(auto, unfolding(crate::specs::Parts::ranges_in))]
pub(crate) fn ranges_in(
    alloc: Global,
    keys: u64,
    spans: &[Span],
) -> Result<Option<Vec<ValueRange>>, NoMemory>
    requires { keys ≤ 2 ^ 32 }
    ensures { IfOk result (λ found. option_map (λ v. v.items) found ≡ ranges_in keys spans.now) }
{
    if spans.len() > MAX_RANGES {
        return Ok(None);
    }
    let mut ranges = Vec::new(alloc);
    for span in spans {
        match range_in(keys, *span) {
            Some(range) => ranges.push(range)?,
            None => return Ok(None),
        }
    }
    Ok(Some(ranges))
}
