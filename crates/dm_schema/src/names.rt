//! The names of a table, and what stands at them.

ghost use Rattle.std.specs.BTreeMap.{keys};
ghost use Rattle.std.specs.List.{list_any};
ghost use Rattle.std.specs.List.Sorted.{IsStrictlySortedBy};
ghost use Rattle.std.specs.Option.{option_copied};
ghost use Rattle.std.specs.Prelude.{◌≡◌, find, map, not, option_map, string_bytes};
ghost use Rattle.std.specs.Str.{bytes_eq};
ghost use Rattle.std.specs.String.{string_cmp};
ghost use Rattle.toml.specs.Data.{get_member};
ghost use Rattle.toml.specs.View.{view, table_view};
ghost use Rattle.dm_schema.specs.Names.{least_other};

use toml::{Table, Value};

/// What stands at a name.
pub(crate) fn value_at<'a>(table: &'a Table, name: &str) -> Option<&'a Value>
    ensures { option_map (λ value. view value.now) result ≡ get_member name.now (table_view table.now) }
{
    table.get(name)
}

fn is_one_of(text: &str, names: &[&str]) -> bool
    ensures { result ≡ list_any (λ name. bytes_eq name.now text.now) names.now }
{
    names.iter().any(|name| *name == text)
}

/// The first name of the table, in its order, that isn't one of these.
fn first_other<'a>(table: &'a Table, names: &[&str]) -> Option<&'a String>
    ensures first { option_copied result ≡ find (λ name. not (list_any (λ n. bytes_eq n.now (string_bytes name)) names.now)) (keys table.now) }
    ensures ascending { IsStrictlySortedBy string_cmp (keys table.now) }
{
    table.keys().find(|name| !is_one_of(name.as_str(), names))
}

/// The least name of the table that isn't one of these. A table has its names in ascending order.
pub(crate) fn least_other<'a>(table: &'a Table, names: &[&str]) -> Option<&'a String>
    ensures { option_map (λ name. string_bytes name.now) result ≡ least_other (map (λ n. n.now) names.now) (table_view table.now) }
{
    first_other(table, names)
}
