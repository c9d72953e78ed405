//! Arrays of integers: masters and weights.

ghost use Rattle.std.specs.Prelude.{◌≡◌, IfOk, option_map};
ghost use Rattle.toml.specs.View.{view};
ghost use Rattle.toml.specs.Data.{as_integer};
ghost use Rattle.dm_schema.specs.Parts.{each, integers, three, masters_in, weights_in};

use crate::numbers::{is_between, within};
use dm_event::{MAX_PARTS, MAX_WEIGHT, NoMemory, SiteNo, Weights};
use std::alloc::Global;
use toml::Value;
use toml::value::Array;

/// What the values of an array say as integers.
fn all_integers(alloc: Global, items: &Array) -> Result<Option<Vec<i64>>, NoMemory>
    ensures { IfOk result (λ found. option_map (λ v. v.items) found ≡ each (λ v. as_integer (view v)) items.now.items) }
{
    let mut found = Vec::new(alloc);
    for item in items {
        match item.as_integer() {
            Some(number) => found.push(number)?,
            None => return Ok(None),
        }
    }
    Ok(Some(found))
}

/// What an array of integers says.
#[tactic(auto, unfolding(crate::specs::Parts::integers))]
pub(crate) fn integers(alloc: Global, value: &Value) -> Result<Option<Vec<i64>>, NoMemory>
    ensures { IfOk result (λ found. option_map (λ v. v.items) found ≡ integers (view value.now)) }
{
    match value.as_array() {
        Some(items) => all_integers(alloc, items),
        None => Ok(None),
    }
}

/// The opening masters, where there are as many as there may be partitions and each is a site.
#[tactic(auto, unfolding(crate::specs::Parts::masters_in))]
pub(crate) fn masters_in(
    alloc: Global,
    sites: u8,
    numbers: &[i64],
) -> Result<Option<Vec<SiteNo>>, NoMemory>
    ensures { IfOk result (λ found. option_map (λ v. v.items) found ≡ masters_in sites numbers.now) }
{
    if !is_between(1, u64::from(MAX_PARTS), numbers.len() as u64) {
        return Ok(None);
    }
    let mut masters = Vec::new(alloc);
    for number in numbers {
        match within(1, u32::from(sites), *number) {
            Some(site) => masters.push(site as SiteNo)?,
            None => return Ok(None),
        }
    }
    Ok(Some(masters))
}

/// The numbers, where there are three.
pub(crate) fn three(numbers: &[i64]) -> Option<(i64, i64, i64)>
    ensures { result ≡ three numbers.now }
{
    match numbers {
        [first, second, third] => Some((*first, *second, *third)),
        _ => None,
    }
}

#[tactic(auto, unfolding(crate::specs::Parts::weights_in))]
pub(crate) fn weights_in(numbers: (i64, i64, i64)) -> Option<Weights>
    ensures { result ≡ weights_in numbers }
{
    let balance = within(0, MAX_WEIGHT, numbers.0)?;
    let delay = within(0, MAX_WEIGHT, numbers.1)?;
    let together = within(0, MAX_WEIGHT, numbers.2)?;
    Some(Weights {
        balance,
        delay,
        together,
    })
}
