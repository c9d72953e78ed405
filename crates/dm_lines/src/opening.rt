//! What stands in front of the command lines: the header, and the lines of values and weights behind it.

ghost use Rattle.std.specs.Prelude.{◌≡◌, ◌≤◌, ◌<◌, true, Ok, OnOk, IfOk, IsTrue, length};
ghost use Rattle.dm_event.specs.Layout.{is_layout, is_key, fits_weights};
ghost use Rattle.dm_fields.specs.Fields.{Gives, made, spelled};
ghost use Rattle.dm_lines.specs.Reading.{header_words, header_count, header_of, is_for_parts, opened, value_of, weights_of, valued, weighed};

use crate::fields::sites_of;
use dm_event::{
    Key, LineFault, MAX_RANGES, MAX_WEIGHT, Schema, SiteNo, Value, ValueRange, Weights,
};
use dm_fields::{LineError, fixed_word, i64_at, require, u8_at, u16_at, u32_at, word, word_count};
use dm_text::number;
use std::alloc::Global;
use std::marker::Model;

// The weights of a file that names none.
const EVEN: Weights = Weights {
    balance: 1,
    delay: 1,
    together: 1,
};

/// A schema that further lines may still give weights and values.
#[derive(Drop)]
pub(crate) struct Opening {
    sites: u8,
    width: u32,
    masters: Vec<SiteNo>,
    weights: Weights,
    values: Vec<ValueRange>,
}

impl Model for Opening {
    ghost use Rattle.dm_event.specs.Layout.{Layout};
    ghost use Rattle.dm_lines.specs.Openings.{layout_in, KeepsLimits};

    ghost Value = { Layout };

    ghost view = { layout_in };

    ghost invariant = { KeepsLimits };
}

impl Opening {
    /// With weights of 1 and no values, where that keeps the limits.
    #[tactic(auto, unfolding(crate::specs::Reading::opened))]
    fn new(alloc: Global, sites: u8, width: u32, masters: Vec<SiteNo>) -> Result<Opening, LineError>
        ensures { Gives (λ x. x) result (opened sites width masters.items) }
    {
        // A schema judges the limits, and keeps what it judges.
        match Schema::new(sites, width, masters.clone()?, EVEN, Vec::new(alloc)) {
            Some(_) => Ok(Opening {
                sites,
                width,
                masters,
                weights: EVEN,
                values: Vec::new(alloc),
            }),
            None => Err(LineError::Fault(LineFault::Range)),
        }
    }

    fn is_key(&self, key: Key) -> bool
        ensures { result ≡ is_key self.now key }
    {
        u64::from(key) < self.masters.len() as u64 * u64::from(self.width)
    }

    /// A further value, of which there is room for one more.
    fn add_value(&mut self, key: Key, value: Value) -> Result<(), LineError>
        requires room { length self.old.values < MAX_RANGES }
        requires key { is_key self.old key ≡ true }
        ensures value { OnOk result (self.new ≡ valued self.old key value) }
        ensures memory { Gives (λ x. x) result (Ok tt) }
    {
        self.values.push(ValueRange {
            first: key,
            last: key,
            value,
        })?;
        Ok(())
    }

    fn weigh(&mut self, weights: Weights)
        requires { fits_weights weights ≡ true }
        ensures { self.new ≡ weighed self.old weights }
    {
        self.weights = weights;
    }

    /// Takes what a line of a value says.
    #[tactic(auto, unfolding(crate::specs::Reading::value_of))]
    pub(crate) fn take_value(mut self, words: &[&[u8]]) -> Result<Opening, LineError>
        ensures { Gives (λ x. x) result (value_of self (spelled words.now)) }
    {
        word_count(words, 3, 3)?;
        require(LineFault::Count, self.values.len() < MAX_RANGES)?;
        let key = u32_at(words, 1)?;
        let value = i64_at(words, 2)?;
        require(LineFault::Range, self.is_key(key))?;
        self.add_value(key, value)?;
        Ok(self)
    }

    /// Takes what a line of weights says.
    pub(crate) fn take_weights(mut self, words: &[&[u8]]) -> Result<Opening, LineError>
        ensures { Gives (λ x. x) result (made (weighed self) (weights_of (spelled words.now))) }
    {
        self.weigh(weights_of(words)?);
        Ok(self)
    }

    /// The schema, for the command lines.
    pub(crate) fn into_schema(self) -> Schema
        ensures same { result ≡ self }
        ensures layout { IsTrue (is_layout result) }
    {
        let Opening {
            sites,
            width,
            masters,
            weights,
            values,
        } = self;
        match Schema::new(sites, width, masters, weights, values) {
            Some(schema) => schema,
            None => unreachable!(),
        }
    }
}

fn are_weights(weights: Weights) -> bool
    ensures { result ≡ fits_weights weights }
{
    weights.balance <= MAX_WEIGHT && weights.delay <= MAX_WEIGHT && weights.together <= MAX_WEIGHT
}

#[tactic(auto, unfolding(crate::specs::Reading::weights_of))]
fn weights_of(words: &[&[u8]]) -> Result<Weights, LineError>
    ensures exact { Gives (λ x. x) result (weights_of (spelled words.now)) }
    ensures fit { IfOk result (λ weights. fits_weights weights ≡ true) }
{
    word_count(words, 4, 4)?;
    let weights = Weights {
        balance: u32_at(words, 1)?,
        delay: u32_at(words, 2)?,
        together: u32_at(words, 3)?,
    };
    require(LineFault::Range, are_weights(weights))?;
    Ok(weights)
}

#[tactic(auto, unfolding(crate::specs::Reading::header_words))]
fn header_words(words: &[&[u8]]) -> Result<(), LineError>
    ensures { Gives (λ x. x) result (header_words (spelled words.now)) }
{
    fixed_word(words, 0, b"sites")?;
    fixed_word(words, 2, b"parts")?;
    fixed_word(words, 4, b"width")?;
    fixed_word(words, 6, b"masters")
}

// Whether there are as many masters as partitions, where that number is one.
fn is_for_parts(parts: Option<u64>, masters: u64) -> bool
    ensures { result ≡ is_for_parts parts masters }
{
    match parts {
        None => true,
        Some(parts) => masters == parts,
    }
}

#[tactic(auto, unfolding(crate::specs::Reading::header_count))]
fn header_count(words: &[&[u8]]) -> Result<(), LineError>
    ensures exact { Gives (λ x. x) result (header_count (spelled words.now)) }
    ensures least { OnOk result (7 ≤ length words.now) }
{
    let parts = number(word(words, 3), 65535);
    require(
        LineFault::Count,
        7 <= words.len() && is_for_parts(parts, words.len() as u64 - 7),
    )
}

/// What a header says.
#[tactic(auto, unfolding(crate::specs::Reading::header_of))]
pub(crate) fn header_of(alloc: Global, words: &[&[u8]]) -> Result<Opening, LineError>
    ensures { Gives (λ x. x) result (header_of (spelled words.now)) }
{
    header_words(words)?;
    header_count(words)?;
    let sites = u8_at(words, 1)?;
    u16_at(words, 3)?;
    let width = u32_at(words, 5)?;
    let masters = sites_of(alloc, &words[7..])?;
    Opening::new(alloc, sites, width, masters)
}
