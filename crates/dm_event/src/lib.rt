//! What happens in the database, step by step, and the numbers that stand in a step.
#![tactic(auto)]

mod actor;
mod attempt;
mod copying;
mod limits;
mod lists;
mod part_set;
mod placing;
mod schema;
mod step;
mod vector;
mod why;

pub use actor::Actor;
pub use attempt::{Attempt, AttemptState};
pub use limits::{
    MAX_FILE, MAX_KEYS, MAX_OPS, MAX_PARTS, MAX_RANGES, MAX_SESSIONS, MAX_SITES, MAX_WEIGHT,
    MAX_WIDTH, WINDOW,
};
pub use lists::{Keys, Ops, Pairs};
pub use part_set::PartSet;
pub use placing::Placing;
pub use schema::{Schema, ValueRange, Weights};
use std::alloc::{AllocError, AllocFailed};
pub use step::{Body, Cause, Choice, Entry, Found, Op, Pair, Pending, Said, Step, TxnId, Want};
pub use vector::Vector;
pub use why::{LineFault, Why};

/// A site, from 1 on.
pub type SiteNo = u8;

/// A partition, from 0 on.
pub type Part = u16;

/// A key: partition `p` has the keys from `p * width` up to, and without, `(p + 1) * width`.
pub type Key = u32;

pub type Value = i64;

/// There was no memory left.
#[derive(Clone, Copy, Debug, PartialEq, Eq)]
pub struct NoMemory;

impl From<AllocError> for NoMemory {
    fn from(_e: AllocError) -> NoMemory {
        NoMemory
    }
}

impl<T: Drop> From<AllocFailed<T>> for NoMemory {
    fn from(_e: AllocFailed<T>) -> NoMemory {
        NoMemory
    }
}
