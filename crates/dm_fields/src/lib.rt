//! The words of a line: fixed words, numbers, and what is wrong with a line that lacks them.
#![tactic(auto)]

mod error;
mod fault;
mod fields;

pub use error::HistoryError;
pub use fault::LineError;
pub use fields::{
    canonical, fixed_word, i64_at, is, require, u8_at, u16_at, u32_at, u64_at, unknown_at, word,
    word_count,
};
