//! The words and numbers of a text, and the texts of numbers, vectors, transactions and pairs.
#![tactic(auto)]

mod cutting;
mod iterating;
mod listing;
mod numbers;
mod shown;

pub use cutting::lines_of;
pub use iterating::Words;
pub use listing::words;
pub use numbers::{number, numbers_both_ways, put_number, put_signed, signed};
pub use shown::{PairsText, TxnText, VectorText, put_pairs, put_text, put_txn, put_vector};
