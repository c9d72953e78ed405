//! The bytes of the records of a redo log.
#![tactic(auto)]

mod decoding;
mod encoding;
mod parts;
mod reading;
mod record;

pub use decoding::decode;
pub use encoding::{Frame, encode, encode_commit, encode_grant, encode_release};
pub use record::{Decoded, MAX_KEY, Record};
