//! The frames of the records that a site's log has of a history.
#![tactic(auto)]

mod framing;
mod law;
mod listing;

pub use framing::pending_frame;
pub use law::{records_of_frames, records_of_histories};
pub use listing::frames;
