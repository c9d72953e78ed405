//! Where a partition stands.

use crate::{SiteNo, Vector};

/// Which site masters a partition, under which epoch, and how far its hand-over has come.
#[derive(Clone, Copy, Debug, PartialEq, Eq)]
pub enum Placing {
    Settled {
        site: SiteNo,
        epoch: u64,
    },
    /// `site` still masters it, and begins no further transaction on it.
    Asked {
        site: SiteNo,
        epoch: u64,
        to: SiteNo,
    },
    /// No site masters it: `site` gave it up at `vector`, and `to` hasn't taken it over yet.
    Between {
        site: SiteNo,
        epoch: u64,
        to: SiteNo,
        vector: Vector,
    },
    /// `site` masters it, and it isn't open for routing yet.
    Granted {
        site: SiteNo,
        epoch: u64,
    },
}
