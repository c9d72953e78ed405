//! The command lines.

use dm_event::{Found, Key, Part, SiteNo, Value, Want};

/// A command line of a step file. Sessions are 1 to 32.
#[derive(Debug, Drop)]
pub enum Line {
    /// Routes an item of the session, to the site where one is named, else to the one that is due.
    Route {
        session: u32,
        want: Want,
        site: Option<SiteNo>,
    },
    /// Begins the session's attempt at the site of its route.
    Begin {
        session: u32,
    },
    /// Reads a key in the session's running attempt.
    Get {
        session: u32,
        key: Key,
    },
    /// Writes a value.
    Put {
        session: u32,
        key: Key,
        value: Value,
    },
    /// Adds to a value.
    Add {
        session: u32,
        key: Key,
        by: i64,
    },
    /// Commits the session's running attempt, or ends it where it wrote nothing.
    Commit {
        session: u32,
    },
    /// Answers the session's item.
    Reply {
        session: u32,
    },
    /// Fails the session's attempt, for want of memory or else for the log of its site.
    Fail {
        session: u32,
        memory: bool,
    },
    /// Applies the origin's next transaction at the site.
    Refresh {
        site: SiteNo,
        origin: SiteNo,
    },
    /// Asks for the partition, for the session's attempt.
    Ask {
        part: Part,
        session: u32,
    },
    /// The master of a partition that is asked for gives it up.
    Release {
        part: Part,
    },
    /// The site to which a partition was released takes it over.
    Grant {
        part: Part,
    },
    /// Opens a granted partition for routing.
    Settle {
        part: Part,
    },
    /// The site of the session's running attempt goes down over its commit.
    DoubtCommit {
        session: u32,
    },
    /// The master goes down over the release.
    DoubtRelease {
        part: Part,
    },
    /// The site that takes over goes down over the grant.
    DoubtGrant {
        part: Part,
    },
    /// The site starts again, with this found of what it was in doubt about.
    Restart {
        site: SiteNo,
        found: Found,
    },
}
