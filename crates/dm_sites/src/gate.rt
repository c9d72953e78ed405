//! Points at which a test may hold a thread.

use dm_event::{SiteNo, TxnId};
use std::sync::Wait;

/// Where a thread is.
#[derive(Clone, Copy, Debug, PartialEq, Eq)]
pub enum Point {
    /// The entries of the table are held together with others who look.
    Routing,
    /// Between the begin of an attempt and its first op, with no lock held.
    Inside,
    /// At the start of a turn of the site's applier, with no lock held.
    Applier(SiteNo),
}

/// It tells nothing and changes nothing.
pub trait Gate {
    fn at<R: Wait>(&self, rt: &R, point: Point, txn: Option<TxnId>);
}

/// It holds nobody.
#[derive(Clone, Copy, Debug)]
pub struct OpenGate;

impl Gate for OpenGate {
    fn at<R: Wait>(&self, _rt: &R, _point: Point, _txn: Option<TxnId>) {}
}
