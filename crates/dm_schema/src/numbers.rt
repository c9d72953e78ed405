//! Integers of a document, and the ranges in which they stand.

ghost use Rattle.std.specs.Prelude.{◌≡◌, ◌≤◌, IfSome, IsTrue};
ghost use Rattle.dm_event.specs.Layout.{is_between};
ghost use Rattle.dm_schema.specs.Parts.{natural, within};

/// The integer, where it isn't negative.
pub(crate) fn natural(n: i64) -> Option<u64>
    ensures { result ≡ natural n }
{
    if n < 0 { None } else { Some(n.unsigned_abs()) }
}

/// The integer, where it is one of those from `least` to `most`.
#[tactic(auto, unfolding(crate::specs::Parts::within))]
pub(crate) fn within(least: u32, most: u32, n: i64) -> Option<u32>
    ensures exact { result ≡ within least most n }
    ensures most { IfSome result (λ n. n ≤ most) }
{
    let n = natural(n)?;
    if is_between(u64::from(least), u64::from(most), n) {
        Some(n as u32)
    } else {
        None
    }
}

/// Whether it is one of those from `least` to `most`.
pub(crate) fn is_between(least: u64, most: u64, n: u64) -> bool
    ensures same { result ≡ is_between least most n }
    ensures most { IsTrue result → n ≤ most }
{
    least <= n && n <= most
}
