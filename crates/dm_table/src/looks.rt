//! Entries that are looked at, and what is made of them.

ghost use Rattle.std.specs.Prelude.{◌≡◌, ◌≢◌, ◌++◌, ◌∷◌, [], ℕ, IfSome, IsNone, OnOk};
ghost use Rattle.dm_table.specs.Verdicts.{IsVerdict, IsLeastAsked, NoneAsked, Masters, least_with};

use dm_event::{NoMemory, Part, SiteNo};
use std::alloc::Global;
use std::marker::Model;
use std::sync::RwLockReadGuard;

/// An entry as it was when it was looked at: its master, and the site that it is asked for.
#[derive(Clone, Copy, Debug, Drop, PartialEq, Eq)]
pub struct Glance {
    pub part: Part,
    pub site: SiteNo,
    pub asked: Option<SiteNo>,
}

/// What is made of entries.
#[derive(Clone, Copy, Debug, PartialEq, Eq)]
pub enum Verdict {
    /// All are settled at that site.
    Agreed(SiteNo),
    /// None is asked, and the two sites differ.
    Mixed { one: SiteNo, other: SiteNo },
    /// The least partition that is asked.
    Unsettled(Part),
}

/// Entries that are held together with others who look: nobody asks or settles one of them meanwhile.
#[derive(Drop)]
pub struct Look<'a> {
    gates: Vec<RwLockReadGuard<'a, ()>>,
    seen: Vec<Glance>,
}

impl<'a> Model for Look<'a> {
    ghost use Rattle.std.specs.Prelude.{List};
    ghost use Rattle.dm_table.specs.declared.looks.Glance.{Glance};

    ghost Value = { List Glance };

    ghost view = { λ l. l.seen.items };
}

fn least_with(first: &Glance, others: Option<Part>) -> Option<Part>
    ensures { result ≡ least_with first.now others }
{
    match others {
        None if first.asked.is_some() => Some(first.part),
        None => None,
        Some(part) if first.asked.is_some() => Some(part.min(first.part)),
        Some(part) => Some(part),
    }
}

/// The least partition that is asked.
fn least_asked(seen: &[Glance]) -> Option<Part>
    ensures { IsLeastAsked seen.now result }
{
    let (first, rest) = seen.split_first()?;
    least_with(first, least_asked(rest))
}

/// The master of the first of them.
fn first_master(seen: &[Glance]) -> Option<SiteNo>
    ensures some { IfSome result (λ site. Masters site seen.now) }
    ensures none { IsNone result → seen.now ≡ [] }
{
    let first = seen.first()?;
    Some(first.site)
}

/// A master of one of them that is another site than this.
fn other_master(site: SiteNo, seen: &[Glance]) -> Option<SiteNo>
    ensures some { IfSome result (λ other. Masters other seen.now × (site ≢ other)) }
    ensures none { IsNone result → (other : ℕ) → Masters other seen.now → other ≡ site }
{
    let (first, rest) = seen.split_first()?;
    if first.site == site {
        other_master(site, rest)
    } else {
        Some(first.site)
    }
}

/// What is made of them, none of which is asked.
fn verdict_unasked(seen: &[Glance]) -> Verdict
    requires { NoneAsked seen.now }
    ensures { seen.now ≢ [] → IsVerdict seen.now result }
{
    let Some(one) = first_master(seen) else {
        return Verdict::Unsettled(0);
    };
    match other_master(one, seen) {
        Some(other) => Verdict::Mixed { one, other },
        None => Verdict::Agreed(one),
    }
}

/// What is made of them. Of none, nothing is said.
pub(crate) fn verdict_on(seen: &[Glance]) -> Verdict
    ensures { seen.now ≢ [] → IsVerdict seen.now result }
{
    match least_asked(seen) {
        Some(part) => Verdict::Unsettled(part),
        None => verdict_unasked(seen),
    }
}

impl<'a> Look<'a> {
    pub(crate) fn new(alloc: Global) -> Look<'a>
        ensures { result ≡ [] }
    {
        Look {
            gates: Vec::new(alloc),
            seen: Vec::new(alloc),
        }
    }

    /// One more entry, which stays as it was looked at while its gate is held.
    pub(crate) fn add(
        &mut self,
        gate: RwLockReadGuard<'a, ()>,
        glance: Glance,
    ) -> Result<(), NoMemory>
        ensures { OnOk result (self.new ≡ self.old ++ glance ∷ []) }
    {
        self.gates.push(gate)?;
        self.seen.push(glance)?;
        Ok(())
    }

    /// What is made of the entries. It is so until the look is let go.
    pub fn verdict(&self) -> Verdict
        ensures { self.now ≢ [] → IsVerdict self.now result }
    {
        verdict_on(&self.seen)
    }
}
