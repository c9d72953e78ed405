//! All passes come in, and the chronicle is closed.

ghost use Rattle.std.specs.Prelude.{◌≡◌, ◌+◌, [], ◌∷◌, ◌++◌, length, vec_len, OnOk};
ghost use Rattle.dm_closing.specs.Closed.{AllKept, AllLeft, AllLevel};
ghost use Rattle.dm_closing.specs.Joining.{AreIn, Grew, HaveLeft};
ghost use Rattle.dm_model.specs.Legal.{Legal};
ghost use Rattle.dm_site.specs.Leaving.{Leaves};
ghost use Rattle.dm_table.specs.Starts.{ArePasses};

use crate::bundle::Bundle;
use crate::leveling::{catch_up_all, is_level};
use dm_chronicle::Named;
use dm_core::{Book, Chron, CorePass};
use dm_event::{Actor, NoMemory, Part, SiteNo};
use dm_logdisk::LogDisk;
use dm_session::Session;
use dm_sites::{Numbered, SiteLock, Sites, stuck};
use std::sync::Wait;

/// What is left when all clients have ended.
#[derive(Drop)]
pub struct Finished<D: LogDisk + Drop> {
    /// The book with every step.
    pub book: Book,
    /// The disks of the sites, in order.
    pub disks: Vec<D>,
    /// Whether each site that is up has all that was committed.
    pub level: Result<(), NoMemory>,
}

/// The pass of the site with this number, and its disk as it leaves it.
fn apart<D: LogDisk + Drop, N: Named, R: Wait>(
    rt: &R,
    at: SiteLock<D, N>,
    number: SiteNo,
) -> (CorePass, D)
    ensures leaves { Leaves N.table N.faults number result.0 (D.story result.1) (D.faults result.1) }
{
    let Numbered { number: its, site } = at.lock.into_inner();
    if its != number {
        stuck(rt);
        unreachable!()
    }
    let (pass, log) = site.into_parts();
    (pass, log.into_disk())
}

/// Takes the passes of the sites in, that of site 1 first, and their disks.
fn take_sites<'a, D: LogDisk + Drop, N: Named, R: Wait>(
    rt: &R,
    chron: &Chron,
    locks: Vec<SiteLock<D, N>>,
    all: &'a [Actor],
    room: Vec<D>,
) -> (Bundle<'a>, Vec<D>)
    requires chron { chron.now.table ≡ N.table }
    requires room { room.items ≡ [] }
    ensures table { result.0.pass.table ≡ N.table }
    ensures rest { result.0.pass.actors ++ result.0.rest.now ≡ all.now }
    ensures left { HaveLeft D.story D.faults N.table N.faults 1 result.0.pass result.1.items }
    ensures every { length result.1.items ≡ vec_len locks }
{
    let mut locks = locks;
    let mut disks = room;
    locks.reverse();
    let Some(first) = locks.pop() else {
        stuck(rt);
        unreachable!()
    };
    let (pass, disk) = apart(rt, first, 1);
    push(rt, &mut disks, disk);
    let mut bundle = Bundle::new(rt, pass, Actor::Site(1), all);
    let mut number: SiteNo = 1;
    while let Some(next) = locks.pop() {
        number = one_more(rt, number);
        let (pass, disk) = apart(rt, next, number);
        bundle = bundle.join(rt, chron, pass, Actor::Site(number));
        push(rt, &mut disks, disk);
    }
    (bundle, disks)
}

/// One site more, which was there at the opening.
fn one_more<R: Wait>(rt: &R, number: SiteNo) -> SiteNo
    ensures { result ≡ number + 1 }
{
    match number.checked_add(1) {
        Some(next) => next,
        None => {
            stuck(rt);
            unreachable!()
        }
    }
}

/// One disk more, for which there is room from the opening on.
fn push<D: Drop, R: Wait>(rt: &R, disks: &mut Vec<D>, disk: D)
    ensures { disks.new.items ≡ disks.old.items ++ disk ∷ [] }
{
    if disks.push(disk).is_err() {
        stuck(rt);
        unreachable!()
    }
}

/// One partition more, which was there at the opening.
fn next_part<R: Wait>(rt: &R, part: Part) -> Part
    ensures { result ≡ part + 1 }
{
    match part.checked_add(1) {
        Some(next) => next,
        None => {
            stuck(rt);
            unreachable!()
        }
    }
}

/// Takes the passes of the partitions in.
fn take_parts<'a, R: Wait>(
    rt: &R,
    chron: &Chron,
    bundle: Bundle<'a>,
    passes: Vec<CorePass>,
) -> Bundle<'a>
    requires table { bundle.pass.table ≡ chron.now.table }
    requires passes { ArePasses chron.now.table 0 passes.items }
    ensures grew { Grew bundle.entry.pass result.pass }
    ensures rest { result.pass.actors ++ result.rest.now ≡ bundle.entry.pass.actors ++ bundle.entry.rest.now }
{
    let mut bundle = bundle;
    let mut passes = passes;
    let mut part: Part = 0;
    passes.reverse();
    while let Some(pass) = passes.pop() {
        bundle = bundle.join(rt, chron, pass, Actor::Partition(part));
        part = next_part(rt, part);
    }
    bundle
}

/// Takes the passes of the sessions in.
fn take_sessions<'a, N: Named, R: Wait>(
    rt: &R,
    chron: &Chron,
    bundle: Bundle<'a>,
    sessions: Vec<Session<N>>,
) -> Bundle<'a>
    requires chron { chron.now.table ≡ N.table }
    requires table { bundle.pass.table ≡ N.table }
    ensures grew { Grew bundle.entry.pass result.pass }
    ensures rest { result.pass.actors ++ result.rest.now ≡ bundle.entry.pass.actors ++ bundle.entry.rest.now }
    ensures sessions { AreIn sessions.items result.pass }
{
    let mut bundle = bundle;
    let mut sessions = sessions;
    sessions.reverse();
    while let Some(session) = sessions.pop() {
        let id = session.id();
        let (_, pass) = session.part();
        bundle = bundle.join(rt, chron, pass, Actor::Session(id));
    }
    bundle
}

/// Nobody commits any more once the sites have caught up. No clause says so, and so the book is asked.
fn judged<R: Wait>(rt: &R, book: &Book, level: Result<(), NoMemory>) -> Result<(), NoMemory>
    ensures { OnOk result (AllLevel book.now.layout book.now.steps) }
{
    level?;
    if is_level(book) {
        return Ok(());
    }
    stuck(rt);
    unreachable!()
}

/// Has every site that is up take over all that was committed, takes all passes in, and closes the chronicle. `actors` are the
/// chronicle's: its sites, its partitions and its sessions, each in order. It waits for ever where a pass is missing.
pub fn close<D: LogDisk + Drop, N: Named, R: Wait>(
    sites: Sites<D, N>,
    parts: Vec<CorePass>,
    actors: &[Actor],
    room: Vec<D>,
    rt: &R,
    sessions: Vec<Session<N>>,
) -> Finished<D>
    requires all { actors.now ≡ sites.chron.actors }
    requires parts { ArePasses N.table 0 parts.items }
    requires room { room.items ≡ [] }
    ensures sessions { AllKept sessions.items result.book.steps }
    ensures schema { result.book.layout ≡ sites.chron.fixed.layout }
    ensures items { result.book.items ≡ sites.chron.fixed.items }
    ensures legal { Legal result.book.layout result.book.steps }
    ensures every { length result.disks.items ≡ sites.schema.sites }
    ensures disks { AllLeft D.story D.faults N.faults 1 result.book.steps result.disks.items }
    ensures level { OnOk result.level (AllLevel result.book.layout result.book.steps) }
{
    let level = catch_up_all(&sites, rt);
    let Sites { chron, locks, .. } = sites;
    let (bundle, disks) = take_sites(rt, &chron, locks, actors, room);
    let bundle = take_parts(rt, &chron, bundle, parts);
    let bundle = take_sessions(rt, &chron, bundle, sessions);
    let book = bundle.close(rt, chron);
    let level = judged(rt, &book, level);
    Finished { book, disks, level }
}
