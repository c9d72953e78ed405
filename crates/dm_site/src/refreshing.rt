//! Taking over what other sites committed.

ghost use Rattle.std.specs.Prelude.{◌≡◌, ◌≤◌, ◌++◌, ◌∷◌, [], Some, IfOk, IfSome, IsSome, OnOk, OnErr, reverse, if◌then◌else◌};
ghost use Rattle.std.specs.Option.{IsSomeAnd};
ghost use Rattle.dm_chronicle.specs.Belongs.{belongs};
ghost use Rattle.dm_chronicle.specs.Standing.{Sees, standing};
ghost use Rattle.dm_core.specs.Lawful.{may_follow};
ghost use Rattle.dm_event.specs.Actors.{actors};
ghost use Rattle.dm_event.specs.declared.step.Step.TheVariants as step;
ghost use Rattle.dm_kept.specs.Roomy.{HasRoom};
ghost use Rattle.dm_model.specs.Allowed.{next_entry};
ghost use Rattle.dm_site.specs.Answers.{Refreshed, Caught, SiteRested};
ghost use Rattle.dm_site.specs.Catching.{Refreshes, Looked, LookAfter, IsCountedIn};
ghost use Rattle.dm_invariant.specs.Stations.{layout_of};
ghost use Rattle.dm_store.specs.Histories.{past_of};
ghost use Rattle.dm_store.specs.Known.{AreKnown};
ghost use Rattle.dm_stores.specs.Stores.{Stores};

use crate::site::Site;
use dm_chronicle::{Named, Turn};
use dm_core::{Book, Chron, CorePass};
use dm_desk::{
    CatchAnswer, RefreshAnswer, enter_alone, is_down, leave, next_refresh, push_alone, reserve,
    vector,
};
use dm_event::{NoMemory, SiteNo, Step, Vector};
use dm_logdisk::LogDisk;
use dm_store::Store;
use std::sync::Wait;

/// Makes room for the Refresh in the book, where it may come.
fn reserve_refresh(turn: &mut Turn<'_, Book>, site: SiteNo, origin: SiteNo) -> Result<(), NoMemory>
    ensures same { standing turn.new ≡ standing turn.old }
    ensures room { OnOk result (IsSomeAnd turn.old.fixed (λ f. may_follow f turn.old.seen (step.Refresh site origin))
        → IsSomeAnd turn.new.kept (λ book. HasRoom book (step.Refresh site origin))) }
{
    reserve(turn, &Step::Refresh { site, origin })
}

/// Takes all memory that the Refresh needs, in the store and in the book.
fn make_room(
    store: &mut Store,
    turn: &mut Turn<'_, Book>,
    site: SiteNo,
    origin: SiteNo,
) -> Result<(), NoMemory>
    requires { IsSome (next_entry (layout_of (standing turn.old)) (reverse turn.old.seen) site origin) }
    ensures turn { standing turn.new ≡ standing turn.old }
    ensures layout { store.new.layout ≡ store.old.layout }
    ensures installed { store.new.installed ≡ store.old.installed }
    ensures spare { OnOk result (1 ≤ store.new.spare) }
    ensures known { OnOk result (IfSome (next_entry (layout_of (standing turn.old)) (reverse turn.old.seen) site origin)
        (λ e. AreKnown store.new.known e.writes)) }
    ensures room { OnOk result (IsSomeAnd turn.old.fixed (λ f. may_follow f turn.old.seen (step.Refresh site origin))
        → IsSomeAnd turn.new.kept (λ book. HasRoom book (step.Refresh site origin))) }
{
    let Some(entry) = turn.kept().next_entry(site, origin) else {
        unreachable!()
    };
    store.know_each(entry.writes.as_slice())?;
    store.reserve(1)?;
    reserve_refresh(turn, site, origin)
}

/// Installs what the site takes over next from the origin.
fn take_over(store: &mut Store, turn: &Turn<'_, Book>, site: SiteNo, origin: SiteNo)
    requires follows { IsSomeAnd turn.now.fixed (λ f. may_follow f turn.now.seen (step.Refresh site origin)) }
    requires stores { Stores (layout_of (standing turn.now)) (reverse turn.now.seen) site store.old.installed }
    requires spare { 1 ≤ store.old.spare }
    requires known { IfSome (next_entry (layout_of (standing turn.now)) (reverse turn.now.seen) site origin) (λ e. AreKnown store.old.known e.writes) }
    ensures layout { store.new.layout ≡ store.old.layout }
    ensures installed { IsSomeAnd (next_entry (layout_of (standing turn.now)) (reverse turn.now.seen) site origin)
        (λ e. store.new.installed ≡ store.old.installed ++ past_of e ∷ []) }
{
    let book = turn.kept();
    // the history so far is legal
    let _steps = book.steps();
    let Some(entry) = book.next_entry(site, origin) else {
        unreachable!()
    };
    store.install(entry.origin, entry.seq, &entry.writes);
}

/// What a site has of a vector.
#[derive(Clone, Copy, Debug, PartialEq, Eq)]
enum Look {
    Covers,
    Lacks,
    Down,
}

fn look_of(down: bool, covers: bool) -> Look
    ensures { result ≡ if down then Look.Down else (if covers then Look.Covers else Look.Lacks) }
{
    if down {
        Look::Down
    } else if covers {
        Look::Covers
    } else {
        Look::Lacks
    }
}

/// What a Refresh tells of a vector that counts what there is.
fn look_after(done: Result<RefreshAnswer, NoMemory>) -> Result<Look, NoMemory>
    ensures { IfOk result (LookAfter done) }
{
    match done {
        Ok(RefreshAnswer::Applied { .. }) => Ok(Look::Lacks),
        Ok(RefreshAnswer::Nothing) => Ok(Look::Covers),
        Ok(RefreshAnswer::Down) => Ok(Look::Down),
        Err(e) => Err(e),
    }
}

impl<D: LogDisk, N: Named> Site<D, N> {
    /// Takes over the next transaction of the least origin of which there is one, in one turn.
    pub fn refresh_one<R: Wait>(&mut self, rt: &R, chron: &Chron) -> Result<RefreshAnswer, NoMemory>
        requires chron { chron.now.table ≡ N.table }
        ensures same { Refreshes self.old self.new }
        ensures ok { IfOk result (Refreshed self.old.number self.old.pass self.new.pass) }
        ensures err { OnErr result (SiteRested self.old.number self.old.pass self.new.pass) }
    {
        let site = self.number;
        let mut turn = enter_alone(rt, chron, &mut self.pass);
        if is_down(&turn, site) {
            leave(turn, &mut self.pass);
            return Ok(RefreshAnswer::Down);
        }
        let Some(origin) = next_refresh(&turn, site) else {
            leave(turn, &mut self.pass);
            return Ok(RefreshAnswer::Nothing);
        };
        if let Err(e) = make_room(&mut self.desk.store, &mut turn, site, origin) {
            leave(turn, &mut self.pass);
            return Err(e);
        }
        take_over(&mut self.desk.store, &turn, site, origin);
        push_alone(turn, &mut self.pass, Step::Refresh { site, origin });
        Ok(RefreshAnswer::Applied { origin })
    }

    /// Whether the site has all of the vector.
    fn look<R: Wait>(&mut self, rt: &R, chron: &Chron, to: &Vector) -> Look
        requires chron { chron.now.table ≡ N.table }
        ensures same { Refreshes self.old self.new }
        ensures look { Looked self.old.number to.now self.new.pass result }
    {
        let turn = enter_alone(rt, chron, &mut self.pass);
        let down = is_down(&turn, self.number);
        let covers = to.leq(&vector(&turn, self.number));
        leave(turn, &mut self.pass);
        look_of(down, covers)
    }

    /// One look, and where the site lacks something one Refresh.
    fn refresh_to<R: Wait>(&mut self, rt: &R, chron: &Chron, to: &Vector) -> Result<Look, NoMemory>
        requires chron { chron.now.table ≡ N.table }
        requires counted { IsCountedIn to.now self.old.pass }
        ensures same { Refreshes self.old self.new }
        ensures look { IfOk result (Looked self.old.number to.now self.new.pass) }
    {
        let first = self.look(rt, chron, to);
        if first != Look::Lacks {
            return Ok(first);
        }
        let done = self.refresh_one(rt, chron);
        let _number = self.number;
        look_after(done)
    }

    /// The two passes have seen one list afterwards.
    pub(crate) fn meet_own(&mut self, chron: &Chron, own: &mut CorePass)
        requires chron { chron.now.table ≡ N.table }
        requires own { own.old.table ≡ N.table }
        ensures same { Refreshes self.old self.new }
        ensures own { Sees (belongs actors) own.old own.new }
        ensures met { own.new.seen ≡ self.new.pass.seen }
        ensures fixed { own.old.fixed ≡ self.old.pass.fixed }
        ensures rests { SiteRested self.old.number self.old.pass self.new.pass }
    {
        chron.meet(own, &mut self.pass);
    }

    /// Takes over what others committed until the site's vector is at least this one, or until the site is
    /// down.
    fn reach<R: Wait>(
        &mut self,
        rt: &R,
        chron: &Chron,
        to: &Vector,
    ) -> Result<CatchAnswer, NoMemory>
        requires chron { chron.now.table ≡ N.table }
        requires counted { IsCountedIn to.now self.old.pass }
        ensures same { Refreshes self.old self.new }
        ensures ok { IfOk result (Caught self.old.number to.now self.new.pass) }
    {
        for _ in rt.forever() {
            match self.refresh_to(rt, chron, to) {
                Ok(Look::Lacks) => {}
                Ok(Look::Covers) => return Ok(CatchAnswer::Reached),
                Ok(Look::Down) => return Ok(CatchAnswer::Down),
                Err(e) => return Err(e),
            }
        }
        unreachable!()
    }

    /// Takes over what others committed until the site's vector is at least this one.
    pub fn catch_up<R: Wait>(
        &mut self,
        rt: &R,
        chron: &Chron,
        own: &mut CorePass,
        to: &Vector,
    ) -> Result<CatchAnswer, NoMemory>
        requires chron { chron.now.table ≡ N.table }
        requires own { own.old.table ≡ N.table }
        requires counted { IsCountedIn to.now own.old }
        ensures same { Refreshes self.old self.new }
        ensures own { Sees (belongs actors) own.old own.new }
        ensures met { own.new.seen ≡ self.new.pass.seen }
        ensures ok { IfOk result (Caught self.old.number to.now self.new.pass) }
    {
        self.meet_own(chron, own);
        let done = self.reach(rt, chron, to);
        self.meet_own(chron, own);
        let _number = self.number;
        done
    }
}
