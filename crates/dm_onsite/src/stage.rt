//! The two sites, and each act at one of them.

ghost use Rattle.std.specs.Prelude.{◌≡◌, ◌∷◌, []};
ghost use Rattle.dm_event.specs.declared.actor.Actor.TheVariants.{Partition};
ghost use Rattle.dm_onsite.specs.Opened.{IsEmpty};

use crate::act::{Act, Outcome};
use crate::opening::Opened;
use crate::player::Player;
use dm_chronicle::Named;
use dm_core::{Chron, CorePass, Frame};
use dm_desk::{enter_alone, leave};
use dm_event::{Op, SiteNo};
use dm_logdisk::LogDisk;
use dm_redo::RedoLog;
use dm_site::Site;
use std::alloc::Global;
use std::sync::Wait;

/// Two sites, of one chronicle, and the pass of the first partition.
#[derive(Drop)]
pub(crate) struct Stage<D: LogDisk + Drop, N: Named> {
    chron: Chron,
    one: Site<D, N>,
    two: Site<D, N>,
    entry: CorePass,
    ghost chron_is: { chron.table ≡ N.table },
    ghost one_is: { one.number ≡ 1 },
    ghost two_is: { two.number ≡ 2 },
    ghost entry_is: { (entry.table ≡ N.table) × (entry.actors ≡ Partition 0 ∷ []) },
}

/// What is left of the play.
#[derive(Drop)]
pub struct Finished<D: LogDisk + Drop> {
    /// The disk of site 1, and that of site 2.
    pub disk: D,
    pub other: D,
    /// The frames of site 1's records in the history, and those of site 2's.
    pub frames: Vec<Frame>,
    pub others: Vec<Frame>,
    pub steps: usize,
}

impl<D: LogDisk + Drop, N: Named> Stage<D, N> {
    /// Two sites that have nothing yet, and two sessions.
    pub(crate) fn new(
        alloc: Global,
        opened: Opened,
        one: RedoLog<D>,
        two: RedoLog<D>,
    ) -> Option<(Stage<D, N>, Player<N>, Player<N>)>
        requires table { opened.chron.table ≡ N.table }
        requires faults { N.faults ≡ [] }
        requires one { IsEmpty D.story one }
        requires two { IsEmpty D.story two }
    {
        let Opened {
            schema,
            chron,
            one: pass_one,
            two: pass_two,
            first,
            second,
            entry,
        } = opened;
        let Ok(one) = Site::new(alloc, 1, &schema, one, pass_one) else {
            return None;
        };
        let Ok(two) = Site::new(alloc, 2, &schema, two, pass_two) else {
            return None;
        };
        let first = Player::new(1, &schema, first)?;
        let second = Player::new(2, &schema, second)?;
        let stage = Stage {
            chron,
            one,
            two,
            entry,
        };
        Some((stage, first, second))
    }

    /// One act by a session.
    pub(crate) fn act<R: Wait>(
        &mut self,
        rt: &R,
        alloc: Global,
        player: &mut Player<N>,
        act: Act,
    ) -> Outcome {
        let chron = &self.chron;
        let one = &mut self.one;
        match act {
            Act::Begin { key } => player.begin(rt, chron, alloc, one, key),
            Act::Read { key } => player.op(chron, one, &Op::Read { key }),
            Act::Write { key, value } => player.op(chron, one, &Op::Write { key, value }),
            Act::Commit => player.commit(rt, chron, alloc, one),
            Act::Fail => player.fail(rt, chron, one),
            Act::Withdraw => {
                one.withdraw(player.last());
                Outcome::Withdrawn
            }
            Act::Ask { to } => player.ask(rt, chron, &mut self.entry, to),
            Act::Release { site } => self.release(rt, alloc, player, site),
            Act::Grant { site } => self.grant(rt, alloc, player, site),
            Act::Settle => player.settle(rt, chron, &mut self.entry),
            Act::Refresh { site } => self.refresh(rt, site),
            Act::Restart { site } => self.restart(rt, alloc, player, site),
        }
    }

    fn release<R: Wait>(
        &mut self,
        rt: &R,
        alloc: Global,
        player: &mut Player<N>,
        site: SiteNo,
    ) -> Outcome {
        if site == 1 {
            player.release(rt, &self.chron, alloc, &mut self.one)
        } else {
            player.release(rt, &self.chron, alloc, &mut self.two)
        }
    }

    fn grant<R: Wait>(
        &mut self,
        rt: &R,
        alloc: Global,
        player: &mut Player<N>,
        site: SiteNo,
    ) -> Outcome {
        if site == 1 {
            player.grant(rt, &self.chron, alloc, &mut self.one)
        } else {
            player.grant(rt, &self.chron, alloc, &mut self.two)
        }
    }

    fn refresh<R: Wait>(&mut self, rt: &R, site: SiteNo) -> Outcome {
        let done = if site == 1 {
            self.one.refresh_one(rt, &self.chron)
        } else {
            self.two.refresh_one(rt, &self.chron)
        };
        done.map_or(Outcome::NoMemory, Outcome::from)
    }

    fn restart<R: Wait>(
        &mut self,
        rt: &R,
        alloc: Global,
        player: &mut Player<N>,
        site: SiteNo,
    ) -> Outcome {
        if site == 1 {
            player.restart(rt, &self.chron, alloc, &mut self.one, site)
        } else if site == 2 {
            player.restart(rt, &self.chron, alloc, &mut self.two, site)
        } else {
            Outcome::Idle
        }
    }

    /// The two disks, and the frames of each site's records in the history.
    pub(crate) fn finish<R: Wait>(
        self,
        rt: &R,
        alloc: Global,
        player: Player<N>,
    ) -> Option<Finished<D>> {
        let Player { mut pass, .. } = player;
        let turn = enter_alone(rt, &self.chron, &mut pass);
        let frames = turn.kept().frames(alloc, 1);
        let others = turn.kept().frames(alloc, 2);
        let steps = turn.kept().steps().len();
        leave(turn, &mut pass);
        let Stage { one, two, .. } = self;
        Some(Finished {
            disk: one.into_parts().1.into_disk(),
            other: two.into_parts().1.into_disk(),
            frames: frames.ok()?,
            others: others.ok()?,
            steps,
        })
    }
}
