//! What the Routes for places and restarts have come to.

ghost use Rattle.std.specs.Prelude.{ℕ, ◌+◌, ◌≡◌, ◌≤◌, ◌∷◌, [], true, IfOk, None, List, length, option_and_then, option_map, replicate, slice_get};
ghost use Rattle.dm_event.specs.Layout.{Layout};
ghost use Rattle.dm_event.specs.declared.step.Step.{Step};
ghost use Rattle.dm_aims.specs.Aiming.{aim_after, aim_in, first_aim, next_aim, wanted_part, AreAims};
ghost use Rattle.dm_model.specs.Attempts.{Routing};
ghost use Rattle.dm_model.specs.Outcomes.{settled_epoch};
ghost use Rattle.dm_model.specs.Progress.{is_restart};
ghost use Rattle.dm_model.specs.Shape.{is_shaped};
ghost use Rattle.dm_state.specs.Standings.{placing_in, AreStates};

use crate::aim::Aim;
use dm_event::{MAX_SESSIONS, NoMemory, Part, Placing, SiteNo, Step, Want};
use dm_state::States;
use std::alloc::Global;
use std::marker::Model;

/// What each session's last Route is for, and what has come of it.
#[derive(Drop)]
pub struct Aims {
    list: Vec<Option<Aim>>,
}

impl Model for Aims {
    ghost use Rattle.std.specs.Prelude.{List, Option};
    ghost use Rattle.dm_aims.specs.declared.aim.Aim.{Aim};
    ghost use Rattle.dm_aims.specs.AimsFields.{list_of, HasSessions};

    ghost Value = { List (Option Aim) };

    ghost view = { list_of };

    ghost invariant = { HasSessions };
}

impl Aims {
    /// No Route so far. No later call takes memory.
    pub fn new(alloc: Global) -> Result<Aims, NoMemory>
        ensures { IfOk result (λ aims. (layout : Layout) → AreAims layout [] aims) }
    {
        Ok(Aims { list: none(alloc)? })
    }

    /// What the session's last Route is for, and what has come of it.
    pub fn aim(&self, session: u32) -> Option<Aim>
        ensures { result ≡ aim_in self.now session }
    {
        if 1 <= session && session <= MAX_SESSIONS {
            self.list[session as usize - 1]
        } else {
            None
        }
    }

    /// Brings the aims to what they are after the step, where the states are those after it. It takes no
    /// memory.
    pub fn apply(&mut self, step: &Step, states: &States)
        ensures follows { (layout : Layout) (past : List Step) → is_shaped layout step.now ≡ true → AreStates layout (step.now ∷ past) states.now
            → AreAims layout past self.old → AreAims layout (step.now ∷ past) self.new }
    {
        keep(&mut self.list, step, states);
    }
}

fn wanted_part(want: &Want) -> Option<Part>
    ensures { result ≡ wanted_part want.now }
{
    match want {
        Want::Place(part) => Some(*part),
        Want::Txn(_) | Want::Restart => None,
    }
}

fn settled_epoch(site: SiteNo, now: Placing) -> Option<u64>
    ensures { result ≡ settled_epoch site now }
{
    match now {
        Placing::Settled { site: at, epoch } => (at == site).then_some(epoch),
        _ => None,
    }
}

fn settled_now(states: &States, site: SiteNo, part: Option<Part>) -> Option<u64>
    ensures { result ≡ option_and_then (λ p. settled_epoch site (placing_in states.now p)) part }
{
    match part {
        Some(part) => settled_epoch(site, states.placing(part)),
        None => None,
    }
}

fn first_aim(states: &States, site: SiteNo, want: &Want) -> Aim
    ensures { (r : Routing) → r.site ≡ site → r.want ≡ want.now → result ≡ first_aim (placing_in states.now) r }
{
    let part = wanted_part(want);
    Aim {
        site,
        part,
        settled: settled_now(states, site, part),
        restarted: false,
    }
}

fn aim_after(states: &States, step: &Step, before: Aim) -> Aim
    ensures { result ≡ aim_after (placing_in states.now) step.now before }
{
    Aim {
        site: before.site,
        part: before.part,
        settled: settled_now(states, before.site, before.part).or(before.settled),
        restarted: is_restart(step, before.site) || before.restarted,
    }
}

fn is_restart(step: &Step, site: SiteNo) -> bool
    ensures { result ≡ is_restart site step.now }
{
    match step {
        Step::Restart { site: at, .. } => *at == site,
        _ => false,
    }
}

fn next_aim(states: &States, step: &Step, session: u32, before: Option<Aim>) -> Option<Aim>
    ensures { result ≡ next_aim session (placing_in states.now) step.now before }
{
    match step {
        Step::Route {
            txn,
            want,
            site,
            ..
        } if txn.session == session => Some(first_aim(states, *site, want)),
        _ => match before {
            Some(before) => Some(aim_after(states, step, before)),
            None => None,
        },
    }
}

fn keep(aims: &mut Vec<Option<Aim>>, step: &Step, states: &States)
    requires { length aims.old.items ≤ MAX_SESSIONS }
    ensures long { length aims.new.items ≡ length aims.old.items }
    ensures each { (k : ℕ) → slice_get aims.new.items k ≡ option_map (next_aim (k + 1) (placing_in states.now) step.now) (slice_get aims.old.items k) }
{
    advance(aims, step, states);
}

fn none(alloc: Global) -> Result<Vec<Option<Aim>>, NoMemory>
    ensures { IfOk result (λ list. list.items ≡ replicate MAX_SESSIONS None) }
{
    Ok(Vec::from_elem(alloc, None, MAX_SESSIONS as usize)?)
}

fn advance(aims: &mut [Option<Aim>], step: &Step, states: &States)
    requires { length aims.old ≤ MAX_SESSIONS }
    ensures long { length aims.new ≡ length aims.old }
    ensures each { (k : ℕ) → slice_get aims.new k ≡ option_map (next_aim (k + 1) (placing_in states.now) step.now) (slice_get aims.old k) }
{
    for i in 0..aims.len() {
        aims[i] = next_aim(states, step, i as u32 + 1, aims[i]);
    }
}
