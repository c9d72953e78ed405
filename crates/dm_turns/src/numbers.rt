//! A list of numbers, to which any number may be added: actor `a` may add those that leave `a` when divided by 8.

ghost use Rattle.std.specs.Prelude.{◌≡◌, ◌+◌, ◌*◌, ◌<◌, ◌≤◌, ◌++◌, [], ◌∷◌, vec_len, vec_capacity};
ghost use Rattle.dm_event.specs.declared.actor.Actor.TheVariants.{Session};
ghost use Rattle.dm_chronicle.specs.Standing.{IsOf};

use dm_chronicle::{Chronicle, Law, Pass};
use dm_event::{Actor, NoMemory};
use std::alloc::Global;
use std::sync::Wait;
use std::thread;
use std::thread::Threads;

#[derive(Drop)]
pub(crate) struct Numbers {
    list: Vec<u64>,
}

impl Law for Numbers {
    ghost use Rattle.dm_turns.specs.Leaves.{leaves};

    type Item = u64;

    type Fixed = ();

    ghost list = { λ n. n.list.items };

    ghost fixed = { λ _. tt };

    ghost actors = { leaves };

    ghost may_follow = { λ _ _ _. Unit {0} };

    ghost has_room = { λ n _. vec_len n.list < vec_capacity n.list };

    fn reserve(&mut self, _step: &u64) -> Result<(), NoMemory> {
        Ok(self.list.reserve(1)?)
    }

    fn push(&mut self, step: u64) {
        self.list.push_reserved(step);
    }
}

/// Pushes the actor's numbers `from` to `from + 99` times 8, one a turn.
fn push_all<R: Wait>(
    rt: &R,
    chron: &Chronicle<Numbers>,
    mut pass: Pass<Numbers>,
    actor: u32,
    from: u32,
) -> Pass<Numbers>
    requires own { IsOf chron.now pass }
    requires actor { (actor < 8) × (pass.actors ≡ Session actor ∷ []) }
    requires from { from ≤ 1000 }
    ensures actors { result.actors ≡ pass.actors }
    ensures own { IsOf chron.now result }
{
    for i in 0..100 {
        let step = u64::from(from + i) * 8 + u64::from(actor);
        let mut turn = chron.enter(rt, &mut pass);
        if turn.reserve(&step).is_ok() {
            turn.push(step);
        }
        turn.leave(&mut pass);
    }
    pass
}

/// Two threads push 100 numbers each, meet, and push 100 more each.
pub(crate) fn two_threads<R: Threads + Wait + Sync>(rt: &R, alloc: Global) -> Option<Vec<u64>> {
    let kept = Numbers {
        list: Vec::new(alloc),
    };
    let Ok((chron, mut passes)) = Chronicle::new(
        alloc,
        kept,
        &[Actor::Session(1), Actor::Session(2)],
    ) else {
        return None;
    };
    let (Some(two), Some(one)) = (passes.pop(), passes.pop()) else {
        return None;
    };
    let lent = &chron;
    let (mut one, mut two) = thread::join(
        rt,
        move || push_all(rt, lent, one, 1, 0),
        move || push_all(rt, lent, two, 2, 0),
    );
    chron.meet(&mut one, &mut two);
    let (one, two) = thread::join(
        rt,
        move || push_all(rt, lent, one, 1, 100),
        move || push_all(rt, lent, two, 2, 100),
    );
    let pass = chron.join(one, two);
    let kept = chron.close(pass);
    Some(kept.list)
}
