//! What a chronicle keeps.
ghost use Rattle.std.specs.Prelude.{◌≡◌, List, [], ◌∷◌, ◌++◌, OnOk, Option};

use dm_event::{Actor, NoMemory};

/// An object that has a list, to which steps are appended where its law lets them follow.
pub trait Law {
    ghost use Rattle.dm_event.specs.declared.actor.Actor.{Actor};

    /// A step.
    type Item;

    /// What no call changes. No value of it is made: it gives contracts a type.
    type Fixed;

    /// The steps so far, the earliest first.
    ghost list: { Self → List Self.Item };

    ghost fixed: { Self → Self.Fixed };

    /// The one or two whose step it is.
    ghost actors: { Self.Item → Actor × Option Actor };

    /// Which step may follow which list.
    ghost may_follow: { Self.Fixed → List Self.Item → Self.Item → Type 0 };

    /// Whether a push of the step needs no memory.
    ghost has_room: { Self → Self.Item → Type 0 };

    /// Makes room for the step.
    fn reserve(&mut self, step: &Self::Item) -> Result<(), NoMemory>
        requires { may_follow (fixed self.old) (list self.old) step.now }
        ensures room { OnOk result (has_room self.new step.now) }
        ensures list { list self.new ≡ list self.old }
        ensures fixed { fixed self.new ≡ fixed self.old };

    /// Appends the step. It takes no memory.
    fn push(&mut self, step: Self::Item)
        requires follows { may_follow (fixed self.old) (list self.old) step }
        requires room { has_room self.old step }
        ensures list { list self.new ≡ list self.old ++ step ∷ [] }
        ensures fixed { fixed self.new ≡ fixed self.old };
}
