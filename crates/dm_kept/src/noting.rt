//! What the window remembers of a Route with declared keys.

ghost use Rattle.std.specs.Prelude.{◌≡◌, ◌∷◌, List, reverse, true};
ghost use Rattle.dm_event.specs.declared.step.Step.{Step};
ghost use Rattle.dm_model.specs.Choices.{window as window_of};
ghost use Rattle.dm_model.specs.Shape.{is_shaped};

use dm_clauses::parts_of;
use dm_event::{Schema, Step, Want};
use dm_placement::{Window, choices_due};

/// A window of the last Routes with declared keys becomes the one of the history with this step. It
/// takes no memory.
pub(crate) fn note(schema: &Schema, window: &mut Window, step: &Step)
    requires { is_shaped schema.now step.now ≡ true }
    ensures { (past : List Step) → window.old ≡ reverse (window_of schema.now past) → window.new ≡ reverse (window_of schema.now (step.now ∷ past)) }
{
    choices_due();
    match step {
        Step::Route { want, .. } => match want {
            Want::Txn(keys) if !keys.as_slice().is_empty() => {
                window.note(parts_of(schema, keys));
            }
            _ => {}
        },
        _ => {}
    }
}
