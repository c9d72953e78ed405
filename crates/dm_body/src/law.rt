//! What holds of every body.

ghost use Rattle.std.specs.Prelude.{ℕ, ℤ, List, IsTrue, map};
ghost use Rattle.std.specs.List.Sorted.{IsStrictlyIncreasing};
ghost use Rattle.dm_event.specs.declared.step.Op.{Op};
ghost use Rattle.dm_model.specs.Shape.{is_ascending};
ghost use Rattle.dm_model.specs.Bodies.{body};

/// The writes of a body ascend strictly by key, whatever its ops and the values that it reads.
/// So each key stands there once, and the writes have the form that a step wants.
pub fn writes_ascend()
    ensures increasing { (ops : List Op) (f : ℕ → ℤ) → IsStrictlyIncreasing (map (λ pair. pair.key) (body ops f).writes) }
    ensures ascending { (ops : List Op) (f : ℕ → ℤ) → IsTrue (is_ascending (map (λ pair. pair.key) (body ops f).writes)) }
{}
