//! Which chronicle it is. Each run of a program picks it.
use std::marker::Brand;

pub trait Named {
    ghost use Rattle.std.specs.Prelude.{ℕ, List};
    ghost use Rattle.atomic_table.specs.Seated.{TableId};

    ghost table: { TableId };

    // For each site, its disk's count of faults at the opening.
    ghost faults: { List ℕ };
}

impl Named for Brand {
    ghost use Rattle.std.specs.Prelude.{[]};
    ghost use Rattle.dm_chronicle.specs.Standing.{no_table};

    ghost table = { no_table };

    ghost faults = { [] };
}
