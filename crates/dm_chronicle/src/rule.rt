//! The rule of the table, and what each step tells.
use crate::law::Law;
use crate::view::{About, View};
use atomic_table::{Join, Play, Split, TableRule};
use std::marker::PhantomData;

pub struct Keeps<L> {
    of: PhantomData<L>,
}

impl<L: Law> TableRule<Option<L>, View<L::Item, L::Fixed>, About<L>> for Keeps<L> {
    ghost use Rattle.dm_chronicle.specs.Belongs.{belongs};
    ghost use Rattle.dm_chronicle.specs.Rule.{Holds, first_view};

    ghost holds = { Holds L.list L.fixed (belongs L.actors) L.may_follow };

    ghost first = { λ about. first_view L.list L.fixed (belongs L.actors) L.may_follow about.kept about.actors.items };
}

pub struct Tries;

impl<L: Law> Play<Option<L>, View<L::Item, L::Fixed>> for Tries {
    ghost use Rattle.dm_chronicle.specs.Belongs.{belongs};
    ghost use Rattle.dm_chronicle.specs.Rule.{tries};

    ghost then = { tries L.list L.fixed (belongs L.actors) L.may_follow };
}

pub struct Pushes;

impl<L: Law> Play<Option<L>, View<L::Item, L::Fixed>> for Pushes {
    ghost use Rattle.dm_chronicle.specs.Belongs.{belongs};
    ghost use Rattle.dm_chronicle.specs.Rule.{pushed};

    ghost then = { pushed L.list L.fixed (belongs L.actors) L.may_follow };
}

pub struct Gives;

impl<L: Law> Play<Option<L>, View<L::Item, L::Fixed>> for Gives {
    ghost use Rattle.dm_chronicle.specs.Belongs.{belongs};
    ghost use Rattle.dm_chronicle.specs.Rule.{gave};

    ghost then = { gave L.list L.fixed (belongs L.actors) L.may_follow };
}

pub struct Looks;

impl<L: Law> Play<Option<L>, View<L::Item, L::Fixed>> for Looks {
    ghost use Rattle.dm_chronicle.specs.Belongs.{belongs};
    ghost use Rattle.dm_chronicle.specs.Rule.{looked};

    ghost then = { looked L.list L.fixed (belongs L.actors) L.may_follow };
}

pub struct Opens;

impl<L: Law> Play<Option<L>, View<L::Item, L::Fixed>> for Opens {
    ghost use Rattle.dm_chronicle.specs.Belongs.{belongs};
    ghost use Rattle.dm_chronicle.specs.Rule.{opened};

    ghost then = { opened L.list L.fixed (belongs L.actors) L.may_follow };
}

/// All actors go.
pub struct Actors;

impl<I, F> Split<View<I, F>> for Actors {
    ghost use Rattle.dm_chronicle.specs.Rule.{without};

    ghost left = { without };

    ghost right = { λ v. v };
}

/// A note without actors goes.
pub struct Note;

impl<I, F> Split<View<I, F>> for Note {
    ghost use Rattle.dm_chronicle.specs.Rule.{note};

    ghost left = { λ v. v };

    ghost right = { note };
}

/// The first actor goes.
pub struct First;

impl<I, F> Split<View<I, F>> for First {
    ghost use Rattle.dm_chronicle.specs.Rule.{first_of, others_of};

    ghost left = { λ v. record v { held = others_of v.held } };

    ghost right = { λ v. record v { held = first_of v.held } };
}

pub struct Both;

impl<I, F> Join<View<I, F>> for Both {
    ghost use Rattle.dm_chronicle.specs.Rule.{joined, spent};

    ghost both = { joined };

    ghost spent = { spent };
}

/// The actors that the last join brought go back.
pub struct Back;

impl<I, F> Split<View<I, F>> for Back {
    ghost use Rattle.dm_chronicle.specs.Rule.{keeps_own, gives_back};

    ghost left = { keeps_own };

    ghost right = { gives_back };
}
