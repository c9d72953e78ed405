//! What a seat knows. No value of it is made.
use dm_event::Actor;
use std::collections::LinkedList;

pub struct View<I, F> {
    pub seen: LinkedList<I>,
    pub held: LinkedList<(Actor, LinkedList<I>)>,
    pub mark: u64,
    pub older: LinkedList<(LinkedList<I>, Option<F>)>,
    pub fixed: Option<F>,
    pub opening: u64,
    pub own: u64,
}

/// What the table is made from.
pub struct About<L> {
    pub kept: L,
    pub actors: Vec<Actor>,
}
