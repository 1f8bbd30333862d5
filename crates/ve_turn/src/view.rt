//! What seats know. No value of these types is made.
use crate::journaled::Journaled;
use atomic_table::{Seat, Shared, Table, TableRule};
use std::alloc::Global;
use std::collections::LinkedList;
use std::snapshot::Snapshot;

/// A seat and its desk.
pub struct Place<D> {
    pub seat: u64,
    pub desk: D,
}

/// What a pass knows.
pub struct Knowledge<T: Journaled> {
    /// The number of seats of the turnstile.
    pub seats: u64,
    pub seat: u64,
    /// How many seats the pass stands for besides its own: not yet split from it, or joined into it.
    pub left: u64,
    /// Made by `meet`.
    pub is_met: bool,
    pub opening: T::Opening,
    /// The journal that it has seen.
    pub seen: LinkedList<T::Entry>,
    /// The entries of its own seat and of the seats joined into it.
    pub own: LinkedList<T::Entry>,
    pub desk: T::Desk,
    /// The seats joined into it.
    pub joined: LinkedList<Place<T::Desk>>,
    /// The value that it laid back last.
    pub laid: T,
}

pub enum View<T: Journaled> {
    Spent,
    Outside(Knowledge<T>),
    /// With its ticket.
    Waiting(u64, Knowledge<T>),
    /// With the value that it met.
    Inside(T, Knowledge<T>),
    /// With the journal of the pass that was joined into it.
    Meeting(LinkedList<T::Entry>, Knowledge<T>),
}

/// What the table is told when it is made.
#[derive(Drop)]
pub struct Founding<T> {
    pub value: Snapshot<T>,
    pub seats: u32,
}

pub struct Turning;

impl<T: Journaled> TableRule<Option<T>, View<T>, Founding<T>> for Turning {
    ghost use Rattle.ve_turn.specs.declared.view.View.TheVariants.{Outside};
    ghost use Rattle.ve_turn.specs.Knows.{opening_knowledge};
    ghost use Rattle.ve_turn.specs.Rule as rule;

    ghost holds = { λ key. rule.Turning T.Journaled key.seats };

    ghost first = { λ key. Outside (opening_knowledge T.Journaled key.value.value key.seats) };
}

pub type TurnTable<T> = Table<Option<T>, View<T>, Founding<T>, Turning, Global>;

pub type Token<T> = Seat<Option<T>, View<T>>;

pub type SharedTable<T> = Shared<Option<T>, View<T>, Founding<T>, Turning>;
