//! The turnstile itself.
ghost use Rattle.std.specs.Prelude.{◌≡◌, ℕ, ◌+◌, ◌-◌, ◌≤◌, false, [], IfOk, IfErr};
ghost use Rattle.ve_turn.specs.Journal.{BeginsWith, GoesOn, entries_of};
ghost use Rattle.ve_turn.specs.Knows.{opening_knowledge, new_seat, after_turn, met_of, places_of, desk_in, HasEntries, HasDesks};

use crate::journaled::Journaled;
use crate::numbers::Numbers;
use crate::pass::Pass;
use crate::plays::Cut;
use crate::slot::{filled, slot_of, value_of};
use crate::steps::{draw, join, lay_back, lift, move_on, settle, wait};
use crate::turn::Turn;
use crate::view::{Founding, TurnTable};
use atomic_table::{Refused, Table};
use std::alloc::Global;
use std::marker::Model;
use std::snapshot::Snapshot;
use std::sync::Wait;

/// A value that lies with one seat at a time. The seats share it by reference.
#[derive(Drop)]
pub struct Turnstile<T: Journaled> {
    table: TurnTable<T>,
}

impl<T: Journaled> Model for Turnstile<T> {
    ghost use Rattle.std.specs.Prelude.{◌≡◌};
    ghost use Rattle.ve_turn.specs.Views.{TurnstileId};

    ghost Value = { TurnstileId };

    ghost view = { λ t. t.table.shared.table_id };

    ghost invariant = { λ t. (t.table.shared.table_id.words ≡ 2) × (t.table.shared.table_id.slots ≡ 1) };
}

impl<T: Journaled> Turnstile<T> {
    /// A turnstile with the pass of seat 0, from which the others are split. `Err` means want of memory.
    pub fn open(alloc: Global, value: T, seats: u32) -> Result<(Turnstile<T>, Pass<T>), T>
        requires seats { (1 ≤ seats) × (seats ≤ 65) }
        requires empty { (T.journal value ≡ []) × ((seat : ℕ) → T.desk value seat ≡ T.empty_desk) }
        ensures opened { IfOk result (λ o. (o.1.turnstile ≡ o.0) × (o.1.knows ≡ opening_knowledge T.Journaled value seats)) }
        ensures refused { IfErr result (λ back. back ≡ value) }
    {
        let founding = Founding {
            value: Snapshot::of(&value),
            seats,
        };
        let slots = slot_of(alloc, value)?;
        match Table::new(alloc, &[0, 0], slots, &founding) {
            Ok((table, token)) => {
                let numbers = Numbers {
                    seats,
                    seat: 0,
                    left: seats - 1,
                };
                Ok((Turnstile { table }, Pass::of(numbers, 0, token)))
            }
            Err(Refused { slots }) => Err(value_of(slots)),
        }
    }

    /// The pass with one seat less left, and the pass of a new seat.
    pub fn split(&self, pass: Pass<T>) -> (Pass<T>, Pass<T>)
        requires turnstile { pass.turnstile ≡ self.now }
        requires left { 1 ≤ pass.knows.left }
        requires unmet { pass.knows.is_met ≡ false }
        ensures turnstile { (result.0.turnstile ≡ self.now) × (result.1.turnstile ≡ self.now) }
        ensures first { result.0.knows ≡ record pass.knows { left = pass.knows.left - 1 } }
        ensures second { result.1.knows ≡ new_seat T.empty_desk (pass.knows.seats - pass.knows.left) pass.knows }
    {
        let Pass {
            numbers: Numbers { seats, seat, left },
            seen_len,
            mut token,
        } = pass;
        let other = self.table.shared.split_seat::<Cut>(&mut token);
        let first = Numbers {
            seats,
            seat,
            left: left - 1,
        };
        let second = Numbers {
            seats,
            seat: seats - left,
            left: 0,
        };
        (
            Pass::of(first, seen_len, token),
            Pass::of(second, seen_len, other),
        )
    }

    /// Waits for the turn of the seat. The value met has all that the pass has seen. Of the pass's seats it has the
    /// pass's own entries and no others, and their desks.
    pub fn enter<R: Wait>(&self, rt: &R, pass: Pass<T>) -> Turn<T>
        requires { pass.turnstile ≡ self.now }
        ensures pass { result.pass ≡ pass }
        ensures value { result.value ≡ result.met }
        ensures opening { T.opening result.met ≡ pass.knows.opening }
        ensures seen { BeginsWith (T.journal result.met) pass.knows.seen }
        ensures entries { HasEntries T.Journaled result.met pass.knows.own (places_of pass.knows) }
        ensures desks { HasDesks T.Journaled result.met (places_of pass.knows) }
    {
        let Pass {
            numbers,
            seen_len: _,
            mut token,
        } = pass;
        let shared = &self.table.shared;
        let ticket = draw(shared, &mut token);
        wait(rt, shared, &mut token, ticket);
        let value = lift(shared, &mut token);
        Turn::of(numbers, token, value)
    }

    /// Ends a turn: lays the value back and lets the next seat in.
    pub fn leave(&self, turn: Turn<T>) -> Pass<T>
        requires turnstile { turn.pass.turnstile ≡ self.now }
        requires moves { T.moves turn.pass.knows.seat turn.met turn.value }
        ensures turnstile { result.turnstile ≡ self.now }
        ensures knows { result.knows ≡ after_turn T.Journaled turn.met turn.value turn.pass.knows }
        ensures goes_on { GoesOn T.opening T.journal T.seat_of T.desk turn.pass.knows.seat turn.met turn.value }
    {
        let Turn {
            numbers,
            mut token,
            value,
        } = turn;
        let seen_len = value.journal_len();
        let shared = &self.table.shared;
        lay_back(shared, &mut token, value);
        move_on(shared, &mut token);
        Pass::of(numbers, seen_len, token)
    }

    /// The first pass, with the seats of the second joined into it.
    pub fn meet(&self, first: Pass<T>, second: Pass<T>) -> Pass<T>
        requires turnstile { (first.turnstile ≡ self.now) × (second.turnstile ≡ self.now) }
        ensures turnstile { result.turnstile ≡ self.now }
        ensures knows { result.knows ≡ met_of first.knows second.knows }
        ensures seen { BeginsWith result.knows.seen first.knows.seen × BeginsWith result.knows.seen second.knows.seen }
    {
        let Pass {
            numbers: Numbers { seats, seat, left },
            seen_len,
            mut token,
        } = first;
        let Pass {
            numbers: others,
            seen_len: others_seen_len,
            token: other,
        } = second;
        let shared = &self.table.shared;
        join(shared, &mut token, other);
        settle(shared, &mut token);
        let both = Numbers {
            seats,
            seat,
            left: left + others.left + 1,
        };
        Pass::of(both, seen_len.max(others_seen_len), token)
    }

    /// The value, once the pass stands for all seats.
    pub fn close(self, pass: Pass<T>) -> T
        requires turnstile { pass.turnstile ≡ self }
        requires all { pass.knows.left + 1 ≡ pass.knows.seats }
        ensures opening { T.opening result ≡ pass.knows.opening }
        ensures seen { BeginsWith (T.journal result) pass.knows.seen }
        ensures entries { (seat : ℕ) → entries_of T.seat_of seat (T.journal result) ≡ entries_of T.seat_of seat pass.knows.own }
        ensures desks { (seat : ℕ) → T.desk result seat ≡ desk_in T.empty_desk (places_of pass.knows) seat }
    {
        let Turnstile { table } = self;
        let Pass {
            numbers: _,
            seen_len: _,
            token,
        } = pass;
        let mut closed = table.close_with(token);
        let slot = closed.take(0);
        closed.free();
        filled(slot)
    }
}
