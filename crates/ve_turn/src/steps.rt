//! The steps of a seat on the table.
ghost use Rattle.std.specs.Prelude.{◌≡◌, List, [], ◌∷◌, MatchBool};
ghost use Rattle.ve_turn.specs.declared.view.Knowledge.{Knowledge};
ghost use Rattle.ve_turn.specs.declared.view.View.TheVariants.{Outside, Waiting, Inside, Meeting};
ghost use Rattle.ve_turn.specs.Knows.{after_turn};
ghost use Rattle.ve_turn.specs.Places.{IsFor};
ghost use Rattle.ve_turn.specs.Steps.{HasEntered, Settles, unsettled};

use crate::journaled::Journaled;
use crate::plays::{Draw, Glue, Look, MoveOn, Settle};
use crate::view::{SharedTable, Token};
use std::hint::spin_loop;
use std::sync::Wait;
use std::thread::yield_now;

const TICKETS: usize = 0;

const SERVING: usize = 1;

const SPINS: u64 = 64;

const YIELDS: u64 = 16;

// Draws a ticket.
pub(crate) fn draw<T: Journaled>(shared: &SharedTable<T>, token: &mut Token<T>) -> u64
    requires table { IsFor shared.now.table_id token.old }
    requires outside { (k : Knowledge T T.Opening T.Entry T.Desk) × (token.old.me ≡ (Outside k, [])) }
    ensures table { token.new.table_id ≡ token.old.table_id }
    ensures waits { (k : Knowledge T T.Opening T.Entry T.Desk) → token.old.me ≡ (Outside k, []) → token.new.me ≡ (Waiting result k, []) }
{
    shared.fetch_add::<Draw>(token, TICKETS, 1)
}

// Looks whether the ticket is served. Then the slot is the seat's.
fn look<T: Journaled>(shared: &SharedTable<T>, token: &mut Token<T>, ticket: u64) -> bool
    requires table { IsFor shared.now.table_id token.old }
    requires waits { (k : Knowledge T T.Opening T.Entry T.Desk) × (token.old.me ≡ (Waiting ticket k, [])) }
    ensures table { token.new.table_id ≡ token.old.table_id }
    ensures outcome { (k : Knowledge T T.Opening T.Entry T.Desk) → token.old.me ≡ (Waiting ticket k, []) → MatchBool result (HasEntered T.Journaled k token.new.me) (token.new.me ≡ token.old.me) }
{
    shared.load::<Look>(token, SERVING) == ticket
}

// Waits until the ticket is served. Turns are short, so it looks again at once, then gives the processor away, and only then sleeps.
pub(crate) fn wait<T: Journaled, R: Wait>(
    rt: &R,
    shared: &SharedTable<T>,
    token: &mut Token<T>,
    ticket: u64,
)
    requires table { IsFor shared.now.table_id token.old }
    requires waits { (k : Knowledge T T.Opening T.Entry T.Desk) × (token.old.me ≡ (Waiting ticket k, [])) }
    ensures table { token.new.table_id ≡ token.old.table_id }
    ensures inside { (k : Knowledge T T.Opening T.Entry T.Desk) → token.old.me ≡ (Waiting ticket k, []) → HasEntered T.Journaled k token.new.me }
{
    for _ in 0..SPINS {
        if look(shared, token, ticket) {
            return;
        }
        spin_loop();
    }
    for _ in 0..YIELDS {
        if look(shared, token, ticket) {
            return;
        }
        yield_now();
    }
    for _ in rt.forever() {
        if look(shared, token, ticket) {
            return;
        }
        rest(rt, shared, ticket);
    }
    unreachable!()
}

// Sleeps until a turn ends, unless the ticket is served by now.
fn rest<T: Journaled, R: Wait>(rt: &R, shared: &SharedTable<T>, ticket: u64)
    requires { shared.now.table_id.words ≡ 2 }
{
    let serving = shared.peek(SERVING);
    if serving != ticket {
        shared.park(rt, SERVING, (serving % (1 << 32)) as u32);
    }
}

// Takes the value out of the slot.
pub(crate) fn lift<T: Journaled>(shared: &SharedTable<T>, token: &mut Token<T>) -> T
    requires table { IsFor shared.now.table_id token.old }
    requires inside { (k : Knowledge T T.Opening T.Entry T.Desk) × (x : T) × (token.old.me ≡ (Inside x k, (0, Some x) ∷ [])) }
    ensures table { token.new.table_id ≡ token.old.table_id }
    ensures lifted { (k : Knowledge T T.Opening T.Entry T.Desk) (x : T) → token.old.me ≡ (Inside x k, (0, Some x) ∷ []) → (token.new.me ≡ (Inside x k, (0, None) ∷ [])) × (result ≡ x) }
{
    match shared.exchange(token, 0, None) {
        Some(value) => value,
        None => unreachable!(),
    }
}

// Lays a value back into the slot.
pub(crate) fn lay_back<T: Journaled>(shared: &SharedTable<T>, token: &mut Token<T>, value: T)
    requires table { IsFor shared.now.table_id token.old }
    requires inside { (k : Knowledge T T.Opening T.Entry T.Desk) × (met : T) × (token.old.me ≡ (Inside met k, (0, None) ∷ [])) }
    ensures table { token.new.table_id ≡ token.old.table_id }
    ensures laid { (k : Knowledge T T.Opening T.Entry T.Desk) (met : T) → token.old.me ≡ (Inside met k, (0, None) ∷ []) → token.new.me ≡ (Inside met k, (0, Some value) ∷ []) }
{
    match shared.exchange(token, 0, Some(value)) {
        None => (),
        Some(_) => unreachable!(),
    }
}

// Lets the next ticket be served.
pub(crate) fn move_on<T: Journaled>(shared: &SharedTable<T>, token: &mut Token<T>)
    requires table { IsFor shared.now.table_id token.old }
    requires moves { (k : Knowledge T T.Opening T.Entry T.Desk) × (met : T) × (x : T) × (token.old.me ≡ (Inside met k, (0, Some x) ∷ [])) × T.moves k.seat met x }
    ensures table { token.new.table_id ≡ token.old.table_id }
    ensures outside { (k : Knowledge T T.Opening T.Entry T.Desk) (met x : T) → token.old.me ≡ (Inside met k, (0, Some x) ∷ []) → token.new.me ≡ (Outside (after_turn T.Journaled met x k), []) }
{
    let served = shared.fetch_add::<MoveOn>(token, SERVING, 1);
    // A seat that draws after this look finds the new number, so it needs no call.
    if shared.peek(TICKETS) != served.wrapping_add(1) {
        shared.wake_all(SERVING);
    }
}

// Joins the second view into the first.
pub(crate) fn join<T: Journaled>(shared: &SharedTable<T>, token: &mut Token<T>, other: Token<T>)
    requires table { IsFor shared.now.table_id token.old × (other.table_id ≡ shared.now.table_id) }
    requires outside { (a : Knowledge T T.Opening T.Entry T.Desk) × (b : Knowledge T T.Opening T.Entry T.Desk) × (token.old.me ≡ (Outside a, [])) × (other.me ≡ (Outside b, [])) }
    ensures table { token.new.table_id ≡ token.old.table_id }
    ensures meeting { (a b : Knowledge T T.Opening T.Entry T.Desk) → token.old.me ≡ (Outside a, []) → other.me ≡ (Outside b, []) → token.new.me ≡ (Meeting b.seen (unsettled a b), []) }
{
    shared.join_seat::<Glue>(token, other);
}

// Learns which of two journals is the longer one.
pub(crate) fn settle<T: Journaled>(shared: &SharedTable<T>, token: &mut Token<T>)
    requires table { IsFor shared.now.table_id token.old }
    requires meeting { (seen : List T.Entry) × (k : Knowledge T T.Opening T.Entry T.Desk) × (token.old.me ≡ (Meeting seen k, [])) }
    ensures table { token.new.table_id ≡ token.old.table_id }
    ensures outside { (seen : List T.Entry) (k : Knowledge T T.Opening T.Entry T.Desk) → token.old.me ≡ (Meeting seen k, []) → Settles seen k token.new.me }
{
    shared.load::<Settle>(token, SERVING);
}
