//! Seats that sign a roll, side by side.
ghost use Rattle.std.specs.Prelude.{◌≡◌, ℕ, ◌+◌, [], ◌∷◌, ◌++◌, OnOk, IfOk};
ghost use Rattle.ve_turn.specs.Journal.{entries_of};
ghost use Rattle.ve_turn_uses.specs.Signing.{HasSigned, HasSignedOnce, zeros};

use crate::roll::Roll;
use std::alloc::Global;
use std::sync::Wait;
use std::thread::{Threads, join};
use ve_turn::{Pass, Turnstile};
use ve_word::Memory;

/// Takes one turn and signs.
pub fn sign<R: Wait>(
    rt: &R,
    turnstile: &Turnstile<Roll>,
    pass: Pass<Roll>,
) -> (Pass<Roll>, Result<(), Memory>)
    requires { pass.turnstile ≡ turnstile.now }
    ensures turnstile { result.0.turnstile ≡ turnstile.now }
    ensures signed { OnOk result.1 (HasSignedOnce turnstile.now pass.knows result.0) }
{
    let seat = pass.seat();
    let mut turn = turnstile.enter(rt, pass);
    let signed = turn.value_mut().sign(seat);
    (turnstile.leave(turn), signed)
}

/// Signs, and where `again` twice more.
pub fn sign_all<R: Wait>(
    rt: &R,
    turnstile: &Turnstile<Roll>,
    pass: Pass<Roll>,
    again: bool,
) -> Result<Pass<Roll>, Memory>
    requires { (pass.turnstile ≡ turnstile.now) × (pass.knows.seat ≡ 0) × (pass.knows.own ≡ []) }
    ensures { IfOk result (HasSigned turnstile.now pass.knows (zeros again)) }
{
    let (mut pass, mut signed) = sign(rt, turnstile, pass);
    signed?;
    if again {
        (pass, signed) = sign(rt, turnstile, pass);
        signed?;
        (pass, signed) = sign(rt, turnstile, pass);
        signed?;
    }
    Ok(pass)
}

// Takes one turn and signs, and gives the pass back where that went well.
fn sign_once<R: Wait>(
    rt: &R,
    turnstile: &Turnstile<Roll>,
    pass: Pass<Roll>,
) -> Result<Pass<Roll>, Memory>
    requires { pass.turnstile ≡ turnstile.now }
    ensures { IfOk result (HasSignedOnce turnstile.now pass.knows) }
{
    let (pass, signed) = sign(rt, turnstile, pass);
    signed?;
    Ok(pass)
}

/// Two seats sign side by side, once each.
pub fn both_sign<R: Threads + Wait + Sync>(
    rt: &R,
    turnstile: &Turnstile<Roll>,
    one: Pass<Roll>,
    other: Pass<Roll>,
) -> (Result<Pass<Roll>, Memory>, Result<Pass<Roll>, Memory>)
    requires { (one.turnstile ≡ turnstile.now) × (other.turnstile ≡ turnstile.now) }
    ensures one { IfOk result.0 (HasSignedOnce turnstile.now one.knows) }
    ensures other { IfOk result.1 (HasSignedOnce turnstile.now other.knows) }
{
    join(
        rt,
        move ||
            requires { one.turnstile ≡ turnstile.now }
            ensures { IfOk result (HasSignedOnce turnstile.entry.now one.knows) }
        { sign_once(rt, turnstile, one) },
        move ||
            requires { other.turnstile ≡ turnstile.now }
            ensures { IfOk result (HasSignedOnce turnstile.entry.now other.knows) }
        { sign_once(rt, turnstile, other) },
    )
}

/// The roll, once the passes of all seats are back.
pub fn close_both(turnstile: Turnstile<Roll>, first: Pass<Roll>, second: Pass<Roll>) -> Roll
    requires turnstile { (first.turnstile ≡ turnstile) × (second.turnstile ≡ turnstile) }
    requires all { first.knows.left + second.knows.left + 2 ≡ first.knows.seats }
    ensures { (seat : ℕ) → entries_of (λ e. e) seat result ≡ entries_of (λ e. e) seat (first.knows.own ++ second.knows.own) }
{
    let both = turnstile.meet(first, second);
    turnstile.close(both)
}

/// Three seats sign side by side, seat 0 three times where `again`. The roll has the entries of each and no others.
pub fn three_sign<R: Threads + Wait + Sync>(
    rt: &R,
    alloc: Global,
    again: bool,
) -> Result<Roll, Memory>
    ensures { IfOk result (λ roll. (entries_of (λ e. e) 0 roll ≡ zeros again) × (entries_of (λ e. e) 1 roll ≡ 1 ∷ []) × (entries_of (λ e. e) 2 roll ≡ 2 ∷ [])) }
{
    let roll = Roll::with_room(alloc, 5)?;
    let Ok((turnstile, first)) = Turnstile::open(alloc, roll, 3) else {
        return Err(Memory);
    };
    let (first, second) = turnstile.split(first);
    let (first, third) = turnstile.split(first);
    let shared = &turnstile;
    let (first, (second, third)) = join(
        rt,
        move ||
            requires { (first.turnstile ≡ shared.now) × (first.knows.seat ≡ 0) × (first.knows.own ≡ []) }
            ensures { IfOk result (HasSigned shared.entry.now first.knows (zeros again)) }
        { sign_all(rt, shared, first, again) },
        move ||
            requires { (second.turnstile ≡ shared.now) × (third.turnstile ≡ shared.now) }
            ensures second { IfOk result.0 (HasSignedOnce shared.entry.now second.knows) }
            ensures third { IfOk result.1 (HasSignedOnce shared.entry.now third.knows) }
        { both_sign(rt, shared, second, third) },
    );
    let all = turnstile.meet(turnstile.meet(first?, second?), third?);
    Ok(turnstile.close(all))
}
