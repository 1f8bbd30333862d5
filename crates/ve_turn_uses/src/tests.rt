use crate::{Roll, three_sign};
use std::test::Fail;
use ve_turn::Turnstile;

#[test]
fn three_seats_meet(rt: HostRuntime) -> Result<(), Fail> {
    for (again, want) in [(false, [1, 1, 1]), (true, [3, 1, 1])] {
        let roll = three_sign(&rt, rt.alloc(), again)?;
        let count = |seat: u32| roll.seats().iter().filter(|s| **s == seat).count();
        assert_eq!(rt; [count(0), count(1), count(2)], want, "again: {again}");
        assert_eq!(rt; roll.seats().len(), if again { 5 } else { 3 });
    }
    Ok(())
}

#[test]
fn two_seats_one_board(rt: HostRuntime) -> Result<(), Fail> {
    let roll = Roll::with_room(rt.alloc(), 0)?;
    let Ok((turnstile, pass)) = Turnstile::open(rt.alloc(), roll, 2) else {
        panic!(rt; "no memory")
    };
    assert_eq!(rt; (pass.seat(), pass.left(), pass.seen_len()), (0, 1, 0));
    let (first, second) = turnstile.split(pass);
    assert_eq!(rt;
        (first.seat(), first.left(), second.seat(), second.left()),
        (0, 0, 1, 0)
    );
    let first = turnstile.leave(turnstile.enter(&rt, first));
    let second = turnstile.leave(turnstile.enter(&rt, second));
    let both = turnstile.meet(first, second);
    assert_eq!(rt; (both.seat(), both.left(), both.seen_len()), (0, 1, 0));
    let roll = turnstile.close(both);
    assert!(rt; roll.seats().is_empty());
    Ok(())
}
