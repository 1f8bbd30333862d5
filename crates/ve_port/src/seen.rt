ghost use Rattle.std.specs.Prelude.{◌≡◌, ℕ, [], ◌++◌, List};
ghost use base.Fml.{ftrue};

use std::marker::Model;

/// Bytes that contracts alone see, and that take no memory.
#[derive(Drop)]
pub struct Seen {
    marker: (),
    pub ghost bytes: { List ℕ },
}

impl Model for Seen {
    ghost also_owns = { λ _. ftrue };
}

/// No bytes.
pub fn none_seen() -> Seen
    ensures { result.bytes ≡ [] }
{
    Seen { marker: () }
}

/// The bytes that were seen before, and then `piece`.
pub fn seen_after(before: &Seen, piece: &[u8]) -> Seen
    ensures { result.bytes ≡ before.now.bytes ++ piece.now }
{
    let _ = before;
    let _ = piece;
    Seen { marker: () }
}
